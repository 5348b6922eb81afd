// The posts of the load's sessions: each has a door that gives one link, which says what its session sends.
ghost use Rattle.std.specs.Prelude.{◌≡◌, All, length, IfOk};
ghost use Rattle.reql_outside.specs.Source.{source};
ghost use Rattle.reql_net.specs.Nets.{IsUntouched, IsSound};

use reql_load::script;
use reql_memory::Memory;
use reql_net::{MemDoor, Post};
use reql_outside::{LinkStep, MemClock, MemDice, MemLink};
use std::alloc::Global;

/// What a session of the load is served by.
pub(crate) type LoadPost = Post<MemDoor, MemDice, MemClock>;

/// Four sessions write, and the fifth makes their index.
pub(crate) const SESSIONS: u32 = 5;

// A post to which one client comes, who sends these bytes.
fn post(alloc: Global, sends: Vec<u8>) -> Result<LoadPost, Memory>
    ensures untouched { IfOk result (IsUntouched (λ d. d.told)) }
    ensures sound { IfOk result (IsSound source source) }
{
    let mut steps = Vec::new(alloc);
    steps.push(LinkStep::Give(sends))?;
    let mut links = Vec::new(alloc);
    links.push(MemLink::new(alloc, steps, Vec::new(alloc)))?;
    Ok(Post {
        door: MemDoor::new(links, Vec::new(alloc)),
        dice: MemDice::new(Vec::new(alloc), Vec::new(alloc)),
        clock: MemClock::new(Vec::new(alloc), Vec::new(alloc)),
    })
}

/// A post for each session.
pub(crate) fn posts(alloc: Global, seed: u32, size: u32) -> Result<Vec<LoadPost>, Memory>
    ensures count { IfOk result (λ posts. length posts.items ≡ 5) }
    ensures untouched { IfOk result (λ posts. All (IsUntouched (λ d. d.told)) posts.items) }
    ensures sound { IfOk result (λ posts. All (IsSound source source) posts.items) }
{
    let mut posts = Vec::new(alloc);
    for session in 0..SESSIONS {
        let sends = script(alloc, seed, size, session)?;
        posts.push(post(alloc, sends)?)?;
    }
    Ok(posts)
}
