// Doors and nets in memory, which hand out their lists.
ghost use Rattle.std.specs.Prelude.{◌≡◌, length, true, get_or, drop, IfOk, IfErr, OnErr};
ghost use Rattle.std.specs.List.{All};
ghost use Rattle.reql_outside.specs.Source.{source, first};
ghost use Rattle.reql_outside.specs.Tape.{IsFresh};
ghost use Rattle.reql_net.specs.Doors.{opening, Opens, Hands};
ghost use Rattle.reql_net.specs.Nets.{IsUntouched, IsSound, asks, Counts};
ghost use Rattle.reql_net.specs.Posts.{blank_post, stocked, HandsOut, HandsNone};

use crate::asked::Asked;
use crate::door::{Accept, Door};
use crate::net::{Net, NetFault, Post};
use crate::watch::Rounds;
use reql_memory::Memory;
use reql_outside::{MemClock, MemDice, MemLink};
use std::alloc::Global;
use std::marker::Model;
use std::snapshot::Snapshot;

/// A door in memory, which gives the links of a list in order, and then `End`, for good.
#[derive(Drop)]
pub struct MemDoor {
    links: Vec<MemLink>,
    gave: u64,
    over: bool,
    broken: bool,
    calls: u64,
    fails: Vec<u64>,
    faults: u64,
}

impl Model for MemDoor {
    ghost use Rattle.std.specs.List.{All};
    ghost use Rattle.reql_outside.specs.Tape.{IsFresh};
    ghost use Rattle.reql_net.specs.Doors.{Listed};

    ghost Value = { Listed };

    ghost view = { λ d. record {
      told = record { gave = d.gave; over = d.over; broken = d.broken; faults = d.faults };
      links = d.links.items;
      calls = d.calls;
      fails = d.fails.items;
    } };

    ghost invariant = { λ d. All (λ l. IsFresh l.tape) d.links.items };
}

impl MemDoor {
    /// A door that gives these, which are fresh; the k-th call, from 0, fails where k is in the list. It
    /// takes no memory.
    pub fn new(links: Vec<MemLink>, fails: Vec<u64>) -> MemDoor
        requires { All (λ l. IsFresh l.tape) links.items }
        ensures { result ≡ opening links.items fails.items }
    {
        MemDoor {
            links,
            gave: 0,
            over: false,
            broken: false,
            calls: 0,
            fails,
            faults: 0,
        }
    }
}

impl Door for MemDoor {
    type Link = MemLink;

    type Watch = Rounds;

    ghost told = { λ d. d.told };

    fn watch(&self, _alloc: Global, _places: usize) -> Option<Rounds> {
        Some(Rounds::new())
    }

    fn accept(&mut self) -> Accept<MemLink>
        ensures told { Opens (λ l. l.tape) self.old.told self.new.told result }
        ensures hands { Hands self.old self.new result }
    {
        let fails = self.fails.contains(&self.calls);
        self.calls = self.calls.saturating_add(1);
        if fails {
            self.over = true;
            self.broken = true;
            self.faults = self.faults.saturating_add(1);
            return Accept::Failed;
        }
        if self.links.is_empty() {
            self.over = true;
            return Accept::End;
        }
        self.gave = self.gave.saturating_add(1);
        Accept::Link(self.links.remove(0))
    }
}

/// A net in memory, which hands out posts of a list in order, and then posts of empty lists.
#[derive(Drop)]
pub struct MemNet {
    // the list that it was made of, as clauses see it: it takes no memory
    made_of: Snapshot<Vec<Post<MemDoor, MemDice, MemClock>>>,
    posts: Vec<Post<MemDoor, MemDice, MemClock>>,
    calls: u64,
    fails: Vec<u64>,
    told: Asked,
}

impl Model for MemNet {
    ghost use Rattle.std.specs.Prelude.{◌≡◌, true};
    ghost use Rattle.std.specs.List.{All};
    ghost use Rattle.reql_net.specs.Nets.{IsUntouched, told_of};
    ghost use Rattle.reql_net.specs.Posts.{PostsListed, all_sound};

    ghost Value = { PostsListed };

    ghost view = { λ n. record {
      told = told_of n.told (all_sound n.made_of.value.items);
      posts = n.posts.items;
      calls = n.calls;
      fails = n.fails.items;
    } };

    ghost invariant = { λ n.
        All (IsUntouched (λ d. d.told)) n.posts.items
        × (all_sound n.made_of.value.items ≡ true → all_sound n.posts.items ≡ true) };
}

impl MemNet {
    /// A net that gives these, whose doors have given nothing; the k-th call, from 0, fails where k
    /// is in the list. It is sound exactly where the dice and the clock of each of these are. It
    /// takes no memory.
    pub fn new(posts: Vec<Post<MemDoor, MemDice, MemClock>>, fails: Vec<u64>) -> MemNet
        requires { All (IsUntouched (λ d. d.told)) posts.items }
        ensures { result ≡ stocked posts.items fails.items }
    {
        MemNet {
            made_of: Snapshot::of(&posts),
            posts,
            calls: 0,
            fails,
            told: Asked::new(),
        }
    }
}

// A post of empty lists.
fn blank(alloc: Global) -> Post<MemDoor, MemDice, MemClock>
    ensures { result ≡ blank_post }
{
    Post {
        door: MemDoor::new(Vec::new(alloc), Vec::new(alloc)),
        dice: MemDice::new(Vec::new(alloc), Vec::new(alloc)),
        clock: MemClock::new(Vec::new(alloc), Vec::new(alloc)),
    }
}

// The next post of a list, or one of empty lists past its end.
fn next_post(
    alloc: Global,
    posts: &mut Vec<Post<MemDoor, MemDice, MemClock>>,
) -> Post<MemDoor, MemDice, MemClock>
    ensures given { result ≡ get_or posts.old.items 0 blank_post }
    ensures left { posts.new.items ≡ drop 1 posts.old.items }
{
    if posts.is_empty() {
        return blank(alloc);
    }
    posts.remove(0)
}

// So many posts of a list.
fn next_posts(
    alloc: Global,
    posts: &mut Vec<Post<MemDoor, MemDice, MemClock>>,
    n: u32,
) -> Result<Vec<Post<MemDoor, MemDice, MemClock>>, Memory>
    ensures given { IfOk result (λ given. given.items ≡ first posts.old.items blank_post n) }
    ensures left { IfOk result (λ _. posts.new.items ≡ drop n posts.old.items) }
    ensures same { OnErr result (posts.new.items ≡ posts.old.items) }
{
    let mut given = Vec::with_capacity(alloc, n as usize)?;
    for _ in 0..n {
        let post = next_post(alloc, posts);
        given.push_reserved(post);
    }
    Ok(given)
}

impl Net for MemNet {
    type Door = MemDoor;

    type Dice = MemDice;

    type Clock = MemClock;

    ghost told = { λ n. n.told };

    fn doors(
        &mut self,
        alloc: Global,
        port: u16,
        n: u32,
    ) -> Result<Vec<Post<MemDoor, MemDice, MemClock>>, NetFault>
        ensures count { IfOk result (λ posts. length posts.items ≡ n) }
        ensures untouched { IfOk result (λ posts. All (IsUntouched (λ d. d.told)) posts.items) }
        ensures sound { IfOk result (λ posts. self.old.told.sound ≡ true → All (IsSound source source) posts.items) }
        ensures asked { IfOk result (λ posts. self.new.told ≡ asks self.old.told port n n 0) }
        ensures failed { IfErr result (Counts self.old.told self.new.told port n) }
        ensures hands { IfOk result (λ posts. HandsOut self.old self.new n posts.items) }
        ensures none { IfErr result (HandsNone self.old self.new) }
    {
        let fails = self.fails.contains(&self.calls);
        self.calls = self.calls.saturating_add(1);
        self.told.ask(port, n);
        if fails {
            self.told.fail();
            return Err(NetFault::Failed);
        }
        let Ok(given) = next_posts(alloc, &mut self.posts, n) else {
            return Err(NetFault::Memory);
        };
        self.told.give(n);
        Ok(given)
    }
}
