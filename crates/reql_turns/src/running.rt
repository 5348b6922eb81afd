// A session that is made turn by turn, so that a thread may make the turns of others between.
ghost use Rattle.std.specs.Prelude.{◌≡◌, ◌+◌, IfSome, None, length};
ghost use Rattle.reql_outside.specs.Tape.{IsFresh};
ghost use Rattle.reql_session_spec.specs.Books.{no_books};
ghost use Rattle.reql_session_spec.specs.Tasks.{Talk};
ghost use Rattle.reql_session_api.specs.World.{AtWork, IsServed};
ghost use Rattle.reql_turns.specs.Running.{EndsSo, GoesOn, HasEnded, IsOn, IsPrepared, StepsFrom};

use crate::ears::{Ears, Phase};
use crate::handler::Handler;
use crate::served::Served;
use crate::turn::turn;
use reql_outside::Link;
use reql_session_spec::End;
use reql_wire::{Feeder, Greeter};
use std::alloc::Global;

/// Each receive has room for so many bytes.
const RECEIVED_BYTES: usize = 65536;

/// What a session hears with, before its link is there.
#[derive(Drop)]
pub struct Prepared {
    ears: Ears,
}

/// A session over a link, between two of its turns.
#[derive(Drop)]
pub struct Running<L> {
    pub link: L,
    ears: Ears,
    /// How many turns are over.
    pub turns: u64,
}

/// Room for what one receive gives, which all sessions of a thread share. It is none where memory is wanted.
pub fn received_room(alloc: Global) -> Option<Vec<u8>>
    ensures room { IfSome result (λ r. length r.items ≡ 65536) }
{
    vec![in alloc; 0u8; RECEIVED_BYTES].ok()
}

/// What a session hears with that this handles. It is none where memory is wanted.
pub fn prepare<H: Handler<L>, L: Link>(alloc: Global, handler: &H) -> Option<Prepared>
    ensures prepared { IfSome result (λ p. IsPrepared (H.talk handler.now) p) }
{
    let greeter = Greeter::new(alloc, handler.key()).ok()?;
    let ears = Ears {
        greeter,
        feeder: Feeder::new(alloc, handler.limits().frame),
        phase: Phase::Waiting,
        proving: None,
    };
    Some(Prepared { ears })
}

/// Begins a session over a fresh link. No turn of it is over.
pub fn begin<H: Handler<L>, L: Link>(prepared: Prepared, link: L) -> Running<L>
    requires fresh { IsFresh (L.tape link) }
    ensures link { result.link ≡ link }
    ensures turns { result.turns ≡ 0 }
    ensures on { (k : Talk H.Plan) (w : AtWork) → IsPrepared k prepared → w.books ≡ no_books
        → IsOn k L.tape w w result }
{
    Running {
        link,
        ears: prepared.ears,
        turns: 0,
    }
}

/// Makes one turn, or none where all turns are used up, with which the session ends. At an end all that is open is still to
/// be closed. What handles frames stays ready.
pub fn step<H: Handler<L>, L: Link>(
    alloc: Global,
    running: &mut Running<L>,
    handler: &mut H,
    buf: &mut [u8],
) -> Option<End>
    requires room { length buf.old ≡ 65536 }
    requires ready { H.ready handler.old }
    requires on { GoesOn (H.talk handler.old) L.tape (H.work handler.old) running.old }
    ensures ready { H.ready handler.new }
    ensures hall { H.hall handler.new ≡ H.hall handler.old }
    ensures talk { H.talk handler.new ≡ H.talk handler.old }
    ensures counted { result ≡ None → running.new.turns ≡ running.old.turns + 1 }
    ensures steps { StepsFrom (H.talk handler.old) L.tape (H.work handler.old) running.old
        (H.work handler.new) running.new result }
{
    if running.turns >= handler.limits().turns {
        return Some(End::Worn);
    }
    running.turns += 1;
    turn(alloc, &mut running.link, &mut running.ears, handler, buf)
}

/// Ends a session over its link that has ended so, after so many turns: what is open is closed, and the link is done with.
pub(crate) fn part<H: Handler<L>, L: Link>(
    link: L,
    handler: &mut H,
    end: End,
    turns: u64,
) -> Served<L::Record>
    requires ready { H.ready handler.old }
    ensures ready { H.ready handler.new }
    ensures hall { H.hall handler.new ≡ H.hall handler.old }
    ensures served { (start : AtWork) → EndsSo (H.talk handler.old) start (H.work handler.old)
        (L.tape link) end turns → IsServed (H.talk handler.old) start (H.work handler.new) (L.kept result.tape)
        result.end result.turns }
{
    handler.leave();
    let tape = link.finish();
    Served { end, tape, turns }
}

/// Ends a session that has ended so: what is open is closed, and its link is done with. What handles frames stays ready.
pub fn finish<H: Handler<L>, L: Link>(
    running: Running<L>,
    handler: &mut H,
    end: End,
) -> Served<L::Record>
    requires ready { H.ready handler.old }
    ensures ready { H.ready handler.new }
    ensures hall { H.hall handler.new ≡ H.hall handler.old }
    ensures served { (start : AtWork) → HasEnded (H.talk handler.old) L.tape start (H.work handler.old)
        running end → IsServed (H.talk handler.old) start (H.work handler.new) (L.kept result.tape) result.end
        result.turns }
{
    part(running.link, handler, end, running.turns)
}
