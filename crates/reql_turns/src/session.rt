// A whole session.
ghost use Rattle.std.specs.Prelude.{◌≡◌, length};
ghost use Rattle.reql_outside.specs.Tape.{IsFresh};
ghost use Rattle.reql_session_spec.specs.Books.{no_books};
ghost use Rattle.reql_session_api.specs.World.{AtWork, IsServed};
ghost use Rattle.reql_turns.specs.Running.{EndsFrom, GoesOn};

use crate::handler::Handler;
use crate::running::{Running, begin, finish, part, prepare, received_room, step};
use crate::served::Served;
use reql_outside::Link;
use reql_session_spec::End;
use std::alloc::Global;

// Makes all turns up to an end, at which all that is open is still to be closed. What handles frames stays ready.
fn converse<H: Handler<L>, L: Link>(
    alloc: Global,
    running: &mut Running<L>,
    handler: &mut H,
    buf: &mut [u8],
    turns: u64,
) -> End
    requires room { length buf.old ≡ 65536 }
    requires ready { H.ready handler.old }
    requires first { running.old.turns ≡ 0 }
    requires most { turns ≡ (H.talk handler.old).limits.turns }
    requires on { GoesOn (H.talk handler.old) L.tape (H.work handler.old) running.old }
    ensures ready { H.ready handler.new }
    ensures hall { H.hall handler.new ≡ H.hall handler.old }
    ensures talk { H.talk handler.new ≡ H.talk handler.old }
    ensures ends { EndsFrom (H.talk handler.old) L.tape (H.work handler.old) running.old
        (H.work handler.new) running.new result }
{
    for _ in 0..turns {
        if let Some(end) = step(alloc, running, handler, buf) {
            return end;
        }
    }
    End::Worn
}

/// Serves a session over a link, to its end: what was said and heard, and all that was done at the desk, is explained by the
/// session machine. The link is fresh, what handles frames is ready and stays so at the desk of its hall, and nothing is open yet.
pub fn serve_session<H: Handler<L>, L: Link>(
    alloc: Global,
    link: L,
    handler: &mut H,
) -> Served<L::Record>
    requires fresh { IsFresh (L.tape link) }
    requires ready { H.ready handler.old }
    requires books { (H.work handler.old).books ≡ no_books }
    ensures ready { H.ready handler.new }
    ensures hall { H.hall handler.new ≡ H.hall handler.old }
    ensures served { IsServed (H.talk handler.old) (H.work handler.old) (H.work handler.new)
        (L.kept result.tape) result.end result.turns }
{
    let Some(prepared) = prepare::<H, L>(alloc, handler) else {
        return part(link, handler, End::Memory, 0);
    };
    let Some(mut buf) = received_room(alloc) else {
        return part(link, handler, End::Memory, 0);
    };
    let turns = handler.limits().turns;
    let mut running = begin::<H, L>(prepared, link);
    let end = converse(alloc, &mut running, handler, &mut buf, turns);
    finish(running, handler, end)
}
