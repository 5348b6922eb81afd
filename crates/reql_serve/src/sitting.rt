// A session that sits at a desk with its link, and how it comes there, whatever handles its frames.
ghost use Rattle.std.specs.Prelude.{◌≡◌, length};
ghost use Rattle.reql_turns.specs.Running.{GoesOn, StepsFrom};
ghost use Rattle.reql_serve.specs.Seats.{Receives};

use crate::worker::WorkState;
use reql_net::{Accept, Door, Watch};
use reql_outside::Link;
use reql_session_spec::End;
use reql_turns::{Handler, Running, begin, prepare, step};
use std::alloc::Global;

/// A session over a link, between two of its turns, with what handles its frames.
#[derive(Drop)]
pub(crate) struct Sitting<H, L> {
    pub(crate) handler: H,
    pub(crate) running: Running<L>,
}

/// What comes of asking a door for a client.
#[derive(Drop)]
pub(crate) enum Received<L> {
    /// The session of a client begins.
    Client(Running<L>),
    /// No client is there now.
    Nobody,
    /// No more clients are taken, and why.
    Over(WorkState),
}

/// Asks a door for a client, whose frames this handles. All that its session hears with is there before.
pub(crate) fn receive<H: Handler<G::Link>, G: Door>(
    alloc: Global,
    door: &mut G,
    handler: &H,
) -> Received<G::Link>
    ensures { Receives (H.talk handler.now) G.Link.tape (H.work handler.now) (G.told door.old) (G.told door.new) result }
{
    let Some(prepared) = prepare::<H, G::Link>(alloc, handler) else {
        return Received::Over(WorkState::Memory);
    };
    match door.accept() {
        Accept::Link(link) => Received::Client(begin::<H, G::Link>(prepared, link)),
        Accept::Idle => Received::Nobody,
        Accept::End => Received::Over(WorkState::Over),
        Accept::Failed => Received::Over(WorkState::Failed),
    }
}

/// One turn of the session at a place, where its watch says that there may be something to do. Why the session ended, if it
/// did: what is open is still to be closed then.
pub(crate) fn tend<H: Handler<G::Link>, G: Door>(
    alloc: Global,
    watch: &mut G::Watch,
    place: usize,
    handler: &mut H,
    running: &mut Running<G::Link>,
    buf: &mut [u8],
) -> Option<End>
    requires room { length buf.old ≡ 65536 }
    requires ready { H.ready handler.old }
    requires on { GoesOn (H.talk handler.old) G.Link.tape (H.work handler.old) running.old }
    ensures ready { H.ready handler.new }
    ensures hall { H.hall handler.new ≡ H.hall handler.old }
    ensures talk { H.talk handler.new ≡ H.talk handler.old }
    ensures steps { StepsFrom (H.talk handler.old) G.Link.tape (H.work handler.old) running.old
        (H.work handler.new) running.new result }
{
    if !watch.wakes(place, &mut running.link) {
        return None;
    }
    if let Some(end) = step(alloc, running, handler, buf) {
        return Some(end);
    }
    watch.rests(place, &running.link);
    None
}
