// One turn of a session.
ghost use Rattle.std.specs.Prelude.{◌≡◌, [], length};
ghost use Rattle.reql_session_spec.specs.Logins.{Admitted};
ghost use Rattle.reql_session_spec.specs.Session.{Rest, Visits};
ghost use Rattle.reql_session_api.specs.World.{Outcome, world_at};
ghost use Rattle.reql_turns.specs.Ears.{IsHearing, ReceivesMore, TurnFrom};

use crate::ears::{Ears, Phase};
use crate::greeting::{accept, hear_more, refuse};
use crate::handler::Handler;
use crate::login::{call, exchange};
use crate::receiving::receive_more;
use reql_outside::{Expected, Link};
use reql_session_spec::End;
use reql_wire::{Feeder, WireFault};
use std::alloc::Global;

// Receives once, where no whole frame is held, and tells the link whether one has begun.
fn receive_frame<L: Link>(link: &mut L, feeder: &mut Feeder, buf: &mut [u8]) -> Option<End>
    requires room { length buf.old ≡ 65536 }
    ensures receives { ReceivesMore (L.tape link.old) (L.tape link.new) feeder.old.held feeder.new.held result }
    ensures limit { feeder.new.limit ≡ feeder.old.limit }
{
    if feeder.held() == 0 {
        link.expects(Expected::Frame);
    } else {
        link.expects(Expected::Rest);
    }
    receive_more(link, feeder, buf)
}

// What a turn does after its visits, where the greeting was answered: a frame is handled where a whole one is held,
// and else something is received. What handles frames stays ready.
fn go_on<H: Handler<L>, L: Link>(
    link: &mut L,
    feeder: &mut Feeder,
    handler: &mut H,
    buf: &mut [u8],
) -> Option<End>
    requires room { length buf.old ≡ 65536 }
    requires ready { H.ready handler.old }
    ensures ready { H.ready handler.new }
    ensures hall { H.hall handler.new ≡ H.hall handler.old }
    ensures talk { H.talk handler.new ≡ H.talk handler.old }
    ensures limit { feeder.new.limit ≡ feeder.old.limit }
    ensures goes { feeder.old.limit ≡ (H.talk handler.old).limits.frame → Outcome (H.talk handler.old)
        (world_at (L.tape link.old) (H.work handler.old) feeder.old.held Admitted (Visits []))
        (L.tape link.new) (H.work handler.new) feeder.new.held Admitted Rest 0 result }
{
    match feeder.take() {
        Ok(Some(frame)) => {
            link.expects(Expected::Frame);
            handler.handle(link, &frame)
        }
        Ok(None) => receive_frame(link, feeder, buf),
        Err(WireFault::TooLong { len }) => Some(End::TooLong { len }),
        Err(WireFault::Memory) => Some(End::Memory),
    }
}

/// One turn. What handles frames stays ready.
pub(crate) fn turn<H: Handler<L>, L: Link>(
    alloc: Global,
    link: &mut L,
    ears: &mut Ears,
    handler: &mut H,
    buf: &mut [u8],
) -> Option<End>
    requires room { length buf.old ≡ 65536 }
    requires ready { H.ready handler.old }
    requires hearing { IsHearing (H.talk handler.old) (H.work handler.old) ears.old }
    ensures ready { H.ready handler.new }
    ensures hall { H.hall handler.new ≡ H.hall handler.old }
    ensures talk { H.talk handler.new ≡ H.talk handler.old }
    ensures turned { TurnFrom (H.talk handler.old) (L.tape link.old) (H.work handler.old) ears.old
        (L.tape link.new) (H.work handler.new) ears.new result }
{
    match ears.phase {
        Phase::Waiting => hear_more::<H, L>(link, ears, buf),
        Phase::Whole => accept::<H, L>(link, ears),
        Phase::Called => call::<H, L>(link, ears),
        Phase::Login => exchange(alloc, link, ears, handler, buf),
        Phase::Wrong(fault) => refuse::<H, L>(link, ears, fault),
        Phase::Over => {
            if let Some(end) = handler.visit(link) {
                return Some(end);
            }
            go_on(link, &mut ears.feeder, handler, buf)
        }
    }
}
