// One receive behind the greeting, and the end where no more comes.
ghost use Rattle.std.specs.Prelude.{◌≡◌, length};
ghost use Rattle.reql_turns.specs.Ears.{IsEnd, ReceivesMore};

use reql_hearing::{Received, receive};
use reql_outside::Link;
use reql_session_spec::End;
use reql_wire::Feeder;

/// Where no more comes while so many bytes are held.
pub(crate) fn end_of(held: usize) -> End
    ensures { IsEnd held result }
{
    if held == 0 {
        End::Closed
    } else {
        End::Cut { held }
    }
}

/// Receives once, where no whole frame or message is held.
pub(crate) fn receive_more<L: Link>(
    link: &mut L,
    feeder: &mut Feeder,
    buf: &mut [u8],
) -> Option<End>
    requires room { length buf.old ≡ 65536 }
    ensures receives { ReceivesMore (L.tape link.old) (L.tape link.new) feeder.old.held feeder.new.held result }
    ensures limit { feeder.new.limit ≡ feeder.old.limit }
{
    match receive(link, feeder, buf) {
        Received::Idle => None,
        Received::Piece => None,
        Received::Lost => Some(End::Memory),
        Received::Over => Some(end_of(feeder.held())),
        Received::Failed => Some(End::ReadFault),
    }
}
