ghost use Rattle.std.specs.Prelude.{◌≡◌, ◌<◌, length};
ghost use Rattle.reql_outside.specs.Tape.{SendsAll};

use crate::{Link, Sending};

/// Sends a whole piece, in as many sends as the link wants. An empty piece takes none.
///
/// True: all of it was said, and no send failed. False: a send failed, the last one, and not all of
/// the piece was said.
pub fn send_all<L: Link>(link: &mut L, piece: &[u8]) -> bool
    ensures { SendsAll (L.tape link.old) (L.tape link.new) piece.now result }
{
    let mut sent = 0;
    while sent < piece.len() {
        match link.send(&piece[sent..]) {
            Sending::Sent(n) => sent += n,
            Sending::Failed => return false,
        }
    }
    true
}
