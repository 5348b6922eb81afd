// One receive after the greeting.
ghost use Rattle.std.specs.Prelude.{◌≡◌, ◌<◌, length};
ghost use Rattle.reql_hearing.specs.Hearing.{Receives};

use reql_outside::{Link, Recv};
use reql_wire::Feeder;

/// What one receive was.
#[derive(Clone, Copy, Debug, PartialEq, Eq)]
pub enum Received {
    /// Nothing came within the link's time.
    Idle,
    /// A piece came, and is held.
    Piece,
    /// A piece came, and there was no memory for it.
    Lost,
    /// No more will come.
    Over,
    /// The receive failed.
    Failed,
}

/// Receives once.
pub fn receive<L: Link>(link: &mut L, feeder: &mut Feeder, buf: &mut [u8]) -> Received
    requires room { 0 < length buf.old }
    ensures receives { Receives (L.tape link.old) (L.tape link.new) (length buf.old)
        feeder.old.held feeder.new.held result }
    ensures limit { feeder.new.limit ≡ feeder.old.limit }
{
    match link.recv(buf) {
        Recv::Got(n) => match feeder.feed(&buf[..n]) {
            Ok(()) => Received::Piece,
            Err(_) => Received::Lost,
        },
        Recv::Idle => Received::Idle,
        Recv::End => Received::Over,
        Recv::Failed => Received::Failed,
    }
}
