// One receive of a greeting.
ghost use Rattle.std.specs.Prelude.{◌≡◌, ◌<◌, [], length};
ghost use Rattle.reql_wire.specs.Greeting.{Greets};
ghost use Rattle.reql_hearing.specs.Hearing.{Hears};

use reql_outside::{Link, Recv};
use reql_wire::{Feeder, GreetFault, Greeter, Greeting};

/// What one receive was of a greeting.
#[derive(Clone, Copy, Debug, PartialEq, Eq)]
pub enum Heard {
    /// Nothing came within the link's time.
    Idle,
    /// A piece came, and the greeting isn't whole yet.
    More,
    /// A piece came with which the greeting is whole. What follows it is held for the first frame.
    Accepted,
    /// A piece came with which the version of a login is whole. What follows it is held for the first message.
    Called,
    /// A piece came with which the greeting is refused.
    Refused(GreetFault),
    /// A piece came with which the greeting is whole, and there was no memory for what follows it.
    Lost,
    /// No more will come.
    Over,
    /// The receive failed.
    Failed,
}

/// Receives once, where the greeting isn't whole yet.
pub fn hear<L: Link>(
    link: &mut L,
    greeter: &mut Greeter,
    feeder: &mut Feeder,
    buf: &mut [u8],
) -> Heard
    requires room { 0 < length buf.old }
    requires short { Greets greeter.old.key greeter.old.heard Greeting.More }
    requires none { feeder.old.held ≡ [] }
    ensures hears { Hears (L.tape link.old) (L.tape link.new) (length buf.old) greeter.old greeter.new
        feeder.new.held result }
    ensures key { greeter.new.key ≡ greeter.old.key }
    ensures limit { feeder.new.limit ≡ feeder.old.limit }
{
    match link.recv(buf) {
        Recv::Got(n) => match greeter.feed(&buf[..n]) {
            Greeting::More => Heard::More,
            Greeting::Accepted { used } => match feeder.feed(&buf[used..n]) {
                Ok(()) => Heard::Accepted,
                Err(_) => Heard::Lost,
            },
            Greeting::Login { used } => {
                let behind = &buf[used..n];
                match feeder.feed(behind) {
                    Ok(()) => Heard::Called,
                    Err(_) => Heard::Lost,
                }
            }
            Greeting::Refused(fault) => Heard::Refused(fault),
        },
        Recv::Idle => Heard::Idle,
        Recv::End => Heard::Over,
        Recv::Failed => Heard::Failed,
    }
}
