// The status that the program ends with.
ghost use Rattle.std.specs.Prelude.{◌≡◌};
ghost use Rattle.reql_query.specs.Statuses.{fault_status, status_of};

use reql_client::ClientFault;

/// Why a client is there no more, or what it does is not seen.
#[derive(Drop)]
pub enum Loss {
    /// A call of it ended so.
    Client(ClientFault),
    /// An answer is none that a server gives.
    Strange,
    /// The standard output can't be written.
    Unprinted,
    /// There was no memory.
    Memory,
}

/// All bodies were answered.
pub const ANSWERED: u8 = 0;

/// Some body was answered by a fault, or is none.
pub const FAULTED: u8 = 1;

/// The words are wrong.
pub const WORDS: u8 = 2;

/// There is no server.
pub const UNCONNECTED: u8 = 3;

/// The standard input can't be read, or the server's answers can't.
pub const UNREAD: u8 = 4;

/// The status of a loss.
pub fn status_of(loss: &Loss) -> u8
    ensures { result ≡ status_of loss.now }
{
    match loss {
        Loss::Client(fault) => fault_status(fault),
        Loss::Strange => 7,
        Loss::Unprinted => 5,
        Loss::Memory => 8,
    }
}

// The status of a fault of the client.
fn fault_status(fault: &ClientFault) -> u8
    ensures { result ≡ fault_status fault.now }
{
    match fault {
        ClientFault::ReadFault => 4,
        ClientFault::WriteFault => 5,
        ClientFault::Ended => 6,
        ClientFault::Refused(_) => 7,
        ClientFault::BadAnswer => 7,
        ClientFault::TooLong { .. } => 7,
        ClientFault::Memory => 8,
        ClientFault::Worn => 9,
    }
}
