// What the server leaves.
ghost use Rattle.std.specs.Prelude.{◌≡◌};
ghost use Rattle.reql_run.specs.Endings.{status_of};

use reql_core::TableCore;
use reql_open_feed::OpenFeed;
use reql_outside::Link;
use reql_serve::Ended;
use reql_session_spec::End;

/// The engine of each table: every kind of feed may be open on it.
pub type Core = TableCore<OpenFeed>;

/// How the server ended.
#[derive(Drop)]
pub struct Outcome<L: Link> {
    /// 0: the input ended between two requests. 2: the words ask for no session. 4, 5: a receive, a
    /// send failed. 6: the input ended within a greeting or a request. 7: the greeting was refused.
    /// 8: memory was wanted before the greeting was answered, for bytes that came, or for the body of
    /// a request. 9: a request was too long, or all turns were used up.
    pub status: u8,
    /// The session, and the hall with its whole histories. Err with the status 2, and where memory was
    /// wanted before a session began: the link as it was handed in, on which nothing was heard or said.
    pub ended: Result<Ended<Core, L::Record>, L>,
}

// The status of a server whose one session ended so.
pub(crate) fn status_of(end: End) -> u8
    ensures { result ≡ status_of end }
{
    match end {
        End::Closed => 0,
        End::ReadFault => 4,
        End::WriteFault => 5,
        End::Cut { .. } => 6,
        End::Refused(_) => 7,
        End::Memory => 8,
        End::TooLong { .. } | End::Worn => 9,
    }
}
