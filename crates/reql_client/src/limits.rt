// What a client takes of a server.
ghost use Rattle.std.specs.Prelude.{◌≡◌};
ghost use Rattle.reql_client.specs.Bounds.{usual_limits};

/// What a client takes of a server at most.
#[derive(Clone, Copy, Debug, PartialEq, Eq)]
pub struct Limits {
    /// Bytes of an answer's body.
    pub answer: u32,
    /// Receives in one call, with those that were idle.
    pub turns: u64,
}

impl Limits {
    /// The limits of a client that was told no others: the longest answer of this server, and so many turns that a wait for a
    /// changefeed does not end by them.
    pub fn usual() -> Limits
        ensures { result ≡ usual_limits }
    {
        Limits {
            answer: 268_435_456,
            turns: 1 << 60,
        }
    }
}
