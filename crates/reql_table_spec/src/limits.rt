// The limits of a server.
ghost use Rattle.std.specs.Prelude.{◌≡◌};
ghost use Rattle.reql_table_spec.specs.Limits.{usual_limits};

/// The limits that sessions, tables and the catalogue keep.
#[derive(Clone, Copy, Debug, PartialEq, Eq, Drop)]
pub struct Limits {
    /// Items of one answer, at least 1.
    pub batch: u32,
    /// Turns of one session.
    pub turns: u64,
    /// Tables that may ever be made.
    pub slots: u32,
    /// Open feeds of one table.
    pub feeds: u32,
    /// Open cursors and feeds of one session.
    pub cursors: u32,
    /// Entries of a table's history that are held since its base, at least 2.
    pub tail: u32,
    /// Bytes of one request.
    pub frame: u32,
    /// Bytes of one answer.
    pub answer: u32,
}

impl Limits {
    /// The limits of a server that was told no others.
    pub fn usual() -> Limits
        ensures { result ≡ usual_limits }
    {
        Limits {
            batch: 1000,
            turns: 1 << 60,
            slots: 256,
            feeds: 1024,
            cursors: 1024,
            tail: 65536,
            frame: 67_108_864,
            answer: 268_435_456,
        }
    }
}
