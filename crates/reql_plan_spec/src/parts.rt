// What a request goes on with between its moves.
use reql_datum::Name;
use reql_table_spec::FeedSpec;
use reql_term::{Body, IndexDef};
use reql_write_spec::WriteCmd;

/// A request that has a plan: its term, its default database, the length that an array may have, and
/// how many items an answer holds at most (`max_batch_rows`).
#[derive(Drop)]
pub struct Plan {
    pub term: Body,
    pub db: Name,
    pub array_limit: u64,
    pub batch: u32,
}

/// What holds of a session when a request begins.
#[derive(Clone, Copy, Drop)]
pub struct Setting {
    /// Whether the request wants no answer.
    pub noreply: bool,
    /// How many items an answer of this server holds at most.
    pub batch: u32,
    /// How many cursors and feeds may be open in a session.
    pub cursors: u32,
    /// How many are open.
    pub opened: u32,
}

/// A write that is ready but for the primary keys that are to be made, so many.
#[derive(Drop)]
pub struct Prepared {
    pub slot: u32,
    pub cmd: WriteCmd,
    pub rolls: u64,
}

/// A command on a table's indexes, or SYNC.
#[derive(Drop)]
pub enum TableCmd {
    IndexCreate(IndexDef),
    IndexDrop(Name),
    IndexRename {
        old: Name,
        new: Name,
        /// Whether an index of the new name gives way.
        overwrite: bool,
    },
    Sync,
}

/// Such a command as it is given to a slot: what its success is told as, and the indexes that are
/// named where one is there or is missing.
#[derive(Drop)]
pub struct Commanded {
    pub slot: u32,
    pub cmd: TableCmd,
    pub label: Name,
    pub count: u64,
    pub present: Name,
    pub missing: Name,
}

/// A feed that is to be opened on a slot.
#[derive(Drop)]
pub struct Opening {
    pub slot: u32,
    pub spec: FeedSpec,
}
