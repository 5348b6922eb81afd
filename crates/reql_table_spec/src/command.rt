// What a table is told to do.
use reql_datum::{Name, Point, Seq};
use reql_feed_spec::FeedKind;
use reql_term::{Body, IndexDef};
use reql_write_spec::WriteCmd;

/// A feed as it is asked for (`changes`).
#[derive(Drop)]
pub struct FeedSpec {
    /// The name of the table's primary key field.
    pub key: Name,
    /// The term that the feed follows. The slot in it means the table that it is asked of.
    pub shape: Body,
    /// The index that the shape names, if it names one; the key field's name is the primary order.
    pub index: Option<Name>,
    pub kind: FeedKind,
    /// How many items wait at most (`changefeed_queue_size`); 0 counts as 1.
    pub size: u32,
    /// Whether items of a limit feed tell their places (`include_offsets`).
    pub offsets: bool,
    /// Whether items tell their types (`include_types`).
    pub types: bool,
    /// Whether what waits is joined when it is taken (`squash`); with `offsets` it has no effect.
    pub squash: bool,
}

/// A command that a table runs.
#[derive(Drop)]
pub enum Cmd {
    Write(WriteCmd),
    IndexCreate(IndexDef),
    IndexDrop(Name),
    IndexRename {
        old: Name,
        new: Name,
        /// Whether an index of the new name gives way.
        overwrite: bool,
    },
    /// Opens a feed, whose owner is who gives the command.
    Subscribe(FeedSpec),
    /// Takes what waits of a feed, `max` items at most; of a feed that squashes all, joined.
    Take {
        feed: u64,
        max: u32,
    },
    Unsubscribe {
        feed: u64,
    },
    /// The table is dropped. Its documents and feeds stay, and it answers Gone, but for a Take that finds
    /// items and an Unsubscribe of an open feed, each by its owner.
    Shut,
    /// Nothing but an entry, for who waits until all before it is kept on disk.
    Sync,
}

/// A command, with the points at which its values were read.
#[derive(Drop)]
pub struct Order {
    pub points: Seq<Point>,
    pub cmd: Cmd,
}

/// A member of a table's history: a command, with the number of who gave it.
#[derive(Drop)]
pub struct Entry {
    pub by: u64,
    pub order: Order,
}
