// Writes as a table is given them, and what they report.
use reql_datum::{Datum, Items, Name};
use reql_term::Body;

/// What a write lists of its changes (`return_changes`).
#[derive(Clone, Copy, Drop)]
pub enum Returns {
    /// Nothing: no list.
    No,
    /// Each change.
    Changed,
    /// Something for each document that it treated.
    Always,
}

/// What an insert does with a document whose key is there (`conflict`).
#[derive(Clone, Copy, Drop)]
pub enum Conflict {
    /// It counts in errors.
    Error,
    /// It takes the place of the old one.
    Replace,
    /// The old one is merged with it.
    Update,
}

/// What is written. Rows are a selection of the table, and a change is a function of a document;
/// both are evaluated when the table runs the write.
#[derive(Drop)]
pub enum Act {
    /// Documents, in order. One without a primary key takes the next of the keys that were made.
    Insert {
        docs: Items,
        conflict: Conflict,
        made: Items,
    },
    /// Each row merged with what the change gives of it.
    Update {
        rows: Body,
        change: Body,
    },
    /// In the place of each row what the change gives of it; null deletes it.
    Replace {
        rows: Body,
        change: Body,
    },
    Delete {
        rows: Body,
    },
}

/// A write as a table is given it.
#[derive(Drop)]
pub struct WriteCmd {
    /// The name of the table's primary key field.
    pub key: Name,
    pub act: Act,
    pub returns: Returns,
    /// Whether it is to be kept on disk before it is answered (`durability`).
    pub hard: bool,
}

/// One single-document change: the document at a primary key before it and after it.
#[derive(Drop)]
pub struct Change {
    pub key: Datum,
    pub old: Option<Datum>,
    pub new: Option<Datum>,
}

/// What a write did, counted in documents.
#[derive(Drop)]
pub struct Summary {
    pub deleted: u64,
    pub errors: u64,
    pub inserted: u64,
    pub replaced: u64,
    pub skipped: u64,
    pub unchanged: u64,
    /// The text of the first that counted in `errors`.
    pub first_error: Option<Name>,
    /// The primary keys that were made for documents without one.
    pub generated: Items,
    /// The changes, where they were asked for.
    pub changes: Option<Items>,
}
