// What terms and arguments give.
use reql_datum::{Datum, Fault, Items, Name};
use reql_term::{Bound, Range};

/// What a slice of a table lies between, by the name of an index or of the key field.
#[derive(Drop)]
pub struct Bounds {
    pub index: Name,
    pub low: Bound,
    pub high: Bound,
}

/// A slice of a table: between bounds, or in the order of an index, or what is left of one where so
/// many of its first rows are passed over.
#[derive(Drop)]
pub enum Slice {
    Between(Bounds),
    InOrder,
    Rest(usize),
}

/// A selection of rows that have been read: it prints as a sequence, or as an array.
#[derive(Clone, Copy, Drop)]
pub enum Rows {
    InSequence,
    InArray,
}

/// A group: its value, and what stands for its members.
#[derive(Drop)]
pub struct Group {
    pub group: Datum,
    pub value: Datum,
}

/// What a term gives.
#[derive(Drop)]
pub enum Value {
    One(Datum),
    Stream(Items),
    /// Rows of the table in a slot, which have been read.
    Selection {
        slot: u32,
        rows: Rows,
        list: Items,
    },
    /// A slice of the table in a slot, whose rows are those of a range, or the last of them. They
    /// haven't been read yet.
    Unread {
        slot: u32,
        slice: Slice,
        range: Range,
    },
    /// The row of a key, where there is one.
    Row {
        slot: u32,
        key: Datum,
        document: Option<Datum>,
    },
    Table(u32),
    Grouped(Vec<Group>),
    Database(Name),
    Function,
}

/// The function that stands at a place, and whether its body is an object: what such a one gives is
/// a pattern to FILTER.
#[derive(Clone, Copy, Drop)]
pub struct Callee {
    pub at: usize,
    pub makes_object: bool,
}

/// A key of ORDER_BY: a value, or a function.
#[derive(Drop)]
pub enum Key {
    Value(Value),
    Function(Callee),
}

/// What an argument gives.
#[derive(Drop)]
pub enum Arg {
    Value(Value),
    Function(Callee),
    /// A key under ASC or, where it is down, DESC.
    Directed {
        down: bool,
        key: Key,
    },
    /// What an ERROR gave, with a text or without one, which is raised only where it is needed. It
    /// never holds Memory.
    Late {
        texted: bool,
        outcome: Result<Value, Fault>,
    },
}

/// An optional argument.
#[derive(Drop)]
pub struct Choice {
    pub name: Name,
    pub arg: Arg,
}
