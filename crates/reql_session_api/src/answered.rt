// What a request comes to.
use reql_answer::ErrorType;
use reql_datum::{Datum, Items, Name, Seq};

/// An arm of a feed: its slot, its number there, and the text that tells that its table was dropped.
#[derive(Drop)]
pub struct Arm {
    pub slot: u32,
    pub feed: u64,
    pub dropped: Name,
}

/// What a printed item of a feed is.
#[derive(Clone, Copy, Debug, PartialEq, Eq, Drop)]
pub enum Sort {
    /// An element that was there at first.
    Opening,
    /// A state of the feed.
    State,
    /// How many items were left out.
    Skip,
    Change,
}

/// A printed item of a feed.
#[derive(Drop)]
pub struct Shown {
    /// The place of its arm among those of the feed.
    pub at: u32,
    pub sort: Sort,
    /// How many changes its table had then.
    pub stamp: u64,
    pub item: Datum,
}

/// What a request comes to.
#[derive(Drop)]
pub enum Answered {
    /// No answer is wanted.
    Unsent,
    /// A value; a grouped one is printed.
    One(Datum),
    Stream(Items),
    /// A feed: its arms, its notes, and its printed opening and state items.
    Feed {
        arms: Vec<Arm>,
        notes: Seq<u8>,
        items: Vec<Shown>,
    },
    Fault(ErrorType, Name),
    /// Memory was wanted.
    Wanting,
}
