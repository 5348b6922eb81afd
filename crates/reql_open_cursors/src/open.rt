// What is open.
ghost use Rattle.std.specs.Prelude.{◌≡◌, take, drop, map};
ghost use Rattle.reql_datum.specs.View.{plain};
ghost use Rattle.reql_open_cursors.specs.Kept.{cursor_kept};

use reql_datum::{Datum, Items, Seq};
use reql_session_api::{Arm, Shown};

/// An open cursor.
#[derive(Drop)]
pub struct Cursor {
    pub token: u64,
    /// The documents of the stream.
    pub items: Items,
    /// How many of them were told.
    pub from: usize,
    /// How many are told at once.
    pub batch: u32,
}

/// An open feed.
#[derive(Drop)]
pub struct Open {
    pub token: u64,
    pub arms: Vec<Arm>,
    /// Printed items, of its opening or of a queue.
    pub items: Vec<Shown>,
    /// How many of them were told.
    pub from: usize,
    /// How many are told at once.
    pub batch: u32,
    pub notes: Seq<u8>,
}

// What stands from a place on.
#[tactic(auto, using(crate::proofs::Rests::all_taken, crate::proofs::Rests::past))]
fn rest_of<T>(items: &[T], from: usize) -> &[T]
    ensures { result.now ≡ drop from items.now }
{
    if from >= items.len() {
        return &items[items.len()..];
    }
    &items[from..]
}

// So many that stand first.
#[tactic(auto, using(crate::proofs::Rests::whole))]
fn first_of<T>(items: &[T], count: usize) -> &[T]
    ensures { result.now ≡ take count items.now }
{
    if count >= items.len() {
        return items;
    }
    &items[..count]
}

impl Cursor {
    /// The documents of its next batch.
    #[tactic(auto, using(crate::proofs::Rests::shown_first))]
    pub fn first(&self) -> &[Datum]
        ensures { map plain result.now
            ≡ take self.now.batch (cursor_kept self.now).rest }
    {
        first_of(self.left(), self.batch as usize)
    }

    /// The documents that are left.
    #[tactic(auto, using(crate::proofs::Rests::shown_rest))]
    pub fn left(&self) -> &[Datum]
        ensures { map plain result.now ≡ (cursor_kept self.now).rest }
    {
        rest_of(self.items.as_slice(), self.from)
    }
}

impl Open {
    /// The items of its next batch.
    pub fn first(&self) -> &[Shown]
        ensures { result.now
            ≡ take self.now.batch (drop self.now.from self.now.items.items) }
    {
        first_of(self.left(), self.batch as usize)
    }

    /// The items that are left.
    pub fn left(&self) -> &[Shown]
        ensures { result.now ≡ drop self.now.from self.now.items.items }
    {
        rest_of(self.items.as_slice(), self.from)
    }
}
