// What a request may still spend.
ghost use Rattle.std.specs.Prelude.{◌≡◌, IfOk};

use reql_datum::{Datum, Items, Memory};
use std::cell::Cell;

/// What a request, or a write of a table, may still spend: a unit stands for some 45 nanoseconds of one
/// processor, or for 32 bytes. No contract knows what is in it, and one that is empty is want of memory.
#[derive(Drop)]
pub struct Purse {
    left: Cell<u64>,
}

/// What a request may spend, and what a write of a table may: about a second and a half of one
/// processor, and about a gigabyte.
pub const BUDGET: u64 = 1 << 25;

/// What the function of an index, or the stages of a feed, may spend on one document.
pub const STAGE: u64 = 1 << 20;

impl Purse {
    /// A purse with so much in it.
    pub fn new(left: u64) -> Purse {
        Purse {
            left: Cell::new(left),
        }
    }

    /// What is left in it.
    pub fn left(&self) -> u64 {
        self.left.get()
    }

    /// Puts in the place of what is left in it what is left in another, which began with that.
    pub fn settle(&self, other: &Purse) {
        self.left.set(other.left())
    }

    /// Spends so much. Memory where less than that is left, and then nothing is.
    pub fn spend(&self, cost: u64) -> Result<(), Memory> {
        let left = self.left.get();
        if left < cost {
            self.left.set(0);
            return Err(Memory);
        }
        self.left.set(left - cost);
        Ok(())
    }
}

/// The items, once so much is paid for each. Memory where less than that is left.
pub fn paid(purse: &Purse, items: Items, each: u64) -> Result<Items, Memory>
    ensures { IfOk result (λ all. all ≡ items) }
{
    purse.spend((items.len() as u64).saturating_mul(each))?;
    Ok(items)
}

/// How much a document has, in units: elements, members, or parts of 32 bytes of a text. What lies
/// below its elements isn't counted.
pub fn size_of(d: &Datum) -> u64 {
    match d {
        Datum::List(items) => items.len() as u64,
        Datum::Obj(fields) => fields.len() as u64,
        Datum::Text(text) => (text.as_str().len() / 32) as u64 + 1,
        Datum::Binary(blob) => (blob.as_bytes().len() / 32) as u64 + 1,
        _ => 1,
    }
}
