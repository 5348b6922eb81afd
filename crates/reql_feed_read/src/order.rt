// The order that a limit feed follows.
ghost use Rattle.std.specs.Prelude.{◌≡◌, IfOk};

use crate::copies::index_copy;
use reql_datum::{Datum, Memory};
use reql_table::IndexDef;

/// All entries of an order, or those between two values of it.
#[derive(Drop)]
pub enum Part {
    Whole,
    Between {
        bottom: Datum,
        /// Whether the bottom itself is left out.
        bottom_open: bool,
        top: Datum,
        /// Whether the top itself is left out.
        top_open: bool,
    },
}

/// The first so many documents in the order of an index that is no multi index, or of primary keys.
#[derive(Drop)]
pub struct Order {
    /// The index by its name, with its definition; none is the primary order.
    pub index: Option<IndexDef>,
    pub part: Part,
    /// Whether it goes from the greatest to the least.
    pub down: bool,
    /// How many documents at most.
    pub most: u32,
}

impl Part {
    /// An equal part that shares what it holds.
    pub fn copy(&self) -> Result<Part, Memory>
        ensures { IfOk result (λ p. p ≡ self.now) }
    {
        match self {
            Part::Whole => Ok(Part::Whole),
            Part::Between {
                bottom,
                bottom_open,
                top,
                top_open,
            } => Ok(Part::Between {
                bottom: bottom.copy()?,
                bottom_open: *bottom_open,
                top: top.copy()?,
                top_open: *top_open,
            }),
        }
    }
}

impl Order {
    /// An equal order that shares what it holds.
    pub fn copy(&self) -> Result<Order, Memory>
        ensures { IfOk result (λ o. o ≡ self.now) }
    {
        Ok(Order {
            index: index_copy(&self.index)?,
            part: self.part.copy()?,
            down: self.down,
            most: self.most,
        })
    }
}
