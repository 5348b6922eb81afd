// Ranges of the entries of an index.
ghost use Rattle.std.specs.Prelude.{◌≡◌, IfOk};

use reql_datum::{Datum, Memory, Name};

/// An end of a range: a value, which is left out of the range where the end is open.
#[derive(Drop)]
pub struct Bound {
    pub value: Datum,
    pub is_open: bool,
}

/// A range of the entries of an index, or of the primary order where it has no index: those whose
/// values are between two bounds, in order, or `down`, in the reverse.
#[derive(Drop)]
pub struct Range {
    pub index: Option<Name>,
    pub low: Bound,
    pub high: Bound,
    pub down: bool,
}

impl Bound {
    /// An equal bound that shares the value. Memory where a count of sharers is full.
    pub fn copy(&self) -> Result<Bound, Memory>
        ensures { IfOk result (λ b. b ≡ self.now) }
    {
        Ok(Bound {
            value: self.value.copy()?,
            is_open: self.is_open,
        })
    }
}

impl Range {
    /// An equal range that shares what it holds. Memory where a count of sharers is full.
    pub fn copy(&self) -> Result<Range, Memory>
        ensures { IfOk result (λ r. r ≡ self.now) }
    {
        let index = match &self.index {
            Some(name) => Some(name.copy()?),
            None => None,
        };
        Ok(Range {
            index,
            low: self.low.copy()?,
            high: self.high.copy()?,
            down: self.down,
        })
    }
}
