// Range shapes, as a feed keeps them.
ghost use Rattle.std.specs.Prelude.{◌≡◌, length, true, IfOk};
ghost use Rattle.reql_feed_spec.specs.Kept.{is_shape};
ghost use Rattle.reql_feed_read.specs.Seen.{source_of};
ghost use Rattle.reql_feed_read.specs.Source.{LeavesOut};
ghost use Rattle.reql_table.specs.Seen.{documents_of, indexes_of};

use crate::source::Source;
use reql_datum::{Memory, Name};
use reql_table::Table;
use reql_term::Body;

/// A range shape: a term over the slot of its table, with the table's key field, a table of nothing
/// that has the index which the term may name, and the documents that it can give something of.
#[derive(Drop)]
pub struct RangeShape {
    pub key: Name,
    pub term: Body,
    pub slot: u32,
    pub empty: Table,
    pub source: Source,
    ghost is_one: { is_shape slot term ≡ true },
    ghost is_empty: { length (documents_of empty) ≡ 0 },
    ghost leaves_out: { LeavesOut key slot term (indexes_of empty) (source_of source) },
}

impl RangeShape {
    /// An equal shape that shares what it holds.
    pub fn copy(&self) -> Result<RangeShape, Memory>
        ensures { IfOk result (λ s. s ≡ self.now) }
    {
        Ok(RangeShape {
            key: self.key.copy()?,
            term: self.term.copy()?,
            slot: self.slot,
            empty: self.empty.share()?,
            source: self.source.copy()?,
        })
    }
}
