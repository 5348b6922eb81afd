// The ranges of a table, as the keys of its trees.
ghost use Rattle.std.specs.Prelude.{◌≡◌, IfOk, List, option_map, map};
ghost use Rattle.std.specs.List.{filter};
ghost use Rattle.std.specs.Ordering.{is_eq};
ghost use Rattle.reql_datum.specs.Order.{order};
ghost use Rattle.reql_datum.specs.View.{plain};
ghost use Rattle.reql_term.specs.Views.{Entry, Views, directed, primary, ranged, entries_in, entries_of};
ghost use Rattle.reql_ptree.specs.Pairs.{AreRising};
ghost use Rattle.reql_table.specs.Inside.{entries_inside};
ghost use Rattle.reql_table.specs.Keys.{pairs_of};
ghost use Rattle.reql_table.specs.Seen.{documents_of, indexes_of, entries_at, of_value};

use crate::ends::{after, before, high_end, low_end};
use crate::filed::FiledIndex;
use crate::slice::Slice;
use crate::table::Table;
use reql_datum::{Datum, Memory, Name};
use reql_ptree::Tree;
use reql_term::{Range, ViewFault};
use std::alloc::Global;

// A range of the primary order.
#[tactic(auto, using(crate::proofs::Ranges::primary_range))]
fn primary_slice<'a>(tree: &'a Tree, range: &Range) -> Result<Slice<'a>, Memory>
    ensures tree { IfOk result (λ s. s.tree.now ≡ tree.now) }
    ensures entries { IfOk result (λ s. directed range.now.down (entries_inside s)
        ≡ ranged range.now (primary tree.now)) }
{
    Ok(Slice {
        tree,
        filed: false,
        low: range.low.value.copy()?,
        low_open: range.low.is_open,
        high: range.high.value.copy()?,
        high_open: range.high.is_open,
    })
}

// A range of the entries of an index.
#[tactic(auto, using(crate::proofs::Ranges::index_range))]
fn index_slice<'a>(alloc: Global, index: &'a FiledIndex, range: &Range) -> Result<Slice<'a>, Memory>
    ensures tree { IfOk result (λ s. s.tree.now ≡ index.now.entries) }
    ensures entries { (es : List Entry) → index.now.entries ≡ pairs_of es
        → IfOk result (λ s. directed range.now.down (entries_inside s) ≡ ranged range.now es) }
{
    Ok(Slice {
        tree: &index.entries,
        filed: true,
        low: low_end(alloc, &range.low)?,
        low_open: false,
        high: high_end(alloc, &range.high)?,
        high_open: false,
    })
}

// The entries of one key of the primary order.
#[tactic(auto, using(crate::proofs::Ranges::primary_key))]
fn primary_at<'a>(tree: &'a Tree, key: &Datum) -> Result<Slice<'a>, Memory>
    ensures { IfOk result (λ s. entries_inside s ≡ of_value (plain key.now) (primary tree.now)) }
{
    Ok(Slice {
        tree,
        filed: false,
        low: key.copy()?,
        low_open: false,
        high: key.copy()?,
        high_open: false,
    })
}

// The entries of one value of an index.
#[tactic(auto, using(crate::proofs::Ranges::index_key))]
fn index_at<'a>(alloc: Global, index: &'a FiledIndex, key: &Datum) -> Result<Slice<'a>, Memory>
    ensures { (es : List Entry) → index.now.entries ≡ pairs_of es
        → IfOk result (λ s. entries_inside s ≡ of_value (plain key.now) es) }
{
    Ok(Slice {
        tree: &index.entries,
        filed: true,
        low: before(alloc, key)?,
        low_open: false,
        high: after(alloc, key)?,
        high_open: false,
    })
}

impl Table {
    /// The keys between which the entries of a range lie.
    #[tactic(auto, using(crate::proofs::Rising::filed_rising))]
    pub(crate) fn slice(&self, range: &Range) -> Result<Slice<'_>, ViewFault>
        ensures rising { IfOk result (λ s. AreRising s.tree.now) }
        ensures entries { Views (λ s. directed range.now.down (entries_inside s)) result
            (entries_in (documents_of self.now) (indexes_of self.now) (entries_at self.now)
            range.now) }
    {
        match &range.index {
            None => Ok(primary_slice(self.tree(), range)?),
            Some(name) => match self.filed(name.as_str()) {
                None => Err(ViewFault::IndexMissing),
                Some(index) => Ok(index_slice(self.alloc, index, range)?),
            },
        }
    }

    /// The keys between which the entries of one value lie.
    pub(crate) fn at(&self, index: Option<&Name>, key: &Datum) -> Result<Slice<'_>, ViewFault>
        ensures { Views entries_inside result (option_map (of_value (plain key.now))
            (entries_of (documents_of self.now) (indexes_of self.now) (entries_at self.now)
            (option_map (λ n. n.now) index.entry))) }
    {
        match index {
            None => Ok(primary_at(self.tree(), key)?),
            Some(name) => match self.filed(name.as_str()) {
                None => Err(ViewFault::IndexMissing),
                Some(index) => Ok(index_at(self.alloc, index, key)?),
            },
        }
    }
}
