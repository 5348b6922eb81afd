// The documents between two keys of a tree.
ghost use Rattle.std.specs.Prelude.{◌≡◌, drop, take, length, IfOk};
ghost use Rattle.reql_table.specs.Inside.{inside, along};

use reql_datum::{Datum, Items, Memory, compare};
use reql_ptree::{Steps, Tree};

/// Two keys of a tree, each of which is left out where its end is open.
///
/// In a tree that is `filed` the keys are those of the entries of an index, in another they are primary
/// keys.
#[derive(Drop)]
pub(crate) struct Slice<'a> {
    pub(crate) tree: &'a Tree,
    pub(crate) filed: bool,
    pub(crate) low: Datum,
    pub(crate) low_open: bool,
    pub(crate) high: Datum,
    pub(crate) high_open: bool,
}

/// The documents between the keys.
#[tactic(auto, using(crate::proofs::Parts::whole))]
pub(crate) fn documents(slice: &Slice<'_>, down: bool) -> Result<Items, Memory>
    ensures { IfOk result (λ items. items ≡ along down (inside slice.now)) }
{
    let mut steps = Steps::start();
    let Slice {
        tree,
        filed: _,
        low,
        low_open,
        high,
        high_open,
    } = slice;
    if down {
        tree.range_last(low, *low_open, high, *high_open, tree.len(), &mut steps)
    } else {
        tree.range(low, *low_open, high, *high_open, &mut steps)
    }
}

/// So many of the documents at most, from the one at a place on. The tree counts those before that
/// one without reading them.
pub(crate) fn part(slice: &Slice<'_>, down: bool, from: usize, most: usize) -> Result<Items, Memory>
    ensures { IfOk result (λ items. items ≡ take most (drop from (along down (inside slice.now)))) }
{
    let mut steps = Steps::start();
    let Slice {
        tree,
        filed: _,
        low,
        low_open,
        high,
        high_open,
    } = slice;
    let from = from as u64;
    let most = most as u64;
    if down {
        tree.range_back(low, *low_open, high, *high_open, from, most, &mut steps)
    } else {
        tree.range_from(low, *low_open, high, *high_open, from, most, &mut steps)
    }
}

/// How many documents there are between the keys.
#[tactic(auto, using(crate::proofs::Counts::counted, crate::proofs::Counts::fewer))]
pub(crate) fn count(slice: &Slice<'_>) -> Result<u64, Memory>
    ensures { IfOk result (λ n. n ≡ length (inside slice.now)) }
{
    if compare(&slice.low, &slice.high).is_lt() {
        let mut steps = Steps::start();
        let to = slice
            .tree
            .count_below(&slice.high, !slice.high_open, &mut steps);
        let from = slice
            .tree
            .count_below(&slice.low, slice.low_open, &mut steps);
        return Ok(to - from);
    }
    let items = documents(slice, false)?;
    Ok(items.len() as u64)
}
