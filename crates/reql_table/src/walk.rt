// The pairs between two keys of a tree, one after another.
ghost use Rattle.std.specs.Prelude.{true, not, [], ◌∷◌, ◌≡◌, ◌++◌, map, length, reverse, MatchOption, IfOk, if◌then◌else◌};
ghost use Rattle.reql_datum.specs.Plain.{null};
ghost use Rattle.reql_datum.specs.View.{plain};
ghost use Rattle.reql_datum.specs.Order.{order};
ghost use Rattle.reql_ptree.specs.Next.{is_behind};
ghost use Rattle.reql_ptree.specs.Pairs.{AreRising};
ghost use Rattle.reql_ptree.specs.Seen.{pair_seen};
ghost use Rattle.reql_table.specs.Inside.{rest_of, pairs_inside, entries_inside, pair};
ghost use Rattle.reql_table.specs.Keys.{value_in, entry_in};
ghost use Rattle.reql_term.specs.Views.{directed, beside, seen_beside};

use crate::slice::Slice;
use reql_datum::{Datum, Items, Memory, compare};
use reql_ptree::Steps;
use reql_term::Entries;
use std::alloc::Global;

/// A key of a tree with its document.
#[derive(Drop)]
pub(crate) struct Pair {
    pub(crate) key: Datum,
    pub(crate) document: Datum,
}

// Whether a key lies past the end.
fn is_past(slice: &Slice<'_>, key: &Datum) -> bool
    ensures { result ≡ not (is_behind (not slice.now.high_open)
        (order (plain slice.now.high) (plain key.now))) }
{
    let order = compare(&slice.high, key);
    if slice.high_open {
        order.is_le()
    } else {
        order.is_lt()
    }
}

// The first pair past a place that lies before the end.
#[tactic(auto, using(crate::proofs::Steps::nothing_left))]
fn next_inside<'a>(slice: &Slice<'a>, at: &Datum, past: bool) -> Option<(&'a Datum, &'a Datum)>
    requires rising { AreRising slice.now.tree.now }
    ensures { MatchOption result (rest_of slice.now (plain at.now) past ≡ [])
        (λ m. rest_of slice.now (plain at.now) past
        ≡ pair_seen m ∷ rest_of slice.now (plain m.0.now) true) }
{
    let mut steps = Steps::start();
    let tree = slice.tree;
    match tree.next_from(at, past, &mut steps) {
        Some((key, document)) => {
            if is_past(slice, key) {
                return None;
            }
            Some((key, document))
        }
        None => None,
    }
}

fn pair_of(key: &Datum, document: &Datum) -> Result<Pair, Memory>
    ensures { IfOk result (λ p. pair p ≡ (plain key.now, plain document.now)) }
{
    Ok(Pair {
        key: key.copy()?,
        document: document.copy()?,
    })
}

/// The pairs, rising by key.
pub(crate) fn pairs(alloc: Global, slice: &Slice<'_>) -> Result<Vec<Pair>, Memory>
    requires rising { AreRising slice.now.tree.now }
    ensures { IfOk result (λ ps. map pair ps.items ≡ pairs_inside slice.now) }
{
    let mut found = Vec::new(alloc);
    let mut at = slice.low.copy()?;
    let mut past = slice.low_open;
    while let Some((key, document)) = next_inside(slice, &at, past) {
        found.push(pair_of(key, document)?)?;
        at = key.copy()?;
        past = true;
    }
    Ok(found)
}

// The value of the entry of a key.
#[tactic(auto, using(reql_datum::proofs::Back::back))]
fn value_of(key: &Datum) -> Result<Datum, Memory>
    ensures { IfOk result (λ d. plain d ≡ value_in (plain key.now)) }
{
    match key {
        Datum::List(items) => match items.as_slice() {
            [] => Ok(Datum::Null),
            [first, ..] => first.copy(),
        },
        _ => Ok(Datum::Null),
    }
}

fn value_at(filed: bool, key: &Datum) -> Result<Datum, Memory>
    ensures { IfOk result (λ d. plain d ≡ (entry_in filed (plain key.now, null)).0) }
{
    if filed {
        return value_of(key);
    }
    key.copy()
}

// The entries of pairs.
fn entries_of(alloc: Global, filed: bool, pairs: &[Pair]) -> Result<Entries, Memory>
    ensures { IfOk result (λ e. seen_beside e
        ≡ beside (map (entry_in filed) (map pair pairs.now))) }
{
    let mut values = Items::with_room(alloc, pairs.len())?;
    let mut documents = Items::with_room(alloc, pairs.len())?;
    for pair in pairs {
        values.push(value_at(filed, &pair.key)?)?;
        documents.push(pair.document.copy()?)?;
    }
    Ok(Entries { values, documents })
}

fn turned(pairs: Vec<Pair>) -> Vec<Pair>
    ensures { result.items ≡ reverse pairs.items }
{
    let mut turned = pairs;
    turned.reverse();
    turned
}

/// The values of the entries between the keys, and beside them their documents.
#[tactic(auto, using(crate::proofs::Turned::straight_beside))]
pub(crate) fn entries(alloc: Global, slice: &Slice<'_>, down: bool) -> Result<Entries, Memory>
    requires rising { AreRising slice.now.tree.now }
    ensures { IfOk result (λ e. seen_beside e
        ≡ beside (directed down (entries_inside slice.now))) }
{
    let found = pairs(alloc, slice)?;
    if down {
        return entries_of(alloc, slice.filed, &turned(found));
    }
    entries_of(alloc, slice.filed, &found)
}
