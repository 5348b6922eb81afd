// Arrays as sets, each document looked up in a sorted set.
ghost use Rattle.std.specs.Prelude.{◌≡◌, ◌++◌, ◌∷◌, [], List, IfOk, not, cond};
ghost use Rattle.std.specs.Bool.{OnFalse};
ghost use Rattle.std.specs.List.{filter};
ghost use Rattle.reql_datum.specs.Plain.{Plain};
ghost use Rattle.reql_datum.specs.View.{plain};
ghost use Rattle.reql_rules.specs.Sets.{is_among, firsts, common, others, set_of};
ghost use Rattle.reql_scalar.specs.Among.{Holds, is_kept};

use crate::parts::{add, append_from};
use reql_datum::{Datum, Items, Memory};
use reql_rules::SetOp;
use std::alloc::Global;
use std::collections::BTreeSet;

// Puts a document into the set, and says whether it is new there.
fn put(seen: &mut BTreeSet<Datum>, item: &Datum) -> Result<bool, Memory>
    ensures new { (vs : List Plain) → Holds seen.old vs
        → IfOk result (λ new. new ≡ not (is_among vs (plain item.now))) }
    ensures more { (vs : List Plain) → Holds seen.old vs
        → IfOk result (λ _. Holds seen.new (vs ++ plain item.now ∷ [])) }
    ensures kept { (vs : List Plain) → Holds seen.old vs
        → IfOk result (λ new. OnFalse new (Holds seen.new vs)) }
{
    let copied = item.copy()?;
    let new = seen.insert(copied)?;
    Ok(new)
}

fn is_kept(set: &BTreeSet<Datum>, among: bool, item: &Datum) -> bool
    ensures { (vs : List Plain) → Holds set.now vs → result ≡ is_kept among vs (plain item.now) }
{
    let found = set.contains(item);
    if among { found } else { !found }
}

fn set_from(alloc: Global, list: &Items) -> Result<BTreeSet<Datum>, Memory>
    ensures { IfOk result (λ set. Holds set list.now) }
{
    let mut set = BTreeSet::new(alloc);
    let mut place = 0;
    while let Some(item) = list.at(place) {
        put(&mut set, item)?;
        place += 1;
    }
    Ok(set)
}

// Each document once.
fn firsts(alloc: Global, list: &Items) -> Result<Items, Memory>
    ensures { IfOk result (λ r. r ≡ firsts list.now) }
{
    let mut seen = BTreeSet::new(alloc);
    let mut came = Items::new(alloc);
    let mut place = 0;
    while let Some(item) = list.at(place) {
        if put(&mut seen, item)? {
            add(&mut came, item)?;
        }
        place += 1;
    }
    Ok(came)
}

// The documents that are in a set, or those that aren't.
fn picked(alloc: Global, list: &Items, among: bool, set: &BTreeSet<Datum>) -> Result<Items, Memory>
    ensures { (vs : List Plain) → Holds set.now vs
        → IfOk result (λ r. r ≡ filter (is_kept among vs) list.now) }
{
    let mut kept = Items::new(alloc);
    let mut place = 0;
    while let Some(item) = list.at(place) {
        if is_kept(set, among, item) {
            add(&mut kept, item)?;
        }
        place += 1;
    }
    Ok(kept)
}

fn union(alloc: Global, a: &Items, b: &Items) -> Result<Items, Memory>
    ensures { IfOk result (λ r. r ≡ firsts (a.now ++ b.now)) }
{
    let mut all = a.copy()?;
    append_from(&mut all, b, 0)?;
    firsts(alloc, &all)
}

fn common(alloc: Global, a: &Items, b: &Items) -> Result<Items, Memory>
    ensures { IfOk result (λ r. r ≡ common a.now b.now) }
{
    let set = set_from(alloc, b)?;
    picked(alloc, a, true, &set)
}

fn others(alloc: Global, a: &Items, b: &Items) -> Result<Items, Memory>
    ensures { IfOk result (λ r. r ≡ others a.now b.now) }
{
    let set = set_from(alloc, b)?;
    picked(alloc, a, false, &set)
}

fn common_once(alloc: Global, a: &Items, b: &Items) -> Result<Items, Memory>
    ensures { IfOk result (λ r. r ≡ firsts (common a.now b.now)) }
{
    let list = common(alloc, a, b)?;
    firsts(alloc, &list)
}

fn others_once(alloc: Global, a: &Items, b: &Items) -> Result<Items, Memory>
    ensures { IfOk result (λ r. r ≡ firsts (others a.now b.now)) }
{
    let list = others(alloc, a, b)?;
    firsts(alloc, &list)
}

/// The documents of two arrays as a set, each once and in order of first appearance; DIFFERENCE
/// keeps repeats. It takes n log n comparisons.
pub fn set(alloc: Global, op: SetOp, a: &Items, b: &Items) -> Result<Items, Memory>
    ensures { IfOk result (λ r. r ≡ set_of op a.now b.now) }
{
    match op {
        SetOp::SetInsert => union(alloc, a, b),
        SetOp::SetUnion => union(alloc, a, b),
        SetOp::SetIntersection => common_once(alloc, a, b),
        SetOp::SetDifference => others_once(alloc, a, b),
        SetOp::Difference => others(alloc, a, b),
    }
}
