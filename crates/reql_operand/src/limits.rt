// The limits on what a term gives.
ghost use Rattle.std.specs.Prelude.{◌≡◌, ℕ, map, nat_lt};
ghost use Rattle.reql_datum.specs.Outcome.{Gives};
ghost use Rattle.reql_datum.specs.Plain.{depth};
ghost use Rattle.reql_datum.specs.View.{plain};
ghost use Rattle.reql_rules.specs.Lists.{each};
ghost use Rattle.reql_rules.specs.Sizes.{max_depth, is_long as is_long_of, short as short_of, shallow as shallow_of, within as within_of};
ghost use Rattle.reql_value_spec.specs.Meant.{selection};
ghost use Rattle.reql_value_spec.specs.Sequenced.{sized as sized_of, sized_rows as sized_rows_of, sized_group};
ghost use Rattle.reql_value_spec.specs.World.{World as Seen};
ghost use Rattle.reql_operand.specs.Seen.{meant, rows, group};

use crate::texts::{over_array, over_depth};
use crate::value::{Group, Rows, Value};
use reql_datum::{Datum, Fault, Items};
use std::alloc::Global;

/// The value, where it keeps the limits. A document's depth takes a constant number of steps, a
/// stream one for each of its elements.
pub fn sized(alloc: Global, limit: u64, value: Value) -> Result<Value, Fault>
    ensures { (w : Seen) → Gives (meant w) result (sized_of limit (meant w value)) }
{
    match value {
        Value::One(d) => Ok(Value::One(within(alloc, limit, d)?)),
        Value::Stream(items) => {
            all_shallow(alloc, items.as_slice())?;
            Ok(Value::Stream(items))
        }
        Value::Selection { slot, rows, list } => {
            few_rows(alloc, limit, rows, &list)?;
            Ok(Value::Selection { slot, rows, list })
        }
        Value::Grouped(groups) => {
            all_short(alloc, limit, &groups)?;
            Ok(Value::Grouped(groups))
        }
        other => Ok(other),
    }
}

#[tactic(auto, using(reql_datum::proofs::Back::back))]
fn is_long(limit: u64, d: &Datum) -> bool
    ensures { result ≡ is_long_of limit (plain d.now) }
{
    match d {
        Datum::List(items) => limit < items.len() as u64,
        _ => false,
    }
}

// The document, where it is no array above the limit.
fn short(alloc: Global, limit: u64, d: Datum) -> Result<Datum, Fault>
    ensures { Gives plain result (short_of limit (plain d)) }
{
    if is_long(limit, &d) {
        return Err(Fault::ResourceLimit(over_array(alloc, limit)?));
    }
    Ok(d)
}

fn is_deep(d: &Datum) -> bool
    ensures { result ≡ nat_lt max_depth (depth (plain d.now)) }
{
    d.depth() > 100
}

// The document, where it doesn't nest above the limit.
fn shallow(alloc: Global, d: Datum) -> Result<Datum, Fault>
    ensures { Gives plain result (shallow_of (plain d)) }
{
    if is_deep(&d) {
        return Err(Fault::ResourceLimit(over_depth(alloc)?));
    }
    Ok(d)
}

fn within(alloc: Global, limit: u64, d: Datum) -> Result<Datum, Fault>
    ensures { Gives plain result (within_of limit (plain d)) }
{
    let kept = short(alloc, limit, d)?;
    shallow(alloc, kept)
}

// A selection that prints as an array keeps the limit.
fn few_rows(alloc: Global, limit: u64, kind: Rows, list: &Items) -> Result<(), Fault>
    ensures { (slot : ℕ) → Gives (λ u. selection slot (rows kind) list.now) result
        (sized_rows_of limit slot (rows kind) list.now) }
{
    match kind {
        Rows::InArray => {
            if limit < list.len() as u64 {
                return Err(Fault::ResourceLimit(over_array(alloc, limit)?));
            }
            Ok(())
        }
        Rows::InSequence => Ok(()),
    }
}

// The elements of a stream don't nest above the limit.
fn all_shallow(alloc: Global, list: &[Datum]) -> Result<(), Fault>
    ensures { Gives (λ u. map plain list.now) result (each shallow_of (map plain list.now)) }
{
    for d in list {
        if is_deep(d) {
            return Err(Fault::ResourceLimit(over_depth(alloc)?));
        }
    }
    Ok(())
}

// The arrays of groups are no longer than the limit.
fn all_short(alloc: Global, limit: u64, groups: &[Group]) -> Result<(), Fault>
    ensures { Gives (λ u. map group groups.now) result
        (each (sized_group limit) (map group groups.now)) }
{
    for g in groups {
        if is_long(limit, &g.value) {
            return Err(Fault::ResourceLimit(over_array(alloc, limit)?));
        }
    }
    Ok(())
}
