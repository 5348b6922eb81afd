// BETWEEN.
ghost use Rattle.std.specs.Prelude.{◌≡◌, Ok, IfOk, option_map};
ghost use Rattle.reql_datum.specs.Outcome.{Gives};
ghost use Rattle.reql_datum.specs.View.{plain};
ghost use Rattle.reql_term.specs.Views.{documents_in};
ghost use Rattle.reql_value_spec.specs.Meant.{Calls, bounded};
ghost use Rattle.reql_value_spec.specs.Tables.{key_if, may_bound as may_bound_of, between_rule};
ghost use Rattle.reql_value_spec.specs.World.{World as Seen, View, view_at};
ghost use Rattle.reql_operand.specs.Seen.{meant, bounds as bounds_of, documents_of_view, shown, all_shown, all_chosen};
ghost use Rattle.reql_operand.specs.Tables.{view, seen};
ghost use Rattle.reql_apply_table.specs.Sources.{entries_at, sliced, sliced_by, between_at};

use crate::sources::{copy_name, entries_source, index_or_key, table_in};
use reql_datum::{Datum, Fault, Memory, Name};
use reql_operand::{
    Arg, Bounds, Choice, Slice, Value, Viewed, World, as_datum, index_text, left_is_open,
    misplaced, not_a_key, right_is_open,
};
use reql_term::{Bound, Range, TableView};
use std::alloc::Global;

fn as_bound(alloc: Global, d: Datum) -> Result<Datum, Fault>
    ensures { Gives plain result (key_if may_bound_of (plain d)) }
{
    if may_bound(&d) {
        return Ok(d);
    }
    Err(Fault::QueryLogic(not_a_key(alloc, d.type_name())?))
}

fn may_bound(d: &Datum) -> bool
    ensures { result ≡ may_bound_of (plain d.now) }
{
    match d {
        Datum::Null => false,
        _ => true,
    }
}

// The range between bounds, by an index or in the primary order.
#[tactic(auto, using(crate::proofs::Slices::slice_of))]
fn range_of(index: Option<&Name>, bounds: &Bounds) -> Result<Range, Memory>
    ensures { (v : View) → IfOk result (λ r. documents_of_view r (Ok v)
        ≡ documents_in (bounded (bounds_of bounds.now)
        (entries_at v (option_map (λ n. n.now) index.entry)))) }
{
    Ok(Range {
        index: copy_name(index)?,
        low: bounds.low.copy()?,
        high: bounds.high.copy()?,
        down: false,
    })
}

// A slice of a table, which isn't read.
fn slice<V: TableView>(alloc: Global, table: &Viewed<V>, bounds: Bounds) -> Result<Value, Fault>
    ensures { (w : Seen)
        → view_at w table.now.slot ≡ Ok (view V.documents V.indexes V.entries table.now)
        → Gives (meant w) result (sliced table.now.slot
        (view V.documents V.indexes V.entries table.now) (bounds_of bounds)) }
{
    let index = entries_source(alloc, table, &bounds.index)?;
    let range = range_of(index, &bounds)?;
    Ok(Value::Unread {
        slot: table.slot,
        slice: Slice::Between(bounds),
        range,
    })
}

// A slice of a table between two values, by the index and the kinds of bounds that are asked for.
fn slice_by<V: TableView>(
    alloc: Global,
    table: &Viewed<V>,
    low: Datum,
    high: Datum,
    opts: &[Choice],
) -> Result<Value, Fault>
    ensures { (w : Seen)
        → view_at w table.now.slot ≡ Ok (view V.documents V.indexes V.entries table.now)
        → Gives (meant w) result (sliced_by table.now.slot
        (view V.documents V.indexes V.entries table.now) (plain low) (plain high)
        (all_chosen w opts.now)) }
{
    let named = index_text(alloc, opts)?;
    let after = left_is_open(alloc, opts)?;
    let before = right_is_open(alloc, opts)?;
    let bounds = Bounds {
        index: index_or_key(table, named).copy()?,
        low: Bound {
            value: low,
            is_open: after,
        },
        high: Bound {
            value: high,
            is_open: before,
        },
    };
    let made = slice(alloc, table, bounds)?;
    Ok(made)
}

fn between_in<V: TableView>(
    alloc: Global,
    table: &Viewed<V>,
    low: &Arg,
    high: &Arg,
    opts: &[Choice],
) -> Result<Value, Fault>
    ensures { (w : Seen)
        → view_at w table.now.slot ≡ Ok (view V.documents V.indexes V.entries table.now)
        → Gives (meant w) result (between_at table.now.slot
        (view V.documents V.indexes V.entries table.now) (shown w low.now) (shown w high.now)
        (all_chosen w opts.now)) }
{
    let d = as_datum(alloc, low)?;
    let e = as_datum(alloc, high)?;
    let from = as_bound(alloc, d)?;
    let to = as_bound(alloc, e)?;
    let made = slice_by(alloc, table, from, to, opts)?;
    Ok(made)
}

/// BETWEEN: the rows between two bounds, by the primary key or by an index. They aren't read.
pub fn between<V: TableView>(
    alloc: Global,
    args: &[Arg],
    opts: &[Choice],
    world: &World<V>,
) -> Result<Value, Fault>
    ensures { let w = seen V.documents V.indexes V.entries world.now in
        (calls : Calls) → Gives (meant w) result
        (between_rule w calls (all_shown w args.now) (all_chosen w opts.now)) }
{
    match args {
        [table, low, high] => {
            let found = table_in(alloc, table, world)?;
            let made = between_in(alloc, found, low, high, opts)?;
            Ok(made)
        }
        _ => Err(Fault::QueryLogic(misplaced(alloc)?)),
    }
}
