// ORDER_BY with an index.
ghost use Rattle.std.specs.Prelude.{◌≡◌, List, ◌∷◌, Ok, Some, map};
ghost use Rattle.reql_datum.specs.Outcome.{Gives};
ghost use Rattle.reql_datum.specs.Plain.{Plain};
ghost use Rattle.reql_term.specs.Views.{directed, documents_in};
ghost use Rattle.reql_rules.specs.Sorting.{order_all};
ghost use Rattle.reql_value_spec.specs.Meant.{Calls, meant_of, selection, slice_in_order};
ghost use Rattle.reql_value_spec.specs.Orders.{is_down, order_by_index as order_by_index_of, order_in};
ghost use Rattle.reql_value_spec.specs.World.{World as Seen, view_at};
ghost use Rattle.reql_operand.specs.Called.{Answers};
ghost use Rattle.reql_operand.specs.Seen.{meant, shown, all_shown};
ghost use Rattle.reql_operand.specs.Tables.{seen};
ghost use Rattle.reql_apply_seq.specs.Orders.{further_selected, range_entries, row_key as row_key_of, rows_ordered, rows_selected, span_of_view};

use crate::rows::{documents_of, row_key, rows_in};
use crate::sort_keys::directions_after;
use crate::spans::{Span, range_of, source_by};
use reql_datum::{Datum, Fault, Items, Name};
use reql_operand::{Arg, Rows, Slice, Value, World};
use reql_term::{Range, TableView};
use std::alloc::Global;

/// The elements by an index, and then by keys. Without keys they are a slice that hasn't been read.
pub(crate) fn order_by_index<V: TableView, F: Fn(usize, &[Datum]) -> Result<Value, Fault>>(
    alloc: Global,
    source: &Arg,
    keys: &[Arg],
    name: &Name,
    down: bool,
    world: &World<V>,
    call: &F,
) -> Result<Value, Fault>
    requires { F.IsAlwaysCallable call.now }
    ensures { let w = seen V.documents V.indexes V.entries world.now in
        (calls : Calls) → Answers w F.Fn call.now calls → (ds : List Plain)
        → Gives (meant w) result (order_in w calls (meant_of (shown w source.now))
        (all_shown w keys.now) ds (Some (name.now, down))) }
{
    let span = source_by(alloc, source, name, world)?;
    order_span(alloc, span, keys, down, world, call)
}

fn order_span<V: TableView, F: Fn(usize, &[Datum]) -> Result<Value, Fault>>(
    alloc: Global,
    span: Span,
    keys: &[Arg],
    down: bool,
    world: &World<V>,
    call: &F,
) -> Result<Value, Fault>
    requires { F.IsAlwaysCallable call.now }
    ensures { let w = seen V.documents V.indexes V.entries world.now in
        (calls : Calls) → Answers w F.Fn call.now calls → Gives (meant w) result
        (order_by_index_of calls span.slot down (all_shown w keys.now)
        (directed down (span_of_view span (view_at w span.slot)))) }
{
    let slot = span.slot;
    let range = range_of(span, down);
    order_range(alloc, slot, &range, keys, down, world, call)
}

fn order_range<V: TableView, F: Fn(usize, &[Datum]) -> Result<Value, Fault>>(
    alloc: Global,
    slot: u32,
    range: &Range,
    keys: &[Arg],
    down: bool,
    world: &World<V>,
    call: &F,
) -> Result<Value, Fault>
    requires { F.IsAlwaysCallable call.now }
    ensures { let w = seen V.documents V.indexes V.entries world.now in
        (calls : Calls) → Answers w F.Fn call.now calls → Gives (meant w) result
        (order_by_index_of calls slot down (all_shown w keys.now)
        (range_entries w slot range.now)) }
{
    match keys {
        [] => unread(slot, range, world),
        _ => order_by_both(alloc, slot, range, keys, down, world, call),
    }
}

fn order_by_both<V: TableView, F: Fn(usize, &[Datum]) -> Result<Value, Fault>>(
    alloc: Global,
    slot: u32,
    range: &Range,
    keys: &[Arg],
    down: bool,
    world: &World<V>,
    call: &F,
) -> Result<Value, Fault>
    requires { F.IsAlwaysCallable call.now }
    ensures { let w = seen V.documents V.indexes V.entries world.now in
        (calls : Calls) → Answers w F.Fn call.now calls → Gives (meant w) result
        (further_selected calls slot down (all_shown w keys.now)
        (range_entries w slot range.now)) }
{
    order_selected(alloc, slot, range, keys, down, world, call)
}

fn order_selected<V: TableView, F: Fn(usize, &[Datum]) -> Result<Value, Fault>>(
    alloc: Global,
    slot: u32,
    range: &Range,
    keys: &[Arg],
    down: bool,
    world: &World<V>,
    call: &F,
) -> Result<Value, Fault>
    requires { F.IsAlwaysCallable call.now }
    ensures { let w = seen V.documents V.indexes V.entries world.now in
        (calls : Calls) → Answers w F.Fn call.now calls → Gives (meant w) result
        (rows_selected calls slot down (all_shown w keys.now) (range_entries w slot range.now)) }
{
    let list = order_entries(alloc, slot, range, keys, down, world, call)?;
    Ok(Value::Selection {
        slot,
        rows: Rows::InSequence,
        list,
    })
}

fn order_entries<V: TableView, F: Fn(usize, &[Datum]) -> Result<Value, Fault>>(
    alloc: Global,
    slot: u32,
    range: &Range,
    keys: &[Arg],
    down: bool,
    world: &World<V>,
    call: &F,
) -> Result<Items, Fault>
    requires { F.IsAlwaysCallable call.now }
    ensures { let w = seen V.documents V.indexes V.entries world.now in
        (calls : Calls) → Answers w F.Fn call.now calls → Gives (λ items. items) result
        (rows_ordered calls down (all_shown w keys.now) (range_entries w slot range.now)) }
{
    let rows = rows_in(alloc, world, slot, range)?;
    let ordered = order_rows(alloc, &rows, keys, down, call)?;
    Ok(documents_of(alloc, &ordered)?)
}

fn order_rows<F: Fn(usize, &[Datum]) -> Result<Value, Fault>>(
    alloc: Global,
    rows: &Items,
    keys: &[Arg],
    down: bool,
    call: &F,
) -> Result<Items, Fault>
    requires { F.IsAlwaysCallable call.now }
    ensures { (w : Seen) (calls : Calls) → Answers w F.Fn call.now calls
        → Gives (λ items. items) result (order_all (row_key_of calls (all_shown w keys.now))
        (down ∷ map is_down (all_shown w keys.now)) rows.now) }
{
    let down = directions_after(alloc, down, keys)?;
    order_rows_by(alloc, rows, keys, &down, call)
}

fn order_rows_by<F: Fn(usize, &[Datum]) -> Result<Value, Fault>>(
    alloc: Global,
    rows: &Items,
    keys: &[Arg],
    down: &[bool],
    call: &F,
) -> Result<Items, Fault>
    requires { F.IsAlwaysCallable call.now }
    ensures { (w : Seen) (calls : Calls) → Answers w F.Fn call.now calls
        → Gives (λ items. items) result
        (order_all (row_key_of calls (all_shown w keys.now)) down.now rows.now) }
{
    reql_seq::order(
        alloc,
        rows,
        &|place: usize, row: &Datum|
            requires { F.IsAlwaysCallable call.now }
        { row_key(alloc, keys, place, row, call) },
        down,
    )
}

// The rows of a range in its order, which aren't read.
fn unread<V: TableView>(slot: u32, range: &Range, _world: &World<V>) -> Result<Value, Fault>
    ensures { let w = seen V.documents V.indexes V.entries _world.now in
        Gives (meant w) result (Ok (selection slot slice_in_order
        (documents_in (range_entries w slot range.now)))) }
{
    Ok(Value::Unread {
        slot,
        slice: Slice::InOrder,
        range: range.copy()?,
    })
}
