// Sources by an index: a table, or a slice of it between bounds of the same index.
ghost use Rattle.std.specs.Prelude.{◌≡◌};
ghost use Rattle.reql_datum.specs.Answer.{Answer};
ghost use Rattle.reql_datum.specs.Outcome.{Gives};
ghost use Rattle.reql_term.specs.Views.{directed};
ghost use Rattle.reql_value_spec.specs.Meant.{slice_between, table as table_of, meant_of};
ghost use Rattle.reql_value_spec.specs.Orders.{index_source as index_source_of, bounded_source};
ghost use Rattle.reql_value_spec.specs.World.{View};
ghost use Rattle.reql_operand.specs.Seen.{meant, shown, bounds as bounds_of, rows as rows_of, slice as slice_of};
ghost use Rattle.reql_operand.specs.Tables.{seen};
ghost use Rattle.reql_apply_seq.specs.Orders.{bounded_entries, entries_of_view, span_entries, span_of_view};

use crate::indexed::index_there;
use reql_datum::{Datum, Fault, Name};
use reql_operand::{
    Arg, Bounds, Rows, Slice, Value, World, misplaced_order, same_text, table_at, value_of,
};
use reql_term::{Bound, Range, TableView};
use std::alloc::Global;

/// Entries of the table in a slot: those of an index, or of the primary order, between two bounds.
#[derive(Drop)]
pub(crate) struct Span {
    pub slot: u32,
    pub index: Option<Name>,
    pub low: Bound,
    pub high: Bound,
}

/// The span as a range, in order or in the reverse.
pub(crate) fn range_of(span: Span, down: bool) -> Range
    ensures { (a : Answer View) → entries_of_view result a ≡ directed down (span_of_view span a) }
{
    Range {
        index: span.index,
        low: span.low,
        high: span.high,
        down,
    }
}

/// The entries that a source has by an index. They aren't read.
pub(crate) fn source_by<V: TableView>(
    alloc: Global,
    source: &Arg,
    name: &Name,
    world: &World<V>,
) -> Result<Span, Fault>
    ensures { let w = seen V.documents V.indexes V.entries world.now in
        Gives (span_entries w) result
        (index_source_of w name.now (meant_of (shown w source.now))) }
{
    match value_of(source) {
        Some(value) => value_by(alloc, value, name, world),
        None => Err(Fault::QueryLogic(misplaced_order(alloc)?)),
    }
}

fn value_by<V: TableView>(
    alloc: Global,
    source: &Value,
    name: &Name,
    world: &World<V>,
) -> Result<Span, Fault>
    ensures { let w = seen V.documents V.indexes V.entries world.now in
        Gives (span_entries w) result (index_source_of w name.now (meant w source.now)) }
{
    match source {
        Value::Table(slot) => table_by(alloc, *slot, name, world),
        Value::Unread {
            slot,
            slice,
            range: _,
        } => slice_by(alloc, *slot, slice, name, world),
        Value::Selection {
            slot,
            rows,
            list: _,
        } => rows_by(alloc, *slot, *rows, name, world),
        _ => Err(Fault::QueryLogic(misplaced_order(alloc)?)),
    }
}

fn table_by<V: TableView>(
    alloc: Global,
    slot: u32,
    name: &Name,
    world: &World<V>,
) -> Result<Span, Fault>
    ensures { let w = seen V.documents V.indexes V.entries world.now in
        Gives (span_entries w) result (index_source_of w name.now (table_of slot)) }
{
    let table = table_at(alloc, world, slot)?;
    let index = index_there(alloc, table, name)?;
    Ok(Span {
        slot,
        index,
        low: Bound {
            value: Datum::Low,
            is_open: false,
        },
        high: Bound {
            value: Datum::High,
            is_open: false,
        },
    })
}

// Rows that have been read are in no order of an index.
fn rows_by<V: TableView>(
    alloc: Global,
    slot: u32,
    rows: Rows,
    name: &Name,
    _world: &World<V>,
) -> Result<Span, Fault>
    ensures { let w = seen V.documents V.indexes V.entries _world.now in
        Gives (span_entries w) result (bounded_source w slot (rows_of rows) name.now) }
{
    match rows {
        Rows::InSequence => Err(Fault::QueryLogic(misplaced_order(alloc)?)),
        Rows::InArray => Err(Fault::QueryLogic(misplaced_order(alloc)?)),
    }
}

fn slice_by<V: TableView>(
    alloc: Global,
    slot: u32,
    slice: &Slice,
    name: &Name,
    world: &World<V>,
) -> Result<Span, Fault>
    ensures { let w = seen V.documents V.indexes V.entries world.now in
        Gives (span_entries w) result (bounded_source w slot (slice_of slice.now) name.now) }
{
    match slice {
        Slice::Between(bounds) => bounds_by(alloc, slot, bounds, name, world),
        Slice::InOrder => Err(Fault::QueryLogic(misplaced_order(alloc)?)),
        Slice::Rest(_) => Err(Fault::QueryLogic(misplaced_order(alloc)?)),
    }
}

fn bounds_by<V: TableView>(
    alloc: Global,
    slot: u32,
    bounds: &Bounds,
    name: &Name,
    world: &World<V>,
) -> Result<Span, Fault>
    ensures { let w = seen V.documents V.indexes V.entries world.now in
        Gives (span_entries w) result
        (bounded_source w slot (slice_between (bounds_of bounds.now)) name.now) }
{
    if same_text(bounds.index.as_str(), name.as_str()) {
        return between(alloc, slot, bounds, name, world);
    }
    Err(Fault::QueryLogic(misplaced_order(alloc)?))
}

fn between<V: TableView>(
    alloc: Global,
    slot: u32,
    bounds: &Bounds,
    name: &Name,
    world: &World<V>,
) -> Result<Span, Fault>
    ensures { let w = seen V.documents V.indexes V.entries world.now in
        Gives (span_entries w) result
        (bounded_entries w slot (bounds_of bounds.now) name.now) }
{
    let table = table_at(alloc, world, slot)?;
    let index = index_there(alloc, table, name)?;
    let low = bounds.low.copy()?;
    let high = bounds.high.copy()?;
    Ok(Span {
        slot,
        index,
        low,
        high,
    })
}
