// Elements counted, and single ones taken, without reading the others of a slice.
ghost use Rattle.std.specs.Prelude.{◌≡◌, List, ℕ, Ok, IfOk, length, drop, option_map, slice_get};
ghost use Rattle.reql_datum.specs.Outcome.{Gives};
ghost use Rattle.reql_datum.specs.View.{plain};
ghost use Rattle.reql_term.specs.Views.{Document, Entry, Index, entries_in, entries_of};
ghost use Rattle.reql_value_spec.specs.Meant.{table as table_of};
ghost use Rattle.reql_value_spec.specs.Sequences.{count_elements as count_elements_of};
ghost use Rattle.reql_operand.specs.Counted.{element};
ghost use Rattle.reql_operand.specs.Seen.{meant, left_of, documents_at, documents_of_view};
ghost use Rattle.reql_operand.specs.Tables.{view, seen};

use crate::reading::{read_rest, to_sequence};
use crate::value::{Slice, Value};
use crate::world::{Viewed, World, table_at};
use reql_datum::{Datum, Fault, Items, Memory, Name};
use reql_term::{Bound, Range, TableView, ViewFault};
use std::alloc::Global;

fn count_in_table<V: TableView>(table: &Viewed<V>, range: &Range) -> Result<u64, Fault>
    ensures { Gives (λ n. n) result (Ok (length
        (documents_of_view range.now (Ok (view V.documents V.indexes V.entries table.now))))) }
{
    match table.view.count_between(range) {
        Ok(count) => Ok(count),
        Err(ViewFault::IndexMissing) => Ok(0),
        Err(ViewFault::Memory) => Err(Fault::Memory),
    }
}

/// How many documents a range of the table in a slot has.
pub fn count_range<V: TableView>(
    alloc: Global,
    world: &World<V>,
    slot: u32,
    range: &Range,
) -> Result<u64, Fault>
    ensures { Gives (λ n. n) result (Ok (length
        (documents_at (seen V.documents V.indexes V.entries world.now) slot range.now))) }
{
    match table_at(alloc, world, slot) {
        Ok(table) => count_in_table(table, range),
        Err(Fault::Memory) => Err(Fault::Memory),
        Err(_) => Ok(0),
    }
}

/// How many documents a range of the table in a slot has from the one at a place on.
pub fn count_rest<V: TableView>(
    alloc: Global,
    world: &World<V>,
    slot: u32,
    range: &Range,
    from: usize,
) -> Result<u64, Fault>
    ensures { Gives (λ n. n) result (Ok (length (drop from
        (documents_at (seen V.documents V.indexes V.entries world.now) slot range.now)))) }
{
    let size = count_range(alloc, world, slot, range)?;
    Ok(size.saturating_sub(from as u64))
}

fn count_slice<V: TableView>(
    alloc: Global,
    world: &World<V>,
    slot: u32,
    slice: &Slice,
    range: &Range,
) -> Result<u64, Fault>
    ensures { Gives (λ n. n) result (Ok (length (left_of slice.now
        (documents_at (seen V.documents V.indexes V.entries world.now) slot range.now)))) }
{
    match slice {
        Slice::Between(_) => count_range(alloc, world, slot, range),
        Slice::InOrder => count_range(alloc, world, slot, range),
        Slice::Rest(passed) => count_rest(alloc, world, slot, range, *passed),
    }
}

/// All of an index, or of the primary order.
pub fn whole_range(index: Option<Name>) -> Range
    ensures { (documents : List Document) (indexes : List (List ℕ × Index))
        (entries : List ℕ → List Entry) → entries_in documents indexes entries result
        ≡ entries_of documents indexes entries index }
{
    Range {
        index,
        low: Bound {
            value: Datum::Low,
            is_open: false,
        },
        high: Bound {
            value: Datum::High,
            is_open: false,
        },
        down: false,
    }
}

fn count_whole<V: TableView>(alloc: Global, world: &World<V>, slot: u32) -> Result<u64, Fault>
    ensures { Gives (λ n. n) result
        (count_elements_of (seen V.documents V.indexes V.entries world.now) (table_of slot)) }
{
    let table = table_at(alloc, world, slot)?;
    let range = whole_range(None);
    let count = count_in_table(table, &range)?;
    Ok(count)
}

/// How many elements a sequence has. Neither a table nor a slice of one is read for it.
pub fn count_elements<V: TableView>(
    alloc: Global,
    value: &Value,
    world: &World<V>,
) -> Result<u64, Fault>
    ensures { Gives (λ n. n) result
        (count_elements_of (seen V.documents V.indexes V.entries world.now)
        (meant (seen V.documents V.indexes V.entries world.now) value.now)) }
{
    match value {
        Value::Unread { slot, slice, range } => count_slice(alloc, world, *slot, slice, range),
        Value::Table(slot) => count_whole(alloc, world, *slot),
        _ => {
            let items = to_sequence(alloc, value, world)?;
            Ok(items.len() as u64)
        }
    }
}

fn copy_at(items: &Items, place: usize) -> Result<Option<Datum>, Memory>
    ensures { IfOk result (λ d. option_map plain d ≡ slice_get items.now place) }
{
    match items.at(place) {
        Some(d) => Ok(Some(d.copy()?)),
        None => Ok(None),
    }
}

#[tactic(auto, using(crate::proofs::Parts::first_of_part))]
fn take_in_table<V: TableView>(
    alloc: Global,
    table: &Viewed<V>,
    range: &Range,
    place: usize,
) -> Result<Option<Datum>, Fault>
    ensures { Gives (option_map plain) result (Ok (slice_get
        (documents_of_view range.now (Ok (view V.documents V.indexes V.entries table.now)))
        place)) }
{
    match table.view.part(alloc, range, place, 1) {
        Ok(items) => Ok(copy_at(&items, 0)?),
        Err(ViewFault::IndexMissing) => Ok(None),
        Err(ViewFault::Memory) => Err(Fault::Memory),
    }
}

fn take_in_range<V: TableView>(
    alloc: Global,
    world: &World<V>,
    slot: u32,
    range: &Range,
    place: usize,
) -> Result<Option<Datum>, Fault>
    ensures { Gives (option_map plain) result (Ok (slice_get
        (documents_at (seen V.documents V.indexes V.entries world.now) slot range.now) place)) }
{
    match table_at(alloc, world, slot) {
        Ok(table) => take_in_table(alloc, table, range, place),
        Err(Fault::Memory) => Err(Fault::Memory),
        Err(_) => Ok(None),
    }
}

// Of a range but so many of the first.
#[tactic(auto, using(crate::proofs::Parts::at_rest))]
fn take_in_rest<V: TableView>(
    alloc: Global,
    world: &World<V>,
    slot: u32,
    range: &Range,
    passed: usize,
    place: usize,
) -> Result<Option<Datum>, Fault>
    ensures { Gives (option_map plain) result (Ok (slice_get (drop passed
        (documents_at (seen V.documents V.indexes V.entries world.now) slot range.now)) place)) }
{
    match passed.checked_add(place) {
        Some(at) => take_in_range(alloc, world, slot, range, at),
        None => {
            let rest = read_rest(alloc, world, slot, range, passed)?;
            Ok(copy_at(&rest, place)?)
        }
    }
}

fn take_in_slice<V: TableView>(
    alloc: Global,
    world: &World<V>,
    slot: u32,
    slice: &Slice,
    range: &Range,
    place: usize,
) -> Result<Option<Datum>, Fault>
    ensures { Gives (option_map plain) result (Ok (slice_get (left_of slice.now
        (documents_at (seen V.documents V.indexes V.entries world.now) slot range.now)) place)) }
{
    match slice {
        Slice::Between(_) => take_in_range(alloc, world, slot, range, place),
        Slice::InOrder => take_in_range(alloc, world, slot, range, place),
        Slice::Rest(passed) => take_in_rest(alloc, world, slot, range, *passed, place),
    }
}

fn take_in_whole<V: TableView>(
    alloc: Global,
    world: &World<V>,
    slot: u32,
    place: usize,
) -> Result<Option<Datum>, Fault>
    ensures { Gives (option_map plain) result
        (element (seen V.documents V.indexes V.entries world.now) place (table_of slot)) }
{
    let table = table_at(alloc, world, slot)?;
    let range = whole_range(None);
    let found = take_in_table(alloc, table, &range, place)?;
    Ok(found)
}

/// The element at a place of a sequence. Of a table or a slice of one no other is read for it.
pub fn element_at<V: TableView>(
    alloc: Global,
    value: &Value,
    world: &World<V>,
    place: usize,
) -> Result<Option<Datum>, Fault>
    ensures { Gives (option_map plain) result
        (element (seen V.documents V.indexes V.entries world.now) place
        (meant (seen V.documents V.indexes V.entries world.now) value.now)) }
{
    match value {
        Value::Unread { slot, slice, range } => {
            take_in_slice(alloc, world, *slot, slice, range, place)
        }
        Value::Table(slot) => take_in_whole(alloc, world, *slot, place),
        _ => {
            let items = to_sequence(alloc, value, world)?;
            Ok(copy_at(&items, place)?)
        }
    }
}
