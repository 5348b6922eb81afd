// Entries of an index as rows of two: the index value and the document.
ghost use Rattle.std.specs.Prelude.{◌≡◌, ◌∷◌, [], Ok, IfOk, map, option_map};
ghost use Rattle.std.specs.Option.{unwrap_or};
ghost use Rattle.reql_datum.specs.Outcome.{Gives};
ghost use Rattle.reql_datum.specs.View.{plain};
ghost use Rattle.reql_rules.specs.Lists.{array_of};
ghost use Rattle.reql_value_spec.specs.Meant.{Calls};
ghost use Rattle.reql_value_spec.specs.World.{World as Seen};
ghost use Rattle.reql_operand.specs.Called.{Answers};
ghost use Rattle.reql_operand.specs.Seen.{all_shown};
ghost use Rattle.reql_operand.specs.Tables.{view, seen};
ghost use Rattle.reql_apply_seq.specs.Orders.{document_of as document_of_row, entries_of_view, further_key as further_key_of, index_value as index_value_of, part_at, range_entries, row_key as row_key_of, row_of as row_of_entry, rows_of as rows_of_lists};

use crate::sort_keys::key_at;
use reql_datum::{Datum, Fault, Items, Memory};
use reql_operand::{Arg, Value, Viewed, World, misplaced, table_at};
use reql_term::{Range, TableView, ViewFault};
use std::alloc::Global;

/// The entries of a range of the table in a slot.
pub(crate) fn rows_in<V: TableView>(
    alloc: Global,
    world: &World<V>,
    slot: u32,
    range: &Range,
) -> Result<Items, Fault>
    ensures { let w = seen V.documents V.indexes V.entries world.now in
        Gives (λ rows. rows) result (Ok (map row_of_entry (range_entries w slot range.now))) }
{
    match table_at(alloc, world, slot) {
        Ok(table) => rows_of_table(alloc, table, range),
        Err(Fault::Memory) => Err(Fault::Memory),
        Err(_) => Ok(Items::new(alloc)),
    }
}

#[tactic(auto, using(crate::proofs::Entries::rows_beside, crate::proofs::Entries::none_beside))]
fn rows_of_table<V: TableView>(
    alloc: Global,
    table: &Viewed<V>,
    range: &Range,
) -> Result<Items, Fault>
    ensures { let v = view V.documents V.indexes V.entries table.now in
        Gives (λ rows. rows) result (Ok (map row_of_entry (entries_of_view range.now (Ok v)))) }
{
    match table.view.entries_between(alloc, range) {
        Ok(entries) => Ok(rows_of(alloc, &entries.values, &entries.documents)?),
        Err(ViewFault::IndexMissing) => Ok(Items::new(alloc)),
        Err(ViewFault::Memory) => Err(Fault::Memory),
    }
}

fn rows_of(alloc: Global, values: &Items, documents: &Items) -> Result<Items, Memory>
    ensures { IfOk result (λ rows. rows ≡ rows_of_lists values.now documents.now) }
{
    let mut rows = Items::with_room(alloc, values.len())?;
    let mut place = 0;
    while let Some(value) = values.at(place) {
        let Some(document) = documents.at(place) else {
            return Ok(rows);
        };
        rows.push(row_of(alloc, value, document)?)?;
        place += 1;
    }
    Ok(rows)
}

fn row_of(alloc: Global, value: &Datum, document: &Datum) -> Result<Datum, Memory>
    ensures { IfOk result (λ row. plain row
        ≡ array_of (plain value.now ∷ plain document.now ∷ [])) }
{
    let mut row = Items::with_room(alloc, 2)?;
    row.push(value.copy()?)?;
    row.push(document.copy()?)?;
    Ok(Datum::List(row))
}

/// The documents of rows.
pub(crate) fn documents_of(alloc: Global, rows: &Items) -> Result<Items, Memory>
    ensures { IfOk result (λ documents. documents ≡ map document_of_row rows.now) }
{
    let mut documents = Items::with_room(alloc, rows.len())?;
    let mut place = 0;
    while let Some(row) = rows.at(place) {
        documents.push(document_of(row)?)?;
        place += 1;
    }
    Ok(documents)
}

fn document_of(row: &Datum) -> Result<Datum, Memory>
    ensures { IfOk result (λ d. plain d ≡ document_of_row (plain row.now)) }
{
    match part_of(row, 1) {
        Some(document) => document.copy(),
        None => Ok(Datum::Null),
    }
}

#[tactic(auto, using(reql_datum::proofs::Back::back))]
fn part_of(row: &Datum, place: usize) -> Option<&Datum>
    ensures { option_map (λ d. plain d.now) result ≡ part_at place (plain row.now) }
{
    match row {
        Datum::List(parts) => parts.at(place),
        _ => None,
    }
}

/// The key at a place of a row: the index value comes first.
pub(crate) fn row_key<F: Fn(usize, &[Datum]) -> Result<Value, Fault>>(
    alloc: Global,
    keys: &[Arg],
    place: usize,
    row: &Datum,
    call: &F,
) -> Result<Datum, Fault>
    requires { F.IsAlwaysCallable call.now }
    ensures { (w : Seen) (calls : Calls) → Answers w F.Fn call.now calls → Gives plain result
        (row_key_of calls (all_shown w keys.now) place (plain row.now)) }
{
    if place == 0 {
        return index_value(alloc, row);
    }
    further_key(alloc, keys, place - 1, row, call)
}

fn index_value(alloc: Global, row: &Datum) -> Result<Datum, Fault>
    ensures { Gives plain result (index_value_of (plain row.now)) }
{
    match part_of(row, 0) {
        Some(value) => Ok(value.copy()?),
        None => Err(Fault::QueryLogic(misplaced(alloc)?)),
    }
}

fn further_key<F: Fn(usize, &[Datum]) -> Result<Value, Fault>>(
    alloc: Global,
    keys: &[Arg],
    place: usize,
    row: &Datum,
    call: &F,
) -> Result<Datum, Fault>
    requires { F.IsAlwaysCallable call.now }
    ensures { (w : Seen) (calls : Calls) → Answers w F.Fn call.now calls → Gives plain result
        (further_key_of calls (all_shown w keys.now) place (plain row.now)) }
{
    match part_of(row, 1) {
        Some(document) => key_at(alloc, keys, place, document, call),
        None => Err(Fault::QueryLogic(misplaced(alloc)?)),
    }
}
