// The primary keys of what a selection gave.
ghost use Rattle.std.specs.Prelude.{◌≡◌, ◌∷◌, [], IfOk, Ok, map};
ghost use Rattle.std.specs.Map.{keys_of};
ghost use Rattle.reql_datum.specs.Outcome.{Gives};
ghost use Rattle.reql_datum.specs.View.{plain};
ghost use Rattle.reql_operand.specs.Seen.{meant};
ghost use Rattle.reql_operand.specs.Tables.{seen as seen_world};
ghost use Rattle.reql_table.specs.Seen.{documents_of, indexes_of, entries_at};
ghost use Rattle.reql_write_spec.specs.Selecting.{key_in as key_in_of, row_keys};
ghost use Rattle.reql_write.specs.Selecting.{IsWhole};

use crate::members::field_in;
use reql_datum::{Datum, Fault, Items, Memory, Name};
use reql_operand::{Value, World, read_slice};
use reql_table::Table;
use reql_term::{Bound, Range, TableView};
use std::alloc::Global;

// The primary key of a document.
fn key_in(field: &Name, document: &Datum) -> Result<Datum, Memory>
    ensures { IfOk result (λ d. plain d ≡ key_in_of field.now (plain document.now)) }
{
    match field_in(field.as_str(), document) {
        Some(key) => key.copy(),
        None => Ok(Datum::Null),
    }
}

// The primary keys of documents.
#[tactic(auto, using(reql_datum::proofs::Walks::walks))]
fn keys_in(alloc: Global, field: &Name, documents: &Items) -> Result<Items, Memory>
    ensures { IfOk result (λ items. items ≡ map (key_in_of field.now) documents.now) }
{
    let mut keys = Items::with_room(alloc, documents.len())?;
    let mut place = 0;
    while let Some(document) = documents.at(place) {
        keys.push(key_in(field, document)?)?;
        place += 1;
    }
    Ok(keys)
}

// All that a table has, rising by key.
fn everything() -> Range
    ensures { IsWhole result }
{
    Range {
        index: None,
        low: Bound {
            value: Datum::Low,
            is_open: false,
        },
        high: Bound {
            value: Datum::High,
            is_open: false,
        },
        down: false,
    }
}

// The primary keys of a table.
#[tactic(auto, using(crate::proofs::Rows::all_keys))]
fn table_keys(alloc: Global, table: &Table) -> Result<Items, Memory>
    ensures { IfOk result (λ items. items ≡ keys_of (documents_of table.now)) }
{
    match table.entries_between(alloc, &everything()) {
        Ok(entries) => Ok(entries.values),
        Err(_) => Err(Memory),
    }
}

fn one_key(alloc: Global, key: &Datum) -> Result<Items, Memory>
    ensures { IfOk result (λ items. items ≡ plain key.now ∷ []) }
{
    let mut keys = Items::with_room(alloc, 1)?;
    keys.push(key.copy()?)?;
    Ok(keys)
}

/// The primary keys of the rows that a selection of a table gave.
pub(crate) fn keys_of_value(
    alloc: Global,
    table: &Table,
    field: &Name,
    world: &World<Table>,
    value: &Value,
) -> Result<Items, Fault>
    ensures { let w = seen_world documents_of indexes_of entries_at world.now in
        Gives (λ items. items) result (Ok (row_keys field.now (documents_of table.now)
        (meant w value.now))) }
{
    match value {
        Value::Row {
            slot: _,
            key,
            document: _,
        } => Ok(one_key(alloc, key)?),
        Value::Selection {
            slot: _,
            rows: _,
            list,
        } => Ok(keys_in(alloc, field, list)?),
        Value::Unread { slot, slice, range } => {
            let documents = read_slice(alloc, world, *slot, slice, range)?;
            Ok(keys_in(alloc, field, &documents)?)
        }
        Value::Table(_) => Ok(table_keys(alloc, table)?),
        _ => Ok(Items::new(alloc)),
    }
}
