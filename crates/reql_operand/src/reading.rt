// Sequences and tables, as values and arguments, and the documents that they have.
ghost use Rattle.std.specs.Prelude.{◌≡◌, Ok, Err, map, take, drop, is_ok, false, codes};
ghost use Rattle.reql_datum.specs.Outcome.{Gives};
ghost use Rattle.reql_datum.specs.View.{plain};
ghost use Rattle.reql_rules.specs.Types.{wanted, items_in as items_in_of};
ghost use Rattle.reql_value_spec.specs.Meant.{one};
ghost use Rattle.reql_value_spec.specs.Wanted.{wrong as wrong_of, to_sequence as to_sequence_of, as_sequence as as_sequence_of, to_table as to_table_of, as_table as as_table_of};
ghost use Rattle.reql_operand.specs.Seen.{meant, shown, left_of, documents_at, documents_of_view};
ghost use Rattle.reql_value_spec.specs.World.{World as Seen};
ghost use Rattle.reql_operand.specs.Tables.{view, seen};

use crate::counted::count_range;
use crate::purse::paid;
use crate::texts::type_text;
use crate::value::{Arg, Slice, Value};
use crate::wanted::{no_value, wrong};
use crate::world::{Viewed, World, table_at};
use reql_datum::{Datum, Fault, Items};
use reql_term::{Range, TableView, ViewFault};
use std::alloc::Global;

// Each document that is read is paid for.

/// The documents of a table, rising by key.
fn all_documents<V: TableView>(
    alloc: Global,
    world: &World<V>,
    table: &Viewed<V>,
) -> Result<Items, Fault>
    ensures { Gives (λ items. items) result (Ok (map (λ m. m.1) (V.documents table.now.view))) }
{
    let items = table.view.scan(alloc)?;
    Ok(paid(&world.purse, items, 1)?)
}

/// The documents of a range of a table.
fn in_range<V: TableView>(
    alloc: Global,
    world: &World<V>,
    table: &Viewed<V>,
    range: &Range,
) -> Result<Items, Fault>
    ensures { Gives (λ items. items) result
        (Ok (documents_of_view range.now (Ok (view V.documents V.indexes V.entries table.now)))) }
{
    match table.view.between(alloc, range) {
        Ok(items) => Ok(paid(&world.purse, items, 1)?),
        Err(ViewFault::IndexMissing) => Ok(Items::new(alloc)),
        Err(ViewFault::Memory) => Err(Fault::Memory),
    }
}

// The documents of a range of the table in a slot.
fn read_range<V: TableView>(
    alloc: Global,
    world: &World<V>,
    slot: u32,
    range: &Range,
) -> Result<Items, Fault>
    ensures { Gives (λ items. items) result
        (Ok (documents_at (seen V.documents V.indexes V.entries world.now) slot range.now)) }
{
    match table_at(alloc, world, slot) {
        Ok(table) => in_range(alloc, world, table, range),
        Err(Fault::Memory) => Err(Fault::Memory),
        Err(_) => Ok(Items::new(alloc)),
    }
}

fn part_in_range<V: TableView>(
    alloc: Global,
    world: &World<V>,
    table: &Viewed<V>,
    range: &Range,
    from: usize,
    most: usize,
) -> Result<Items, Fault>
    ensures { Gives (λ items. items) result (Ok (take most (drop from
        (documents_of_view range.now (Ok (view V.documents V.indexes V.entries table.now)))))) }
{
    match table.view.part(alloc, range, from, most) {
        Ok(items) => Ok(paid(&world.purse, items, 1)?),
        Err(ViewFault::IndexMissing) => Ok(Items::new(alloc)),
        Err(ViewFault::Memory) => Err(Fault::Memory),
    }
}

/// So many documents at most of a range of the table in a slot, from the one at a place on. No
/// others are read.
pub fn read_part<V: TableView>(
    alloc: Global,
    world: &World<V>,
    slot: u32,
    range: &Range,
    from: usize,
    most: usize,
) -> Result<Items, Fault>
    ensures { Gives (λ items. items) result (Ok (take most (drop from
        (documents_at (seen V.documents V.indexes V.entries world.now) slot range.now)))) }
{
    match table_at(alloc, world, slot) {
        Ok(table) => part_in_range(alloc, world, table, range, from, most),
        Err(Fault::Memory) => Err(Fault::Memory),
        Err(_) => Ok(Items::new(alloc)),
    }
}

/// The documents of a range of the table in a slot, from the one at a place on. Those before it
/// aren't read.
#[tactic(auto, using(crate::proofs::Parts::rest_from))]
pub fn read_rest<V: TableView>(
    alloc: Global,
    world: &World<V>,
    slot: u32,
    range: &Range,
    from: usize,
) -> Result<Items, Fault>
    ensures { Gives (λ items. items) result (Ok (drop from
        (documents_at (seen V.documents V.indexes V.entries world.now) slot range.now))) }
{
    let size = count_range(alloc, world, slot, range)?;
    read_part(alloc, world, slot, range, from, size as usize)
}

/// The rows of a slice of the table in a slot.
pub fn read_slice<V: TableView>(
    alloc: Global,
    world: &World<V>,
    slot: u32,
    slice: &Slice,
    range: &Range,
) -> Result<Items, Fault>
    ensures { Gives (λ items. items) result (Ok (left_of slice.now
        (documents_at (seen V.documents V.indexes V.entries world.now) slot range.now))) }
{
    match slice {
        Slice::Between(_) => read_range(alloc, world, slot, range),
        Slice::InOrder => read_range(alloc, world, slot, range),
        Slice::Rest(passed) => read_rest(alloc, world, slot, range, *passed),
    }
}

/// The items of an array, where a sequence is wanted.
#[tactic(auto, using(reql_datum::proofs::Back::back))]
fn items_in(alloc: Global, d: &Datum) -> Result<Items, Fault>
    ensures { Gives (λ items. items) result
        (wanted (wrong_of (codes "SEQUENCE") (one (plain d.now))) (items_in_of (plain d.now))) }
{
    match d {
        Datum::List(items) => Ok(items.copy()?),
        Datum::Null => Err(Fault::NonExistence(type_text(alloc, "SEQUENCE", "NULL")?)),
        _ => Err(Fault::QueryLogic(type_text(alloc, "SEQUENCE", d.type_name())?)),
    }
}

fn no_sequence(alloc: Global, value: &Value) -> Result<Items, Fault>
    ensures fault { is_ok result ≡ false }
    ensures which { (w : Seen) → Gives (λ items. items) result
        (Err (wrong_of (codes "SEQUENCE") (meant w value.now))) }
{
    match wrong(alloc, "SEQUENCE", value) {
        Err(fault) => Err(fault),
        Ok(_) => unreachable!(),
    }
}

/// The elements, where a sequence is wanted. A table and a slice of it are read.
pub fn to_sequence<V: TableView>(
    alloc: Global,
    value: &Value,
    world: &World<V>,
) -> Result<Items, Fault>
    ensures { Gives (λ items. items) result
        (to_sequence_of (seen V.documents V.indexes V.entries world.now)
        (meant (seen V.documents V.indexes V.entries world.now) value.now)) }
{
    match value {
        Value::One(d) => items_in(alloc, d),
        Value::Stream(items) => Ok(items.copy()?),
        Value::Selection {
            slot: _,
            rows: _,
            list,
        } => Ok(list.copy()?),
        Value::Unread { slot, slice, range } => read_slice(alloc, world, *slot, slice, range),
        Value::Table(slot) => all_documents(alloc, world, table_at(alloc, world, *slot)?),
        _ => no_sequence(alloc, value),
    }
}

/// The elements, as an argument.
pub fn as_sequence<V: TableView>(alloc: Global, arg: &Arg, world: &World<V>) -> Result<Items, Fault>
    ensures { Gives (λ items. items) result
        (as_sequence_of (seen V.documents V.indexes V.entries world.now)
        (shown (seen V.documents V.indexes V.entries world.now) arg.now)) }
{
    match arg {
        Arg::Value(value) => to_sequence(alloc, value, world),
        Arg::Function(_) => Err(Fault::QueryLogic(no_value(alloc, "SEQUENCE")?)),
        Arg::Directed { down: _, key: _ } => Err(Fault::QueryLogic(no_value(alloc, "SEQUENCE")?)),
        Arg::Late {
            texted: _,
            outcome: _,
        } => Err(Fault::QueryLogic(no_value(alloc, "SEQUENCE")?)),
    }
}

fn to_table<'a, V: TableView>(
    alloc: Global,
    value: &Value,
    world: &'a World<V>,
) -> Result<&'a Viewed<V>, Fault>
    ensures { Gives (λ t. (t.now.slot, view V.documents V.indexes V.entries t.now)) result
        (to_table_of (seen V.documents V.indexes V.entries world.now)
        (meant (seen V.documents V.indexes V.entries world.now) value.now)) }
{
    match value {
        Value::Table(slot) => Ok(table_at(alloc, world, *slot)?),
        _ => match wrong(alloc, "TABLE", value) {
            Err(fault) => Err(fault),
            Ok(_) => unreachable!(),
        },
    }
}

/// The table, as an argument.
pub fn as_table<'a, V: TableView>(
    alloc: Global,
    arg: &Arg,
    world: &'a World<V>,
) -> Result<&'a Viewed<V>, Fault>
    ensures { Gives (λ t. (t.now.slot, view V.documents V.indexes V.entries t.now)) result
        (as_table_of (seen V.documents V.indexes V.entries world.now)
        (shown (seen V.documents V.indexes V.entries world.now) arg.now)) }
{
    match arg {
        Arg::Value(value) => to_table(alloc, value, world),
        Arg::Function(_) => to_table(alloc, &Value::Function, world),
        Arg::Directed { down: _, key: _ } => to_table(alloc, &Value::Function, world),
        Arg::Late {
            texted: _,
            outcome: _,
        } => to_table(alloc, &Value::Function, world),
    }
}
