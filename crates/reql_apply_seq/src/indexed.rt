// The values of an index of a table.
ghost use Rattle.std.specs.Prelude.{Ok};
ghost use Rattle.reql_datum.specs.Outcome.{Gives};
ghost use Rattle.reql_term.specs.Views.{entries_in};
ghost use Rattle.reql_value_spec.specs.World.{entries_named};
ghost use Rattle.reql_operand.specs.Seen.{meant};
ghost use Rattle.reql_operand.specs.Tables.{view, seen};
ghost use Rattle.reql_apply_seq.specs.Indexes.{entries_by, entries_any, named, values_any, named_values as named_values_of, table_values as table_values_of};

use reql_datum::{Fault, Items, Name};
use reql_operand::{
    Value, Viewed, World, misplaced_order, no_index, same_text, table_at, whole_range,
};
use reql_term::{Range, TableView, ViewFault};
use std::alloc::Global;

/// The values of an index of a table in its order. Only a table has any.
pub(crate) fn table_values<V: TableView>(
    alloc: Global,
    source: &Value,
    name: &Name,
    world: &World<V>,
) -> Result<Items, Fault>
    ensures { let w = seen V.documents V.indexes V.entries world.now in
        Gives (λ items. items) result (table_values_of w name.now (meant w source.now)) }
{
    match source {
        Value::Table(slot) => {
            let table = table_at(alloc, world, *slot)?;
            named_values(alloc, table, name)
        }
        _ => Err(Fault::QueryLogic(misplaced_order(alloc)?)),
    }
}

fn named_values<V: TableView>(alloc: Global, table: &Viewed<V>, name: &Name) -> Result<Items, Fault>
    ensures { let v = view V.documents V.indexes V.entries table.now in
        Gives (λ items. items) result (named_values_of v name.now) }
{
    let index = index_there(alloc, table, name)?;
    values_by(alloc, table, index)
}

/// The name of an index as a view is asked for it: none where it is that of the key field.
pub(crate) fn index_there<V: TableView>(
    alloc: Global,
    table: &Viewed<V>,
    name: &Name,
) -> Result<Option<Name>, Fault>
    ensures named { let v = view V.documents V.indexes V.entries table.now in
        Gives (entries_by v) result (named v name.now) }
    ensures there { let v = view V.documents V.indexes V.entries table.now in
        Gives (entries_any v) result (entries_named v name.now) }
{
    if same_text(name.as_str(), table.key.as_str()) {
        return Ok(None);
    }
    match table.view.index(name) {
        Some(_) => Ok(Some(name.copy()?)),
        None => Err(Fault::OpFailed(no_index(alloc, name.as_str())?)),
    }
}

fn values_by<V: TableView>(
    alloc: Global,
    table: &Viewed<V>,
    index: Option<Name>,
) -> Result<Items, Fault>
    ensures { let v = view V.documents V.indexes V.entries table.now in
        Gives (λ items. items) result (Ok (values_any (entries_by v index))) }
{
    let range = whole_range(index);
    values_between(alloc, table, &range)
}

fn values_between<V: TableView>(
    alloc: Global,
    table: &Viewed<V>,
    range: &Range,
) -> Result<Items, Fault>
    ensures { Gives (λ items. items) result (Ok (values_any
        (entries_in (V.documents table.now.view) (V.indexes table.now.view)
        (V.entries table.now.view) range.now))) }
{
    match table.view.entries_between(alloc, range) {
        Ok(entries) => Ok(entries.values),
        Err(ViewFault::IndexMissing) => Ok(Items::new(alloc)),
        Err(ViewFault::Memory) => Err(Fault::Memory),
    }
}
