// GET and GET_ALL.
ghost use Rattle.std.specs.Prelude.{◌≡◌, ◌∷◌, IfOk, map};
ghost use Rattle.reql_datum.specs.Keys.{is_key};
ghost use Rattle.reql_datum.specs.Kinds.{is_storable};
ghost use Rattle.reql_datum.specs.Order.{order};
ghost use Rattle.reql_datum.specs.Outcome.{Gives};
ghost use Rattle.reql_datum.specs.View.{plain};
ghost use Rattle.reql_memory.specs.Sorted.{find_by};
ghost use Rattle.reql_rules.specs.Lists.{each};
ghost use Rattle.reql_value_spec.specs.Meant.{Calls, Options, row};
ghost use Rattle.reql_value_spec.specs.Tables.{key_if, get_rule, get_all_rule};
ghost use Rattle.reql_value_spec.specs.World.{World as Seen};
ghost use Rattle.reql_operand.specs.Seen.{meant, shown, all_shown, all_chosen};
ghost use Rattle.reql_operand.specs.Tables.{view, seen};
ghost use Rattle.reql_apply_table.specs.Sources.{having, row_at, rows_at, rows_by as rows_by_of};

use crate::sources::{documents_having, foreseen, index_or_key};
use reql_datum::{Datum, Fault, Items, Memory, Name};
use reql_operand::{
    Arg, Choice, Rows, Value, Viewed, World, as_data, as_datum, as_table, index_text, misplaced,
    not_a_key, paid,
};
use reql_term::TableView;
use std::alloc::Global;

fn as_key(alloc: Global, d: Datum) -> Result<Datum, Fault>
    ensures { Gives plain result (key_if is_key (plain d)) }
{
    if d.is_key() {
        return Ok(d);
    }
    Err(Fault::QueryLogic(not_a_key(alloc, d.type_name())?))
}

fn row_of<V: TableView>(table: &Viewed<V>, key: Datum) -> Result<Value, Memory>
    ensures { (w : Seen) → IfOk result (λ r. meant w r ≡ row table.now.slot (plain key)
        (find_by order (plain key) (V.documents table.now.view))) }
{
    let document = match table.view.get(&key) {
        Some(d) => Some(d.copy()?),
        None => None,
    };
    Ok(Value::Row {
        slot: table.slot,
        key,
        document,
    })
}

// The row of a key of a table.
fn row_in<V: TableView>(alloc: Global, table: &Viewed<V>, key: &Arg) -> Result<Value, Fault>
    ensures { (w : Seen) → Gives (meant w) result (row_at table.now.slot
        (view V.documents V.indexes V.entries table.now) (shown w key.now)) }
{
    let d = as_datum(alloc, key)?;
    let primary = as_key(alloc, d)?;
    let row = row_of(table, primary)?;
    Ok(row)
}

/// GET: the row of a primary key.
pub fn get<V: TableView>(alloc: Global, args: &[Arg], world: &World<V>) -> Result<Value, Fault>
    ensures { let w = seen V.documents V.indexes V.entries world.now in
        (calls : Calls) (opts : Options) → Gives (meant w) result
        (get_rule w calls (all_shown w args.now) opts) }
{
    match args {
        [] => Err(Fault::QueryLogic(misplaced(alloc)?)),
        [_] => Err(Fault::QueryLogic(misplaced(alloc)?)),
        [table, key] => {
            let found = as_table(alloc, table, world)?;
            let row = row_in(alloc, found, key)?;
            Ok(row)
        }
        [_, _, _, ..] => Err(Fault::QueryLogic(misplaced(alloc)?)),
    }
}

// That all may be keys of GET_ALL.
fn all_storable(alloc: Global, keys: &[Datum]) -> Result<(), Fault>
    ensures { Gives (λ u. map plain keys.now) result
        (each (key_if is_storable) (map plain keys.now)) }
{
    for key in keys {
        if !key.is_storable() {
            return Err(Fault::QueryLogic(not_a_key(alloc, key.type_name())?));
        }
    }
    Ok(())
}

fn as_keys(alloc: Global, keys: Items) -> Result<Items, Fault>
    ensures { Gives (λ items. items) result (each (key_if is_storable) keys) }
{
    all_storable(alloc, keys.as_slice())?;
    Ok(keys)
}

// The documents that have each of the keys, by an index of a name, which are paid for.
fn documents_by<V: TableView>(
    alloc: Global,
    world: &World<V>,
    table: &Viewed<V>,
    name: &Name,
    keys: &Items,
) -> Result<Items, Fault>
    ensures { Gives (λ items. items) result
        (having (view V.documents V.indexes V.entries table.now) name.now keys.now) }
{
    world.purse.spend(foreseen(table, name, keys))?;
    let found = documents_having(alloc, table, name, keys)?;
    Ok(paid(&world.purse, found, 1)?)
}

// The rows that have each of the keys, by the index that is asked for.
fn rows_by<V: TableView>(
    alloc: Global,
    world: &World<V>,
    table: &Viewed<V>,
    values: Items,
    opts: &[Choice],
) -> Result<Value, Fault>
    ensures { (w : Seen) → Gives (meant w) result (rows_by_of table.now.slot
        (view V.documents V.indexes V.entries table.now) values (all_chosen w opts.now)) }
{
    let keys = as_keys(alloc, values)?;
    let named = index_text(alloc, opts)?;
    let list = documents_by(alloc, world, table, index_or_key(table, named), &keys)?;
    Ok(Value::Selection {
        slot: table.slot,
        rows: Rows::InSequence,
        list,
    })
}

fn rows_in<V: TableView>(
    alloc: Global,
    world: &World<V>,
    table: &Viewed<V>,
    args: &[Arg],
    opts: &[Choice],
) -> Result<Value, Fault>
    ensures { (w : Seen) → Gives (meant w) result (rows_at table.now.slot
        (view V.documents V.indexes V.entries table.now) (all_shown w args.now)
        (all_chosen w opts.now)) }
{
    let values = as_data(alloc, args)?;
    rows_by(alloc, world, table, values, opts)
}

/// GET_ALL: the rows of a table that have each of the keys, by the primary key or by an index.
pub fn get_all<V: TableView>(
    alloc: Global,
    table: &Arg,
    keys: &[Arg],
    opts: &[Choice],
    world: &World<V>,
) -> Result<Value, Fault>
    ensures { let w = seen V.documents V.indexes V.entries world.now in
        (calls : Calls) → Gives (meant w) result
        (get_all_rule w calls (shown w table.now ∷ all_shown w keys.now) (all_chosen w opts.now)) }
{
    let found = as_table(alloc, table, world)?;
    rows_in(alloc, world, found, keys, opts)
}
