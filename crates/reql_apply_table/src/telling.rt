// DB, INFO, CONFIG and STATUS.
ghost use Rattle.std.specs.Prelude.{◌≡◌, IfOk, length};
ghost use Rattle.reql_datum.specs.Outcome.{Gives};
ghost use Rattle.reql_datum.specs.View.{plain};
ghost use Rattle.reql_rules.specs.Admin.{table_info as table_info_of, table_config as table_config_of, table_status as table_status_of};
ghost use Rattle.reql_value_spec.specs.Meant.{Calls, Options, meant_of};
ghost use Rattle.reql_value_spec.specs.Tables.{about as about_of, index_names as index_names_of, database_number as database_number_of, db_rule, told, info_of as info_of_of, config_of as config_of_of, status_rule};
ghost use Rattle.reql_value_spec.specs.World.{World as Seen};
ghost use Rattle.reql_operand.specs.Seen.{meant, shown, all_shown};
ghost use Rattle.reql_operand.specs.Tables.{view, seen};
ghost use Rattle.reql_apply_table.specs.Told.{about as about_in};

use crate::admin::{About, db_config, db_info, table_config, table_info, table_status, type_info};
use crate::indexes::index_names;
use reql_datum::{Datum, Fault, Memory, Name};
use reql_operand::{
    Arg, Value, Viewed, World, as_table, misplaced, table_at, text_in_arg, type_name, value_of,
    whole_range, wrong, wrong_arg,
};
use reql_term::{TableView, ViewFault};
use std::alloc::Global;

/// DB: the database of a name.
#[tactic(auto, using(crate::proofs::Named::named_by_text))]
pub fn db(alloc: Global, args: &[Arg]) -> Result<Value, Fault>
    ensures { (w : Seen) (calls : Calls) (opts : Options) → Gives (meant w) result
        (db_rule w calls (all_shown w args.now) opts) }
{
    match args {
        [] => Err(Fault::QueryLogic(misplaced(alloc)?)),
        [arg] => match text_in_arg(arg) {
            Some(name) => Ok(Value::Database(name.copy()?)),
            None => Err(Fault::QueryLogic(misplaced(alloc)?)),
        },
        [_, _, ..] => Err(Fault::QueryLogic(misplaced(alloc)?)),
    }
}

// The number of the database of a name.
fn database_number<V: TableView>(alloc: Global, world: &World<V>, name: &Name) -> Result<u64, Fault>
    ensures { Gives (λ n. n) result
        (database_number_of (seen V.documents V.indexes V.entries world.now) name.now) }
{
    for database in &world.databases {
        if name.order(database.name.as_str()).is_eq() {
            return Ok(database.number);
        }
    }
    Err(Fault::QueryLogic(misplaced(alloc)?))
}

// What a table goes by.
fn about<V: TableView>(table: &Viewed<V>) -> Result<About, Memory>
    ensures { IfOk result (λ a.
        about_in a (index_names_of (view V.documents V.indexes V.entries table.now))
        ≡ about_of table.now.slot (view V.documents V.indexes V.entries table.now)) }
{
    Ok(About {
        slot: table.slot,
        db: table.db.copy()?,
        db_number: table.db_number,
        name: table.name.copy()?,
        key: table.key.copy()?,
    })
}

// How many documents a table has, which the view counts.
#[tactic(auto, using(crate::proofs::Slices::counted))]
fn count_documents<V: TableView>(table: &Viewed<V>) -> Result<u64, Memory>
    ensures { IfOk result (λ n. n ≡ length (V.documents table.now.view)) }
{
    match table.view.count_between(&whole_range(None)) {
        Ok(count) => Ok(count),
        Err(ViewFault::IndexMissing) => unreachable!(),
        Err(ViewFault::Memory) => Err(Memory),
    }
}

fn info_of_table<V: TableView>(alloc: Global, table: &Viewed<V>) -> Result<Datum, Memory>
    ensures { IfOk result (λ d. plain d ≡ table_info_of
        (about_of table.now.slot (view V.documents V.indexes V.entries table.now))
        (length (V.documents table.now.view))) }
{
    let count = count_documents(table)?;
    let indexes = index_names(alloc, table)?;
    table_info(alloc, &about(table)?, &indexes, count)
}

fn info_of<V: TableView>(alloc: Global, value: &Value, world: &World<V>) -> Result<Datum, Fault>
    ensures { let w = seen V.documents V.indexes V.entries world.now in
        Gives plain result (info_of_of w (meant w value.now)) }
{
    match value {
        Value::Table(slot) => Ok(info_of_table(alloc, table_at(alloc, world, *slot)?)?),
        Value::Database(name) => {
            let number = database_number(alloc, world, name)?;
            Ok(db_info(alloc, name, number)?)
        }
        _ => Ok(type_info(alloc, type_name(value))?),
    }
}

fn info_of_arg<V: TableView>(alloc: Global, arg: &Arg, world: &World<V>) -> Result<Datum, Fault>
    ensures { let w = seen V.documents V.indexes V.entries world.now in
        Gives plain result (info_of_of w (meant_of (shown w arg.now))) }
{
    match value_of(arg) {
        Some(value) => info_of(alloc, value, world),
        None => Ok(type_info(alloc, "FUNCTION")?),
    }
}

/// INFO: what is told of a table with the count of its documents, of a database, or of another
/// value, which is its type.
pub fn info<V: TableView>(alloc: Global, args: &[Arg], world: &World<V>) -> Result<Datum, Fault>
    ensures { let w = seen V.documents V.indexes V.entries world.now in
        (calls : Calls) (opts : Options) → Gives plain result
        (told info_of_of w calls (all_shown w args.now) opts) }
{
    match args {
        [] => Err(Fault::QueryLogic(misplaced(alloc)?)),
        [arg] => info_of_arg(alloc, arg, world),
        [_, _, ..] => Err(Fault::QueryLogic(misplaced(alloc)?)),
    }
}

fn config_of_table<V: TableView>(alloc: Global, table: &Viewed<V>) -> Result<Datum, Memory>
    ensures { IfOk result (λ d. plain d ≡ table_config_of
        (about_of table.now.slot (view V.documents V.indexes V.entries table.now))) }
{
    let indexes = index_names(alloc, table)?;
    table_config(alloc, &about(table)?, &indexes)
}

fn config_of<V: TableView>(alloc: Global, value: &Value, world: &World<V>) -> Result<Datum, Fault>
    ensures { let w = seen V.documents V.indexes V.entries world.now in
        Gives plain result (config_of_of w (meant w value.now)) }
{
    match value {
        Value::Table(slot) => Ok(config_of_table(alloc, table_at(alloc, world, *slot)?)?),
        Value::Database(name) => {
            let number = database_number(alloc, world, name)?;
            Ok(db_config(alloc, name, number)?)
        }
        _ => wrong(alloc, "TABLE", value),
    }
}

fn config_of_arg<V: TableView>(alloc: Global, arg: &Arg, world: &World<V>) -> Result<Datum, Fault>
    ensures { let w = seen V.documents V.indexes V.entries world.now in
        Gives plain result (config_of_of w (meant_of (shown w arg.now))) }
{
    match value_of(arg) {
        Some(value) => config_of(alloc, value, world),
        None => wrong_arg(alloc, "TABLE", arg),
    }
}

/// CONFIG: what is told of a table, or of a database.
pub fn config<V: TableView>(alloc: Global, args: &[Arg], world: &World<V>) -> Result<Datum, Fault>
    ensures { let w = seen V.documents V.indexes V.entries world.now in
        (calls : Calls) (opts : Options) → Gives plain result
        (told config_of_of w calls (all_shown w args.now) opts) }
{
    match args {
        [] => Err(Fault::QueryLogic(misplaced(alloc)?)),
        [arg] => config_of_arg(alloc, arg, world),
        [_, _, ..] => Err(Fault::QueryLogic(misplaced(alloc)?)),
    }
}

fn status_of_table<V: TableView>(alloc: Global, table: &Viewed<V>) -> Result<Datum, Memory>
    ensures { IfOk result (λ d. plain d ≡ table_status_of
        (about_of table.now.slot (view V.documents V.indexes V.entries table.now))) }
{
    table_status(alloc, &about(table)?)
}

/// STATUS: that a table is ready.
pub fn status<V: TableView>(alloc: Global, args: &[Arg], world: &World<V>) -> Result<Datum, Fault>
    ensures { let w = seen V.documents V.indexes V.entries world.now in
        (calls : Calls) (opts : Options) → Gives plain result
        (status_rule w calls (all_shown w args.now) opts) }
{
    match args {
        [] => Err(Fault::QueryLogic(misplaced(alloc)?)),
        [arg] => {
            let table = as_table(alloc, arg, world)?;
            Ok(status_of_table(alloc, table)?)
        }
        [_, _, ..] => Err(Fault::QueryLogic(misplaced(alloc)?)),
    }
}
