// What the success of a command on names or on a table is told as.
ghost use Rattle.std.specs.Prelude.{◌≡◌, ◌∷◌, [], IfOk, codes};
ghost use Rattle.reql_datum.specs.View.{plain};
ghost use Rattle.reql_rules.specs.Lists.{object_of};
ghost use Rattle.reql_rules.specs.Places.{counted_as};
ghost use Rattle.reql_plan_spec.specs.Commands.{counted as counted_of, made_by as made_by_of, dropped_by as dropped_by_of};

use crate::members::set_count;
use reql_catalog::CatCmd;
use reql_datum::{Datum, Fields, Memory};
use std::alloc::Global;

/// The object of one label and its count.
pub fn counted(alloc: Global, label: &str, count: u64) -> Result<Datum, Memory>
    ensures { IfOk result (λ d. plain d ≡ counted_of label.now count) }
{
    let mut fields = Fields::with_room(alloc, 1)?;
    set_count(alloc, &mut fields, label, count)?;
    Ok(Datum::Obj(fields))
}

/// What is told of a command that made a database or a table.
pub fn made_by(alloc: Global, command: &CatCmd) -> Result<Datum, Memory>
    ensures { IfOk result (λ d. plain d ≡ made_by_of command.now) }
{
    match command {
        CatCmd::DbCreate(_) => counted(alloc, "dbs_created", 1),
        CatCmd::DbDrop(_) => counted(alloc, "tables_created", 1),
        CatCmd::TableCreate {
            db: _,
            table: _,
            key: _,
        } => counted(alloc, "tables_created", 1),
        CatCmd::TableDrop { db: _, table: _ } => counted(alloc, "tables_created", 1),
    }
}

/// What is told of a command that dropped so many tables.
pub fn dropped_by(alloc: Global, command: &CatCmd, tables: u64) -> Result<Datum, Memory>
    ensures { IfOk result (λ d. plain d ≡ dropped_by_of command.now tables) }
{
    match command {
        CatCmd::DbDrop(_) => database_dropped(alloc, tables),
        CatCmd::DbCreate(_) => counted(alloc, "tables_dropped", tables),
        CatCmd::TableCreate {
            db: _,
            table: _,
            key: _,
        } => counted(alloc, "tables_dropped", tables),
        CatCmd::TableDrop { db: _, table: _ } => counted(alloc, "tables_dropped", tables),
    }
}

fn database_dropped(alloc: Global, tables: u64) -> Result<Datum, Memory>
    ensures { IfOk result (λ d. plain d ≡ object_of ((codes "dbs_dropped", counted_as 1)
        ∷ (codes "tables_dropped", counted_as tables) ∷ [])) }
{
    let mut fields = Fields::with_room(alloc, 2)?;
    set_count(alloc, &mut fields, "dbs_dropped", 1)?;
    set_count(alloc, &mut fields, "tables_dropped", tables)?;
    Ok(Datum::Obj(fields))
}
