// The names that are told of a slot and of a command.
ghost use Rattle.std.specs.Prelude.{◌≡◌, IfOk};
ghost use Rattle.reql_plan_spec.specs.Commands.{names_in as names_in_of};
ghost use Rattle.reql_plan_spec.specs.Held.{dropped_of as dropped_of_slot, key_of as key_of_slot, names_of as names_of_slot};
ghost use Rattle.reql_plan_spec.specs.Texts.{dropped_text as dropped_text_of};

use reql_catalog::{CatCmd, Names};
use reql_datum::{Memory, Name};
use reql_naming::Pair;
use std::alloc::Global;

/// The names that a command's refusal tells; a database that is made or dropped has no table.
pub fn names_in<'a>(command: &'a CatCmd) -> Pair<'a>
    ensures { (result.db.now, result.table.now) ≡ names_in_of command.now }
{
    match command {
        CatCmd::DbCreate(db) => Pair {
            db: db.as_str(),
            table: "",
        },
        CatCmd::DbDrop(db) => Pair {
            db: db.as_str(),
            table: "",
        },
        CatCmd::TableCreate { db, table, key: _ } => Pair {
            db: db.as_str(),
            table: table.as_str(),
        },
        CatCmd::TableDrop { db, table } => Pair {
            db: db.as_str(),
            table: table.as_str(),
        },
    }
}

/// The names of a slot's database and table, empty where no table stands there.
pub fn names_of<'a>(names: &'a Names, slot: u32) -> Pair<'a>
    ensures { (result.db.now, result.table.now) ≡ names_of_slot names.now slot }
{
    match names.named(slot) {
        Some((db, table)) => Pair {
            db: db.as_str(),
            table: table.as_str(),
        },
        None => Pair { db: "", table: "" },
    }
}

fn dropped_text(alloc: Global, db: &str, table: &str) -> Result<Name, Memory>
    ensures { IfOk result (λ text. text ≡ dropped_text_of db.now table.now) }
{
    let text = format!(in alloc; "Table `{}.{}` was dropped.", db, table)?;
    Name::of(alloc, text.as_str())
}

/// That the table of a slot was dropped.
pub fn dropped_of(alloc: Global, names: &Names, slot: u32) -> Result<Name, Memory>
    ensures { IfOk result (λ text. text ≡ dropped_of_slot names.now slot) }
{
    let pair = names_of(names, slot);
    dropped_text(alloc, pair.db, pair.table)
}

/// The name of the primary key field of a slot's table, empty where no table stands there.
pub fn key_field(alloc: Global, names: &Names, slot: u32) -> Result<Name, Memory>
    ensures { IfOk result (λ name. name ≡ key_of_slot names.now slot) }
{
    match names.key(slot) {
        Some(key) => key.copy(),
        None => Name::of(alloc, ""),
    }
}
