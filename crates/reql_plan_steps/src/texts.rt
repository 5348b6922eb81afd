// What a client is told where a command on names or on a table is refused.
ghost use Rattle.std.specs.Prelude.{◌≡◌, IfOk};
ghost use Rattle.reql_datum.specs.Answer.{op_failed};
ghost use Rattle.reql_naming.specs.Texts.{no_db as no_db_of, no_table as no_table_of};
ghost use Rattle.reql_plan_spec.specs.Texts.{db_there as db_there_of, table_there as table_there_of, index_there as index_there_of};

use reql_datum::{Memory, Name};
use std::alloc::Global;

/// That a database is there already.
pub fn db_there(alloc: Global, db: &str) -> Result<Name, Memory>
    ensures { IfOk result (λ text. op_failed text ≡ db_there_of db.now) }
{
    let text = format!(in alloc; "Database `{}` already exists.", db)?;
    Name::of(alloc, text.as_str())
}

/// That there is no such database.
pub fn no_db(alloc: Global, db: &str) -> Result<Name, Memory>
    ensures { IfOk result (λ text. op_failed text ≡ no_db_of db.now) }
{
    let text = format!(in alloc; "Database `{}` does not exist.", db)?;
    Name::of(alloc, text.as_str())
}

/// That a table is there already.
pub fn table_there(alloc: Global, db: &str, table: &str) -> Result<Name, Memory>
    ensures { IfOk result (λ text. op_failed text ≡ table_there_of db.now table.now) }
{
    let text = format!(in alloc; "Table `{}.{}` already exists.", db, table)?;
    Name::of(alloc, text.as_str())
}

/// That there is no such table.
pub fn no_table(alloc: Global, db: &str, table: &str) -> Result<Name, Memory>
    ensures { IfOk result (λ text. op_failed text ≡ no_table_of db.now table.now) }
{
    let text = format!(in alloc; "Table `{}.{}` does not exist.", db, table)?;
    Name::of(alloc, text.as_str())
}

/// That an index is there already.
pub fn index_there(alloc: Global, name: &str) -> Result<Name, Memory>
    ensures { IfOk result (λ text. op_failed text ≡ index_there_of name.now) }
{
    let text = format!(in alloc; "Index `{}` already exists.", name)?;
    Name::of(alloc, text.as_str())
}
