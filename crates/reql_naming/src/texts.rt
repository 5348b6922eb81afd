// What a client is told of the names of databases and tables.
ghost use Rattle.std.specs.Prelude.{◌≡◌, IfOk, codes};
ghost use Rattle.reql_naming.specs.Texts.{no_db_text, no_table_text};

use reql_datum::{Memory, Name};
use std::alloc::Global;

pub(crate) fn bad_name(alloc: Global) -> Result<Name, Memory>
    ensures { IfOk result (λ s. s ≡ codes "Bad name.") }
{
    Name::of(alloc, "Bad name.")
}

pub(crate) fn no_db(alloc: Global, db: &str) -> Result<Name, Memory>
    ensures { IfOk result (λ s. s ≡ no_db_text db.now) }
{
    let text = format!(in alloc; "Database `{}` does not exist.", db)?;
    Name::of(alloc, text.as_str())
}

pub(crate) fn no_table(alloc: Global, db: &str, table: &str) -> Result<Name, Memory>
    ensures { IfOk result (λ s. s ≡ no_table_text db.now table.now) }
{
    let text = format!(in alloc; "Table `{}.{}` does not exist.", db, table)?;
    Name::of(alloc, text.as_str())
}
