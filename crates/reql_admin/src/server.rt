// What SERVER_INFO gives.
ghost use Rattle.std.specs.Prelude.{◌≡◌, IfOk};
ghost use Rattle.reql_datum.specs.Members.{put};
ghost use Rattle.reql_datum.specs.View.{plain};
ghost use Rattle.reql_admin.specs.Server.{server};

use reql_datum::{Datum, Fields, Memory, Name};
use std::alloc::Global;

// The members with one more.
fn with(alloc: Global, fields: Fields, name: &str, value: Datum) -> Result<Fields, Memory>
    ensures { IfOk result (λ r. r ≡ put name.now (plain value) fields) }
{
    let mut more = fields;
    drop(more.put(Name::of(alloc, name)?, value)?);
    Ok(more)
}

/// What a server tells of itself: an id, which is the same for every server, its name, and that it is
/// no proxy (RethinkDB's drivers, `server`). Memory is its only fault.
pub fn server_info(alloc: Global) -> Result<Datum, Memory>
    ensures { IfOk result (λ d. plain d ≡ server) }
{
    let id = Name::of(alloc, "00000000-0000-0000-0000-000000000000")?;
    let fields = with(alloc, Fields::new(alloc), "id", Datum::Text(id))?;
    let name = Name::of(alloc, "reqld")?;
    let fields = with(alloc, fields, "name", Datum::Text(name))?;
    let fields = with(alloc, fields, "proxy", Datum::Bool(false))?;
    Ok(Datum::Obj(fields))
}
