// The objects that INFO, CONFIG, STATUS and INDEX_STATUS give.
ghost use Rattle.std.specs.Prelude.{◌≡◌, ◌∷◌, [], IfOk, List, map};
ghost use Rattle.reql_datum.specs.Members.{put};
ghost use Rattle.reql_datum.specs.Plain.{text, array, items_of};
ghost use Rattle.reql_datum.specs.View.{plain};
ghost use Rattle.reql_rules.specs.Admin.{db_info, db_config, table_info, table_config, table_status, readiness, index_status, type_info};
ghost use Rattle.reql_rules.specs.Lists.{Bytes};
ghost use Rattle.reql_rules.specs.Places.{counted_as};
ghost use Rattle.reql_apply_table.specs.Told.{about};

use crate::ids::{database_id, table_id};
use reql_datum::{Datum, Fields, Items, Memory, Name, Whole};
use std::alloc::Global;

/// What a table goes by: its slot, the name and the number of its database, its own name, and the
/// name of its key field.
#[derive(Drop)]
pub struct About {
    pub slot: u32,
    pub db: Name,
    pub db_number: u64,
    pub name: Name,
    pub key: Name,
}

// The members with one more.
fn with(alloc: Global, fields: Fields, name: &str, value: Datum) -> Result<Fields, Memory>
    ensures { IfOk result (λ r. r ≡ put name.now (plain value) fields) }
{
    let mut more = fields;
    drop(more.put(Name::of(alloc, name)?, value)?);
    Ok(more)
}

fn text_of(alloc: Global, word: &str) -> Result<Datum, Memory>
    ensures { IfOk result (λ d. plain d ≡ text word.now) }
{
    Ok(Datum::Text(Name::of(alloc, word)?))
}

fn named(name: &Name) -> Result<Datum, Memory>
    ensures { IfOk result (λ d. plain d ≡ text name.now) }
{
    Ok(Datum::Text(name.copy()?))
}

fn listed(items: &Items) -> Result<Datum, Memory>
    ensures { IfOk result (λ d. plain d ≡ array (items_of items.now)) }
{
    Ok(Datum::List(items.copy()?))
}

/// What CONFIG tells of a database: its id and its name.
pub fn db_config(alloc: Global, name: &Name, number: u64) -> Result<Datum, Memory>
    ensures { IfOk result (λ d. plain d ≡ db_config name.now number) }
{
    let fields = with(alloc, Fields::new(alloc), "id", database_id(alloc, number)?)?;
    Ok(Datum::Obj(with(alloc, fields, "name", named(name)?)?))
}

/// What INFO tells of a database.
pub fn db_info(alloc: Global, name: &Name, number: u64) -> Result<Datum, Memory>
    ensures { IfOk result (λ d. plain d ≡ db_info name.now number) }
{
    let fields = with(alloc, Fields::new(alloc), "id", database_id(alloc, number)?)?;
    let fields = with(alloc, fields, "name", named(name)?)?;
    Ok(Datum::Obj(with(alloc, fields, "type", text_of(alloc, "DB")?)?))
}

// How many documents a table is told to have.
fn count_of(count: u64) -> Datum
    ensures { plain result ≡ counted_as count }
{
    let most: u64 = 9007199254740992;
    match Whole::new(count.min(most) as i64) {
        Some(n) => Datum::Num(n),
        None => unreachable!(),
    }
}

fn counts(alloc: Global, count: u64) -> Result<Datum, Memory>
    ensures { IfOk result (λ d. plain d ≡ array (items_of (counted_as count ∷ []))) }
{
    let mut items = Items::new(alloc);
    items.push(count_of(count))?;
    Ok(Datum::List(items))
}

/// What INFO tells of a table of so many documents, with the names of its indexes, as texts in
/// order.
pub fn table_info(alloc: Global, told: &About, indexes: &Items, count: u64) -> Result<Datum, Memory>
    ensures { (names : List Bytes) → indexes.now ≡ map text names
        → IfOk result (λ d. plain d ≡ table_info (about told.now names) count) }
{
    let db = db_info(alloc, &told.db, told.db_number)?;
    let fields = with(alloc, Fields::with_room(alloc, 7)?, "db", db)?;
    let fields = with(alloc, fields, "doc_count_estimates", counts(alloc, count)?)?;
    let fields = with(alloc, fields, "id", table_id(alloc, told.slot)?)?;
    let fields = with(alloc, fields, "indexes", listed(indexes)?)?;
    let fields = with(alloc, fields, "name", named(&told.name)?)?;
    let fields = with(alloc, fields, "primary_key", named(&told.key)?)?;
    Ok(Datum::Obj(with(alloc, fields, "type", text_of(alloc, "TABLE")?)?))
}

/// What CONFIG tells of a table, with the names of its indexes, as texts in order.
pub fn table_config(alloc: Global, told: &About, indexes: &Items) -> Result<Datum, Memory>
    ensures { (names : List Bytes) → indexes.now ≡ map text names
        → IfOk result (λ d. plain d ≡ table_config (about told.now names)) }
{
    let fields = with(alloc, Fields::with_room(alloc, 5)?, "db", named(&told.db)?)?;
    let fields = with(alloc, fields, "id", table_id(alloc, told.slot)?)?;
    let fields = with(alloc, fields, "indexes", listed(indexes)?)?;
    let fields = with(alloc, fields, "name", named(&told.name)?)?;
    Ok(Datum::Obj(with(alloc, fields, "primary_key", named(&told.key)?)?))
}

// That a table is ready for all.
fn readiness(alloc: Global) -> Result<Datum, Memory>
    ensures { IfOk result (λ d. plain d ≡ readiness) }
{
    let fields = with(
        alloc,
        Fields::with_room(alloc, 4)?,
        "all_replicas_ready",
        Datum::Bool(true),
    )?;
    let fields = with(alloc, fields, "ready_for_outdated_reads", Datum::Bool(true))?;
    let fields = with(alloc, fields, "ready_for_reads", Datum::Bool(true))?;
    Ok(Datum::Obj(with(alloc, fields, "ready_for_writes", Datum::Bool(true))?))
}

/// What STATUS tells of a table.
pub fn table_status(alloc: Global, told: &About) -> Result<Datum, Memory>
    ensures { (names : List Bytes)
        → IfOk result (λ d. plain d ≡ table_status (about told.now names)) }
{
    let fields = with(alloc, Fields::with_room(alloc, 4)?, "db", named(&told.db)?)?;
    let fields = with(alloc, fields, "id", table_id(alloc, told.slot)?)?;
    let fields = with(alloc, fields, "name", named(&told.name)?)?;
    Ok(Datum::Obj(with(alloc, fields, "status", readiness(alloc)?)?))
}

/// What INDEX_STATUS and INDEX_WAIT tell of an index.
pub fn index_status(alloc: Global, name: &Name, multi: bool) -> Result<Datum, Memory>
    ensures { IfOk result (λ d. plain d ≡ index_status name.now multi) }
{
    let fields = with(
        alloc,
        Fields::with_room(alloc, 5)?,
        "geo",
        Datum::Bool(false),
    )?;
    let fields = with(alloc, fields, "index", named(name)?)?;
    let fields = with(alloc, fields, "multi", Datum::Bool(multi))?;
    let fields = with(alloc, fields, "outdated", Datum::Bool(false))?;
    Ok(Datum::Obj(with(alloc, fields, "ready", Datum::Bool(true))?))
}

/// What INFO tells of a value that is no table and no database: the name of its type.
pub fn type_info(alloc: Global, kind: &str) -> Result<Datum, Memory>
    ensures { IfOk result (λ d. plain d ≡ type_info kind.now) }
{
    let fields = Fields::with_room(alloc, 1)?;
    Ok(Datum::Obj(with(alloc, fields, "type", text_of(alloc, kind)?)?))
}
