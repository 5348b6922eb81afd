// What a command is answered.
ghost use Rattle.std.specs.Prelude.{◌≡◌, ◌≤◌, ◌<◌, ◌+◌, ◌^◌, ◌++◌, [], ◌∷◌, None, length, IfOk, if◌then◌else◌};
ghost use Rattle.reql_catalog.specs.Catalog.{holds, slots_of};
ghost use Rattle.reql_catalog.specs.Machine.{says, makes_at};
ghost use Rattle.reql_catalog.specs.declared.command.CatCmd.TheVariants as cmds;

use crate::catalog::Catalog;
use crate::command::{CatCmd, CatSaid};
use crate::naming::{is_key_field, is_name};
use crate::slot::Slot;
use reql_datum::Name;
use reql_memory::copy_on_write::shown;
use reql_memory::{Memory, Seq};
use std::alloc::Global;

/// Whether a slot holds a table of this database.
pub(crate) fn holds(db: &Name, slot: &Slot) -> bool
    ensures { result ≡ holds db.now slot.now }
{
    match &slot.table {
        None => false,
        Some(table) => table.db.order(db.as_str()).is_eq(),
    }
}

// The slots of a database's tables, rising.
fn slots_of(alloc: Global, db: &Name, slots: &[Slot]) -> Result<Seq<u32>, Memory>
    requires { length slots.now < 2 ^ 32 }
    ensures { IfOk result (λ r. r ≡ slots_of db.now slots.now) }
{
    let mut found = Seq::new(alloc);
    let mut place = 0;
    while let Some(slot) = slots.get(place) {
        add_if(&mut found, db, slot, place as u32)?;
        place += 1;
    }
    Ok(found)
}

fn add_if(found: &mut Seq<u32>, db: &Name, slot: &Slot, place: u32) -> Result<(), Memory>
    ensures { IfOk result (λ _. found.new
        ≡ (if holds db.now slot.now then found.old ++ place ∷ [] else found.old)) }
{
    if holds(db, slot) {
        found.push(place)?;
        return Ok(());
    }
    Ok(())
}

fn says_db_create(catalog: &Catalog, db: &Name) -> CatSaid
    ensures { result ≡ says catalog.now (cmds.DbCreate db.now) }
{
    if !is_name(db.as_str()) {
        return CatSaid::BadName;
    }
    match catalog.names.dbs.get(db.as_str()) {
        None => CatSaid::Made,
        Some(_) => CatSaid::DbExists,
    }
}

fn says_db_drop(alloc: Global, catalog: &Catalog, db: &Name) -> Result<CatSaid, Memory>
    requires { length catalog.now.names.slots < 2 ^ 32 }
    ensures { IfOk result (λ r. r ≡ says catalog.now (cmds.DbDrop db.now)) }
{
    if !is_name(db.as_str()) {
        return Ok(CatSaid::BadName);
    }
    match catalog.names.dbs.get(db.as_str()) {
        None => Ok(CatSaid::DbMissing),
        Some(_) => {
            let slots = slots_of(alloc, db, catalog.names.all_slots())?;
            Ok(CatSaid::Dropped { slots })
        }
    }
}

fn says_table_create(catalog: &Catalog, db: &Name, table: &Name, key: &Name) -> CatSaid
    ensures { result ≡ says catalog.now (cmds.TableCreate db.now table.now key.now) }
{
    if !is_name(db.as_str()) || !is_name(table.as_str()) || !is_key_field(key) {
        return CatSaid::BadName;
    }
    let Some(database) = catalog.names.dbs.get(db.as_str()) else {
        return CatSaid::DbMissing;
    };
    match database.tables.get(table.as_str()) {
        Some(_) => CatSaid::TableExists,
        None => room_for(catalog.names.all_slots().len(), catalog.most),
    }
}

fn room_for(given: usize, most: u32) -> CatSaid
    ensures { result ≡ makes_at given most None }
{
    if given < most as usize {
        return CatSaid::Made;
    }
    CatSaid::SlotsFull { count: most }
}

fn says_table_drop(
    alloc: Global,
    catalog: &Catalog,
    db: &Name,
    table: &Name,
) -> Result<CatSaid, Memory>
    ensures { IfOk result (λ r. r ≡ says catalog.now (cmds.TableDrop db.now table.now)) }
{
    if !is_name(db.as_str()) || !is_name(table.as_str()) {
        return Ok(CatSaid::BadName);
    }
    let Some(database) = catalog.names.dbs.get(db.as_str()) else {
        return Ok(CatSaid::DbMissing);
    };
    match database.tables.get(table.as_str()) {
        None => Ok(CatSaid::TableMissing),
        Some(slot) => {
            let slots = one(alloc, *slot)?;
            Ok(CatSaid::Dropped { slots })
        }
    }
}

fn one(alloc: Global, slot: u32) -> Result<Seq<u32>, Memory>
    ensures { IfOk result (λ r. r ≡ slot ∷ []) }
{
    let mut slots = Seq::new(alloc);
    slots.push(slot)?;
    Ok(slots)
}

/// What a command is answered, where the history has room for it.
pub(crate) fn says(alloc: Global, catalog: &Catalog, cmd: &CatCmd) -> Result<CatSaid, Memory>
    requires { length catalog.now.names.slots < 2 ^ 32 }
    ensures { IfOk result (λ r. r ≡ says catalog.now cmd.now) }
{
    match cmd {
        CatCmd::DbCreate(db) => Ok(says_db_create(catalog, db)),
        CatCmd::DbDrop(db) => says_db_drop(alloc, catalog, db),
        CatCmd::TableCreate { db, table, key } => Ok(says_table_create(catalog, db, table, key)),
        CatCmd::TableDrop { db, table } => says_table_drop(alloc, catalog, db, table),
    }
}
