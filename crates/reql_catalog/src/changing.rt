// What a command does: each function gives what the catalogue knows then, and leaves what it knew.
ghost use Rattle.std.specs.Prelude.{◌≡◌, ◌≤◌, ◌<◌, ◌+◌, ◌^◌, ◌++◌, [], ◌∷◌, length, map, IfOk, slice_set, Some};
ghost use Rattle.reql_datum.specs.Members.{find, put, without};
ghost use Rattle.reql_memory.specs.CopyOnWrite.{held_items};
ghost use Rattle.reql_catalog.specs.Catalog.{slot_of};
ghost use Rattle.reql_catalog.specs.Machine.{with_tables, with_db, without_db, with_table, without_table, cleared, none_at, emptied};

use crate::catalog::Catalog;
use crate::database::Database;
use crate::map::NameMap;
use crate::names::Names;
use crate::saying::holds;
use crate::slot::{Slot, Table};
use reql_datum::Name;
use reql_memory::Memory;
use reql_memory::copy_on_write::{copied, own, push_on, shown};
use std::alloc::Global;
use std::sync::Arc;

/// With a database of this name, which has no tables.
pub(crate) fn with_db(alloc: Global, catalog: &Catalog, db: &Name) -> Result<Catalog, Memory>
    requires { catalog.now.made + 1 < 2 ^ 128 }
    ensures { IfOk result (λ r. r ≡ with_db db.now catalog.now) }
{
    let mut dbs = catalog.names.dbs.copy()?;
    let database = Database {
        number: catalog.made,
        tables: NameMap::new(),
    };
    dbs.put(alloc, db.copy()?, database)?;
    Ok(Catalog {
        names: Names {
            place: catalog.names.place,
            dbs,
            slots: copied(&catalog.names.slots)?,
        },
        made: catalog.made + 1,
        most: catalog.most,
    })
}

/// Without the database of this name and its tables.
pub(crate) fn without_db(alloc: Global, catalog: &Catalog, db: &Name) -> Result<Catalog, Memory>
    ensures { IfOk result (λ r. r ≡ without_db db.now catalog.now) }
{
    let mut dbs = catalog.names.dbs.copy()?;
    dbs.remove(alloc, db.as_str())?;
    let slots = cleared(alloc, shown(&catalog.names.slots), db)?;
    Ok(Catalog {
        names: Names {
            place: catalog.names.place,
            dbs,
            slots: Some(Arc::new(alloc, slots)?),
        },
        made: catalog.made,
        most: catalog.most,
    })
}

// The slots without the tables of a database.
fn cleared(alloc: Global, slots: &[Slot], db: &Name) -> Result<Vec<Slot>, Memory>
    ensures { IfOk result (λ r. r.items ≡ map (cleared db.now) slots.now) }
{
    let mut left = Vec::with_capacity(alloc, slots.len())?;
    for slot in slots {
        left.push(cleared_slot(slot, db)?)?;
    }
    Ok(left)
}

fn cleared_slot(slot: &Slot, db: &Name) -> Result<Slot, Memory>
    ensures { IfOk result (λ r. r ≡ cleared db.now slot.now) }
{
    if holds(db, slot) {
        return Ok(Slot { table: None });
    }
    Ok(slot.clone()?)
}

/// With a table in the next slot.
pub(crate) fn with_table(
    alloc: Global,
    catalog: &Catalog,
    db: &Name,
    table: &Name,
    key: &Name,
) -> Result<Catalog, Memory>
    requires { length catalog.now.names.slots < 2 ^ 32 }
    ensures { IfOk result (λ r. r ≡ with_table db.now table.now key.now catalog.now) }
{
    let slot = catalog.names.all_slots().len() as u32;
    let dbs = with_slot(alloc, &catalog.names.dbs, db, table, slot)?;
    let mut slots = copied(&catalog.names.slots)?;
    let made = Table {
        db: db.copy()?,
        name: table.copy()?,
        key: key.copy()?,
    };
    push_on(alloc, &mut slots, Slot { table: Some(made) })?;
    Ok(Catalog {
        names: Names {
            place: catalog.names.place,
            dbs,
            slots,
        },
        made: catalog.made,
        most: catalog.most,
    })
}

// The databases, where a table of one has this slot.
fn with_slot(
    alloc: Global,
    dbs: &NameMap<Database>,
    db: &Name,
    table: &Name,
    slot: u32,
) -> Result<NameMap<Database>, Memory>
    ensures { IfOk result (λ r. r
        ≡ with_tables db.now (find db.now dbs.now) (put table.now slot) dbs.now) }
{
    let Some(database) = dbs.get(db.as_str()) else {
        return dbs.copy();
    };
    let mut tables = database.tables.copy()?;
    tables.put(alloc, table.copy()?, slot)?;
    with_tables(alloc, dbs, db, database.number, tables)
}

fn with_tables(
    alloc: Global,
    dbs: &NameMap<Database>,
    db: &Name,
    number: u128,
    tables: NameMap<u32>,
) -> Result<NameMap<Database>, Memory>
    ensures { IfOk result (λ r. r
        ≡ put db.now (record { number = number; tables = tables }) dbs.now) }
{
    let mut changed = dbs.copy()?;
    changed.put(alloc, db.copy()?, Database { number, tables })?;
    Ok(changed)
}

/// Without a table; its slot stays empty.
pub(crate) fn without_table(
    alloc: Global,
    catalog: &Catalog,
    db: &Name,
    table: &Name,
) -> Result<Catalog, Memory>
    ensures { IfOk result (λ r. r ≡ without_table db.now table.now catalog.now) }
{
    let dbs = without_slot(alloc, &catalog.names.dbs, db, table)?;
    let slots = emptied(alloc, &catalog.names, db, table)?;
    Ok(Catalog {
        names: Names {
            place: catalog.names.place,
            dbs,
            slots,
        },
        made: catalog.made,
        most: catalog.most,
    })
}

// The databases, where a table of one is gone.
fn without_slot(
    alloc: Global,
    dbs: &NameMap<Database>,
    db: &Name,
    table: &Name,
) -> Result<NameMap<Database>, Memory>
    ensures { IfOk result (λ r. r
        ≡ with_tables db.now (find db.now dbs.now) (without table.now) dbs.now) }
{
    let Some(database) = dbs.get(db.as_str()) else {
        return dbs.copy();
    };
    let mut tables = database.tables.copy()?;
    tables.remove(alloc, table.as_str())?;
    with_tables(alloc, dbs, db, database.number, tables)
}

fn emptied(
    alloc: Global,
    names: &Names,
    db: &Name,
    table: &Name,
) -> Result<Option<Arc<Vec<Slot>>>, Memory>
    ensures { IfOk result (λ r. held_items r
        ≡ emptied (slot_of db.now table.now names.now) names.now.slots) }
{
    let mut slots = copied(&names.slots)?;
    let Some(slot) = names.slot(db.as_str(), table.as_str()) else {
        return Ok(slots);
    };
    empty(alloc, &mut slots, slot as usize)?;
    Ok(slots)
}

fn empty(alloc: Global, slots: &mut Option<Arc<Vec<Slot>>>, place: usize) -> Result<(), Memory>
    ensures { IfOk result (λ _. held_items slots.new
        ≡ slice_set (held_items slots.old) place none_at) }
{
    own(alloc, slots, 0)?;
    match slots {
        None => Ok(()),
        Some(list) => match Arc::get_mut(list) {
            None => Err(Memory),
            Some(held) => {
                if place < held.len() {
                    held[place] = Slot { table: None };
                }
                Ok(())
            }
        },
    }
}
