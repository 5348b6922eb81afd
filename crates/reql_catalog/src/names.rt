// What a look at the catalogue gives.
ghost use Rattle.std.specs.Prelude.{◌≡◌, ◌<◌, ◌+◌, ◌^◌, [], ◌∷◌, IfOk, MatchOption, OnSome, drop, map, option_map, is_some, length};
ghost use Rattle.std.specs.Map.{keys_of};
ghost use Rattle.reql_datum.specs.Members.{find};
ghost use Rattle.reql_datum.specs.Plain.{text};
ghost use Rattle.reql_catalog.specs.Catalog.{slot_of, table_at, key_at, names_at, tables_of};

use crate::database::Database;
use crate::map::NameMap;
use crate::slot::{Slot, Table};
use reql_datum::{Items, Name};
use reql_memory::Memory;
use reql_memory::copy_on_write::{copied, shown};
use std::alloc::Global;
use std::marker::Model;
use std::sync::Arc;

/// The names of databases and tables at one moment, shared: a look takes a constant number of steps,
/// whatever the number of tables, and later commands change nothing of it.
#[derive(Drop)]
pub struct Names {
    pub(crate) place: u64,
    pub(crate) dbs: NameMap<Database>,
    pub(crate) slots: Option<Arc<Vec<Slot>>>,
}

impl Model for Names {
    ghost use Rattle.std.specs.Coded.{codes};
    ghost use Rattle.reql_memory.specs.CopyOnWrite.{held_items};
    ghost use Rattle.reql_catalog.specs.Catalog.{Named};

    ghost Value = { Named };

    ghost coded = { Prim.hlevel (codes) };

    ghost view = { λ a. record { place = a.place; dbs = a.dbs; slots = held_items a.slots } };
}

impl Names {
    /// How many commands were recorded at that moment.
    pub fn place(&self) -> u64
        ensures { result ≡ self.now.place }
    {
        self.place
    }

    /// The slot of a table, by the names of its database and its own.
    pub fn slot(&self, db: &str, table: &str) -> Option<u32>
        ensures { result ≡ slot_of db.now table.now self.now }
    {
        match self.dbs.get(db) {
            None => None,
            Some(database) => database.tables.get(table).copied(),
        }
    }

    pub(crate) fn all_slots(&self) -> &[Slot]
        ensures { result.now ≡ self.now.slots }
    {
        shown(&self.slots)
    }

    fn table(&self, slot: u32) -> Option<&Table>
        ensures { option_map (λ t. t.now) result ≡ table_at slot self.now }
    {
        match self.all_slots().get(slot as usize) {
            None => None,
            Some(slot) => slot.table.as_ref(),
        }
    }

    /// The name of the primary key field of a slot's table. None where no table stands there.
    pub fn key(&self, slot: u32) -> Option<&Name>
        ensures { option_map (λ n. n.now) result ≡ key_at slot self.now }
    {
        match self.table(slot) {
            None => None,
            Some(table) => Some(&table.key),
        }
    }

    /// The names of the database and the table of a slot. None where no table stands there.
    pub fn named(&self, slot: u32) -> Option<(&Name, &Name)>
        ensures { option_map (λ n. (n.0.now, n.1.now)) result ≡ names_at slot self.now }
    {
        match self.table(slot) {
            None => None,
            Some(table) => Some((&table.db, &table.name)),
        }
    }

    /// Whether there is a database of this name.
    pub fn has_db(&self, db: &str) -> bool
        ensures { result ≡ is_some (find db.now self.now.dbs) }
    {
        self.dbs.get(db).is_some()
    }

    /// How many databases were made before this one, dropped ones included. None where there is none
    /// of this name.
    pub fn db_number(&self, db: &str) -> Option<u128>
        ensures { result ≡ option_map (λ d. d.number) (find db.now self.now.dbs) }
    {
        match self.dbs.get(db) {
            None => None,
            Some(database) => Some(database.number),
        }
    }

    /// The database at a place, by rising name.
    pub fn db_at(&self, place: usize) -> Option<(&Name, &Database)>
        ensures rest { MatchOption result (drop place self.now.dbs ≡ [])
            (λ d. drop place self.now.dbs ≡ (d.0.now, d.1.now) ∷ drop (place + 1) self.now.dbs) }
        ensures place_fits { OnSome result (place < 2 ^ 63) }
    {
        self.dbs.at(place)
    }

    /// The names of the databases, by rising name.
    pub fn dbs(&self, alloc: Global) -> Result<Items, Memory>
        ensures { IfOk result (λ r. r ≡ map text (keys_of self.now.dbs)) }
    {
        self.dbs.names(alloc)
    }

    /// The names of a database's tables, by rising name; none where there is no such database.
    pub fn tables(&self, alloc: Global, db: &str) -> Result<Items, Memory>
        ensures { IfOk result (λ r. r ≡ map text (tables_of db.now self.now)) }
    {
        match self.dbs.get(db) {
            None => Ok(Items::new(alloc)),
            Some(database) => database.tables.names(alloc),
        }
    }

    /// The same names, shared. Memory where a count of sharers is full.
    pub fn copy(&self) -> Result<Names, Memory>
        ensures { IfOk result (λ r. r ≡ self.now) }
    {
        Ok(Names {
            place: self.place,
            dbs: self.dbs.copy()?,
            slots: copied(&self.slots)?,
        })
    }
}
