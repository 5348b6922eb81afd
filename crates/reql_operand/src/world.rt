// The tables that terms read.
ghost use Rattle.std.specs.Prelude.{◌≡◌, IfOk};
ghost use Rattle.reql_datum.specs.Outcome.{Gives};
ghost use Rattle.reql_value_spec.specs.World.{view_at};
ghost use Rattle.reql_operand.specs.Tables.{view, seen};

use crate::purse::Purse;
use crate::texts::misplaced;
use reql_datum::{Fault, Name};
use reql_term::TableView;
use std::alloc::Global;

/// A table as it is read, with its slot and the names that it goes by.
#[derive(Drop)]
pub struct Viewed<V> {
    pub slot: u32,
    pub db: Name,
    pub db_number: u64,
    pub name: Name,
    pub key: Name,
    pub view: V,
}

/// A database, with its number.
#[derive(Drop)]
pub struct Database {
    pub name: Name,
    pub number: u64,
}

/// The tables and databases that a request reads, its limit of arrays, and what it may still spend.
#[derive(Drop)]
pub struct World<V> {
    pub tables: Vec<Viewed<V>>,
    pub databases: Vec<Database>,
    pub array_limit: u64,
    pub purse: Purse,
}

/// The table in a slot.
pub fn table_at<V: TableView>(
    alloc: Global,
    world: &World<V>,
    slot: u32,
) -> Result<&Viewed<V>, Fault>
    ensures found { Gives (λ t. view V.documents V.indexes V.entries t.now) result
        (view_at (seen V.documents V.indexes V.entries world.now) slot) }
    ensures slot { IfOk result (λ t. t.now.slot ≡ slot) }
{
    for table in &world.tables {
        if slot == table.slot {
            return Ok(table);
        }
    }
    Err(Fault::QueryLogic(misplaced(alloc)?))
}
