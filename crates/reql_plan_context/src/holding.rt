// What a request goes on with.
ghost use Rattle.std.specs.Prelude.{◌≡◌, IfOk, Some, map};
ghost use Rattle.reql_datum.specs.Members.{find};
ghost use Rattle.reql_table_spec.specs.Engines.{HoldsEntries};
ghost use Rattle.reql_operand.specs.Tables.{slotted, database};
ghost use Rattle.reql_plan_spec.specs.Course.{held as held_of};
ghost use Rattle.reql_plan_spec.specs.Held.{nothing_read as nothing_read_of, number_in, view_of, with_view as with_view_of};
ghost use Rattle.reql_plan_context.specs.Seen.{read, held};

use reql_catalog::{Database as Found, Names};
use reql_datum::{Memory, Name, Point, Seq};
use reql_operand::{BUDGET, Database, Purse, Viewed, World};
use reql_plan_results::{key_field, names_of};
use reql_plan_spec::{Plan, Setting};
use reql_term::TableView;
use std::alloc::Global;

/// What a request goes on with once its tables are looked at: the names, its default database, the
/// world that it is evaluated in, the points of its snapshots, what holds of its session, and how
/// many items an answer holds at most.
#[derive(Drop)]
pub struct Held<V> {
    pub names: Names,
    pub db: Name,
    pub world: World<V>,
    pub points: Seq<Point>,
    pub setting: Setting,
    pub batch: u32,
}

/// The snapshots so far, with their points, in the order in which they were made.
#[derive(Drop)]
pub struct Read<V> {
    pub tables: Vec<Viewed<V>>,
    pub points: Seq<Point>,
}

/// No snapshot.
pub fn nothing_read<V: TableView>(alloc: Global) -> Read<V>
    ensures { read V.documents V.indexes V.entries result ≡ nothing_read_of }
{
    Read {
        tables: Vec::new(alloc),
        points: Seq::new(alloc),
    }
}

/// The snapshots with one more: what a look at a slot gave, at a place and a stamp.
pub fn with_view<V: TableView + Drop>(
    alloc: Global,
    names: &Names,
    before: Read<V>,
    slot: u32,
    place: u64,
    stamp: u64,
    view: V,
) -> Result<Read<V>, Memory>
    requires holds { HoldsEntries V.documents V.indexes V.entries }
    ensures { IfOk result (λ r. read V.documents V.indexes V.entries r
        ≡ with_view_of names.now (read V.documents V.indexes V.entries before) slot
        (record { place = place; stamp = stamp; view = Some (V.documents view, V.indexes view) })
        (V.documents view, V.indexes view)) }
{
    let mut tables = before.tables;
    let mut points = before.points;
    tables.push(viewed(alloc, names, slot, view)?)?;
    points.push(Point { slot, place, stamp })?;
    Ok(Read { tables, points })
}

// A table as it was looked at, by the names of its slot.
#[tactic(auto, using(crate::proofs::Views::views))]
fn viewed<V: TableView + Drop>(
    alloc: Global,
    names: &Names,
    slot: u32,
    view: V,
) -> Result<Viewed<V>, Memory>
    requires holds { HoldsEntries V.documents V.indexes V.entries }
    ensures { IfOk result (λ t. slotted V.documents V.indexes V.entries t
        ≡ (slot, view_of names.now slot (V.documents view) (V.indexes view))) }
{
    let pair = names_of(names, slot);
    let db = Name::of(alloc, pair.db)?;
    let name = Name::of(alloc, pair.table)?;
    let db_number = number_of(names, pair.db)?;
    let key = key_field(alloc, names, slot)?;
    Ok(Viewed {
        slot,
        db,
        db_number,
        name,
        key,
        view,
    })
}

// The number of a database, 0 where there is none of this name. So many as are above 2^64 aren't made.
#[tactic(auto, using(crate::proofs::Views::numbers, crate::proofs::Views::no_number))]
fn number_of(names: &Names, db: &str) -> Result<u64, Memory>
    ensures { IfOk result (λ n. n ≡ number_in (find db.now names.now.dbs)) }
{
    match names.db_number(db) {
        Some(number) => whole_of(number),
        None => Ok(0),
    }
}

fn whole_of(number: u128) -> Result<u64, Memory>
    ensures { IfOk result (λ n. n ≡ number) }
{
    match u64::try_from(number) {
        Ok(number) => Ok(number),
        Err(_) => Err(Memory),
    }
}

// A database with its number, as terms read it.
fn database_of(name: &Name, found: &Found) -> Result<Database, Memory>
    ensures { IfOk result (λ d. database d ≡ (name.now, found.now.number)) }
{
    let name = name.copy()?;
    let number = whole_of(found.number)?;
    Ok(Database { name, number })
}

// The databases, by rising name.
fn databases(alloc: Global, names: &Names) -> Result<Vec<Database>, Memory>
    ensures { IfOk result (λ found. map database found.items
        ≡ map (λ d. (d.0, d.1.number)) names.now.dbs) }
{
    let mut found = Vec::new(alloc);
    let mut place = 0;
    while let Some((name, database)) = names.db_at(place) {
        found.push(database_of(name, database)?)?;
        place += 1;
    }
    Ok(found)
}

/// What the request of a plan goes on with after its snapshots.
pub fn hold<V: TableView + Drop>(
    alloc: Global,
    plan: &Plan,
    setting: Setting,
    names: Names,
    snapshots: Read<V>,
) -> Result<Held<V>, Memory>
    ensures { IfOk result (λ h. held V.documents V.indexes V.entries h
        ≡ held_of plan.now setting names (read V.documents V.indexes V.entries snapshots)) }
{
    let databases = databases(alloc, &names)?;
    let db = plan.db.copy()?;
    Ok(Held {
        names,
        db,
        world: World {
            tables: snapshots.tables,
            databases,
            array_limit: plan.array_limit,
            purse: Purse::new(BUDGET),
        },
        points: snapshots.points,
        setting,
        batch: plan.batch.min(setting.batch),
    })
}
