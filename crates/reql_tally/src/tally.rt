// What a load left.
ghost use Rattle.std.specs.Prelude.{◌≡◌, ◌≤◌, [], ◌++◌, map, length, IfOk};
ghost use Rattle.reql_feed_spec.specs.Feeds.{changed_by};
ghost use Rattle.reql_table_spec.specs.Engines.{kept_of};
ghost use Rattle.reql_table_spec.specs.Machine.{State, unused};
ghost use Rattle.reql_core.specs.Core.{state_of};
ghost use Rattle.reql_tally.specs.Tallied.{Counts, Ends, Tallies, begins as begins_of, is_empty as is_empty_of};
ghost use Rattle.reql_tally.specs.Views.{IsTable};

use crate::advancing::advanced;
use crate::counting::count;
use crate::hearing::hear;
use crate::replica::{SeenTable, looked};
use reql_core::{Base, Opening, TableCore};
use reql_memory::Memory;
use reql_table::Table;
use reql_table_spec::{Entry, Kept, Limits};
use reql_term::TableView;
use std::alloc::Global;

/// What the sessions of a table left in its history.
#[derive(Clone, Copy, Debug, PartialEq, Eq, Drop)]
pub struct Tally {
    /// The documents that are there after all entries.
    pub documents: u64,
    /// The single-document changes that the entries made.
    pub changes: u64,
    /// The feeds that were opened.
    pub feeds: u64,
    /// The feeds of which no items were dropped, and whose items fold over the value at the opening to
    /// the value after the last change of which they told.
    pub folds: u64,
}

fn documents_after(alloc: Global, changes: &[Kept]) -> Result<u64, Memory>
    ensures { IfOk result (λ n. n ≡ length (changed_by [] (map kept_of changes.now))) }
{
    let table = advanced(Table::new(alloc), changes, 0, changes.len() as u64)?;
    Ok(table.tree().len())
}

fn tally_of<F: Opening>(
    alloc: Global,
    older: &[Entry],
    newer: &[Entry],
    limits: &Limits,
) -> Result<Tally, Memory>
    requires { 2 ≤ limits.now.tail }
    ensures { IfOk result (Counts (unused limits.now.feeds limits.now.tail) (older.now ++ newer.now)) }
{
    let heard = hear::<F>(alloc, older, newer, limits)?;
    let documents = documents_after(alloc, &heard.changes)?;
    let changes = heard.changes.len() as u64;
    let count = count::<F>(alloc, older, newer, limits, &heard)?;
    Ok(Tally {
        documents,
        changes,
        feeds: count.feeds,
        folds: count.folds,
    })
}

// Whether a table has neither documents nor indexes.
fn is_empty(alloc: Global, table: &Table) -> Result<bool, Memory>
    ensures { IfOk result (λ b. b ≡ is_empty_of table.now) }
{
    let names = table.names(alloc)?;
    Ok(table.tree().len() == 0 && names.len() == 0)
}

// Whether a base is that of a history that began with an empty table.
fn begins(alloc: Global, place: u64, stamp: u64, table: &Table) -> Result<bool, Memory>
    ensures { IfOk result (λ b. b
        ≡ begins_of (record { table = table.now; place = place; stamp = stamp })) }
{
    let is_empty = is_empty(alloc, table)?;
    Ok(place == 0 && stamp == 0 && is_empty)
}

// Whether a table stands where it was counted to.
#[tactic(auto, using(crate::proofs::Tallies::ends_at))]
fn is_there(seen: &SeenTable, tally: &Tally) -> bool
    ensures { (s : State) → IsTable s seen.now → Ends s tally.now result }
{
    tally.documents == seen.table.tree().len() && tally.changes == seen.stamp
}

// Whether the table of an engine does.
#[tactic(auto, using(crate::proofs::Tallies::ends_dropped))]
fn stands<F: Opening>(engine: &TableCore<F>, tally: &Tally) -> Result<bool, Memory>
    ensures { IfOk result (Ends (state_of F.held engine.now) tally.now) }
{
    match looked(engine)? {
        Some(seen) => Ok(is_there(&seen, tally)),
        None => Ok(false),
    }
}

/// Counts what the sessions of a table left in its history, which began with an empty table: its
/// entries are given to a table of the same limits again, and lead where the table stands. None where
/// the engine no longer keeps its first entries, or the table was dropped.
pub fn tally_history<F: Opening>(
    alloc: Global,
    engine: &TableCore<F>,
    limits: &Limits,
) -> Result<Option<Tally>, Memory>
    requires { 2 ≤ limits.now.tail }
    ensures { IfOk result (Tallies limits.now.feeds limits.now.tail engine.now.tail
        (state_of F.held engine.now)) }
{
    let Base {
        place,
        stamp,
        table,
    } = engine.base();
    if !begins(alloc, place, stamp, table)? {
        return Ok(None);
    }
    let (older, newer) = engine.tail();
    let tally = tally_of::<F>(alloc, older, newer, limits)?;
    if !stands(engine, &tally)? {
        return Ok(None);
    }
    Ok(Some(tally))
}
