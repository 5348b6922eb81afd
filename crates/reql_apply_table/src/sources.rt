// The indexes of a table, as terms ask for them.
ghost use Rattle.std.specs.Prelude.{◌≡◌, List, ℕ, IfOk, Ok, Some, option_map, if◌then◌else◌};
ghost use Rattle.std.specs.Option.{unwrap_or};
ghost use Rattle.reql_datum.specs.Outcome.{Gives};
ghost use Rattle.reql_datum.specs.View.{plain};
ghost use Rattle.reql_term.specs.Views.{beside, seen_beside};
ghost use Rattle.reql_value_spec.specs.Tables.{index_or_key as index_or_key_of};
ghost use Rattle.reql_value_spec.specs.World.{World as Seen, view_at, index_name, entries_named};
ghost use Rattle.reql_value_spec.specs.Wanted.{as_table as as_table_of};
ghost use Rattle.reql_operand.specs.Seen.{shown};
ghost use Rattle.reql_operand.specs.Tables.{view, seen};
ghost use Rattle.reql_apply_table.specs.Sources.{entries_at, entries_beside, having};

use reql_datum::{Datum, Fault, Items, Memory, Name};
use reql_operand::{Arg, Viewed, World, as_table, no_index, same_text, whole_range};
use reql_term::{Bound, Entries, Range, TableView, ViewFault};
use std::alloc::Global;

/// The table, as an argument, which is then the one in its slot.
pub(crate) fn table_in<'a, V: TableView>(
    alloc: Global,
    arg: &Arg,
    world: &'a World<V>,
) -> Result<&'a Viewed<V>, Fault>
    ensures table { Gives (λ t. (t.now.slot, view V.documents V.indexes V.entries t.now)) result
        (as_table_of (seen V.documents V.indexes V.entries world.now)
        (shown (seen V.documents V.indexes V.entries world.now) arg.now)) }
    ensures there { IfOk result (λ t.
        view_at (seen V.documents V.indexes V.entries world.now) t.now.slot
        ≡ Ok (view V.documents V.indexes V.entries t.now)) }
{
    as_table(alloc, arg, world)
}

/// The name that is given, or that of the key field, which names the primary order.
pub fn index_or_key<'a, V: TableView>(table: &'a Viewed<V>, named: Option<&'a Name>) -> &'a Name
    ensures { result.now ≡ index_or_key_of (view V.documents V.indexes V.entries table.now)
        (option_map (λ n. n.now) named.entry) }
{
    match named {
        Some(name) => name,
        None => &table.key,
    }
}

// The index of a name, None where it names the primary order.
fn index_of<'a, V: TableView>(table: &Viewed<V>, name: &'a Name) -> Option<&'a Name>
    ensures { option_map (λ n. n.now) result
        ≡ index_name (view V.documents V.indexes V.entries table.now) name.now }
{
    if same_text(name.as_str(), table.key.as_str()) {
        return None;
    }
    Some(name)
}

/// The index of a name as a view is asked for it, None for the primary order; the fault where there
/// is none. No entry is read.
pub fn entries_source<'a, V: TableView>(
    alloc: Global,
    table: &Viewed<V>,
    name: &'a Name,
) -> Result<Option<&'a Name>, Fault>
    ensures { Gives (λ i. entries_at (view V.documents V.indexes V.entries table.now)
        (option_map (λ n. n.now) i)) result
        (entries_named (view V.documents V.indexes V.entries table.now) name.now) }
{
    if same_text(name.as_str(), table.key.as_str()) {
        return Ok(None);
    }
    match table.view.index(name) {
        Some(_) => Ok(Some(name)),
        None => Err(Fault::OpFailed(no_index(alloc, name.as_str())?)),
    }
}

/// The values of all entries of an index of a name, in order, and beside them their documents.
pub fn entries_named<V: TableView>(
    alloc: Global,
    table: &Viewed<V>,
    name: &Name,
) -> Result<Entries, Fault>
    ensures { Gives seen_beside result
        (entries_beside (view V.documents V.indexes V.entries table.now) name.now) }
{
    let index = entries_source(alloc, table, name)?;
    entries_by(alloc, table, index)
}

fn entries_by<V: TableView>(
    alloc: Global,
    table: &Viewed<V>,
    index: Option<&Name>,
) -> Result<Entries, Fault>
    ensures { Gives seen_beside result
        (Ok (beside (entries_at (view V.documents V.indexes V.entries table.now)
        (option_map (λ n. n.now) index.entry)))) }
{
    let range = whole_range(copy_name(index)?);
    match table.view.entries_between(alloc, &range) {
        Ok(entries) => Ok(entries),
        Err(ViewFault::IndexMissing) => Ok(Entries {
            values: Items::new(alloc),
            documents: Items::new(alloc),
        }),
        Err(ViewFault::Memory) => Err(Fault::Memory),
    }
}

/// The same name, shared.
pub(crate) fn copy_name(name: Option<&Name>) -> Result<Option<Name>, Memory>
    ensures { IfOk result (λ o. o ≡ option_map (λ n. n.now) name.entry) }
{
    match name {
        Some(text) => Ok(Some(text.copy()?)),
        None => Ok(None),
    }
}

// How many entries of an index have a key; none is told where there is no memory to ask.
fn entries_at_key<V: TableView>(
    table: &Viewed<V>,
    name: &Name,
    key: &Datum,
) -> Result<u64, Memory> {
    let range = Range {
        index: Some(name.copy()?),
        low: Bound {
            value: key.copy()?,
            is_open: false,
        },
        high: Bound {
            value: key.copy()?,
            is_open: false,
        },
        down: false,
    };
    match table.view.count_between(&range) {
        Ok(count) => Ok(count),
        Err(_) => Ok(0),
    }
}

/// How many documents there are to read, in units of a purse, where a secondary index is asked for
/// several keys: each may be that of any number of them, and stand there any number of times. It is 0
/// where there can't be more than the table has.
pub(crate) fn foreseen<V: TableView>(table: &Viewed<V>, name: &Name, keys: &Items) -> u64 {
    if keys.len() < 2 || same_text(name.as_str(), table.key.as_str()) {
        return 0;
    }
    let mut sum: u64 = 0;
    for key in keys.as_slice() {
        if let Ok(count) = entries_at_key(table, name, key) {
            sum = sum.saturating_add(count);
        }
    }
    sum
}

/// The documents of the entries that have each of the keys, by an index of a name.
#[tactic(auto, using(crate::proofs::Slices::found_there))]
pub fn documents_having<V: TableView>(
    alloc: Global,
    table: &Viewed<V>,
    name: &Name,
    keys: &Items,
) -> Result<Items, Fault>
    ensures { Gives (λ items. items) result
        (having (view V.documents V.indexes V.entries table.now) name.now keys.now) }
{
    match table.view.get_all(alloc, index_of(table, name), keys) {
        Ok(items) => Ok(items),
        Err(ViewFault::IndexMissing) => Err(Fault::OpFailed(no_index(alloc, name.as_str())?)),
        Err(ViewFault::Memory) => Err(Fault::Memory),
    }
}
