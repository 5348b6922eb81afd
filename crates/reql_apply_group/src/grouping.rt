// GROUP.
ghost use Rattle.std.specs.Prelude.{◌≡◌, List, ◌∷◌, IfOk, map, option_map};
ghost use Rattle.reql_datum.specs.Answer.{Answer};
ghost use Rattle.reql_datum.specs.Outcome.{Gives};
ghost use Rattle.reql_datum.specs.Plain.{Plain};
ghost use Rattle.reql_datum.specs.View.{plain};
ghost use Rattle.reql_rules.specs.Grouping.{group_all};
ghost use Rattle.reql_term.specs.Views.{seen_beside};
ghost use Rattle.reql_value_spec.specs.Called.{answer_key as answer_key_of};
ghost use Rattle.reql_value_spec.specs.Groups.{group_by_index as group_by_index_of, group_in as group_in_of, group_rule};
ghost use Rattle.reql_value_spec.specs.Meant.{Calls, meant_of};
ghost use Rattle.reql_value_spec.specs.World.{World as Seen};
ghost use Rattle.reql_operand.specs.Called.{Answers};
ghost use Rattle.reql_operand.specs.Seen.{meant, group as group_seen, shown, all_shown, all_chosen};
ghost use Rattle.reql_operand.specs.Tables.{seen};
ghost use Rattle.reql_apply_group.specs.Grouped.{beside_source, groups_beside, groups_by, groups_of, keys_value};

use reql_apply_table::entries_named;
use reql_datum::{Datum, Fault, Items, Memory, Name};
use reql_group::{Groups, group_beside, or_null};
use reql_operand::{
    Arg, Choice, Group, Value, World, answer_key, as_sequence, index_text, misplaced_order,
    table_at, value_of,
};
use reql_term::{Entries, TableView};
use std::alloc::Global;

/// GROUP: the elements by what a key gives of them, or by the array of what several keys give;
/// without keys a whole table by the values of an index. Each group has the array of its members,
/// in order. An element for which a key is missing has null for it.
pub fn group<V: TableView, F: Fn(usize, &[Datum]) -> Result<Value, Fault>>(
    alloc: Global,
    source: &Arg,
    keys: &[Arg],
    opts: &[Choice],
    world: &World<V>,
    call: &F,
) -> Result<Vec<Group>, Fault>
    requires { F.IsAlwaysCallable call.now }
    ensures { let w = seen V.documents V.indexes V.entries world.now in
        (calls : Calls) → Answers w F.Fn call.now calls
        → Gives (λ gs. map group_seen gs.items) result
        (group_rule w calls (shown w source.now ∷ all_shown w keys.now) (all_chosen w opts.now)) }
{
    let items = as_sequence(alloc, source, world)?;
    let groups = group_items(alloc, source, keys, &items, opts, world, call);
    listed(alloc, groups)
}

// Groups, each with the array of its members, as a value holds them. They share what they hold.
fn listed(alloc: Global, found: Result<Groups, Fault>) -> Result<Vec<Group>, Fault>
    ensures { (a : Answer (List (Plain × Plain))) → Gives (λ groups. groups) found a
        → Gives (λ gs. map group_seen gs.items) result a }
{
    match found {
        Ok(groups) => Ok(list_of(alloc, &groups)?),
        Err(fault) => Err(fault),
    }
}

fn list_of(alloc: Global, groups: &Groups) -> Result<Vec<Group>, Memory>
    ensures { IfOk result (λ gs. map group_seen gs.items ≡ groups.now) }
{
    let mut list = Vec::with_capacity(alloc, groups.len())?;
    let mut place = 0;
    while let Some((group, value)) = groups.at(place) {
        let group = group.copy()?;
        let value = value.copy()?;
        list.push(Group { group, value })?;
        place += 1;
    }
    Ok(list)
}

// The groups of elements, by the index that is asked for where there are no keys.
fn group_items<V: TableView, F: Fn(usize, &[Datum]) -> Result<Value, Fault>>(
    alloc: Global,
    source: &Arg,
    keys: &[Arg],
    items: &Items,
    opts: &[Choice],
    world: &World<V>,
    call: &F,
) -> Result<Groups, Fault>
    requires { F.IsAlwaysCallable call.now }
    ensures { let w = seen V.documents V.indexes V.entries world.now in
        (calls : Calls) → Answers w F.Fn call.now calls → Gives (λ groups. groups) result
        (groups_of w calls (shown w source.now) (all_shown w keys.now) items.now
        (all_chosen w opts.now)) }
{
    let index = index_text(alloc, opts)?;
    group_in(alloc, source, keys, items, index, world, call)
}

fn group_in<V: TableView, F: Fn(usize, &[Datum]) -> Result<Value, Fault>>(
    alloc: Global,
    source: &Arg,
    keys: &[Arg],
    items: &Items,
    index: Option<&Name>,
    world: &World<V>,
    call: &F,
) -> Result<Groups, Fault>
    requires { F.IsAlwaysCallable call.now }
    ensures { let w = seen V.documents V.indexes V.entries world.now in
        (calls : Calls) → Answers w F.Fn call.now calls → Gives (λ groups. groups) result
        (group_in_of w calls (meant_of (shown w source.now)) (all_shown w keys.now) items.now
        (option_map (λ n. n.now) index.entry)) }
{
    match keys {
        [] => group_by_index(alloc, source, index, world),
        [key] => group_by_key(alloc, items, key, call),
        [_, _, ..] => group_by_keys(alloc, items, keys, call),
    }
}

fn group_by_key<F: Fn(usize, &[Datum]) -> Result<Value, Fault>>(
    alloc: Global,
    items: &Items,
    key: &Arg,
    call: &F,
) -> Result<Groups, Fault>
    requires { F.IsAlwaysCallable call.now }
    ensures { (w : Seen) (calls : Calls) → Answers w F.Fn call.now calls
        → Gives (λ groups. groups) result
        (group_all (answer_key_of calls (shown w key.now)) items.now) }
{
    reql_group::group(
        alloc,
        items,
        &|d: &Datum|
            requires { F.IsAlwaysCallable call.now }
        { answer_key(alloc, key, d, call) },
    )
}

fn group_by_keys<F: Fn(usize, &[Datum]) -> Result<Value, Fault>>(
    alloc: Global,
    items: &Items,
    keys: &[Arg],
    call: &F,
) -> Result<Groups, Fault>
    requires { F.IsAlwaysCallable call.now }
    ensures { (w : Seen) (calls : Calls) → Answers w F.Fn call.now calls
        → Gives (λ groups. groups) result
        (group_all (keys_value calls (all_shown w keys.now)) items.now) }
{
    reql_group::group(
        alloc,
        items,
        &|d: &Datum|
            requires { F.IsAlwaysCallable call.now }
        { values_of(alloc, keys, d, call) },
    )
}

// The array of what several keys give.
fn values_of<F: Fn(usize, &[Datum]) -> Result<Value, Fault>>(
    alloc: Global,
    keys: &[Arg],
    d: &Datum,
    call: &F,
) -> Result<Datum, Fault>
    requires { F.IsAlwaysCallable call.now }
    ensures { (w : Seen) (calls : Calls) → Answers w F.Fn call.now calls
        → Gives plain result (keys_value calls (all_shown w keys.now) (plain d.now)) }
{
    let mut values = Items::with_room(alloc, keys.len())?;
    for key in keys {
        let value = or_null(answer_key(alloc, key, d, call))?;
        values.push(value)?;
    }
    Ok(Datum::List(values))
}

fn group_by_index<V: TableView>(
    alloc: Global,
    source: &Arg,
    index: Option<&Name>,
    world: &World<V>,
) -> Result<Groups, Fault>
    ensures { let w = seen V.documents V.indexes V.entries world.now in
        Gives (λ groups. groups) result (group_by_index_of w (meant_of (shown w source.now))
        (option_map (λ n. n.now) index.entry)) }
{
    match index {
        Some(name) => group_by_name(alloc, source, name, world),
        None => Err(Fault::QueryLogic(misplaced_order(alloc)?)),
    }
}

fn group_by_name<V: TableView>(
    alloc: Global,
    source: &Arg,
    name: &Name,
    world: &World<V>,
) -> Result<Groups, Fault>
    ensures { let w = seen V.documents V.indexes V.entries world.now in
        Gives (λ groups. groups) result
        (groups_by w name.now (meant_of (shown w source.now))) }
{
    group_entries(alloc, source, name, world)
}

fn group_entries<V: TableView>(
    alloc: Global,
    source: &Arg,
    name: &Name,
    world: &World<V>,
) -> Result<Groups, Fault>
    ensures { let w = seen V.documents V.indexes V.entries world.now in
        Gives (λ groups. groups) result
        (groups_beside w name.now (meant_of (shown w source.now))) }
{
    let entries = entries_of(alloc, source, name, world)?;
    Ok(group_beside(alloc, &entries.values, &entries.documents)?)
}

// The entries of an index of a table. Nothing else has any.
fn entries_of<V: TableView>(
    alloc: Global,
    source: &Arg,
    name: &Name,
    world: &World<V>,
) -> Result<Entries, Fault>
    ensures { let w = seen V.documents V.indexes V.entries world.now in
        Gives seen_beside result (beside_source w name.now (meant_of (shown w source.now))) }
{
    match value_of(source) {
        Some(value) => entries_in(alloc, value, name, world),
        None => Err(Fault::QueryLogic(misplaced_order(alloc)?)),
    }
}

fn entries_in<V: TableView>(
    alloc: Global,
    source: &Value,
    name: &Name,
    world: &World<V>,
) -> Result<Entries, Fault>
    ensures { let w = seen V.documents V.indexes V.entries world.now in
        Gives seen_beside result (beside_source w name.now (meant w source.now)) }
{
    match source {
        Value::Table(slot) => {
            let table = table_at(alloc, world, *slot)?;
            entries_named(alloc, table, name)
        }
        _ => Err(Fault::QueryLogic(misplaced_order(alloc)?)),
    }
}
