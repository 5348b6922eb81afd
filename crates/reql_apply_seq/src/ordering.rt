// ORDER_BY.
ghost use Rattle.std.specs.Prelude.{◌≡◌, List, ◌∷◌, Some, map, option_map, option_and_then};
ghost use Rattle.reql_datum.specs.Outcome.{Gives};
ghost use Rattle.reql_datum.specs.Plain.{Plain};
ghost use Rattle.reql_rules.specs.Sorting.{order_all};
ghost use Rattle.reql_rules.specs.Types.{text_in};
ghost use Rattle.reql_value_spec.specs.Meant.{Calls, meant_of};
ghost use Rattle.reql_value_spec.specs.Orders.{is_down, key_in, key_at as key_at_of, order_by as order_by_rule, order_by_keys as order_by_keys_of};
ghost use Rattle.reql_value_spec.specs.Wanted.{value_in};
ghost use Rattle.reql_value_spec.specs.World.{World as Seen};
ghost use Rattle.reql_operand.specs.Called.{Answers};
ghost use Rattle.reql_operand.specs.Seen.{meant, shown, all_shown, all_chosen};
ghost use Rattle.reql_operand.specs.Tables.{seen};
ghost use Rattle.reql_apply_seq.specs.Orders.{keys_ordered, ordered_as, ordered_by};
ghost use Rattle.reql_apply_seq.specs.Sources.{elements};

use crate::index_order::order_by_index;
use crate::sort_keys::{directions, falls, key_at};
use crate::source::{Source, all_of, source_of};
use reql_datum::{Datum, Fault, Items, Name};
use reql_operand::{
    Arg, Choice, Key, Value, World, bad_option, find_choice, in_order, misplaced_order,
    text_in_arg, text_of,
};
use reql_term::TableView;
use std::alloc::Global;

/// ORDER_BY: the elements by their keys, each key asked once an element. With `index` those of a
/// table, or of a slice between bounds of the same index, by the index first; without further keys
/// they are a slice that hasn't been read.
pub fn order_by<V: TableView, F: Fn(usize, &[Datum]) -> Result<Value, Fault>>(
    alloc: Global,
    source: &Arg,
    keys: &[Arg],
    opts: &[Choice],
    world: &World<V>,
    call: &F,
) -> Result<Value, Fault>
    requires { F.IsAlwaysCallable call.now }
    ensures { let w = seen V.documents V.indexes V.entries world.now in
        (calls : Calls) → Answers w F.Fn call.now calls → Gives (meant w) result
        (order_by_rule w calls (shown w source.now ∷ all_shown w keys.now)
        (all_chosen w opts.now)) }
{
    order_as(alloc, source, keys, find_choice(opts, "index"), world, call)
}

fn order_as<V: TableView, F: Fn(usize, &[Datum]) -> Result<Value, Fault>>(
    alloc: Global,
    source: &Arg,
    keys: &[Arg],
    index: Option<&Arg>,
    world: &World<V>,
    call: &F,
) -> Result<Value, Fault>
    requires { F.IsAlwaysCallable call.now }
    ensures { let w = seen V.documents V.indexes V.entries world.now in
        (calls : Calls) → Answers w F.Fn call.now calls → Gives (meant w) result
        (ordered_as w calls (shown w source.now) (all_shown w keys.now)
        (option_map (λ a. shown w a.now) index.entry)) }
{
    let all = source_of(alloc, source, world)?;
    let made = order_from(alloc, source, keys, all, index, world, call)?;
    Ok(made)
}

fn order_from<V: TableView, F: Fn(usize, &[Datum]) -> Result<Value, Fault>>(
    alloc: Global,
    source: &Arg,
    keys: &[Arg],
    all: Source,
    index: Option<&Arg>,
    world: &World<V>,
    call: &F,
) -> Result<Value, Fault>
    requires { F.IsAlwaysCallable call.now }
    ensures { let w = seen V.documents V.indexes V.entries world.now in
        (calls : Calls) → Answers w F.Fn call.now calls → Gives (meant w) result
        (ordered_by w calls (meant_of (shown w source.now)) (all_shown w keys.now)
        (elements w all) (option_map (λ a. shown w a.now) index.entry)) }
{
    match index {
        None => order_by_keys(alloc, source, keys, all, world, call),
        Some(index) => {
            drop(all);
            order_by_name(alloc, source, keys, index, world, call)
        }
    }
}

fn order_by_keys<V: TableView, F: Fn(usize, &[Datum]) -> Result<Value, Fault>>(
    alloc: Global,
    source: &Arg,
    keys: &[Arg],
    all: Source,
    world: &World<V>,
    call: &F,
) -> Result<Value, Fault>
    requires { F.IsAlwaysCallable call.now }
    ensures { let w = seen V.documents V.indexes V.entries world.now in
        (calls : Calls) → Answers w F.Fn call.now calls → Gives (meant w) result
        (order_by_keys_of calls (meant_of (shown w source.now)) (all_shown w keys.now)
        (elements w all)) }
{
    match keys {
        [] => {
            drop(all);
            Err(Fault::QueryLogic(misplaced_order(alloc)?))
        }
        _ => order_by_some(alloc, source, keys, all, world, call),
    }
}

fn order_by_some<V: TableView, F: Fn(usize, &[Datum]) -> Result<Value, Fault>>(
    alloc: Global,
    source: &Arg,
    keys: &[Arg],
    all: Source,
    world: &World<V>,
    call: &F,
) -> Result<Value, Fault>
    requires { F.IsAlwaysCallable call.now }
    ensures { let w = seen V.documents V.indexes V.entries world.now in
        (calls : Calls) → Answers w F.Fn call.now calls → Gives (meant w) result
        (keys_ordered calls (meant_of (shown w source.now)) (all_shown w keys.now)
        (elements w all)) }
{
    let items = all_of(alloc, world, all)?;
    let ordered = order_all_by(alloc, &items, keys, call)?;
    Ok(in_order(source, ordered))
}

fn order_all_by<F: Fn(usize, &[Datum]) -> Result<Value, Fault>>(
    alloc: Global,
    items: &Items,
    keys: &[Arg],
    call: &F,
) -> Result<Items, Fault>
    requires { F.IsAlwaysCallable call.now }
    ensures { (w : Seen) (calls : Calls) → Answers w F.Fn call.now calls
        → Gives (λ items. items) result (order_all (key_at_of calls (all_shown w keys.now))
        (map is_down (all_shown w keys.now)) items.now) }
{
    let down = directions(alloc, keys)?;
    order_items(alloc, items, keys, &down, call)
}

fn order_items<F: Fn(usize, &[Datum]) -> Result<Value, Fault>>(
    alloc: Global,
    items: &Items,
    keys: &[Arg],
    down: &[bool],
    call: &F,
) -> Result<Items, Fault>
    requires { F.IsAlwaysCallable call.now }
    ensures { (w : Seen) (calls : Calls) → Answers w F.Fn call.now calls
        → Gives (λ items. items) result
        (order_all (key_at_of calls (all_shown w keys.now)) down.now items.now) }
{
    reql_seq::order(
        alloc,
        items,
        &|place: usize, d: &Datum|
            requires { F.IsAlwaysCallable call.now }
        { key_at(alloc, keys, place, d, call) },
        down,
    )
}

fn order_by_name<V: TableView, F: Fn(usize, &[Datum]) -> Result<Value, Fault>>(
    alloc: Global,
    source: &Arg,
    keys: &[Arg],
    index: &Arg,
    world: &World<V>,
    call: &F,
) -> Result<Value, Fault>
    requires { F.IsAlwaysCallable call.now }
    ensures { let w = seen V.documents V.indexes V.entries world.now in
        (calls : Calls) → Answers w F.Fn call.now calls → (ds : List Plain)
        → Gives (meant w) result (ordered_by w calls (meant_of (shown w source.now))
        (all_shown w keys.now) ds (Some (shown w index.now))) }
{
    match index_name(index) {
        Some(name) => order_by_index(alloc, source, keys, name, falls(index), world, call),
        None => Err(Fault::QueryLogic(bad_option(alloc, "index")?)),
    }
}

// The name of an index, which may stand under ASC or DESC.
fn index_name(index: &Arg) -> Option<&Name>
    ensures { (w : Seen) → option_map (λ n. n.now) result
        ≡ option_and_then text_in (value_in (meant_of (key_in (shown w index.now)))) }
{
    match index {
        Arg::Directed { down: _, key } => match key {
            Key::Value(value) => text_of(value),
            Key::Function(_) => None,
        },
        _ => text_in_arg(index),
    }
}
