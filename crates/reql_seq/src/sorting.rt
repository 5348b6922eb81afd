// ORDER_BY by keys.
ghost use Rattle.std.specs.Option.{option_cmp};
ghost use Rattle.std.specs.Prelude.{◌≡◌, ℕ, Bool, [], ◌∷◌, map, IfOk};
ghost use Rattle.reql_datum.specs.Order.{order};
ghost use Rattle.reql_datum.specs.Answer.{Answer};
ghost use Rattle.reql_datum.specs.Outcome.{Gives};
ghost use Rattle.reql_datum.specs.Plain.{Plain};
ghost use Rattle.reql_datum.specs.View.{plain};
ghost use Rattle.reql_rules.specs.Lists.{each};
ghost use Rattle.reql_rules.specs.Mapping.{if_any as if_any_of};
ghost use Rattle.reql_rules.specs.Sorting.{key_order, first_key, other_keys, by_keys, keys_from, with_keys, keyed_order, elements, sorted, order_all};
ghost use Rattle.reql_seq.specs.Called.{MeansKeys};
ghost use Rattle.reql_seq.specs.Seen.{key_seen, keys_seen, lent_key, keyed, ranked};

use crate::faults::if_any;
use reql_datum::{Datum, Fault, Items, Memory, compare};
use std::alloc::Global;
use std::cmp::Ordering;

// An element with its keys.
#[derive(Drop)]
struct Keyed {
    keys: Vec<Option<Datum>>,
    value: Datum,
}

// An element with its one key beside it, so that a row takes no memory of its own.
#[derive(Drop)]
struct Ranked {
    key: Option<Datum>,
    value: Datum,
}

/// The elements by their keys, each key evaluated once an element: by rising keys, or by falling
/// ones where `down` says so.
///
/// `key(i, x)` is the i-th key of x, for i below the length of `down`. A key that is NON_EXISTENCE
/// counts as below all; any other fault of a key is raised, the first one by element and key.
/// Elements that tie keep their order.
pub fn order<K: Fn(usize, &Datum) -> Result<Datum, Fault>>(
    alloc: Global,
    list: &Items,
    key: &K,
    down: &[bool],
) -> Result<Items, Fault>
    requires { K.IsAlwaysCallable key.now }
    ensures { (m : ℕ → Plain → Answer Plain) → MeansKeys K.Fn key.now m
        → Gives (λ items. items) result (order_all m down.now list.now) }
{
    match down {
        [falls] => order_by_one(alloc, list, key, *falls),
        _ => order_by_several(alloc, list, key, down),
    }
}

fn order_by_several<K: Fn(usize, &Datum) -> Result<Datum, Fault>>(
    alloc: Global,
    list: &Items,
    key: &K,
    down: &[bool],
) -> Result<Items, Fault>
    requires { K.IsAlwaysCallable key.now }
    ensures { (m : ℕ → Plain → Answer Plain) → MeansKeys K.Fn key.now m
        → Gives (λ items. items) result (order_all m down.now list.now) }
{
    let mut rows = keyed_all(alloc, list, key, down)?;
    sort_rows(&mut rows, down)?;
    Ok(values_of(alloc, &rows)?)
}

fn order_by_one<K: Fn(usize, &Datum) -> Result<Datum, Fault>>(
    alloc: Global,
    list: &Items,
    key: &K,
    falls: bool,
) -> Result<Items, Fault>
    requires { K.IsAlwaysCallable key.now }
    ensures { (m : ℕ → Plain → Answer Plain) → MeansKeys K.Fn key.now m
        → Gives (λ items. items) result (order_all m (falls ∷ []) list.now) }
{
    let mut rows = ranked_all(alloc, list, key)?;
    sort_ranked(&mut rows, falls)?;
    Ok(ranked_values(alloc, rows)?)
}

// Each element with its one key.
fn ranked_all<K: Fn(usize, &Datum) -> Result<Datum, Fault>>(
    alloc: Global,
    list: &Items,
    key: &K,
) -> Result<Vec<Ranked>, Fault>
    requires { K.IsAlwaysCallable key.now }
    ensures { (m : ℕ → Plain → Answer Plain) (falls : Bool) → MeansKeys K.Fn key.now m
        → Gives (λ rows. map ranked rows.items) result (each (with_keys m (falls ∷ [])) list.now) }
{
    let mut rows = Vec::with_capacity(alloc, list.len())?;
    let mut place = 0;
    while let Some(item) = list.at(place) {
        let found = key_of(item, key)?;
        let value = item.copy()?;
        rows.push(Ranked { key: found, value })?;
        place += 1;
    }
    Ok(rows)
}

// The one key of an element.
fn key_of<K: Fn(usize, &Datum) -> Result<Datum, Fault>>(
    item: &Datum,
    key: &K,
) -> Result<Option<Datum>, Fault>
    requires { K.IsAlwaysCallable key.now }
    ensures { (m : ℕ → Plain → Answer Plain) → MeansKeys K.Fn key.now m
        → Gives key_seen result (if_any_of (m 0 (plain item.now))) }
{
    let found = if_any(key(0, item))?;
    Ok(found)
}

// The rows in the order of their key, those that tie as they stood.
fn sort_ranked(rows: &mut Vec<Ranked>, falls: bool) -> Result<(), Memory>
    ensures { IfOk result (λ _. map ranked rows.new.items
        ≡ sorted (keyed_order (falls ∷ [])) (map ranked rows.old.items)) }
{
    rows.sort_by(|a, b| compare_ranked(falls, a, b))?;
    Ok(())
}

#[tactic(auto, using(crate::proofs::Sorts::then_equal))]
fn compare_ranked(falls: bool, a: &Ranked, b: &Ranked) -> Ordering
    ensures { result ≡ keyed_order (falls ∷ []) (ranked a.now) (ranked b.now) }
{
    compare_key(falls, key_in(a), key_in(b))
}

fn key_in(row: &Ranked) -> Option<&Datum>
    ensures { lent_key result ≡ key_seen row.now.key }
{
    row.key.as_ref()
}

// The elements without their key, moved out of the rows.
fn ranked_values(alloc: Global, rows: Vec<Ranked>) -> Result<Items, Memory>
    ensures { IfOk result (λ items. items ≡ elements (map ranked rows.items)) }
{
    let mut items = Items::with_room(alloc, rows.len())?;
    for row in rows {
        items.push(value_in(row))?;
    }
    Ok(items)
}

fn value_in(row: Ranked) -> Datum
    ensures { result ≡ row.value }
{
    let Ranked { key, value } = row;
    drop(key);
    value
}

// The rows in the order of their keys, those that tie as they stood.
fn sort_rows(rows: &mut Vec<Keyed>, down: &[bool]) -> Result<(), Memory>
    ensures { IfOk result (λ _.
        map keyed rows.new.items ≡ sorted (keyed_order down.now) (map keyed rows.old.items)) }
{
    rows.sort_by(|a, b| compare_keys(down, &a.keys, &b.keys))?;
    Ok(())
}

// Each element with its keys.
fn keyed_all<K: Fn(usize, &Datum) -> Result<Datum, Fault>>(
    alloc: Global,
    list: &Items,
    key: &K,
    down: &[bool],
) -> Result<Vec<Keyed>, Fault>
    requires { K.IsAlwaysCallable key.now }
    ensures { (m : ℕ → Plain → Answer Plain) → MeansKeys K.Fn key.now m
        → Gives (λ rows. map keyed rows.items) result (each (with_keys m down.now) list.now) }
{
    let mut rows = Vec::with_capacity(alloc, list.len())?;
    let mut place = 0;
    while let Some(item) = list.at(place) {
        let keys = keys_of(alloc, item, key, down)?;
        let value = item.copy()?;
        rows.push(Keyed { keys, value })?;
        place += 1;
    }
    Ok(rows)
}

// The keys of an element.
#[tactic(auto, using(crate::proofs::Sorts::rest_within))]
fn keys_of<K: Fn(usize, &Datum) -> Result<Datum, Fault>>(
    alloc: Global,
    item: &Datum,
    key: &K,
    down: &[bool],
) -> Result<Vec<Option<Datum>>, Fault>
    requires { K.IsAlwaysCallable key.now }
    ensures { (m : ℕ → Plain → Answer Plain) → MeansKeys K.Fn key.now m
        → Gives (λ keys. keys_seen keys.items) result (keys_from m 0 down.now (plain item.now)) }
{
    let mut keys = Vec::with_capacity(alloc, down.len())?;
    for place in 0..down.len() {
        let found = if_any(key(place, item))?;
        keys.push(found)?;
    }
    Ok(keys)
}

// The elements without their keys.
fn values_of(alloc: Global, rows: &[Keyed]) -> Result<Items, Memory>
    ensures { IfOk result (λ items. items ≡ elements (map keyed rows.now)) }
{
    let mut items = Items::with_room(alloc, rows.len())?;
    for row in rows {
        let copied = row.value.copy()?;
        items.push(copied)?;
    }
    Ok(items)
}

// Keys in turn, each in its direction.
fn compare_keys(down: &[bool], a: &[Option<Datum>], b: &[Option<Datum>]) -> Ordering
    ensures { result ≡ by_keys down.now (keys_seen a.now) (keys_seen b.now) }
{
    let mut left = a;
    let mut right = b;
    for falls in down {
        let order = compare_key(*falls, first(left), first(right));
        if let Ordering::Equal = order {
            left = others(left);
            right = others(right);
        } else {
            return order;
        }
    }
    Ordering::Equal
}

fn first(keys: &[Option<Datum>]) -> Option<&Datum>
    ensures { lent_key result ≡ first_key (keys_seen keys.now) }
{
    match keys {
        [] => None,
        [key, ..] => key.as_ref(),
    }
}

fn others(keys: &[Option<Datum>]) -> &[Option<Datum>]
    ensures { keys_seen result.now ≡ other_keys (keys_seen keys.now) }
{
    match keys {
        [] => keys,
        [_, rest @ ..] => rest,
    }
}

// Falling, it is the other way round.
fn compare_key(falls: bool, a: Option<&Datum>, b: Option<&Datum>) -> Ordering
    ensures { result ≡ key_order falls (lent_key a.entry) (lent_key b.entry) }
{
    if falls { rising(b, a) } else { rising(a, b) }
}

// A key that is missing is below all.
fn rising(a: Option<&Datum>, b: Option<&Datum>) -> Ordering
    ensures { result ≡ option_cmp order (lent_key a.entry) (lent_key b.entry) }
{
    match a {
        None => match b {
            None => Ordering::Equal,
            Some(_) => Ordering::Less,
        },
        Some(x) => match b {
            None => Ordering::Greater,
            Some(y) => compare(x, y),
        },
    }
}
