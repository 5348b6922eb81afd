// Trees in which each key is its own value: neighbours, ranges, counts and shares.
use reql_datum::{Datum, Items, Memory};
use reql_ptree::{Brand, Steps, Tree};
use rows_reader::{list, number, shown, shown_or_none};
use std::alloc::Global;

fn with_key(tree: &Tree, key: &Datum, steps: &mut Steps<Brand>) -> Result<Tree, Memory> {
    Ok(tree.put(key.copy()?, key.copy()?, steps)?)
}

/// Puts a key as its own value in place.
pub(crate) fn put_key(
    tree: &mut Tree,
    key: &Datum,
    steps: &mut Steps<Brand>,
) -> Result<(), Memory> {
    tree.put_own(key.copy()?, key.copy()?, steps)?;
    Ok(())
}

// A list of one key removes it, any other document is put.
fn changed(tree: &Tree, change: &Datum, steps: &mut Steps<Brand>) -> Option<Tree> {
    match list(change) {
        Some(keys) => tree.remove(keys.at(0)?, steps).ok(),
        None => with_key(tree, change, steps).ok(),
    }
}

fn tree_of(alloc: Global, changes: &Items, steps: &mut Steps<Brand>) -> Option<Tree> {
    let mut tree = Tree::new(alloc);
    for change in changes.as_slice() {
        tree = changed(&tree, change, steps)?;
    }
    Some(tree)
}

fn key_of<'a>(pair: Option<(&'a Datum, &'a Datum)>) -> Option<&'a Datum> {
    match pair {
        Some((key, _)) => Some(key),
        None => None,
    }
}

fn is_true(args: &Items, place: usize) -> Option<bool> {
    Some(matches!(args.at(place)?, Datum::Bool(true)))
}

fn looked(alloc: Global, call: &str, tree: &Tree, args: &Items) -> Option<String> {
    let mut steps = Steps::start();
    let (key, past) = (args.at(1)?, is_true(args, 2)?);
    match call {
        "next_from" => shown_or_none(alloc, key_of(tree.next_from(key, past, &mut steps))),
        "prev_from" => shown_or_none(alloc, key_of(tree.prev_from(key, past, &mut steps))),
        "count_below" => format!(in alloc; "{}", tree.count_below(key, past, &mut steps)).ok(),
        _ => None,
    }
}

fn most(args: &Items) -> Option<u64> {
    u64::try_from(number(args.at(5)?)?).ok()
}

fn ranged(call: &str, tree: &Tree, args: &Items) -> Option<Items> {
    let mut steps = Steps::start();
    let (low, low_open) = (args.at(1)?, is_true(args, 2)?);
    let (high, high_open) = (args.at(3)?, is_true(args, 4)?);
    match call {
        "range" => tree.range(low, low_open, high, high_open, &mut steps),
        "range_first" => {
            tree.range_first(low, low_open, high, high_open, most(args)?, &mut steps)
        }
        "range_last" => tree.range_last(low, low_open, high, high_open, most(args)?, &mut steps),
        _ => return None,
    }
    .ok()
}

// How many keys, and all values.
fn whole(alloc: Global, tree: &Tree) -> Option<String> {
    let mut steps = Steps::start();
    let values = tree.range(&Datum::Low, false, &Datum::High, false, &mut steps);
    let told = shown(alloc, &Datum::List(values.ok()?))?;
    format!(in alloc; "{} keys {told}", tree.len()).ok()
}

fn shared(alloc: Global, args: &Items) -> Option<String> {
    let mut steps = Steps::start();
    let mut tree = tree_of(alloc, list(args.at(0)?)?, &mut steps)?;
    let share = tree.share().ok()?;
    put_key(&mut tree, args.at(1)?, &mut steps).ok()?;
    let without = tree.remove(args.at(2)?, &mut steps).ok()?;
    let (share, tree, without) = (
        whole(alloc, &share)?,
        whole(alloc, &tree)?,
        whole(alloc, &without)?,
    );
    format!(in alloc; "share {share}, put {tree}, removed {without}").ok()
}

fn found(alloc: Global, call: &str, args: &Items) -> Option<String> {
    let mut steps = Steps::start();
    let tree = tree_of(alloc, list(args.at(0)?)?, &mut steps)?;
    if let Some(told) = looked(alloc, call, &tree, args) {
        return Some(told);
    }
    shown(alloc, &Datum::List(ranged(call, &tree, args)?))
}

/// Of a tree that is made by keys, where [key] removes one: `next_from` and `prev_from` a key, which is
/// itself left out where the last argument is true; `count_below` a key, which counts itself there;
/// `range` from an end to an end, each with whether it is open, and `range_first` and `range_last` of
/// it, at most so many; `shared`, a share, then the tree with a key put in place, then that without one.
pub(crate) fn tree_call(alloc: Global, call: &str, args: &Items) -> Option<String> {
    match call {
        "shared" => shared(alloc, args),
        _ => found(alloc, call, args),
    }
}
