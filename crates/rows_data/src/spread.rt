// Trees of the numbers below a count, put in no order: each comes a stride after the one before.
use crate::sizes::count_at;
use crate::trees::put_key;
use reql_datum::{Datum, Items, Whole};
use reql_ptree::{Brand, Steps, Tree};
use rows_reader::shown_or_none;
use std::alloc::Global;

fn numbered(n: u32) -> Option<Datum> {
    Some(Datum::Num(Whole::new(i64::from(n))?))
}

fn put_number(tree: &mut Tree, n: u32, steps: &mut Steps<Brand>) -> Option<()> {
    let key = numbered(n)?;
    put_key(tree, &key, steps).ok()
}

fn spread(alloc: Global, count: u32, stride: u32) -> Option<Tree> {
    let mut steps = Steps::start();
    let mut tree = Tree::new(alloc);
    let mut key = 0u32;
    for _ in 0..count {
        put_number(&mut tree, key, &mut steps)?;
        key = key.wrapping_add(stride).checked_rem(count)?;
    }
    Some(tree)
}

// Whether a number is found, and the steps that took.
fn look(tree: &Tree, n: u32) -> Option<(bool, u64)> {
    let key = numbered(n)?;
    let mut steps = Steps::start();
    let is_found = tree.get(&key, &mut steps).is_some();
    Some((is_found, steps.count()))
}

// How many of the numbers below the count are found, and the most steps that one took.
fn look_at_all(tree: &Tree, count: u32) -> Option<(u32, u64)> {
    let mut hits = 0u32;
    let mut most = 0u64;
    for n in 0..count {
        let (is_found, steps) = look(tree, n)?;
        if is_found {
            hits = hits.wrapping_add(1);
        }
        most = most.max(steps);
    }
    Some((hits, most))
}

fn looks(alloc: Global, args: &Items) -> Option<String> {
    let (count, bound) = (count_at(args, 0)?, count_at(args, 2)?);
    let tree = spread(alloc, count, count_at(args, 1)?)?;
    let (hits, most) = look_at_all(&tree, count)?;
    let held = if most <= u64::from(bound) {
        "within the bound"
    } else {
        "above the bound"
    };
    format!(in alloc; "{} keys, {hits} found, {held}", tree.len()).ok()
}

fn ends(alloc: Global, args: &Items) -> Option<String> {
    let count = count_at(args, 0)?;
    let tree = spread(alloc, count, count_at(args, 1)?)?;
    let mut steps = Steps::start();
    let (low, high) = (numbered(0)?, numbered(count)?);
    let all = tree.range(&low, false, &high, true, &mut steps).ok()?;
    let first = shown_or_none(alloc, all.as_slice().first())?;
    let last = shown_or_none(alloc, all.as_slice().last())?;
    format!(in alloc; "{} values from {first} to {last}", all.len()).ok()
}

/// Of a tree of the numbers below a count, put by a stride that shares no divisor with it: `looks`, how
/// many keys it has, how many of them a look finds, and whether each look keeps within a bound of steps;
/// `ends`, how many values its whole range has, with the first and the last.
pub(crate) fn spread_call(alloc: Global, call: &str, args: &Items) -> Option<String> {
    match call {
        "looks" => looks(alloc, args),
        "ends" => ends(alloc, args),
        _ => None,
    }
}
