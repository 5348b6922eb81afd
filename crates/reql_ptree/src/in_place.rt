// A pair put into a tree where it stands: the nodes of the way are made its own, and nothing else changes.
ghost use Rattle.std.specs.Prelude.{◌≡◌, ◌+◌, ◌-◌, ◌*◌, ◌^◌, ◌<◌, ◌≤◌, length, map, is_ok, IfOk, if◌then◌else◌};
ghost use Rattle.std.specs.Map.{keys_of};
ghost use Rattle.reql_datum.specs.Order.{order};
ghost use Rattle.reql_memory.specs.Sorted.{IsHitBy, IsGapBy};
ghost use Rattle.reql_datum.specs.View.{plain};
ghost use Rattle.reql_ptree.specs.Chunk.{pair, IsChunk, IsHeld};
ghost use Rattle.reql_ptree.specs.Fall.{is_put, Fallen, steps_at};
ghost use Rattle.reql_ptree.specs.Pairs.{put};
ghost use Rattle.reql_ptree.specs.Tall.{tall};

use crate::chunk::{Chunk, Pair};
use crate::edit::{MOST, copied, set_value};
use crate::fall::{Fall, Fell, fall_at, fell_of};
use crate::put::side_put;
use crate::seek::seek_few;
use crate::side::{Side, fork};
use crate::steps::Steps;
use reql_datum::{Datum, Memory};
use std::alloc::Global;
use std::mem;
use std::sync::Arc;

// A side of an equal node, which is new and shares the parts.
fn twin(alloc: Global, side: &Side) -> Result<Side, Memory>
    ensures { IfOk result (λ new. new ≡ side.now) }
{
    let Some(node) = side.node() else {
        return Ok(Side::empty());
    };
    let left = node.left.share()?;
    let chunk = node.chunk.copy()?;
    let right = node.right.share()?;
    fork(alloc, left, chunk, right)
}

fn is_own_side(side: &Side) -> bool {
    match &side.node {
        None => true,
        Some(node) => Arc::strong_count(node) == 1,
    }
}

// Makes the node one that no other side shares.
pub(crate) fn own_side(alloc: Global, side: &mut Side) -> Result<(), Memory>
    ensures { side.new ≡ side.old }
{
    if is_own_side(side) {
        return Ok(());
    }
    let new = twin(alloc, side)?;
    *side = new;
    Ok(())
}

// Makes the pairs such that no other chunk shares them, with room for one more.
pub(crate) fn own_chunk(alloc: Global, chunk: &mut Chunk) -> Result<(), Memory>
    ensures { chunk.new ≡ chunk.old }
{
    if Arc::strong_count(&chunk.held) == 1 {
        return Ok(());
    }
    let pairs = copied(alloc, chunk.pairs())?;
    let new = Chunk::of(alloc, pairs)?;
    *chunk = new;
    Ok(())
}

// Writes over the value of a key that is there.
fn set_at(first: &Datum, all: &mut Vec<Pair>, place: usize, key: &Datum, value: &Datum) -> bool
    requires held { IsHeld (plain first.now) (map pair all.old.items) }
    requires hit { IsHitBy order (keys_of (map pair all.old.items)) (plain key.now) place }
    requires in_range { place < length all.old.items }
    ensures pairs { map pair all.new.items ≡ (if result
        then put (plain key.now) (plain value.now) (map pair all.old.items)
        else map pair all.old.items) }
    ensures held { IsHeld (plain first.now) (map pair all.new.items) }
{
    let Ok(value) = value.copy() else {
        return false;
    };
    drop(set_value(all, place, value));
    true
}

fn set_in(chunk: &mut Chunk, place: usize, key: &Datum, value: &Datum) -> bool
    requires hit { IsHitBy order (keys_of chunk.old) (plain key.now) place }
    requires in_range { place < length chunk.old }
    ensures { chunk.new ≡ (if result then put (plain key.now) (plain value.now) chunk.old
        else chunk.old) }
{
    match Arc::get_mut(&mut chunk.held) {
        None => false,
        Some(all) => set_at(&chunk.first, all, place, key, value),
    }
}

fn pair_of(key: &Datum, value: &Datum) -> Result<Pair, Memory>
    ensures { IfOk result (λ m. pair m ≡ (plain key.now, plain value.now)) }
{
    let key = key.copy()?;
    let value = value.copy()?;
    Ok(Pair { key, value })
}

// Puts a pair where its key would stand.
fn insert_pair(all: &mut Vec<Pair>, place: usize, key: &Datum, value: &Datum) -> bool
    requires gap { IsGapBy order (keys_of (map pair all.old.items)) (plain key.now) place }
    requires in_range { place ≤ length all.old.items }
    ensures pairs { map pair all.new.items ≡ (if result
        then put (plain key.now) (plain value.now) (map pair all.old.items)
        else map pair all.old.items) }
    ensures length { length all.new.items ≤ length all.old.items + 1 }
    ensures some { length all.old.items ≤ length all.new.items }
{
    match pair_of(key, value) {
        Err(_) => false,
        Ok(pair) => match all.insert(place, pair) {
            Ok(()) => true,
            Err(_) => false,
        },
    }
}

// The same in a chunk that isn't full, whose first key may become another.
fn insert_at(
    first: &mut Datum,
    all: &mut Vec<Pair>,
    place: usize,
    key: &Datum,
    value: &Datum,
) -> bool
    requires held { IsHeld (plain first.old) (map pair all.old.items) }
    requires gap { IsGapBy order (keys_of (map pair all.old.items)) (plain key.now) place }
    requires in_range { place ≤ length all.old.items }
    ensures pairs { map pair all.new.items ≡ (if result
        then put (plain key.now) (plain value.now) (map pair all.old.items)
        else map pair all.old.items) }
    ensures held { IsHeld (plain first.new) (map pair all.new.items) }
{
    if all.len() >= MOST {
        return false;
    }
    if place > 0 {
        return insert_pair(all, place, key, value);
    }
    let Ok(low) = key.copy() else {
        return false;
    };
    if insert_pair(all, place, key, value) {
        drop(mem::replace(first, low));
        return true;
    }
    false
}

fn insert_in(chunk: &mut Chunk, place: usize, key: &Datum, value: &Datum) -> bool
    requires gap { IsGapBy order (keys_of chunk.old) (plain key.now) place }
    requires in_range { place ≤ length chunk.old }
    ensures { chunk.new ≡ (if result then put (plain key.now) (plain value.now) chunk.old
        else chunk.old) }
{
    match Arc::get_mut(&mut chunk.held) {
        None => false,
        Some(all) => insert_at(&mut chunk.first, all, place, key, value),
    }
}

fn chunk_try<L>(
    alloc: Global,
    chunk: &mut Chunk,
    key: &Datum,
    value: &Datum,
    steps: &mut Steps<L>,
) -> bool
    ensures pairs { chunk.new ≡ (if result then put (plain key.now) (plain value.now) chunk.old
        else chunk.old) }
    ensures counted { steps.new ≤ steps.old + 4 }
{
    if let Err(_) = own_chunk(alloc, chunk) {
        return false;
    }
    match seek_few(chunk.pairs(), key, steps) {
        Err(place) => insert_in(chunk, place, key, value),
        Ok(place) => set_in(chunk, place, key, value),
    }
}

/// A chunk with a value at a key, where it has room and memory is there; and whether it was so.
fn chunk_put_in<L>(
    alloc: Global,
    chunk: &mut Chunk,
    key: &Datum,
    value: &Datum,
    steps: &mut Steps<L>,
) -> bool
    ensures pairs { chunk.new ≡ (if result then put (plain key.now) (plain value.now) chunk.old
        else chunk.old) }
    ensures chunk { IsChunk chunk.new }
    ensures counted { steps.new ≤ steps.old + 4 }
{
    let done = chunk_try(alloc, chunk, key, value, steps);
    let _facts = chunk.first();
    done
}

// A size where a part of it becomes another.
pub(crate) fn resized(size: u64, before: u64, after: u64) -> u64
    requires part { before ≤ size }
    requires fits { size - before + after < 2 ^ 64 }
    ensures { result ≡ size - before + after }
{
    size - before + after
}

// Puts a value at a key where the pair falls to, if that chunk has room, and says what came of it.
// The pair falls to the last chunk whose first key isn't above the key, and to the first chunk of
// `least`, the side that no chunk stands before. Nothing is changed where nothing is put.
fn side_fall<L>(
    alloc: Global,
    side: &mut Side,
    key: &Datum,
    value: &Datum,
    least: bool,
    steps: &mut Steps<L>,
) -> Fell
    ensures pairs { side.new.0 ≡ (if is_put result then put (plain key.now) (plain value.now)
        side.old.0 else side.old.0) }
    ensures fallen { Fallen (plain key.now) least side.old.0 result }
    ensures height { side.new.1 ≡ side.old.1 }
    ensures counted { steps.new ≤ steps.old + (side.old.1 + steps_at result) }
{
    if side.len() == u64::MAX {
        return Fell::Kept;
    }
    if let Err(_) = own_side(alloc, side) {
        return Fell::Kept;
    }
    let Some(shared) = &mut side.node else {
        return Fell::Kept;
    };
    let Some(node) = Arc::get_mut(shared) else {
        return Fell::Kept;
    };
    steps.tick();
    match fall_at(&node.left, &node.chunk, &node.right, key, least) {
        Fall::Below => Fell::Before,
        Fall::Here => {
            let before = node.chunk.len();
            let done = chunk_put_in(alloc, &mut node.chunk, key, value, steps);
            side.size = resized(side.size, before, node.chunk.len());
            fell_of(done)
        }
        Fall::Left => {
            let before = node.left.len();
            let fell = side_fall(alloc, &mut node.left, key, value, least, steps);
            side.size = resized(side.size, before, node.left.len());
            fell
        }
        Fall::Right => {
            let before = node.right.len();
            match side_fall(alloc, &mut node.right, key, value, false, steps) {
                Fell::Kept => Fell::Kept,
                Fell::Put => {
                    side.size = resized(side.size, before, node.right.len());
                    Fell::Put
                }
                Fell::Before => {
                    let before = node.chunk.len();
                    let done = chunk_put_in(alloc, &mut node.chunk, key, value, steps);
                    side.size = resized(side.size, before, node.chunk.len());
                    fell_of(done)
                }
            }
        }
    }
}

/// A side with a value at a key, where that changes the pairs of one chunk alone, which has room for
/// it; and whether it was so. Nothing is changed where not.
pub(crate) fn side_put_in<L>(
    alloc: Global,
    side: &mut Side,
    key: &Datum,
    value: &Datum,
    steps: &mut Steps<L>,
) -> bool
    ensures pairs { side.new.0 ≡ (if result then put (plain key.now) (plain value.now) side.old.0
        else side.old.0) }
    ensures height { side.new.1 ≡ side.old.1 }
    ensures counted { steps.new ≤ steps.old + (2 * side.old.1 + 4) }
{
    match side_fall(alloc, side, key, value, true, steps) {
        Fell::Put => true,
        Fell::Kept => false,
        Fell::Before => false,
    }
}

/// Puts a value at a key: in place where the chunk has room, and by a new way where not.
pub(crate) fn top_put<L>(
    alloc: Global,
    top: &mut Side,
    key: &Datum,
    value: &Datum,
    steps: &mut Steps<L>,
) -> Result<(), Memory>
    ensures pairs { top.new.0 ≡ (if is_ok result then put (plain key.now) (plain value.now)
        top.old.0 else top.old.0) }
    ensures counted { steps.new ≤ steps.old + (6 * tall (length top.old.0) + 6) }
{
    if top.height() > 0 {
        if side_put_in(alloc, top, key, value, steps) {
            return Ok(());
        }
    }
    let new = side_put(alloc, top, key, value, steps)?;
    *top = new;
    Ok(())
}
