// A key left out of a tree where it stands: the nodes of the way are made its own, and nothing else changes.
ghost use Rattle.std.specs.Prelude.{◌≡◌, ◌+◌, ◌-◌, ◌*◌, ◌^◌, ◌<◌, ◌≤◌, length, map, is_ok, if◌then◌else◌};
ghost use Rattle.std.specs.Map.{keys_of};
ghost use Rattle.reql_datum.specs.Order.{order};
ghost use Rattle.reql_memory.specs.Sorted.{IsHitBy};
ghost use Rattle.reql_datum.specs.View.{plain};
ghost use Rattle.reql_ptree.specs.Chunk.{pair, IsChunk, IsHeld};
ghost use Rattle.reql_ptree.specs.Pairs.{without};
ghost use Rattle.reql_ptree.specs.Tall.{tall};

use crate::chunk::{Chunk, Pair};
use crate::edit::MOST;
use crate::in_place::{own_chunk, own_side, resized};
use crate::remove::side_remove;
use crate::seek::seek_few;
use crate::side::Side;
use crate::steps::Steps;
use crate::turn::{Turn, turn_at};
use reql_datum::{Datum, Memory};
use std::alloc::Global;
use std::mem;
use std::sync::Arc;

// Takes out the pair at a place.
fn drop_pair(all: &mut Vec<Pair>, place: usize, key: &Datum)
    requires hit { IsHitBy order (keys_of (map pair all.old.items)) (plain key.now) place }
    requires in_range { place < length all.old.items }
    ensures pairs { map pair all.new.items ≡ without (plain key.now) (map pair all.old.items) }
    ensures length { length all.new.items + 1 ≡ length all.old.items }
{
    drop(all.remove(place));
}

// The same in a chunk of two pairs or more, whose first key may become another.
fn drop_at(first: &mut Datum, all: &mut Vec<Pair>, place: usize, key: &Datum) -> bool
    requires held { IsHeld (plain first.old) (map pair all.old.items) }
    requires hit { IsHitBy order (keys_of (map pair all.old.items)) (plain key.now) place }
    requires in_range { place < length all.old.items }
    ensures pairs { map pair all.new.items ≡ (if result
        then without (plain key.now) (map pair all.old.items) else map pair all.old.items) }
    ensures held { IsHeld (plain first.new) (map pair all.new.items) }
{
    let Some(next) = all.get(1) else {
        return false;
    };
    if place > 0 {
        drop_pair(all, place, key);
        return true;
    }
    let Ok(low) = next.key.copy() else {
        return false;
    };
    drop_pair(all, place, key);
    drop(mem::replace(first, low));
    true
}

fn drop_in(alloc: Global, chunk: &mut Chunk, place: usize, key: &Datum) -> bool
    requires hit { IsHitBy order (keys_of chunk.old) (plain key.now) place }
    requires in_range { place < length chunk.old }
    ensures { chunk.new ≡ (if result then without (plain key.now) chunk.old else chunk.old) }
{
    if let Err(_) = own_chunk(alloc, chunk) {
        return false;
    }
    match Arc::get_mut(&mut chunk.held) {
        None => false,
        Some(all) => drop_at(&mut chunk.first, all, place, key),
    }
}

fn chunk_drop<L>(alloc: Global, chunk: &mut Chunk, key: &Datum, steps: &mut Steps<L>) -> bool
    ensures pairs { chunk.new ≡ (if result then without (plain key.now) chunk.old else chunk.old) }
    ensures counted { steps.new ≤ steps.old + 4 }
{
    match seek_few(chunk.pairs(), key, steps) {
        Err(_) => true,
        Ok(place) => drop_in(alloc, chunk, place, key),
    }
}

/// A chunk without a key, where it keeps a pair and memory is there; and whether it was so.
fn chunk_remove_in<L>(alloc: Global, chunk: &mut Chunk, key: &Datum, steps: &mut Steps<L>) -> bool
    ensures pairs { chunk.new ≡ (if result then without (plain key.now) chunk.old else chunk.old) }
    ensures chunk { IsChunk chunk.new }
    ensures counted { steps.new ≤ steps.old + 4 }
{
    let done = chunk_drop(alloc, chunk, key, steps);
    let _facts = chunk.first();
    done
}

// Whether a node above others may become one chunk where it loses a pair.
fn is_to_join(side: &Side) -> bool {
    side.height() == 2 && side.len() <= MOST as u64 + 1
}

/// A side without a key, where its chunk keeps a pair and no node of the way may become one chunk;
/// and whether it was so. Nothing is changed where not.
fn side_remove_in<L>(alloc: Global, side: &mut Side, key: &Datum, steps: &mut Steps<L>) -> bool
    ensures pairs { side.new.0 ≡ (if result then without (plain key.now) side.old.0
        else side.old.0) }
    ensures height { side.new.1 ≡ side.old.1 }
    ensures counted { steps.new ≤ steps.old + (2 * side.old.1 + 4) }
{
    if is_to_join(side) {
        return false;
    }
    if let Err(_) = own_side(alloc, side) {
        return false;
    }
    let Some(shared) = &mut side.node else {
        return false;
    };
    let Some(node) = Arc::get_mut(shared) else {
        return false;
    };
    steps.tick();
    match turn_at(&node.left, &node.chunk, &node.right, key, steps) {
        Turn::Here => {
            let before = node.chunk.len();
            let done = chunk_remove_in(alloc, &mut node.chunk, key, steps);
            side.size = resized(side.size, before, node.chunk.len());
            done
        }
        Turn::Left => {
            let before = node.left.len();
            let done = side_remove_in(alloc, &mut node.left, key, steps);
            let _facts = node.left.height();
            side.size = resized(side.size, before, node.left.len());
            done
        }
        Turn::Right => {
            let before = node.right.len();
            let done = side_remove_in(alloc, &mut node.right, key, steps);
            let _facts = node.right.height();
            side.size = resized(side.size, before, node.right.len());
            done
        }
    }
}

/// Leaves out a key: in place where its chunk keeps a pair, and by a new way where not.
pub(crate) fn top_remove<L>(
    alloc: Global,
    top: &mut Side,
    key: &Datum,
    steps: &mut Steps<L>,
) -> Result<(), Memory>
    ensures pairs { top.new.0 ≡ (if is_ok result then without (plain key.now) top.old.0
        else top.old.0) }
    ensures counted { steps.new ≤ steps.old + (6 * tall (length top.old.0) + 6) }
{
    if top.height() > 0 {
        if side_remove_in(alloc, top, key, steps) {
            return Ok(());
        }
    }
    let new = side_remove(alloc, top, key, steps)?;
    *top = new;
    Ok(())
}
