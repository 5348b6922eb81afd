// Nodes whose pairs all fit into one chunk, made one.
ghost use Rattle.std.specs.Prelude.{◌≡◌, ◌+◌, ◌<◌, ◌≤◌, ◌++◌, true, max, map, IfOk, IfSome};
ghost use Rattle.reql_ptree.specs.Chunk.{pair};
ghost use Rattle.reql_ptree.specs.Pairs.{AreRising};
ghost use Rattle.reql_ptree.specs.Tall.{DifferByAtMost};

use crate::chunk::{Chunk, Pair};
use crate::edit::{MOST, copied};
use crate::side::{Side, fork};
use crate::steps::Steps;
use reql_datum::Memory;
use std::alloc::Global;

// Adds copies of pairs.
fn add_all(alloc: Global, all: &mut Vec<Pair>, pairs: &[Pair]) -> Result<(), Memory>
    ensures { IfOk result (λ _. all.new.items ≡ all.old.items ++ pairs.now) }
{
    let mut more = copied(alloc, pairs)?;
    if let Err(_) = all.append(&mut more) {
        return Err(Memory);
    }
    Ok(())
}

// Adds copies of a side's pairs, where it is one chunk or nothing; and whether it is.
#[tactic(auto, using(crate::proofs::Packed::none_added, crate::proofs::Packed::none_low, crate::proofs::Packed::one_added, crate::proofs::Packed::one_low))]
fn add_side<L>(
    alloc: Global,
    all: &mut Vec<Pair>,
    side: &Side,
    steps: &mut Steps<L>,
) -> Result<bool, Memory>
    ensures pairs { IfOk result (λ is_low. is_low ≡ true
        → map pair all.new.items ≡ map pair all.old.items ++ side.now.0) }
    ensures low { IfOk result (λ is_low. is_low ≡ true → side.now.1 ≤ 1) }
    ensures counted { steps.new ≤ steps.old + 1 }
{
    let Some(node) = side.node() else {
        return Ok(true);
    };
    steps.tick();
    if let Some(_) = node.left.node() {
        return Ok(false);
    }
    if let Some(_) = node.right.node() {
        return Ok(false);
    }
    add_all(alloc, all, node.chunk.pairs())?;
    Ok(true)
}

// The chunk of a chunk's pairs with those of the sides beside it, where each of these is one chunk
// or nothing and all fit into one.
fn merged<L>(
    alloc: Global,
    left: &Side,
    chunk: &Chunk,
    right: &Side,
    steps: &mut Steps<L>,
) -> Result<Option<Chunk>, Memory>
    requires rising { AreRising (left.now.0 ++ (chunk.now ++ right.now.0)) }
    ensures pairs { IfOk result (λ whole. IfSome whole (λ c.
        c ≡ left.now.0 ++ (chunk.now ++ right.now.0))) }
    ensures low { IfOk result (λ whole. IfSome whole (λ c.
        (left.now.1 ≤ 1) × (right.now.1 ≤ 1))) }
    ensures counted { steps.new ≤ steps.old + 2 }
{
    let beside = left.len().saturating_add(right.len());
    if beside.saturating_add(chunk.len()) > MOST as u64 {
        return Ok(None);
    }
    let mut all = Vec::new(alloc);
    let is_low = add_side(alloc, &mut all, left, steps)?;
    if !is_low {
        return Ok(None);
    }
    add_all(alloc, &mut all, chunk.pairs())?;
    let is_low = add_side(alloc, &mut all, right, steps)?;
    if !is_low {
        return Ok(None);
    }
    if all.len() > MOST {
        return Ok(None);
    }
    let whole = Chunk::of(alloc, all)?;
    Ok(Some(whole))
}

/// The node of two sides of nearly one height, one chunk where all its pairs fit into one and no
/// side has more than one.
pub(crate) fn packed<L>(
    alloc: Global,
    left: Side,
    chunk: Chunk,
    right: Side,
    steps: &mut Steps<L>,
) -> Result<Side, Memory>
    requires rising { AreRising (left.0 ++ (chunk ++ right.0)) }
    requires even { DifferByAtMost 1 left.1 right.1 }
    ensures pairs { IfOk result (λ side. side.0 ≡ left.0 ++ (chunk ++ right.0)) }
    ensures height { IfOk result (λ side. (max left.1 right.1 ≤ side.1)
        × (side.1 ≤ max left.1 right.1 + 1)) }
    ensures some { IfOk result (λ side. 0 < side.1) }
    ensures counted { steps.new ≤ steps.old + 2 }
{
    let whole = merged(alloc, &left, &chunk, &right, steps)?;
    match whole {
        Some(whole) => fork(alloc, Side::empty(), whole, Side::empty()),
        None => fork(alloc, left, chunk, right),
    }
}
