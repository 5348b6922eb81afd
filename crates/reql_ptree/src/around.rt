// The way down a tree to a key.
ghost use Rattle.std.specs.Prelude.{◌≡◌, ◌+◌, ◌≤◌, []};
ghost use Rattle.reql_datum.specs.Order.{order};
ghost use Rattle.reql_datum.specs.View.{plain};
ghost use Rattle.reql_ptree.specs.Next.{is_behind};
ghost use Rattle.reql_ptree.specs.Pairs.{AreRising};
ghost use Rattle.reql_ptree.specs.Way.{pairs_in, IsWay};

use crate::chunk::Chunk;
use crate::side::Side;
use crate::steps::Steps;
use reql_datum::{Datum, compare};
use std::cmp::Ordering;

/// The chunks on both hands of a key: the last whose first key is behind it, and the first whose
/// first key isn't; and how many pairs stand in the one below and before it.
#[derive(Drop)]
pub(crate) struct Around<'a> {
    pub(crate) below: Option<&'a Chunk>,
    pub(crate) above: Option<&'a Chunk>,
    pub(crate) passed: u64,
}

pub(crate) fn is_behind(key: &Datum, other: &Datum, at: bool) -> bool
    ensures { result ≡ is_behind at (order (plain key.now) (plain other.now)) }
{
    match compare(key, other) {
        Ordering::Less => false,
        Ordering::Equal => at,
        Ordering::Greater => true,
    }
}

/// Walks down once. A key is behind another that is above it, and behind itself if `at` says so.
pub(crate) fn way_to<'a, L>(
    side: &'a Side,
    key: &Datum,
    at: bool,
    steps: &mut Steps<L>,
) -> Around<'a>
    ensures way { IsWay (plain key.now) at side.now.0 (pairs_in result.below) []
        (pairs_in result.above) side.now.1 0 result.passed }
    ensures counted { steps.new ≤ steps.old + side.now.1 }
{
    let _facts = side.len();
    let mut rest = side;
    let mut passed = 0;
    let mut below = None;
    let mut above = None;
    while let Some(node) = rest.node() {
        steps.tick();
        if is_behind(key, node.chunk.first(), at) {
            passed += rest.len() - node.right.len();
            below = Some(&node.chunk);
            rest = &node.right;
        } else {
            above = Some(&node.chunk);
            rest = &node.left;
        }
    }
    Around {
        below,
        above,
        passed,
    }
}
