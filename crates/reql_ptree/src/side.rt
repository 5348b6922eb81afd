// A side of a tree: nothing, or a node with a chunk of pairs between two sides.
ghost use Rattle.std.specs.Prelude.{◌≡◌, ◌+◌, ◌≤◌, max, [], ◌∷◌, ◌++◌, length, IfOk, IfSome, MatchOption};
ghost use Rattle.reql_ptree.specs.Pairs.{AreRising};
ghost use Rattle.reql_ptree.specs.Side.{IsNodeOf};
ghost use Rattle.reql_ptree.specs.Tall.{least, DifferByAtMost};

use crate::chunk::Chunk;
use reql_datum::Memory;
use std::alloc::Global;
use std::marker::Model;
use std::sync::Arc;

/// Contracts see its pairs in order, and its height in nodes.
#[cycle(side)]
#[derive(Drop)]
pub(crate) struct Side {
    pub(crate) node: Option<Arc<Node>>,
    pub(crate) height: u64,
    pub(crate) size: u64,
}

#[cycle(side)]
#[derive(Drop)]
pub(crate) struct Node {
    pub(crate) left: Side,
    pub(crate) chunk: Chunk,
    pub(crate) right: Side,
}

impl Model for Side {
    ghost use Rattle.std.specs.Prelude.{List, ℕ, length};
    ghost use Rattle.std.specs.Coded.{coded_list, coded×, coded_ℕ};
    ghost use Rattle.reql_datum.specs.Plain.{Plain};
    ghost use Rattle.reql_datum.specs.Code.{plain_code};

    ghost Value = { List (Plain × Plain) × ℕ };

    ghost coded = { coded× (coded_list (coded× plain_code plain_code)) coded_ℕ };

    ghost use Rattle.reql_ptree.specs.Side.{side_pairs, IsSide};

    ghost view = { λ a. (side_pairs a.node, a.height) };

    ghost invariant = { λ a. IsSide a.node a.height a.size };

    ghost size = { λ d. length d.0 };

    ghost use Rattle.reql_ptree.specs.SideFalls.{sides_fall};

    ghost size_decreases = { λ a h. sides_fall a.node a.height a.size h.0 };
}

impl Side {
    /// The side of nothing.
    pub(crate) fn empty() -> Side
        ensures { result ≡ ([], 0) }
    {
        Side {
            node: None,
            height: 0,
            size: 0,
        }
    }

    /// The node that it is, if it isn't nothing.
    pub(crate) fn node(&self) -> Option<&Node>
        ensures { MatchOption result (self.now ≡ ([], 0)) (λ n. IsNodeOf self.now n.now) }
    {
        match &self.node {
            None => None,
            Some(node) => Some(&**node),
        }
    }

    /// How many nodes are on its longest way down.
    pub(crate) fn height(&self) -> u64
        ensures height { result ≡ self.now.1 }
        ensures grown { least self.now.1 ≤ length self.now.0 }
        ensures rising { AreRising self.now.0 }
    {
        self.height
    }

    /// How many pairs it has.
    pub(crate) fn len(&self) -> u64
        ensures { result ≡ length self.now.0 }
    {
        self.size
    }

    /// An equal side that shares the nodes. Memory where a count is full.
    pub(crate) fn share(&self) -> Result<Side, Memory>
        ensures { IfOk result (λ side. side ≡ self.now) }
    {
        match &self.node {
            None => Ok(Side::empty()),
            Some(node) => match Arc::try_clone(node) {
                Ok(node) => Ok(Side {
                    node: Some(node),
                    height: self.height,
                    size: self.size,
                }),
                Err(_) => Err(Memory),
            },
        }
    }
}

// How many pairs a node has.
fn size_of(left: &Side, chunk: &Chunk, right: &Side) -> Option<u64>
    ensures { IfSome result (λ n. n ≡ length (left.now.0 ++ (chunk.now ++ right.now.0))) }
{
    left.len()
        .checked_add(right.len())?
        .checked_add(chunk.len())
}

/// The node of two sides of nearly one height.
pub(crate) fn fork(alloc: Global, left: Side, chunk: Chunk, right: Side) -> Result<Side, Memory>
    requires rising { AreRising (left.0 ++ (chunk ++ right.0)) }
    requires even { DifferByAtMost 1 left.1 right.1 }
    ensures pairs { IfOk result (λ side. side.0 ≡ left.0 ++ (chunk ++ right.0)) }
    ensures height { IfOk result (λ side. side.1 ≡ max left.1 right.1 + 1) }
{
    let _facts = chunk.first();
    let Some(height) = left.height().max(right.height()).checked_add(1) else {
        return Err(Memory);
    };
    let Some(size) = size_of(&left, &chunk, &right) else {
        return Err(Memory);
    };
    let node = Node { left, chunk, right };
    match Arc::new(alloc, node) {
        Ok(node) => Ok(Side {
            node: Some(node),
            height,
            size,
        }),
        Err(_) => Err(Memory),
    }
}
