// Where a pair falls to from a node, by one comparison.
ghost use Rattle.std.specs.Prelude.{◌≡◌, ◌++◌};
ghost use Rattle.reql_datum.specs.View.{plain};
ghost use Rattle.reql_ptree.specs.Fall.{IsFall, fell_of};
ghost use Rattle.reql_ptree.specs.Pairs.{AreRising};

use crate::chunk::Chunk;
use crate::side::Side;
use reql_datum::{Datum, compare};

/// What part of a node a key falls to. To the right of a node it may lie below all that is there,
/// and then goes to the node's own chunk.
pub(crate) enum Fall {
    Left,
    Here,
    Right,
    Below,
}

/// What came of a pair that fell to a side: it was put, nothing was changed, or its key is below all
/// of the side and so goes to the chunk before it.
#[derive(Clone, Copy)]
pub(crate) enum Fell {
    Put,
    Kept,
    Before,
}

/// Looks at the first key of the chunk alone, which is known beside the pointer to the pairs. A key
/// below all of a node goes to its chunk only where there is no chunk before it.
pub(crate) fn fall_at(left: &Side, chunk: &Chunk, right: &Side, key: &Datum, least: bool) -> Fall
    requires rising { AreRising (left.now.0 ++ (chunk.now ++ right.now.0)) }
    ensures { IsFall (plain key.now) least left.now.0 chunk.now right.now.0 result }
{
    if compare(key, chunk.first()).is_lt() {
        if let Some(_) = left.node() {
            return Fall::Left;
        }
        if least {
            return Fall::Here;
        }
        return Fall::Below;
    }
    if let None = right.node() {
        return Fall::Here;
    }
    Fall::Right
}

/// What came of a pair that a chunk was handed.
pub(crate) fn fell_of(done: bool) -> Fell
    ensures { result ≡ fell_of done }
{
    if done { Fell::Put } else { Fell::Kept }
}
