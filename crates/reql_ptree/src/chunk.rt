// A chunk: up to fifteen pairs by rising key, shared by a count.
ghost use Rattle.std.specs.Prelude.{◌≡◌, ◌<◌, ◌≤◌, [], ◌∷◌, length, map, IfOk};
ghost use Rattle.reql_datum.specs.View.{plain};
ghost use Rattle.reql_ptree.specs.Pairs.{AreRising, Opens};
ghost use Rattle.reql_ptree.specs.Chunk.{pair, IsChunk};

use reql_datum::{Datum, Memory};
use std::alloc::Global;
use std::marker::Model;
use std::sync::Arc;

/// A key with its value.
#[derive(Drop)]
pub(crate) struct Pair {
    pub(crate) key: Datum,
    pub(crate) value: Datum,
}

/// Pairs that stand side by side in a tree. The first key is kept beside the pointer, so that a way
/// through the tree reads no chunk but the last.
#[derive(Drop)]
pub(crate) struct Chunk {
    pub(crate) first: Datum,
    pub(crate) held: Arc<Vec<Pair>>,
}

impl Model for Chunk {
    ghost use Rattle.std.specs.Prelude.{List, map};
    ghost use Rattle.std.specs.Coded.{coded_list, coded×};
    ghost use Rattle.reql_datum.specs.Plain.{Plain};
    ghost use Rattle.reql_datum.specs.Code.{plain_code};

    ghost Value = { List (Plain × Plain) };

    ghost coded = { coded_list (coded× plain_code plain_code) };

    ghost use Rattle.reql_datum.specs.View.{plain};
    ghost use Rattle.reql_ptree.specs.Chunk.{pair, IsHeld};

    ghost view = { λ a. map pair a.held.value.items };

    ghost invariant = { λ a. IsHeld (plain a.first) (map pair a.held.value.items) };
}

impl Chunk {
    /// The chunk of such pairs.
    pub(crate) fn of(alloc: Global, pairs: Vec<Pair>) -> Result<Chunk, Memory>
        requires { IsChunk (map pair pairs.items) }
        ensures { IfOk result (λ chunk. chunk ≡ map pair pairs.items) }
    {
        let Some(head) = pairs.first() else {
            return Err(Memory);
        };
        let first = head.key.copy()?;
        match Arc::new(alloc, pairs) {
            Ok(held) => Ok(Chunk { first, held }),
            Err(_) => Err(Memory),
        }
    }

    /// The pairs, of which there is one at least.
    pub(crate) fn pairs(&self) -> &[Pair]
        ensures pairs { map pair result.now ≡ self.now }
        ensures chunk { IsChunk self.now }
    {
        self.held.as_slice()
    }

    /// The key of the first pair.
    pub(crate) fn first(&self) -> &Datum
        ensures first { Opens (λ k. k ≡ plain result.now) self.now }
        ensures chunk { IsChunk self.now }
    {
        &self.first
    }

    /// How many pairs it has.
    pub(crate) fn len(&self) -> u64
        ensures { result ≡ length self.now }
    {
        self.pairs().len() as u64
    }

    /// An equal chunk that shares the pairs. Memory where a count is full.
    pub(crate) fn copy(&self) -> Result<Chunk, Memory>
        ensures { IfOk result (λ chunk. chunk ≡ self.now) }
    {
        let first = self.first.copy()?;
        match Arc::try_clone(&self.held) {
            Ok(held) => Ok(Chunk { first, held }),
            Err(_) => Err(Memory),
        }
    }
}
