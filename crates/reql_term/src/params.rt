// The parameters of a function.
ghost use Rattle.std.specs.Prelude.{◌≡◌, [], ◌∷◌, ◌++◌, length, is_ok, IfOk, IfErr, OnSome, MatchOption, drop, ◌+◌, ◌^◌, ◌<◌, option_map, slice_get, nat_eq, if◌then◌else◌};
ghost use Rattle.reql_term.specs.Params.{IsNew, AreDistinct};

use reql_datum::{Memory, Refused};
use reql_memory::copy_on_write::{copied, push_on, roomy, shown};
use std::alloc::Global;
use std::marker::Model;
use std::sync::Arc;

/// The parameters of a function, by their ids, no two alike. Contracts see the list of the ids.
#[derive(Drop)]
pub struct Params {
    alloc: Global,
    held: Option<Arc<Vec<u64>>>,
}

impl Model for Params {
    ghost use Rattle.std.specs.Prelude.{List, ℕ};
    ghost use Rattle.reql_memory.specs.CopyOnWrite.{held_items};
    ghost use Rattle.reql_term.specs.Params.{AreDistinct};

    ghost Value = { List ℕ };

    ghost view = { λ a. held_items a.held };

    ghost invariant = { λ a. AreDistinct (held_items a.held) };
}

impl Params {
    /// No parameter, which takes no memory.
    pub fn new(alloc: Global) -> Params
        ensures { result ≡ [] }
    {
        Params { alloc, held: None }
    }

    /// No parameter, with room for so many.
    pub fn with_room(alloc: Global, room: usize) -> Result<Params, Memory>
        ensures { IfOk result (λ params. params ≡ []) }
    {
        let held = roomy(alloc, room)?;
        Ok(Params { alloc, held })
    }

    /// The ids as a slice.
    pub fn as_slice(&self) -> &[u64]
        ensures ids { result.now ≡ self.now }
        ensures distinct { AreDistinct self.now }
    {
        shown(&self.held)
    }

    /// How many there are.
    pub fn len(&self) -> usize
        ensures { result ≡ length self.now }
    {
        self.as_slice().len()
    }

    /// Whether there is none.
    pub fn is_empty(&self) -> bool
        ensures { result ≡ nat_eq (length self.now) 0 }
    {
        self.as_slice().is_empty()
    }

    /// The id at a place.
    pub fn at(&self, place: usize) -> Option<u64>
        ensures { result ≡ slice_get self.now place }
    {
        self.as_slice().get(place).copied()
    }

    /// Adds an id at the end, which isn't there yet.
    pub fn push(&mut self, id: u64) -> Result<(), Refused<u64>>
        requires new { IsNew id self.old }
        ensures ids { self.new ≡ (if is_ok result then self.old ++ id ∷ [] else self.old) }
        ensures back { IfErr result (λ refused. refused.back ≡ id) }
    {
        push_on(self.alloc, &mut self.held, id)
    }

    /// Equal parameters that share the ids. Memory where the count of sharers is full.
    pub fn copy(&self) -> Result<Params, Memory>
        ensures { IfOk result (λ params. params ≡ self.now) }
    {
        let held = copied(&self.held)?;
        Ok(Params {
            alloc: self.alloc,
            held,
        })
    }
}
