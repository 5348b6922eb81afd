// The calls on a list.
ghost use Rattle.std.specs.Prelude.{◌≡◌, [], ◌∷◌, ◌++◌, length, map, is_ok, IfOk, IfErr, OnSome, MatchOption, drop, ◌+◌, ◌^◌, ◌<◌, option_map, slice_get, nat_eq, if◌then◌else◌};
ghost use Rattle.reql_datum.specs.Kinds.{are_storable};
ghost use Rattle.reql_datum.specs.Plain.{items_of};
ghost use Rattle.reql_datum.specs.Shapes.{items_shape};
ghost use Rattle.reql_datum.specs.View.{plain};

use crate::datum::{Datum, Items};
use crate::shape::Shape;
use reql_memory::copy_on_write::{copied, push_on, roomy, shown};
use reql_memory::{Memory, Refused};
use std::alloc::Global;

impl Items {
    /// The list of nothing, which takes no memory.
    pub fn new(alloc: Global) -> Items
        ensures { result ≡ [] }
    {
        Items {
            alloc,
            held: None,
            shape: Shape::FLAT,
        }
    }

    /// The list of nothing, with room for so many items.
    pub fn with_room(alloc: Global, room: usize) -> Result<Items, Memory>
        ensures { IfOk result (λ items. items ≡ []) }
    {
        let held = roomy(alloc, room)?;
        Ok(Items {
            alloc,
            held,
            shape: Shape::FLAT,
        })
    }

    /// The items as a slice.
    pub fn as_slice(&self) -> &[Datum]
        ensures { map plain result.now ≡ self.now }
    {
        shown(&self.held)
    }

    /// How many items it has.
    pub fn len(&self) -> usize
        ensures { result ≡ length self.now }
    {
        self.as_slice().len()
    }

    /// Whether it has no item.
    pub fn is_empty(&self) -> bool
        ensures { result ≡ nat_eq (length self.now) 0 }
    {
        self.as_slice().is_empty()
    }

    /// The item at a place. With `rest`, a loop over the places proves itself.
    pub fn at(&self, place: usize) -> Option<&Datum>
        ensures found { option_map (λ d. plain d.now) result ≡ slice_get self.now place }
        ensures rest { MatchOption result (drop place self.now ≡ [])
            (λ d. drop place self.now ≡ plain d.now ∷ drop (place + 1) self.now) }
        ensures place_fits { OnSome result (place < 2 ^ 63) }
    {
        self.seek(place)
    }

    fn seek(&self, place: usize) -> Option<&Datum>
        ensures found { option_map (λ d. plain d.now) result ≡ slice_get self.now place }
        ensures place_fits { OnSome result (place < 2 ^ 63) }
    {
        self.as_slice().get(place)
    }

    /// Adds an item at the end, in place where the list isn't shared.
    pub fn push(&mut self, item: Datum) -> Result<(), Refused<Datum>>
        ensures items { self.new ≡ (if is_ok result then self.old ++ plain item ∷ []
            else self.old) }
        ensures back { IfErr result (λ refused. refused.back ≡ item) }
    {
        let shape = self.shape.beside(item.shape());
        match push_on(self.alloc, &mut self.held, item) {
            Ok(()) => {
                self.shape = shape;
                Ok(())
            }
            Err(refused) => Err(refused),
        }
    }

    /// How deep its items are and whether all may be stored, in a constant number of steps.
    pub(crate) fn shape(&self) -> Shape
        ensures { result ≡ items_shape self.now }
    {
        self.shape
    }

    /// Whether each item may be shown and stored, in a constant number of steps.
    pub fn is_storable(&self) -> bool
        ensures { result ≡ are_storable (items_of self.now) }
    {
        self.shape.storable
    }

    /// An equal list that shares the items. Memory where the count of sharers is full.
    pub fn copy(&self) -> Result<Items, Memory>
        ensures { IfOk result (λ items. items ≡ self.now) }
    {
        let held = copied(&self.held)?;
        Ok(Items {
            alloc: self.alloc,
            held,
            shape: self.shape,
        })
    }
}
