ghost use Rattle.std.specs.Prelude.{◌≡◌, [], ◌∷◌, ◌++◌, ◌+◌, ◌^◌, ◌<◌, length, is_ok, IfErr, OnSome, MatchOption, drop, option_map, slice_get, nat_eq, if◌then◌else◌};

use crate::memory::Refused;
use std::alloc::Global;
use std::marker::Model;

/// A list that contracts see as a list.
///
/// It is a `Vec` behind a contract: made from one and giving it back without taking memory.
#[derive(Drop)]
pub struct Seq<T> {
    held: Vec<T>,
}

impl<T> Model for Seq<T> {
    ghost use Rattle.std.specs.Prelude.{List};

    ghost Value = { List T };

    ghost view = { λ a. a.held.items };
}

impl<T> Seq<T> {
    /// The list of nothing, which takes no memory.
    pub fn new(alloc: Global) -> Seq<T>
        ensures { result ≡ [] }
    {
        Seq {
            held: Vec::new(alloc),
        }
    }

    /// The list of a vector's items.
    pub fn from_vec(items: Vec<T>) -> Seq<T>
        ensures { result ≡ items.items }
    {
        Seq { held: items }
    }

    /// How many items it holds.
    pub fn len(&self) -> usize
        ensures { result ≡ length self.now }
    {
        self.held.len()
    }

    /// Whether it holds nothing.
    pub fn is_empty(&self) -> bool
        ensures { result ≡ nat_eq (length self.now) 0 }
    {
        self.held.is_empty()
    }

    /// The item at a place, from 0. With `rest`, a loop over the places proves itself.
    pub fn at(&self, place: usize) -> Option<&T>
        ensures found { option_map (λ x. x.now) result ≡ slice_get self.now place }
        ensures rest { MatchOption result (drop place self.now ≡ []) (λ x. drop place self.now
            ≡ x.now ∷ drop (place + 1) self.now) }
        ensures place_fits { OnSome result (place < 2 ^ 63) }
    {
        self.held.get(place)
    }

    /// Adds an item at the end.
    pub fn push(&mut self, item: T) -> Result<(), Refused<T>>
        ensures items { self.new ≡ (if is_ok result then self.old ++ item ∷ [] else self.old) }
        ensures back { IfErr result (λ refused. refused.back ≡ item) }
    {
        match self.held.push(item) {
            Ok(()) => Ok(()),
            Err(failed) => Err(Refused { back: failed.value }),
        }
    }

    /// The items as a slice.
    pub fn as_slice(&self) -> &[T]
        ensures { result.now ≡ self.now }
    {
        self.held.as_slice()
    }

    /// The items as a vector.
    pub fn into_vec(self) -> Vec<T>
        ensures { result.items ≡ self }
    {
        let Seq { held } = self;
        held
    }
}
