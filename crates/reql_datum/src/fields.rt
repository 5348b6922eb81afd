// The calls on an object.
ghost use Rattle.std.specs.Prelude.{◌≡◌, [], ◌∷◌, length, map, is_ok, IfOk, IfErr, OnSome, MatchOption, drop, ◌+◌, ◌^◌, ◌<◌, option_map, slice_get, nat_eq, if◌then◌else◌};
ghost use Rattle.reql_datum.specs.Kinds.{is_storable};
ghost use Rattle.std.specs.Map.{keys_of};
ghost use Rattle.reql_memory.specs.Sorted.{IsGapBy};
ghost use Rattle.reql_datum.specs.Members.{text_order, find, put, without, AreRising};
ghost use Rattle.reql_datum.specs.Plain.{object, pairs_of};
ghost use Rattle.reql_datum.specs.Shapes.{members_shape};
ghost use Rattle.reql_datum.specs.View.{plain, member};

use crate::datum::{Datum, Field, Fields};
use crate::name::Name;
use crate::shape::{Shape, member_shape, shape_after};
use reql_memory::copy_on_write::{copied, roomy, shown};
use reql_memory::{Memory, Refused, sorted_map};
use std::alloc::Global;

// An object of up to so many names takes no more memory than at its first.
const ROOM: usize = 12;

// Among so many members or fewer, a name is looked for in one after another.
const FEW: usize = 8;

#[tactic(auto, using(crate::proofs::Walks::walks))]
fn value_at<'a>(members: &'a [Field], name: &str) -> Option<&'a Datum>
    ensures { option_map (λ d. plain d.now) result ≡ find name.now (map member members.now) }
{
    let mut place = 0;
    while let Some(field) = members.get(place) {
        if field.name.is(name) {
            return Some(&field.value);
        }
        place += 1;
    }
    None
}

impl Fields {
    /// The object without members, which takes no memory.
    pub fn new(alloc: Global) -> Fields
        ensures { result ≡ [] }
    {
        Fields {
            alloc,
            held: None,
            shape: Shape::FLAT,
        }
    }

    /// The object without members, with room for so many.
    pub fn with_room(alloc: Global, room: usize) -> Result<Fields, Memory>
        ensures { IfOk result (λ fields. fields ≡ []) }
    {
        let held = roomy(alloc, room)?;
        Ok(Fields {
            alloc,
            held,
            shape: Shape::FLAT,
        })
    }

    fn members(&self) -> &[Field]
        ensures members { map member result.now ≡ self.now }
        ensures rising { AreRising self.now }
    {
        shown(&self.held)
    }

    /// The value at a name.
    pub fn get(&self, name: &str) -> Option<&Datum>
        ensures { option_map (λ d. plain d.now) result ≡ find name.now self.now }
    {
        let members = self.members();
        if members.len() > FEW {
            return sorted_map::get(members, &name);
        }
        value_at(members, name)
    }

    /// Puts a value at a name, and gives the value that it replaced.
    pub fn put(&mut self, name: Name, value: Datum) -> Result<Option<Datum>, Refused<(Name, Datum)>>
        ensures replaced { IfOk result (λ old. option_map plain old ≡ find name self.old) }
        ensures members { self.new ≡ (if is_ok result then put name (plain value) self.old
            else self.old) }
        ensures back { IfErr result (λ refused. refused.back ≡ (name, value)) }
    {
        let new = member_shape(&name, &value);
        match sorted_map::put_shared(self.alloc, &mut self.held, ROOM, name, value) {
            Ok(None) => {
                self.shape = self.shape.beside(new);
                Ok(None)
            }
            Ok(Some(old)) => {
                self.shape = shape_after(self.shape, old.shape(), new, shown(&self.held));
                Ok(Some(old))
            }
            Err(refused) => Err(refused),
        }
    }

    /// Puts a value at a name, and lets go of the one that it replaced. A name above all others, as
    /// most are put, takes less than by `put`.
    pub fn set(&mut self, name: Name, value: Datum) -> Result<(), Memory>
        ensures { self.new ≡ (if is_ok result then put name (plain value) self.old
            else self.old) }
    {
        if sorted_map::is_above(shown(&self.held), &name) {
            return self.put_last(name, value);
        }
        drop(self.put(name, value)?);
        Ok(())
    }

    fn put_last(&mut self, name: Name, value: Datum) -> Result<(), Memory>
        requires { IsGapBy text_order (keys_of self.old) name (length self.old) }
        ensures { self.new ≡ (if is_ok result then put name (plain value) self.old
            else self.old) }
    {
        let new = member_shape(&name, &value);
        sorted_map::put_last(self.alloc, &mut self.held, ROOM, name, value)?;
        self.shape = self.shape.beside(new);
        Ok(())
    }

    /// Removes a name with its value, and gives the value. Memory where a shared object can't be
    /// copied.
    pub fn remove(&mut self, name: &str) -> Result<Option<Datum>, Memory>
        ensures removed { IfOk result (λ old. option_map plain old ≡ find name.now self.old) }
        ensures members { self.new ≡ (if is_ok result then without name.now self.old
            else self.old) }
    {
        let Some(old) = sorted_map::remove_shared(self.alloc, &mut self.held, &name)? else {
            return Ok(None);
        };
        self.shape = shape_after(self.shape, old.shape(), Shape::FLAT, shown(&self.held));
        Ok(Some(old))
    }

    /// An equal object that shares the members. Memory where the count of sharers is full.
    pub fn copy(&self) -> Result<Fields, Memory>
        ensures { IfOk result (λ fields. fields ≡ self.now) }
    {
        let held = copied(&self.held)?;
        Ok(Fields {
            alloc: self.alloc,
            held,
            shape: self.shape,
        })
    }

    /// How deep its values are and whether it may be stored, in a constant number of steps.
    pub(crate) fn shape(&self) -> Shape
        ensures { result ≡ members_shape self.now }
    {
        self.shape
    }

    /// Whether it may be shown and stored, in a constant number of steps: it is no LITERAL, and each
    /// value in it may.
    pub fn is_storable(&self) -> bool
        ensures { result ≡ is_storable (object (pairs_of self.now)) }
    {
        self.shape.storable
    }

    /// How many members it has.
    pub fn len(&self) -> usize
        ensures { result ≡ length self.now }
    {
        self.members().len()
    }

    /// Whether it has no member.
    pub fn is_empty(&self) -> bool
        ensures { result ≡ nat_eq (length self.now) 0 }
    {
        self.members().is_empty()
    }

    /// The member at a place. With `rest`, a loop over the places proves itself.
    pub fn at(&self, place: usize) -> Option<(&Name, &Datum)>
        ensures found { option_map (λ m. (m.0.now, plain m.1.now)) result
            ≡ slice_get self.now place }
        ensures rest { MatchOption result (drop place self.now ≡ [])
            (λ m. drop place self.now ≡ (m.0.now, plain m.1.now) ∷ drop (place + 1) self.now) }
        ensures place_fits { OnSome result (place < 2 ^ 63) }
        ensures rising { AreRising self.now }
    {
        self.seek(place)
    }

    fn seek(&self, place: usize) -> Option<(&Name, &Datum)>
        ensures found { option_map (λ m. (m.0.now, plain m.1.now)) result
            ≡ slice_get self.now place }
        ensures place_fits { OnSome result (place < 2 ^ 63) }
        ensures rising { AreRising self.now }
    {
        match self.members().get(place) {
            Some(field) => Some((&field.name, &field.value)),
            None => None,
        }
    }
}
