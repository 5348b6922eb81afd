// Groups, each with its datum.
ghost use Rattle.std.specs.Prelude.{◌≡◌, [], ◌∷◌, ◌++◌, ◌+◌, ◌^◌, ◌<◌, length, map, drop, is_ok, IfOk, IfErr, OnSome, MatchOption, option_map, slice_get, nat_eq, if◌then◌else◌};
ghost use Rattle.reql_datum.specs.Answer.{Answer};
ghost use Rattle.reql_datum.specs.Called.{Means};
ghost use Rattle.reql_datum.specs.Order.{order};
ghost use Rattle.reql_datum.specs.Outcome.{Gives};
ghost use Rattle.reql_datum.specs.Plain.{Plain};
ghost use Rattle.reql_datum.specs.View.{plain};
ghost use Rattle.reql_memory.specs.Sorted.{AllBelowBy, AreRisingBy};
ghost use Rattle.reql_rules.specs.Lists.{each};
ghost use Rattle.reql_group.specs.Reduced.{with_datum};
ghost use Rattle.reql_group.specs.Seen.{group_seen};

use reql_datum::{Datum, Fault};
use reql_memory::copy_on_write::{copied, push_on, shown};
use reql_memory::{Memory, Refused};
use std::alloc::{AllocError, Global};
use std::marker::Model;
use std::sync::Arc;

#[derive(Drop)]
pub(crate) struct Grouped {
    pub(crate) group: Datum,
    pub(crate) datum: Datum,
}

impl Clone for Grouped {
    ghost is_clone = { λ g h. h ≡ g };

    fn clone(&self) -> Result<Grouped, AllocError> {
        let (Ok(group), Ok(datum)) = (self.group.copy(), self.datum.copy()) else {
            return Err(AllocError);
        };
        Ok(Grouped { group, datum })
    }
}

/// Groups, each with a datum: its members as an array, or what they were reduced to.
///
/// Contracts see the list of the groups, each with its datum, which rises by the groups. The groups
/// are shared: a copy is a count, and shared groups are copied by one level when one is added.
#[derive(Drop)]
pub struct Groups {
    alloc: Global,
    held: Option<Arc<Vec<Grouped>>>,
}

impl Model for Groups {
    ghost use Rattle.std.specs.Prelude.{List, map};
    ghost use Rattle.std.specs.Coded.{codes};
    ghost use Rattle.reql_datum.specs.Code.{plain_code};
    ghost use Rattle.reql_datum.specs.Order.{order};
    ghost use Rattle.reql_datum.specs.Plain.{Plain};
    ghost use Rattle.reql_memory.specs.CopyOnWrite.{held_items};
    ghost use Rattle.reql_memory.specs.Sorted.{AreRisingBy};
    ghost use Rattle.reql_group.specs.Seen.{group_seen};

    ghost Value = { List (Plain × Plain) };

    ghost coded = { Prim.hlevel (codes, plain_code) };

    ghost view = { λ a. map group_seen (held_items a.held) };

    ghost invariant = { λ a. AreRisingBy order (map group_seen (held_items a.held)) };
}

impl Groups {
    /// No group, which takes no memory.
    pub fn new(alloc: Global) -> Groups
        ensures { result ≡ [] }
    {
        Groups { alloc, held: None }
    }

    fn entries(&self) -> &[Grouped]
        ensures entries { map group_seen result.now ≡ self.now }
        ensures rising { AreRisingBy order self.now }
    {
        shown(&self.held)
    }

    /// How many groups there are.
    pub fn len(&self) -> usize
        ensures { result ≡ length self.now }
    {
        self.entries().len()
    }

    /// Whether there is none.
    pub fn is_empty(&self) -> bool
        ensures { result ≡ nat_eq (length self.now) 0 }
    {
        self.entries().is_empty()
    }

    /// The group at a place, with its datum. With `rest`, a loop over the places proves itself.
    pub fn at(&self, place: usize) -> Option<(&Datum, &Datum)>
        ensures found { option_map (λ g. (plain g.0.now, plain g.1.now)) result
            ≡ slice_get self.now place }
        ensures rest { MatchOption result (drop place self.now ≡ []) (λ g. drop place self.now
            ≡ (plain g.0.now, plain g.1.now) ∷ drop (place + 1) self.now) }
        ensures place_fits { OnSome result (place < 2 ^ 63) }
        ensures rising { AreRisingBy order self.now }
    {
        self.seek(place)
    }

    fn seek(&self, place: usize) -> Option<(&Datum, &Datum)>
        ensures found { option_map (λ g. (plain g.0.now, plain g.1.now)) result
            ≡ slice_get self.now place }
        ensures place_fits { OnSome result (place < 2 ^ 63) }
        ensures rising { AreRisingBy order self.now }
    {
        match self.entries().get(place) {
            Some(entry) => Some((&entry.group, &entry.datum)),
            None => None,
        }
    }

    /// Adds a group that is above the others, with its datum, in place where they aren't shared.
    pub fn push(&mut self, group: Datum, datum: Datum) -> Result<(), Refused<(Datum, Datum)>>
        requires above { AllBelowBy order (plain group) self.old }
        ensures groups { self.new ≡ (if is_ok result
            then self.old ++ (plain group, plain datum) ∷ []
            else self.old) }
        ensures back { IfErr result (λ refused. refused.back ≡ (group, datum)) }
    {
        match push_on(self.alloc, &mut self.held, Grouped { group, datum }) {
            Ok(()) => Ok(()),
            Err(refused) => {
                let Grouped { group, datum } = refused.back;
                Err(Refused {
                    back: (group, datum),
                })
            }
        }
    }

    /// The same groups, shared. Memory where the count of sharers is full.
    pub fn copy(&self) -> Result<Groups, Memory>
        ensures { IfOk result (λ groups. groups ≡ self.now) }
    {
        let held = copied(&self.held)?;
        Ok(Groups {
            alloc: self.alloc,
            held,
        })
    }

    /// The same groups, each with what `f` gives of its datum. The first fault is the answer.
    pub fn map<F: Fn(&Datum) -> Result<Datum, Fault>>(
        &self,
        alloc: Global,
        f: &F,
    ) -> Result<Groups, Fault>
        requires { F.IsAlwaysCallable f.now }
        ensures { (m : Plain → Answer Plain) → Means F.Fn f.now m
            → Gives (λ groups. groups) result (each (with_datum m) self.now) }
    {
        let mut groups = Groups::new(alloc);
        let mut place = 0;
        while let Some((group, datum)) = self.at(place) {
            groups.push(group.copy()?, f(datum)?)?;
            place += 1;
        }
        Ok(groups)
    }
}

fn crosses<T: Send + Sync>(_held: &T) {}

// Proved only while groups may be sent to other threads, and shared with them.
fn groups_cross(groups: &Groups) {
    crosses(groups);
}
