// A map from names to values, shared, and copied where it is written to.
ghost use Rattle.std.specs.Prelude.{◌≡◌, ◌<◌, ◌+◌, ◌^◌, [], ◌∷◌, map, drop, is_ok, IfOk, MatchOption, OnSome, option_map, slice_get, if◌then◌else◌};
ghost use Rattle.std.specs.Map.{keys_of};
ghost use Rattle.reql_datum.specs.Members.{find, put, without, AreRising};
ghost use Rattle.reql_datum.specs.Plain.{text};

use reql_datum::{Datum, Items, Name};
use reql_memory::Memory;
use reql_memory::copy_on_write::{copied, shown};
use reql_memory::sorted_map::{self, Entry, Query};
use std::alloc::{AllocError, Global};
use std::cmp::Ordering;
use std::marker::Model;
use std::mem;
use std::sync::Arc;

// A name with what stands at it.
#[derive(Drop)]
pub(crate) struct Row<V> {
    name: Name,
    value: V,
}

impl<V: Drop> Entry for Row<V> {
    ghost use Rattle.std.specs.Prelude.{ℕ, List};
    ghost use Rattle.std.proofs.Common.{refl};
    ghost use Rattle.std.proofs.lemmas.Cmp.{nat_list_cmp_total};
    ghost use Rattle.reql_datum.specs.Members.{text_order};

    type Key = Name;

    type Value = V;

    ghost KeySeen = { List ℕ };

    ghost ValueSeen = { V };

    ghost key_seen = { λ n. n };

    ghost value_seen = { λ v. v };

    ghost order_by = { text_order };

    ghost pair = { λ r. (r.name, r.value) };

    ghost parts = { λ r. (r.name, r.value) };

    fn of(name: Name, value: V) -> Row<V> {
        Row { name, value }
    }

    fn into_parts(self) -> (Name, V) {
        let Row { name, value } = self;
        (name, value)
    }

    fn value(&self) -> &V {
        &self.value
    }

    fn replace(&mut self, value: V) -> V {
        mem::replace(&mut self.value, value)
    }

    fn order(&self, name: &Name) -> Ordering {
        self.name.order(name.as_str())
    }

    ghost total = { nat_list_cmp_total };

    ghost seen = { λ r. refl };
}

impl<'a, V: Drop> Query<Row<V>> for &'a str {
    ghost key = { λ s. s.now };

    fn order_of(&self, row: &Row<V>) -> Ordering {
        row.name.order(self)
    }
}

impl<V: Clone> Clone for Row<V> {
    ghost is_clone = { λ x y. (y.name ≡ x.name) × V.is_clone x.value y.value };

    fn clone(&self) -> Result<Row<V>, AllocError> {
        let Ok(name) = self.name.copy() else {
            return Err(AllocError);
        };
        let value = self.value.clone()?;
        Ok(Row { name, value })
    }
}

/// A map from names to values. Contracts see its members by rising name.
#[derive(Drop)]
pub struct NameMap<V> {
    held: Option<Arc<Vec<Row<V>>>>,
}

impl<V> Model for NameMap<V> {
    ghost use Rattle.std.specs.Prelude.{List, ℕ, map};
    ghost use Rattle.std.specs.Coded.{coded×, coded_list, coded_ℕ};
    ghost use Rattle.reql_datum.specs.Members.{AreRising};
    ghost use Rattle.reql_memory.specs.CopyOnWrite.{held_items};

    ghost Value = { List (List ℕ × V) };

    ghost coded = { coded_list (coded× (coded_list coded_ℕ) V.code) };

    ghost view = { λ a. map (λ r. (r.name, r.value)) (held_items a.held) };

    ghost invariant = { λ a. AreRising (map (λ r. (r.name, r.value)) (held_items a.held)) };
}

fn names_of<V: Drop>(alloc: Global, rows: &[Row<V>]) -> Result<Items, Memory>
    ensures { IfOk result (λ r. r ≡ map (λ row. text row.name) rows.now) }
{
    let mut names = Items::with_room(alloc, rows.len())?;
    for row in rows {
        names.push(Datum::Text(row.name.copy()?))?;
    }
    Ok(names)
}

impl<V: Drop> NameMap<V> {
    /// The map of nothing, which takes no memory.
    pub(crate) fn new() -> NameMap<V>
        ensures { result ≡ [] }
    {
        NameMap { held: None }
    }

    fn rows(&self) -> &[Row<V>]
        ensures rows { map (λ r. (r.name, r.value)) result.now ≡ self.now }
        ensures rising { AreRising self.now }
    {
        shown(&self.held)
    }

    /// What stands at a name.
    pub fn get(&self, name: &str) -> Option<&V>
        ensures { option_map (λ v. v.now) result ≡ find name.now self.now }
    {
        sorted_map::get(self.rows(), &name)
    }

    /// The name at a place, by rising name, with what stands at it.
    pub fn at(&self, place: usize) -> Option<(&Name, &V)>
        ensures found { option_map (λ m. (m.0.now, m.1.now)) result ≡ slice_get self.now place }
        ensures rest { MatchOption result (drop place self.now ≡ [])
            (λ m. drop place self.now ≡ (m.0.now, m.1.now) ∷ drop (place + 1) self.now) }
        ensures place_fits { OnSome result (place < 2 ^ 63) }
    {
        self.seek(place)
    }

    fn seek(&self, place: usize) -> Option<(&Name, &V)>
        ensures found { option_map (λ m. (m.0.now, m.1.now)) result ≡ slice_get self.now place }
        ensures place_fits { OnSome result (place < 2 ^ 63) }
    {
        match self.rows().get(place) {
            Some(row) => Some((&row.name, &row.value)),
            None => None,
        }
    }

    /// The names as texts, by rising name.
    pub fn names(&self, alloc: Global) -> Result<Items, Memory>
        ensures { IfOk result (λ r. r ≡ map text (keys_of self.now)) }
    {
        let names = names_of(alloc, self.rows())?;
        Ok(names)
    }

    /// An equal map that shares its members. Memory where the count of sharers is full.
    pub(crate) fn copy(&self) -> Result<NameMap<V>, Memory>
        ensures { IfOk result (λ r. r ≡ self.now) }
    {
        let held = copied(&self.held)?;
        Ok(NameMap { held })
    }
}

impl<V: Clone + Drop> NameMap<V> {
    /// Puts a value at a name.
    pub(crate) fn put(&mut self, alloc: Global, name: Name, value: V) -> Result<(), Memory>
        requires exact { (x y : V) → V.is_clone x y → y ≡ x }
        ensures { IfOk result (λ _. self.new ≡ put name value self.old) }
    {
        drop(sorted_map::put_shared(alloc, &mut self.held, 0, name, value)?);
        Ok(())
    }

    /// Removes a name with its value.
    pub(crate) fn remove(&mut self, alloc: Global, name: &str) -> Result<(), Memory>
        requires exact { (x y : V) → V.is_clone x y → y ≡ x }
        ensures { IfOk result (λ _. self.new ≡ without name.now self.old) }
    {
        drop(sorted_map::remove_shared(alloc, &mut self.held, &name)?);
        Ok(())
    }
}
