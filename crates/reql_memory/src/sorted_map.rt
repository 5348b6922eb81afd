//! Maps as vectors of entries by rising keys, and as such vectors copied on write: calls on the
//! field that holds one. A look-up takes a logarithm of steps; an entry goes in and out by moving
//! those behind it.
ghost use Rattle.std.specs.Prelude.{◌≡◌, length, map, is_ok, IfOk, IfErr, IsTrue, option_map, if◌then◌else◌};
ghost use Rattle.std.specs.Cmp.{IsTotalOrder};
ghost use Rattle.std.specs.List.Sorted.{IsSearchInRange};
ghost use Rattle.std.specs.Map.{keys_of};
ghost use Rattle.std.specs.declared.cmp.Ordering.{Ordering};
ghost use Rattle.reql_memory.specs.CopyOnWrite.{held_items};
ghost use Rattle.reql_memory.specs.Sorted.{find_by, put_by, without_by, AreRisingBy, IsHitBy, IsGapBy};

use crate::copy_on_write::{own, shown};
use crate::memory::{Memory, Refused};
use std::alloc::Global;
use std::cmp::Ordering;
use std::sync::Arc;

/// An entry of a sorted map: a key and a value.
///
/// Contracts see it by `pair`, as what its key and its value stand for, and the keys in the order
/// `order_by`.
pub trait Entry: Drop {
    /// The key that an entry owns.
    type Key: Drop;

    /// The value that stands at it.
    type Value: Drop;

    ghost KeySeen: { Type 0 };

    ghost ValueSeen: { Type 0 };

    ghost key_seen: { Self.Key → KeySeen };

    ghost value_seen: { Self.Value → ValueSeen };

    ghost order_by: { KeySeen → KeySeen → Ordering };

    ghost pair: { Self → KeySeen × ValueSeen };

    ghost parts: { Self → Self.Key × Self.Value };

    /// The entry of a key and a value.
    fn of(key: Self::Key, value: Self::Value) -> Self
        ensures { parts result ≡ (key, value) };

    /// Its key and its value.
    fn into_parts(self) -> (Self::Key, Self::Value)
        ensures { result ≡ parts self };

    /// Its value.
    fn value(&self) -> &Self::Value
        ensures { value_seen result.now ≡ (pair self.now).1 };

    /// Puts a value in the place of its own, which is given back.
    fn replace(&mut self, value: Self::Value) -> Self::Value
        ensures old { value_seen result ≡ (pair self.old).1 }
        ensures new { pair self.new ≡ ((pair self.old).0, value_seen value) };

    /// How its key stands to another.
    fn order(&self, key: &Self::Key) -> Ordering
        ensures { result ≡ order_by (pair self.now).0 (key_seen key.now) };

    ghost total: { IsTotalOrder order_by };

    ghost seen: { (e : Self) → pair e ≡ (key_seen (parts e).0, value_seen (parts e).1) };
}

/// What an entry is looked up by: something that stands for a key, as a `&str` for a name.
pub trait Query<E: Entry> {
    ghost key: { Self → E.Key };

    /// How an entry's key stands to this one.
    fn order_of(&self, entry: &E) -> Ordering
        ensures { result ≡ E.order_by (E.pair entry.now).0 (E.key_seen (key self.now)) };
}

/// A look-up by a key that an entry could own.
#[derive(Drop)]
pub struct ByKey<'a, E: Entry> {
    /// The key.
    pub key: &'a E::Key,
}

impl<'a, E: Entry> Query<E> for ByKey<'a, E> {
    ghost key = { λ q. q.key.now };

    fn order_of(&self, entry: &E) -> Ordering {
        entry.order(self.key)
    }
}

/// Where a key is, or where it would stand.
pub fn search<E: Entry, Q: Query<E>>(held: &[E], query: &Q) -> Result<usize, usize>
    requires rising { AreRisingBy E.order_by (map E.pair held.now) }
    ensures found { IfOk result (IsHitBy E.order_by (keys_of (map E.pair held.now))
        (E.key_seen (Q.key query.now))) }
    ensures absent { IfErr result (IsGapBy E.order_by (keys_of (map E.pair held.now))
        (E.key_seen (Q.key query.now))) }
    ensures in_range { IsSearchInRange result (length held.now) }
{
    held.binary_search_by(|entry| query.order_of(entry))
}

/// The same, where a key above all others takes one comparison: it is what most entries are put by.
pub fn search_from_end<E: Entry, Q: Query<E>>(held: &[E], query: &Q) -> Result<usize, usize>
    requires rising { AreRisingBy E.order_by (map E.pair held.now) }
    ensures found { IfOk result (IsHitBy E.order_by (keys_of (map E.pair held.now))
        (E.key_seen (Q.key query.now))) }
    ensures absent { IfErr result (IsGapBy E.order_by (keys_of (map E.pair held.now))
        (E.key_seen (Q.key query.now))) }
    ensures in_range { IsSearchInRange result (length held.now) }
{
    if let Some(last) = held.last() {
        if query.order_of(last).is_lt() {
            return Err(held.len());
        }
    }
    search(held, query)
}

/// The value at a key.
pub fn get<'a, E: Entry, Q: Query<E>>(held: &'a [E], query: &Q) -> Option<&'a E::Value>
    requires rising { AreRisingBy E.order_by (map E.pair held.now) }
    ensures { option_map (λ v. E.value_seen v.now) result
        ≡ find_by E.order_by (E.key_seen (Q.key query.now)) (map E.pair held.now) }
{
    match search(held, query) {
        Ok(place) => {
            let entry = &held[place];
            Some(entry.value())
        }
        Err(_) => None,
    }
}

/// Puts a value at a key, and gives the value that it replaced.
pub fn put<E: Entry>(
    held: &mut Vec<E>,
    key: E::Key,
    value: E::Value,
) -> Result<Option<E::Value>, Refused<(E::Key, E::Value)>>
    requires rising { AreRisingBy E.order_by (map E.pair held.old.items) }
    ensures replaced { IfOk result (λ old. option_map E.value_seen old
        ≡ find_by E.order_by (E.key_seen key) (map E.pair held.old.items)) }
    ensures entries { map E.pair held.new.items
        ≡ (if is_ok result
        then put_by E.order_by (E.key_seen key) (E.value_seen value) (map E.pair held.old.items)
        else map E.pair held.old.items) }
    ensures rising { AreRisingBy E.order_by (map E.pair held.new.items) }
    ensures back { IfErr result (λ refused. refused.back ≡ (key, value)) }
{
    match search_from_end(held, &ByKey { key: &key }) {
        Ok(place) => {
            let entry = &mut held[place];
            Ok(Some(entry.replace(value)))
        }
        Err(place) => {
            if let Err(failed) = held.insert(place, E::of(key, value)) {
                return Err(Refused {
                    back: failed.value.into_parts(),
                });
            }
            Ok(None)
        }
    }
}

/// Removes a key with its value, and gives the value.
pub fn remove<E: Entry, Q: Query<E>>(held: &mut Vec<E>, query: &Q) -> Option<E::Value>
    requires rising { AreRisingBy E.order_by (map E.pair held.old.items) }
    ensures removed { option_map E.value_seen result
        ≡ find_by E.order_by (E.key_seen (Q.key query.now)) (map E.pair held.old.items) }
    ensures entries { map E.pair held.new.items
        ≡ without_by E.order_by (E.key_seen (Q.key query.now)) (map E.pair held.old.items) }
    ensures rising { AreRisingBy E.order_by (map E.pair held.new.items) }
{
    match search(held, query) {
        Ok(place) => {
            let (_, value) = held.remove(place).into_parts();
            Some(value)
        }
        Err(_) => None,
    }
}

/// Puts a value at a key of a vector that is copied where it is shared, with room for so many more
/// entries where it is made or copied.
pub fn put_shared<E: Entry + Clone>(
    alloc: Global,
    held: &mut Option<Arc<Vec<E>>>,
    room: usize,
    key: E::Key,
    value: E::Value,
) -> Result<Option<E::Value>, Refused<(E::Key, E::Value)>>
    requires exact { (x y : E) → E.is_clone x y → y ≡ x }
    requires rising { AreRisingBy E.order_by (map E.pair (held_items held.old)) }
    ensures replaced { IfOk result (λ old. option_map E.value_seen old
        ≡ find_by E.order_by (E.key_seen key) (map E.pair (held_items held.old))) }
    ensures entries { map E.pair (held_items held.new)
        ≡ (if is_ok result
        then put_by E.order_by (E.key_seen key) (E.value_seen value) (map E.pair (held_items held.old))
        else map E.pair (held_items held.old)) }
    ensures rising { AreRisingBy E.order_by (map E.pair (held_items held.new)) }
    ensures back { IfErr result (λ refused. refused.back ≡ (key, value)) }
{
    if let Err(_) = own(alloc, held, room) {
        return Err(Refused { back: (key, value) });
    }
    match held {
        None => Err(Refused { back: (key, value) }),
        Some(list) => match Arc::get_mut(list) {
            None => Err(Refused { back: (key, value) }),
            Some(entries) => put(entries, key, value),
        },
    }
}

/// Whether a key is above all others, which takes one comparison.
pub fn is_above<E: Entry>(held: &[E], key: &E::Key) -> bool
    requires rising { AreRisingBy E.order_by (map E.pair held.now) }
    ensures { IsTrue result → IsGapBy E.order_by (keys_of (map E.pair held.now))
        (E.key_seen key.now) (length held.now) }
{
    match held.last() {
        Some(last) => last.order(key).is_lt(),
        None => true,
    }
}

/// Puts a value at a key that is above all others, into a vector that is copied where it is shared,
/// with room for so many more entries where it is made or copied.
pub fn put_last<E: Entry + Clone>(
    alloc: Global,
    held: &mut Option<Arc<Vec<E>>>,
    room: usize,
    key: E::Key,
    value: E::Value,
) -> Result<(), Memory>
    requires exact { (x y : E) → E.is_clone x y → y ≡ x }
    requires rising { AreRisingBy E.order_by (map E.pair (held_items held.old)) }
    requires above { IsGapBy E.order_by (keys_of (map E.pair (held_items held.old)))
        (E.key_seen key) (length (held_items held.old)) }
    ensures entries { map E.pair (held_items held.new)
        ≡ (if is_ok result
        then put_by E.order_by (E.key_seen key) (E.value_seen value) (map E.pair (held_items held.old))
        else map E.pair (held_items held.old)) }
    ensures rising { AreRisingBy E.order_by (map E.pair (held_items held.new)) }
{
    own(alloc, held, room)?;
    match held {
        None => Err(Memory),
        Some(list) => match Arc::get_mut(list) {
            None => Err(Memory),
            Some(entries) => {
                entries.push(E::of(key, value))?;
                Ok(())
            }
        },
    }
}

/// Removes a key with its value from a vector that is copied where it is shared. Memory where it
/// can't be copied.
pub fn remove_shared<E: Entry + Clone, Q: Query<E>>(
    alloc: Global,
    held: &mut Option<Arc<Vec<E>>>,
    query: &Q,
) -> Result<Option<E::Value>, Memory>
    requires exact { (x y : E) → E.is_clone x y → y ≡ x }
    requires rising { AreRisingBy E.order_by (map E.pair (held_items held.old)) }
    ensures removed { IfOk result (λ old. option_map E.value_seen old
        ≡ find_by E.order_by (E.key_seen (Q.key query.now)) (map E.pair (held_items held.old))) }
    ensures entries { map E.pair (held_items held.new)
        ≡ (if is_ok result
        then without_by E.order_by (E.key_seen (Q.key query.now)) (map E.pair (held_items held.old))
        else map E.pair (held_items held.old)) }
    ensures rising { AreRisingBy E.order_by (map E.pair (held_items held.new)) }
{
    if let None = get(shown(held), query) {
        return Ok(None);
    }
    own(alloc, held, 0)?;
    match held {
        None => Err(Memory),
        Some(list) => match Arc::get_mut(list) {
            None => Err(Memory),
            Some(entries) => Ok(remove(entries, query)),
        },
    }
}
