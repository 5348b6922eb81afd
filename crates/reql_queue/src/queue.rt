// The queue.
ghost use Rattle.std.specs.Prelude.{◌≡◌, ◌≤◌, ◌<◌, ◌+◌, ◌-◌, ◌*◌, ◌^◌, ◌⊎◌, ℕ, suc, [], length, take, is_ok, IfOk, if◌then◌else◌};
ghost use Rattle.reql_queue.specs.Queued.{fresh, pushed, left_by, emptied, given_back, with_room, IsRoomFor, has_something};

use crate::ring::{grown, put_front, take_front};
use circular_buffer::HeapCircularBuffer;
use reql_memory::{Memory, Seq};
use std::alloc::Global;
use std::marker::Model;

/// A feed's queue of items, each with the stamp of its change. Contracts see it as what waits, oldest
/// first, the most that may wait, the room there is, and what was dropped since that was last told.
#[derive(Drop)]
pub struct Queue<T> {
    ring: Option<HeapCircularBuffer<(u64, T)>>,
    size: u32,
    skipped: u64,
    last: u64,
}

impl<T> Model for Queue<T> {
    ghost use Rattle.std.specs.Prelude.{◌≤◌, length};
    ghost use Rattle.reql_queue.specs.Queued.{Queued, queued_code, items_in, room_in};

    ghost Value = { Queued T };

    ghost coded = { queued_code T.code };

    ghost view = { λ q. record {
      size = q.size;
      room = room_in q.ring;
      items = items_in q.ring;
      skipped = q.skipped;
      last = q.last;
    } };

    ghost invariant = { λ q. (1 ≤ q.size) × (length (items_in q.ring) ≤ room_in q.ring)
        × (room_in q.ring ≤ q.size) };
}

/// What a Take gives: how many items were dropped since the last one that told it, the stamp of the
/// last that was dropped, and the oldest items.
#[derive(Drop)]
pub struct Taken<T> {
    pub skipped: u64,
    pub last: u64,
    pub items: Seq<(u64, T)>,
}

impl<T: Drop> Queue<T> {
    /// A queue for so many items at most. It takes no memory.
    pub fn new(size: u32) -> Queue<T>
        requires { 1 ≤ size }
        ensures { result ≡ fresh size }
    {
        Queue {
            ring: None,
            size,
            skipped: 0,
            last: 0,
        }
    }

    /// How many items wait.
    pub fn len(&self) -> usize
        ensures items { result ≡ length self.now.items }
        ensures within { (result ≤ self.now.room) × (self.now.room ≤ self.now.size) }
    {
        match &self.ring {
            None => 0,
            Some(ring) => ring.len(),
        }
    }

    /// For how many items more there is room.
    pub fn spare(&self) -> usize
        ensures { result ≡ self.now.room - length self.now.items }
    {
        match &self.ring {
            None => 0,
            Some(ring) => ring.capacity() - ring.len(),
        }
    }

    /// Whether a Take finds something: items that wait, or dropped ones to tell of.
    pub fn has_something(&self) -> bool
        ensures { result ≡ has_something self.now }
    {
        self.skipped != 0 || self.len() != 0
    }

    /// Makes room for so many items more, or for as many as may wait. Memory leaves all as it was.
    pub fn reserve(&mut self, alloc: Global, count: usize) -> Result<(), Memory>
        ensures room { IfOk result (λ _. IsRoomFor count self.new) }
        ensures same { self.new
            ≡ (if is_ok result then with_room self.new.room self.old else self.old) }
        ensures grows { (self.new.room ≤ self.old.room)
            ⊎ (self.new.room ≤ 2 * (length self.old.items + count)) }
    {
        let most = self.size as usize;
        let wanted = self.len().saturating_add(count).min(most);
        match &mut self.ring {
            None => {
                let ring = HeapCircularBuffer::with_capacity(alloc, wanted)?;
                self.ring = Some(ring);
            }
            Some(ring) => {
                if ring.capacity() < wanted {
                    ring.resize(grown(ring.capacity(), wanted, most))?;
                }
            }
        }
        Ok(())
    }

    /// Adds an item, for which there is room. A full queue drops its oldest item and counts it. It takes
    /// no memory.
    pub fn push(&mut self, stamp: u64, item: T)
        requires { IsRoomFor 1 self.old }
        ensures pushed { self.new ≡ pushed (stamp, item) self.old }
        ensures room { (n : ℕ) → IsRoomFor (suc n) self.old → IsRoomFor n self.new }
    {
        if let Some(ring) = &mut self.ring {
            if let Some((dropped, _)) = ring.push_back((stamp, item)) {
                self.skipped = self.skipped.saturating_add(1);
                self.last = dropped;
            }
        }
    }

    /// Takes the oldest items, up to so many, and the count of those that were dropped, which is 0 then.
    /// The room stays, so what was taken can be given back.
    pub fn take(&mut self, alloc: Global, max: u32) -> Result<Taken<T>, Memory>
        ensures skipped { IfOk result (λ t. t.skipped ≡ self.old.skipped) }
        ensures last { IfOk result (λ t. t.last ≡ self.old.last) }
        ensures items { IfOk result (λ t. t.items ≡ take max self.old.items) }
        ensures left { self.new ≡ (if is_ok result then left_by max self.old else self.old) }
    {
        let count = self.len().min(max as usize);
        let items = match &mut self.ring {
            None => Vec::new(alloc),
            Some(ring) => take_front(alloc, ring, count)?,
        };
        let skipped = self.skipped;
        self.skipped = 0;
        Ok(Taken {
            skipped,
            last: self.last,
            items: Seq::from_vec(items),
        })
    }

    /// Takes all items, and the count of those that were dropped, as a Take of a feed that squashes does.
    /// The room stays.
    #[tactic(auto, using(crate::proofs::All::all_taken, crate::proofs::All::none_left))]
    pub fn take_all(&mut self, alloc: Global) -> Result<Taken<T>, Memory>
        ensures skipped { IfOk result (λ t. t.skipped ≡ self.old.skipped) }
        ensures last { IfOk result (λ t. t.last ≡ self.old.last) }
        ensures items { IfOk result (λ t. t.items ≡ self.old.items) }
        ensures left { self.new ≡ (if is_ok result then emptied self.old else self.old) }
    {
        let most = self.size;
        let taken = self.take(alloc, most)?;
        Ok(taken)
    }

    /// Undoes a take: its items are the oldest again, and its count is untold. There is room for them
    /// where nothing came since. It takes no memory.
    pub fn give_back(&mut self, taken: Taken<T>)
        requires { length taken.items + length self.old.items ≤ self.old.room }
        ensures { self.new ≡ given_back taken.items taken.skipped taken.last self.old }
    {
        self.skipped = taken.skipped;
        self.last = taken.last;
        if let Some(ring) = &mut self.ring {
            put_front(ring, taken.items.into_vec());
        }
    }

    /// Gives memory back in which nothing waits: all of it where nothing waits at all, and else what is
    /// more than twice as much as waits, once that is the half.
    pub fn release(&mut self)
        ensures same { self.new ≡ with_room self.new.room self.old }
        ensures less { self.new.room ≤ self.old.room }
        ensures all { self.old.items ≡ [] → self.new.room ≡ 0 }
    {
        let waiting = self.len();
        if waiting == 0 {
            self.ring = None;
        } else if let Some(ring) = &mut self.ring {
            if waiting <= ring.capacity() / 4 {
                let _kept = ring.resize(2 * waiting);
            }
        }
    }
}
