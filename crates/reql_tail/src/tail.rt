// The base of a history, and its entries since.
ghost use Rattle.std.specs.Prelude.{◌≡◌, ◌≤◌, ◌<◌, ◌^◌, ◌++◌, [], true, length, is_ok, IfOk};
ghost use Rattle.reql_tail.specs.Kept.{standing, Adds, IsKept};
ghost use Rattle.reql_tail.specs.Halves.{entries_in};

use crate::half::{Half, add, begins, begun, make_room, turn};
use crate::led::Led;
use reql_memory::Memory;
use std::alloc::Global;
use std::marker::Model;
use std::snapshot::Snapshot;

/// The base of a history, and its last entries. When so many are kept as may be, the base moves to
/// where the newer half of them began.
#[derive(Drop)]
pub struct Tail<B: Led> {
    opening: Snapshot<B>,
    most: u32,
    older: Half<B, B::Entry>,
    newer: Option<Half<B, B::Entry>>,
    // The half that the next entry begins.
    next: Option<Half<B, B::Entry>>,
}

impl<B: Led> Model for Tail<B> {
    ghost use Rattle.reql_tail.specs.Kept.{Kept};
    ghost use Rattle.reql_tail.specs.Halves.{Keeps, all_entries, is_ready};

    ghost Value = { Kept B B.Entry };

    ghost view = { λ t. record {
      opening = t.opening.value;
      base = t.older.start;
      entries = all_entries t.older t.newer;
      most = t.most;
      ready = is_ready t.most t.older t.newer t.next;
    } };

    ghost invariant = { λ t. Keeps B.state B.after B.place t.most t.opening.value t.older
        t.newer t.next };
}

impl<B: Led> Tail<B> {
    /// What is kept of a history that begins here: no entry yet, and `most` of them later. It takes no
    /// memory.
    pub fn new(alloc: Global, opening: B, most: u32) -> Tail<B>
        requires { 2 ≤ most }
        ensures opening { result.opening ≡ opening }
        ensures base { result.base ≡ opening }
        ensures entries { result.entries ≡ [] }
        ensures most { result.most ≡ most }
    {
        let snapshot = Snapshot::of(&opening);
        Tail {
            opening: snapshot,
            most,
            older: Half {
                start: opening,
                entries: Vec::new(alloc),
            },
            newer: None,
            next: None,
        }
    }

    /// What the entries lead on.
    pub fn base(&self) -> &B
        ensures base { result.now ≡ self.now.base }
        ensures kept { IsKept B.state B.after B.place self.now }
    {
        &self.older.start
    }

    /// The entries since the base, oldest first, in two parts.
    pub fn entries(&self) -> (&[B::Entry], &[B::Entry])
        ensures { result.0.now ++ result.1.now ≡ self.now.entries }
    {
        match &self.newer {
            None => (self.older.entries.as_slice(), &[]),
            Some(half) => (self.older.entries.as_slice(), half.entries.as_slice()),
        }
    }

    /// Makes room for the next entry. `now` is a value that stands where the entries lead.
    pub fn reserve(&mut self, alloc: Global, now: &B) -> Result<(), Memory>
        requires { B.state now.now ≡ standing B.state B.after self.old }
        ensures same { self.new ≡ record self.old { ready = self.new.ready } }
        ensures ready { IfOk result (λ _. self.new.ready ≡ true) }
    {
        match &self.next {
            Some(_) => return Ok(()),
            None => {}
        }
        if begins(self.most, &self.older, &self.newer) {
            let half = begun(alloc, now)?;
            self.next = Some(half);
            return Ok(());
        }
        make_room(&mut self.older, &mut self.newer)?;
        Ok(())
    }

    /// Adds an entry, for which there is room. It takes no memory.
    pub fn push(&mut self, entry: B::Entry)
        requires { self.old.ready ≡ true }
        ensures adds { Adds B.state B.after self.old self.new entry }
        ensures standing { standing B.state B.after self.new
            ≡ B.after (standing B.state B.after self.old) entry }
    {
        match self.next.take() {
            Some(half) => turn(&mut self.older, &mut self.newer, half, entry),
            None => add(&mut self.older, &mut self.newer, entry),
        }
    }
}
