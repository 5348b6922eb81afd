// The rule of the table that a shared engine lies in, and the steps on it.
ghost use Rattle.reql_shared.specs.Rule.{Kept, maker, Lodges, Takes, Counts, Appends, GivesBack, made_one, new_pass, note, spent, heard, taken, Settles, parted, kept_back, newcomer};
ghost use Rattle.std.specs.Prelude.{◌≡◌, []};

use crate::engine::Engine;
use crate::view::{Lodged, View};
use atomic_table::{Join, Play, Split, TableRule};
use std::marker::PhantomData;
use std::snapshot::Snapshot;

/// What a table was made of: the engine as it was, and the number of passes.
#[derive(Drop)]
pub struct Origin<E> {
    pub engine: Snapshot<E>,
    pub passes: u64,
}

/// There is one history, of which each pass has seen a beginning with all its own entries.
pub struct OneHistory<E> {
    engine: PhantomData<E>,
}

impl<E: Engine> TableRule<Lodged<E, E::Cmd>, View<E::Cmd, E::State>, Origin<E>> for OneHistory<E> {
    ghost holds = { λ key. Kept (Lodges E.state E.machine) (E.state key.engine.value) key.passes };

    ghost first = { λ key. maker (E.state key.engine.value) key.passes 0 };
}

/// Takes the lock, if it is free.
pub struct TakeLock<E> {
    engine: PhantomData<E>,
}

impl<E: Engine> Play<Lodged<E, E::Cmd>, View<E::Cmd, E::State>> for TakeLock<E> {
    ghost then = { λ _ m n r. Takes (Lodges E.state E.machine) m n r };
}

/// Counts the entries, under the lock.
pub struct Count;

impl<E, C, S> Play<Lodged<E, C>, View<C, S>> for Count {
    ghost then = { λ _ m n r. Counts m n r };
}

/// Appends the command that the engine answered last, under the lock.
pub struct Append;

impl<E, C, S> Play<Lodged<E, C>, View<C, S>> for Append {
    ghost then = { λ _ m n r. Appends m n r };
}

/// Gives the lock back, with the engine.
pub struct GiveLock;

impl<E, C, S> Play<Lodged<E, C>, View<C, S>> for GiveLock {
    ghost then = { λ _ m n r. GivesBack m n r };
}

/// Numbers a pass.
pub struct Number;

impl<C, S> Split<View<C, S>> for Number {
    ghost left = { made_one };

    ghost right = { new_pass };
}

/// A note of what was seen.
pub struct Note;

impl<C, S> Split<View<C, S>> for Note {
    ghost left = { λ v. v };

    ghost right = { note };
}

/// A pass takes in a note.
pub struct Hear<E> {
    engine: PhantomData<E>,
}

impl<E: Engine> Join<View<E::Cmd, E::State>> for Hear<E> {
    ghost both = { heard };

    ghost spent = { spent E.some_state };
}

/// The seat that ended the sharing takes in a pass.
pub struct TakeIn<E> {
    engine: PhantomData<E>,
}

impl<E: Engine> Join<View<E::Cmd, E::State>> for TakeIn<E> {
    ghost both = { taken };

    ghost spent = { spent E.some_state };
}

/// Learns how the two lists that were joined lie in each other.
pub struct Learn;

impl<E, C, S> Play<Lodged<E, C>, View<C, S>> for Learn {
    ghost then = { λ _ m n r. Settles m n r };
}

/// The pass comes out again, with all that the seat at the end has seen.
pub struct PartFrom;

impl<C, S> Split<View<C, S>> for PartFrom {
    ghost left = { kept_back };

    ghost right = { parted };
}

/// A new seat, which has seen nothing.
pub struct Arrive;

impl<E, C, S> Play<Lodged<E, C>, View<C, S>> for Arrive {
    ghost then = { λ _ m n r. r ≡ (newcomer m.0.start m.0.passes, []) };
}
