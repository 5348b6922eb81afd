ghost use Rattle.std.specs.Prelude.{◌≡◌, ◌-◌, ◌^◌, min, length};

use crate::engine::Engine;
use crate::view::{Lodged, View};
use atomic_table::Seat;
use std::marker::Model;

/// What one thread knows of a shared engine's history: its own commands, which carry its number, and a beginning of
/// the history that has them all.
#[derive(Drop)]
pub struct Pass<E: Engine> {
    pub(crate) seat: Seat<Lodged<E, E::Cmd>, View<E::Cmd, E::State>>,
    pub(crate) number: u64,
    pub(crate) place: u64,
    pub(crate) visits: u64,
}

impl<E: Engine> Model for Pass<E> {
    ghost use Rattle.reql_shared.specs.Sight.{Sight};

    ghost Value = { Sight E.Cmd E.State };

    ghost use Rattle.reql_shared.specs.Rule.{sight, Rests};

    ghost view = { λ p. sight p.seat.table_id p.seat.me.0 };

    ghost invariant = { λ p. Rests p.seat.me p.number p.place p.visits };
}

impl<E: Engine> Pass<E> {
    /// The number that its commands carry, from 0.
    pub fn number(&self) -> u64
        ensures { result ≡ self.now.number }
    {
        self.number
    }

    /// How many of its commands and questions were answered or refused, and 2^64 - 1 from there on.
    pub fn visits(&self) -> u64
        ensures { result ≡ min (length self.now.marks) (2 ^ 64 - 1) }
    {
        self.visits
    }

    /// How many entries of the history it has seen.
    pub fn place(&self) -> u64
        ensures { result ≡ length self.now.seen }
    {
        self.place
    }
}
