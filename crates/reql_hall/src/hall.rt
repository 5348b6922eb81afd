use reql_shared::{Engine, Final, Shared};
use std::marker::Model;

/// The engines that threads share: one for the names, and one for each slot.
#[derive(Drop)]
pub struct Hall<C: Engine, N: Engine> {
    pub(crate) names: Shared<N>,
    pub(crate) slots: Vec<Shared<C>>,
}

impl<C: Engine, N: Engine> Model for Hall<C, N> {
    ghost use Rattle.reql_hall.specs.Rooms.{Rooms};

    ghost Value = { Rooms C.State N.State };

    ghost view = { λ h. record { names = h.names; slots = h.slots.items } };
}

/// Room for the end of a hall with so many slots. It stands apart from the hall, since threads may not share what it
/// has room for.
#[derive(Drop)]
pub struct Room<C: Engine> {
    pub(crate) slots: Vec<Final<C>>,
}

impl<C: Engine> Model for Room<C> {
    ghost use Rattle.std.specs.Prelude.{◌≡◌, ℕ, []};

    ghost Value = { ℕ };

    ghost view = { λ r. r.slots.cap };

    ghost invariant = { λ r. r.slots.items ≡ [] };
}
