ghost use Rattle.std.specs.Prelude.{◌≡◌, ◌<◌, length, slice_index_or};

use crate::desk::Desk;
use reql_shared::{Engine, Final};
use std::marker::Model;

/// A hall that is shared no more: its engines with their whole histories, and its desks.
#[derive(Drop)]
pub struct FinalHall<C: Engine, N: Engine> {
    pub(crate) names: Final<N>,
    pub(crate) slots: Vec<Final<C>>,
    pub(crate) desks: Vec<Desk<C, N>>,
}

impl<C: Engine, N: Engine> Model for FinalHall<C, N> {
    ghost use Rattle.reql_hall.specs.Rooms.{Closed};

    ghost Value = { Closed C C.Cmd C.State N N.Cmd N.State };

    ghost view = { λ h. record { names = h.names; slots = h.slots.items; desks = h.desks.items } };
}

impl<C: Engine + Drop, N: Engine + Drop> FinalHall<C, N> {
    /// The engine of the names, in the state to which its history leads.
    pub fn names(&self) -> &N
        ensures { result.now ≡ self.now.names.engine }
    {
        self.names.engine()
    }

    /// The engine of a slot, in the state to which its history leads.
    pub fn engine(&self, slot: u32) -> &C
        requires there { slot < length self.now.slots }
        ensures { (f : _) → result.now ≡ (slice_index_or self.now.slots slot f).engine }
    {
        self.slots[slot as usize].engine()
    }

    /// The desks, in their order.
    pub fn desks(&self) -> &[Desk<C, N>]
        ensures { result.now ≡ self.now.desks }
    {
        self.desks.as_slice()
    }
}
