//! The hall: a shared engine for the names and one for each slot, and desks that use them.
//!
//! Each desk has a pass on each engine, and all of them have the desk's number. Contracts see a hall as what its
//! engines are (`Rooms`), and a desk as its passes (`Sitting`, `specs/Rooms.antt`). How the use of a desk is divided
//! among those whom it serves is said in `specs/Shares.antt`.
#![tactic(auto)]

mod closing;
mod desk;
mod hall;
mod last;
mod laws;
mod opening;
mod threads;

pub use desk::Desk;
pub use hall::{Hall, Room};
pub use last::FinalHall;
pub use laws::{
    acts_are_uses, later_uses_divide, learning_divides, shares_lie, shares_lie_in_longer_histories,
};
