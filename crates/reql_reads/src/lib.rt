//! What the term of a request says before it is evaluated: the tables that it reads, whether a function
//! that may name none names one, whether it asks for the moment; and the term with its moment, or with
//! an element of a FOR_EACH in the place of its variable.
#![tactic(auto)]

mod chain;
mod element;
mod first;
mod followed;
mod leaking;
mod now;
mod reading;
mod rising;
mod slotting;

pub use chain::is_chain;
pub use element::with_element;
pub use leaking::leaks;
pub use now::{has_now, with_now};
pub use rising::read_slots;
pub use slotting::{first_slot, slots};
