//! The course of a request: its plan's moves, one after another, at the session's desk, to what it comes to.
#![tactic(auto)]

mod finding;
mod following;
mod met;

pub use finding::{change_names, look_names, look_slot, run_slot};
pub use following::{Reached, follow};
pub use met::Met;
