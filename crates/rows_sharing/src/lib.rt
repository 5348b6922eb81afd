//! Shared engines at work: an engine that adds numbers and one that lists its callers, each run by threads; and desks
//! of a hall, each in a thread of its own.
#![tactic(auto)]

mod adder;
mod adding;
mod caller;
mod calling;
mod desks;
mod log;
#[cfg(test)]
mod tests;

pub use adder::Adder;
pub use adding::add_by_two;
pub use caller::Callers;
pub use calling::{Worker, call_by_many};
pub use desks::work_at_desks;
pub use log::Log;
