//! What is kept of a history: a base, and the entries since, in two halves, of which the older goes when both are full.
#![tactic(auto)]

mod half;
mod led;
mod tail;
mod threads;

pub use led::Led;
pub use reql_memory::Memory;
pub use tail::Tail;
