//! The outside of a session: a link that gives bytes and takes bytes, one in memory, and one over
//! standard input and output; dice and a clock, in memory and of the system; and sinks, which take
//! what is printed.
//!
//! What a link tells of itself is one record, its tape (`specs/Tape.antt`), and each call moves the
//! tape by one relation. The lemmas of `proofs/Moving.antt` join such moves, and the crates above
//! use them.
#![tactic(auto)]

mod clock;
mod dice;
mod link;
mod memory;
mod plays;
mod script;
mod sending;
mod sink;
mod standard;
mod stream;
#[cfg(test)]
mod tests;

pub use clock::{Clock, MemClock, OsClock, Told};
pub use dice::{Dice, MemDice, OsDice, Rolled};
pub use link::{Expected, Link, Recv, Sending};
pub use memory::{MemLink, MemRecord};
pub use script::LinkStep;
pub use sending::send_all;
pub use sink::{MemSink, Put, Sink, StdSink};
pub use standard::{StdLink, StdRecord};
