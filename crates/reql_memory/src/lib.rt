//! Want of memory, the lists that public types hold, lists copied on write, and sorted maps with
//! their laws: the base of all crates.
#![tactic(auto)]

pub mod copy_on_write;
mod laws;
mod memory;
mod seq;
pub mod sorted_map;

pub use laws::sorted_laws;
pub use memory::{Memory, Refused};
pub use seq::Seq;
