//! The evaluator: what a term gives, or its first fault.
#![tactic(auto)]

mod bare;
mod cycle;
mod steps;
mod whole;

pub use bare::function_datum;
pub use whole::{call_function, eval};
