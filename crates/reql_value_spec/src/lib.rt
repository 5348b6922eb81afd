//! The value of a term of ReQL, as a definition that other crates' contracts cite.
#![tactic(auto)]

mod laws;
mod rows;

pub use laws::{dependence_law, index_law, shape_law, stage_law};
pub use rows::{worked_cases, worked_rows};
