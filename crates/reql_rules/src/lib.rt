//! The rules of ReQL's terms on plain values, as definitions that other crates' contracts cite.
#![tactic(auto)]

mod laws;
mod rows;
mod words;

pub use laws::{distinct_law, group_law, order_law};
pub use rows::worked_rows;
pub use words::{Arith, Edit, Missing, Relate, SetOp, Total};
