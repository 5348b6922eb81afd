//! Operators by their rules: the choice among them.
#![tactic(auto)]

mod cost;
mod firsts;
mod kinds;
mod operators;
mod wrapped;

pub use kinds::{Kind, OnArray, OnFields, OnGroups, OnPart, OnSequence, OnTable, Scalar, kind_of};
pub use operators::apply;
pub use wrapped::grouped_value;
