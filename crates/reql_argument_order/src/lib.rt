//! How operators take their arguments, over an evaluator that is lent: which of them are evaluated,
//! in which order, and on the members of each group.
#![tactic(auto)]

mod chains;
mod defaults;
mod groups;
mod taken;

pub use chains::lazily;
pub use defaults::default_to;
pub use groups::apply_by;
pub use taken::{arguments, function_at};
