//! The rules of totals, joins and groups.
#![tactic(auto)]

mod grouping;
mod joins;
mod totals;
mod ungrouping;

pub use grouping::group;
pub use joins::{eq_join, join, zip};
pub use totals::total;
pub use ungrouping::ungroup;
