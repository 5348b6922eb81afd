//! Bags of documents: lists that rise with repeats, their sorting and their difference.
#![tactic(auto)]

mod bag;
mod laws;

pub use bag::{Parted, difference, in_order};
pub use laws::bag_laws;
