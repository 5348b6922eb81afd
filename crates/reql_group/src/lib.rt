//! Groups and joins of documents, by functions that the caller lends.
#![tactic(auto)]

mod gathering;
mod grouped;
mod joining;
mod sides;
mod ungrouping;
mod zipping;

pub use gathering::{group, group_beside, or_null};
pub use grouped::Groups;
pub use joining::{eq_join, join};
pub use ungrouping::ungroup;
pub use zipping::zip;
