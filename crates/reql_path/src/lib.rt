//! Field patterns over documents, and the merging of documents: HAS_FIELDS, PLUCK, WITHOUT, MERGE.
#![tactic(auto)]

mod building;
mod compiling;
mod excluding;
mod gathering;
mod having;
mod merging;
mod pattern;
mod plucking;

pub use excluding::without;
pub use having::has;
pub use merging::merge;
pub use pattern::{PathFault, Pattern, is_pattern};
pub use plucking::pluck;
