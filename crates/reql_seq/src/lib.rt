//! The terms of ReQL on sequences, over called functions.
#![tactic(auto)]

mod copies;
mod each_once;
mod faults;
mod mapping;
mod places;
mod sorting;
mod totals;

pub use each_once::distinct;
pub use mapping::{concat_map, filter, map, reduce};
pub use places::cut;
pub use sorting::order;
pub use totals::total;
