//! What a plan tells: summaries of writes, counts of commands on names and tables, keys that are made,
//! and the first items of a feed.
#![tactic(auto)]

mod counts;
mod digits;
mod feeds;
mod keys;
mod members;
mod names;
mod summary;
mod totals;

pub use counts::{counted, dropped_by, made_by};
pub use feeds::{Arm, Item, Open, Told, arm_of, first_items};
pub use keys::key_of;
pub use names::{dropped_of, key_field, names_in, names_of};
pub use summary::summary_shown;
pub use totals::{added, nothing_done};
