//! How a feed opens on a table, and what it keeps to while the table's indexes change.
#![tactic(auto)]

mod opening;

pub use opening::{Opened, Opening};
