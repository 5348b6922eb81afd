//! What feeds show of a table, as definitions on plain lists, and their laws.
#![tactic(auto)]

mod kind;
mod laws;
mod rows;

pub use kind::FeedKind;
pub use laws::{feed_laws, item_laws, limit_laws, net_laws, range_laws, term_laws, told_laws};
pub use rows::worked_rows;
