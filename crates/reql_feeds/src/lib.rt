//! The open feeds of a table, whatever a feed is: whose they are, what waits in them, and what a change
//! makes of each.
#![tactic(auto)]

mod closing;
mod draft;
mod drafting;
mod entry;
mod feeds;
mod finding;
mod following;
mod keyed;
mod laws;
mod prepared;
mod shadow;
mod taking;
mod telling;
mod threads;

pub use draft::Draft;
pub use feeds::Feeds;
pub use following::Following;
pub use laws::feeds_laws;
pub use prepared::Prepared;
pub use reql_datum::{Datum, Memory};
pub use reql_feed_spec::FeedKind;
pub use reql_memory::Seq;
pub use reql_queue::Taken;
pub use reql_table_spec::FeedSpec;
pub use reql_write_spec::Change;
