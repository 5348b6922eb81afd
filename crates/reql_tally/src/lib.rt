//! What the sessions of a load left in the history of their table, counted: its documents, its changes, the feeds that were opened,
//! and those of them whose items fold to their queries.
#![tactic(auto)]

mod advancing;
mod copies;
mod counting;
mod entries;
mod folding;
mod hearing;
mod replica;
mod sent;
mod tally;
mod values;

pub use tally::{Tally, tally_history};
