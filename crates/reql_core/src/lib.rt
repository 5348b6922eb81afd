//! The engine of a table: its documents, indexes and open feeds, the base and the end of its history.
#![tactic(auto)]

mod engine;
mod full;
mod indexing;
mod live;
mod moment;
mod running;
mod simple;
mod subscribing;
mod table_core;
mod taking;
mod telling;
mod threads;
mod writing;

pub use reql_opening::{Opened, Opening};
pub use table_core::{Base, TableCore};
