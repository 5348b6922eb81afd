//! Tables over trees: documents by primary key, and each index by its values.
#![tactic(auto)]

mod alter;
mod edit;
mod ends;
mod filed;
mod indexes;
mod indexing;
mod reads;
mod refile;
mod slice;
mod table;
mod threads;
mod trees;
mod view;
mod walk;

pub use edit::Prepared;
pub use reql_term::{Entries, IndexDef, Range, TableView, ViewFault};
pub use reql_write_spec::Change;
pub use table::Table;
