//! The table that a journal's records lead to, from a table of nothing on.
#![tactic(auto)]

mod table;

pub use table::Recovered;
