//! The names of databases and tables in the term of a request: each table becomes its slot.
#![tactic(auto)]

mod parts;
mod resolve;
mod texts;

pub use parts::{Pair, db_of, first_name, pair_of};
pub use resolve::resolved;
