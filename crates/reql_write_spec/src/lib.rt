//! Writes of a table as definitions on plain lists: what becomes of each document, the changes, and the summary.
#![tactic(auto)]

mod command;
mod laws;
mod rows;
mod threads;

pub use command::{Act, Change, Conflict, Returns, Summary, WriteCmd};
pub use laws::write_law;
pub use rows::worked_rows;
