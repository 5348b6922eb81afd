//! Terms as the commands that they give: writes, commands on names, and commands on a table.
#![tactic(auto)]

mod catalogue;
mod changes;
mod documents;
mod indexes;
mod names;
mod options;
mod table;
mod texts;
mod writes;

pub use catalogue::cat_command;
pub use table::{cmd_of, table_command};
pub use writes::{prepared, with_keys};
