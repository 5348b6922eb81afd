//! The words of the server's command line, and what they ask for.
#![tactic(auto)]

mod load;
mod numbers;
mod options;
mod passwords;
mod tables;
mod telling;
mod words;

pub use tables::Tables;
pub use telling::with_password;
pub use words::{Command, Refusal, Wanted, command_of};
