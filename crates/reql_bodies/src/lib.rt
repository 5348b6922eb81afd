//! The bodies of a session's answers, as reql_session_spec defines them, each written once and with no JSON value made for it.
#![tactic(auto)]

mod batches;
mod fitting;
mod fixed;
mod refusals;
mod results;

pub use batches::batch;
pub use fitting::{cut_to, fitted, is_long};
pub use fixed::{INFO, WAITED, info, internal, waited};
pub use refusals::{at_wait, client, compile, failed, full, in_use, not_open};
pub use results::{atom, last, part};
