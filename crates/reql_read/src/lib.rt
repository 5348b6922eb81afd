//! Bodies of queries, read to terms or refused by their exact fault.
#![tactic(auto)]

mod checks;
mod fault;
mod globals;
mod ids;
mod laws;
mod query;
mod quick;
mod quick_known;
mod quick_leaves;
mod quick_numbers;
mod quick_options;
mod quick_params;
mod quick_terms;
mod quick_tokens;
mod read;
mod shape;
mod texts;

pub use fault::ReadFault;
pub use laws::reading_laws;
pub use query::{Globals, Query, Unread, read_query};
