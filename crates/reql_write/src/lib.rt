//! Plans a write: what becomes of each document, the changes of the table, and the summary.
#![tactic(auto)]

mod changing;
mod counting;
mod inserting;
mod keyed;
mod listing;
mod members;
mod plan;
mod selecting;
mod selection;
mod slots;
mod storing;
mod texts;
mod treated;
mod treating;

pub use plan::{Planned, plan_write};
pub use reql_table::Table;
pub use reql_write_spec::{Act, Change, Conflict, Returns, Summary, WriteCmd};
