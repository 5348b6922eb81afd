//! Terms of ReQL: what they are made of, the table of their operators, and tables as terms read them.
#![tactic(auto)]

mod by_number;
mod entry;
mod laws;
mod limits;
mod op;
mod params;
mod range;
mod role;
mod table;
mod term;
mod view;

pub use laws::op_laws;
pub use limits::{MAX_DEPTH, MAX_RANGE};
pub use op::Op;
pub use params::Params;
pub use range::{Bound, Range};
pub use role::{Naming, Task, Way};
pub use term::{Body, Term, TermFields, Terms};
pub use view::{Entries, IndexDef, TableView, ViewFault};
