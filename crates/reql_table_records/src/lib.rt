//! The records of a table in its journal: their text, how they are read back, and what they make of a table.
#![tactic(auto)]

mod laws;
mod read;
mod record;
mod restores;
mod write;

pub use laws::records_are_read_back;
pub use read::records_in;
pub use record::TableRecord;
pub use restores::{Restores, apply_body};
