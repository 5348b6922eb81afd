//! The journal of a table: how it is opened, and an engine whose commands it keeps.
#![tactic(auto)]

mod commands;
mod journaled;
mod laws;
mod opening;

pub use journaled::Journaled;
pub use laws::{commands_are_safe, records_lead};
pub use opening::{TableJournal, open};
pub use reql_blocks::OpenFault;
pub use reql_disk::{Disk, DiskFault};
pub use reql_table_records::{Restores, TableRecord};
