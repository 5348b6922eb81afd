//! The catalogue of names: which databases and tables there are, and the slots that tables have.
#![tactic(auto)]

mod catalog;
mod catalogue;
mod changing;
mod command;
mod database;
mod laws;
mod map;
mod names;
mod naming;
mod rows;
mod saying;
mod slot;
mod threads;

pub use catalog::Catalog;
pub use catalogue::Catalogue;
pub use command::{CatCmd, CatReply, CatSaid};
pub use database::Database;
pub use laws::names_and_slots;
pub use map::NameMap;
pub use names::Names;
pub use naming::is_name;
pub use rows::worked_rows;
pub use slot::{Slot, Table};
