//! The rules of the terms that read a table by keys, and of those that tell what a table is.
#![tactic(auto)]

mod admin;
mod ids;
mod indexes;
mod keyed;
mod ranged;
mod sources;
mod telling;

pub use admin::{
    About, db_config, db_info, index_status, table_config, table_info, table_status, type_info,
};
pub use indexes::{index_list, index_statuses};
pub use keyed::{get, get_all};
pub use ranged::between;
pub use sources::{documents_having, entries_named, entries_source, index_or_key};
pub use telling::{config, db, info, status};
