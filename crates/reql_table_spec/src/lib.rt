//! The table machine: commands, replies and feeds of a table, as types, definitions and laws. It is all
//! that the crates above know of a table.
#![tactic(auto)]

mod command;
mod engine;
mod laws;
mod limits;
mod reply;
mod rows;
mod threads;

pub use command::{Cmd, Entry, FeedSpec, Order};
pub use engine::{Keeping, Kept, MachineState, TableEngine};
pub use laws::{
    feed_kinds_fold, feeds_of_histories_fold, feeds_show_their_terms, requests_are_read,
    subscribes_are_told, table_laws, takes_tell_skips,
};
pub use limits::Limits;
pub use reply::{Heard, Reply, Said, Saved, Told};
pub use reql_datum::Point;
pub use reql_feed_spec::FeedKind;
pub use reql_table_machine_spec::Look;
pub use reql_write_spec::{Act, Conflict, Returns, Summary, WriteCmd};
pub use rows::worked_rows;
