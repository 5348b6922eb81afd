//! The machine of a table, over any kinds of writes and feeds, as definitions; and the law that a client's feeds fold to their queries.
#![tactic(auto)]

mod command;
mod laws;
mod rows;
mod sample;

pub use command::{Cmd, Look, Order, Reply, Said};
pub use laws::{
    Meaning, feeds_come_and_go, feeds_fold, machine_laws, numbers_rise, sample_folds,
    skips_of_full_queues, subscribes_are_told, takes_tell_skips,
};
pub use reql_datum::Point;
pub use rows::worked_rows;
pub use sample::{Kept, OneNumber};
