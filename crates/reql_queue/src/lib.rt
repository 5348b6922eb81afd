//! The queue of a feed: bounded, it drops its oldest items and counts them; its memory grows with
//! what waits and is given back.
#![tactic(auto)]

mod laws;
mod queue;
mod ring;

pub use laws::{queue_laws, worked_rows};
pub use queue::{Queue, Taken};
pub use reql_memory::{Memory, Seq};
