//! The feeds of a table as they are kept: those of one document or of a range, and those of the first
//! of an order, with what each was asked for.
#![tactic(auto)]

mod asking;
mod feed;
mod first;
mod listed;
mod moving;
mod opening;
mod preparing;
mod threads;

pub use feed::OpenFeed;
pub use first::FirstFeed;
