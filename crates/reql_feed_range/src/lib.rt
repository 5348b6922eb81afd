//! Feeds of one document and of a range: what they open with, and what they are told of a change,
//! from the changed document alone.
#![tactic(auto)]

mod alone;
mod feed;
mod opening;
mod printed;
mod telling;
mod threads;

pub use feed::RangeFeed;
