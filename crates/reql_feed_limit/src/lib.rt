//! Limit feeds: the first so many documents of an order, kept up to date by at most one look at its
//! tree a change.
#![tactic(auto)]

mod asked;
mod bounds;
mod deciding;
mod element;
mod feed;
mod held;
mod nearest;
mod order;
mod pairs;
mod printing;
mod reading;
mod rows;
mod search;
mod threads;

pub use element::{Element, LimitStep, Placed};
pub use feed::LimitFeed;
pub use reql_feed_read::{Order, Part};
pub use rows::worked_rows;
