//! What the request of a feed follows: a key, a range shape, or the first of an order.
#![tactic(auto)]

mod asked;
mod closed;
mod copies;
mod first;
mod follows;
mod free;
mod index;
mod naming;
mod order;
mod part;
mod places;
mod point;
mod range;
mod shape;
mod source;
mod threads;

pub use copies::{index_copy, request_copy};
pub use follows::{Follows, read};
pub use index::kept_index;
pub use order::{Order, Part};
pub use shape::RangeShape;
pub use source::{Places, Source};
