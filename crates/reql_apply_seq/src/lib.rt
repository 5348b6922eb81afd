//! The operators on sequences: arguments in, value out, each by its rule.
//!
//! Of a table or a slice of one no more is read than is given.
#![tactic(auto)]

mod counting;
mod distinguishing;
mod filtering;
mod index_order;
mod indexed;
mod joining;
mod mapping;
mod offsets;
mod ordering;
mod parts;
mod passing;
mod places;
mod ranging;
mod rows;
mod slicing;
mod sort_keys;
mod source;
mod spans;

pub use counting::count;
pub use distinguishing::distinct;
pub use filtering::filter;
pub use joining::union;
pub use mapping::{concat_map, map, reduce};
pub use offsets::offsets_of;
pub use ordering::order_by;
pub use parts::{is_empty, limit, skip};
pub use passing::contains;
pub use ranging::range;
pub use slicing::slice;
