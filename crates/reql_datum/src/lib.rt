//! Documents: their numbers, texts, lists and maps by name, and the order of them all.
#![tactic(auto)]

mod blob;
mod comparing;
mod datum;
mod entry;
mod fault;
mod fields;
mod items;
mod kinds;
mod moment;
mod name;
mod point;
mod shape;
mod short;
mod whole;

pub use blob::Blob;
pub use comparing::{compare, order_laws};
pub use datum::{Datum, Fields, Items};
pub use fault::Fault;
pub use moment::{Moment, zone_laws};
pub use name::Name;
pub use point::Point;
pub use reql_memory::{Memory, Refused, Seq};
pub use whole::{NumFault, Whole};
