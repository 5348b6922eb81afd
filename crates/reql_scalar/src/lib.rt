//! Arithmetic, comparisons, edits of arrays, sets and coercion of documents.
#![tactic(auto)]

mod adding;
mod building;
mod coercing;
mod digits;
mod editing;
mod gathering;
mod numbers;
mod parts;
mod relating;
mod sets;
mod wanted;

pub use adding::arith;
pub use building::ObjectBuilder;
pub use coercing::{coerce, coerce_named};
pub use editing::edit;
pub use relating::relate;
pub use sets::set;
