//! The load: five sessions in memory at one hall, and what they leave in their table, counted and printed.
#![tactic(auto)]

mod loading;
mod posts;
mod printing;
mod whole;

pub use loading::{Loaded, load};
