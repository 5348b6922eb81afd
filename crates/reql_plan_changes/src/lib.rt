//! The feeds that CHANGES asks for: the term of each with the data of its arguments in their places,
//! tested as its row says, and the options.
#![tactic(auto)]

mod asking;
mod counts;
mod index;
mod keys;
mod literals;
mod openings;
mod options;
mod orders;
mod rows;
mod shapes;
mod texts;

pub use asking::{Feeding, arms_of, feeds_asked, notes_of};
