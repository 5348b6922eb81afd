//! What a session hears of its link: its greeting, and then the pieces of its frames, one receive at a time.
#![tactic(auto)]

mod greeting;
mod receiving;

pub use greeting::{Heard, hear};
pub use receiving::{Received, receive};
