//! Where a request waits between its moves, with what it goes on with; and its writes, from the keys that
//! are made for them to the last one of a FOR_EACH.
#![tactic(auto)]

mod each;
mod ending;
mod rounds;
mod stage;
mod writing;

pub use each::for_each;
pub use ending::{asks, dropped, lost, refused};
pub use stage::{Asked, Refusal, Rounds, Stage, Then, Turn};
pub use writing::{points_of, rolled, write, wrote};
