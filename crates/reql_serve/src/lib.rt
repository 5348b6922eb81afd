//! Sessions served over a hall: one, at the one desk of a hall that is opened for it and closed after it, or many, by workers
//! that each have a desk and a door. A thread serves many workers turn by turn.
#![tactic(auto)]

mod ground;
mod group;
mod many;
mod one;
mod parting;
mod seat;
mod seats;
mod serving;
mod sitting;
mod worker;

pub use many::{Left, Many, serve_many, shares_add_up};
pub use one::{Ended, serve_one};
pub use serving::serve_all;
pub use worker::{Member, WorkState, Worker};
