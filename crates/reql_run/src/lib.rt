//! The server as one call: words and devices in, sessions served, and a status out.
#![tactic(auto)]

mod listening;
mod opening;
mod outcome;
mod serving;
mod threads;

pub use listening::{Heard, listen, serve_posts};
pub use outcome::{Core, Outcome};
pub use serving::run;
