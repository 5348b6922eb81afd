//! The bodies of answers, written with no JSON value made for them.
#![tactic(auto)]

mod ends;
mod error;
mod fixed;
mod refusals;
mod stamp;

pub use ends::write_end;
pub use error::ErrorType;
pub use fixed::{INTERNAL, internal};
pub use refusals::{fault, refusal};
pub use stamp::Stamp;
