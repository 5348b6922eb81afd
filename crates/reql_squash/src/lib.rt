//! Squashed feeds: what all that is queued does as one.
#![tactic(auto)]

mod heard;
mod joining;
mod printed;

pub use joining::squash;
