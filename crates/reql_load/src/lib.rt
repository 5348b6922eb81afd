//! The load: what its sessions send, and whether what a feed told leads from one value to another.
#![tactic(auto)]

mod bodies;
mod fold;
mod heard;
mod laws;
mod sessions;
mod steps;
mod writer;

pub use fold::fold_check;
pub use laws::fold_laws;
pub use sessions::script;
