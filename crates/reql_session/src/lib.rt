//! The program of a session's frames: each is read, its request is followed at the session's desk, and its answer is told; what
//! is open is kept, continued, visited, stopped, and closed in the end.
//!
//! Contracts see a session as its program has it (`specs/World.antt` of reql_session_api), over the session machine of reql_session_spec.
#![tactic(auto)]

mod answers;
mod arms;
mod batching;
mod beginning;
mod changes;
mod continuing;
mod ending;
mod gone;
mod leaving;
mod losing;
mod opening;
mod points;
mod session;
mod settling;
mod skipped;
mod starting;
mod stopping;
mod telling;
mod visiting;
mod visits;
mod voice;

pub use session::{Bench, Session};
