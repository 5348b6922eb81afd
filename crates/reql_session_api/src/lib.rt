//! What a session and its planning tell each other: what a body asks for, the moves of a plan, what they found, and what
//! a request comes to. `Planner` is the calls; their contracts are what reql_session_spec's sessions are told (`Planning`).
//!
//! `specs/World.antt` has a session as its program has it, over the worlds of reql_session_spec: with its clock and its dice.
#![tactic(auto)]

mod answered;
mod moves;
mod planner;
mod query;

pub use answered::{Answered, Arm, Shown, Sort};
pub use moves::{Found, Move};
pub use planner::Planner;
pub use query::Query;
