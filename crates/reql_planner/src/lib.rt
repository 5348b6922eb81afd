//! Sessions that plan ReQL: their bodies are read to requests, and each request is followed move by move
//! to what it comes to, as `reql_query_session_spec` says.
#![tactic(auto)]

mod answering;
mod asking;
mod course;
mod grouping;
mod listing;
mod moving;
mod planner;
mod threads;

pub use course::QueryCourse;
pub use planner::QueryPlanner;
