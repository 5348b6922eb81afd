//! What a request reads and commands: its plan, and its moves one after another, each by the answer to
//! the last one.
#![tactic(auto)]

mod carrying;
mod catalogue;
mod closing;
mod course;
mod feeds;
mod indexing;
mod looking;
mod opened;
mod opening;
mod shown;

pub use course::{Course, Waiting};
pub use reql_plan_steps::{
    Answered, Arm, Ask, CompileFault, Found, Item, Move, Plan, Setting, plan,
};
