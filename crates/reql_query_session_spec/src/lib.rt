//! Sessions that plan ReQL: what a session is told of reading bodies and of planning. Definitions and laws, no code.
#![tactic(auto)]

mod laws;
mod plans;
mod rows;

pub use laws::{
    answers_are_placed, changes_are_answered, feeds_are_read, feeds_are_told, first_refusal,
    looks_are_of_the_term, plans_are_told, server_is_told, sessions_hold,
};
pub use plans::QueryPlans;
pub use rows::worked_rows;
