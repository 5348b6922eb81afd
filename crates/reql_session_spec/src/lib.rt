//! A session as a story: what it does, event by event, and when a hall explains it. Definitions and laws, no code.
//!
//! The machine of a session knows nothing of terms: what a body asks for, and the moves of a plan, are told to it
//! (`Planning`).
#![tactic(auto)]

mod end;
mod laws;
mod planning;
mod rows;
mod sample;

pub use end::End;
pub use laws::{
    answers_are_placed, arms_are_apart, each_begins, each_continues, each_is_answered,
    each_is_opened, feeds_are_told, feeds_end, feeds_hold, first_failed, frames_handled, in_order,
    joined, kept, login_rolls_first, nothing_kept_back, skips_are_sent, starts_to_wait,
    valid_closes, worn_late,
};
pub use planning::Planning;
pub use rows::worked_rows;
pub use sample::SamplePlans;
