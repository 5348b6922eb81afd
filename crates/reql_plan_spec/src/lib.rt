//! What a request reads and commands, as definitions: its moves in the order of its refusals, each by what it heard, and its answer.
#![tactic(auto)]

mod laws;
mod parts;
mod rows;

pub use laws::{
    changes_are_answered, feeds_are_asked_in_turn, feeds_are_read, looks_are_of_the_term,
    openings_are_theirs, planned_feeds_are_read, plans_mind, plans_mind_each_step,
    settled_means_the_same, unsent_only_with_noreply,
};
pub use parts::{Commanded, Opening, Plan, Prepared, Setting, TableCmd};
pub use rows::worked_rows;
