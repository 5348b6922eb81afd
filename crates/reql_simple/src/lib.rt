//! Simple terms: literals, variables, fields of documents, and comparisons, logic and arithmetic of
//! these. What one stands for is found without a list of arguments, and is read where it lies.
#![tactic(auto)]

mod applied;
mod lying;
mod object;
mod of_two;
mod roles;
mod terms;

pub use lying::Found;
pub use object::object_found;
pub use terms::found;
