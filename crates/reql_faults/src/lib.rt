//! Why a request has no plan: the first fault of its term in preorder; and what a changefeed may follow.
#![tactic(auto)]

mod fault;
mod names;
mod own;
mod part;
mod places;
mod rows;
mod scope;
mod shape;
mod standing;
mod task;
mod text;
mod walk;

pub use fault::CompileFault;
pub use rows::worked_rows;
pub use shape::{Shape, shape_of};
pub use standing::Place;
pub use walk::plan_fault;
