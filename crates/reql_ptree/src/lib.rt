//! A persistent ordered map from documents to documents, shared by counts, whose calls count what they look at.
#![tactic(auto)]

mod around;
mod balance;
mod chunk;
mod edit;
mod fall;
mod in_place;
mod look;
mod pack;
mod put;
mod range;
mod rank;
mod remove;
mod remove_in_place;
mod seek;
mod side;
mod steps;
mod threads;
mod tree;
mod turn;

pub use reql_datum::{Datum, Items, Memory, Refused};
pub use steps::{Brand, Steps};
pub use tree::Tree;
