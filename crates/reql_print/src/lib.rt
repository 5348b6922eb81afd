//! Terms printed: the text of a body that reads back to them.
#![tactic(auto)]

mod body;
mod held;
mod index;
mod laws;
mod levels;
#[cfg(test)]
mod tests;
mod texts;
mod write;

pub use body::print;
pub use index::print_index;
pub use laws::print_laws;
pub use write::write_term;
