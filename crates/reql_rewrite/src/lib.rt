//! Terms with other terms in the place of some in them, by a rule.
#![tactic(auto)]

mod laws;
mod parts;
mod rule;
mod walk;

pub use laws::rewrite_laws;
pub use rule::Rule;
pub use walk::rewrite;
