//! The chained text that users of ReQL write, as in `r.table("docs").filter({n: 5}).limit(3)`, read to the body of a request.
//!
//! It is the text of RethinkDB's JavaScript driver as far as terms go: calls behind dots, literals, arrays, objects, `r.row`, and
//! functions of one expression, with an arrow or with `function` and `return`.
#![tactic(auto)]

mod calls;
mod fault;
mod functions;
mod lexing;
mod names;
mod parser;
mod spelling;
mod terms;
#[cfg(test)]
mod tests;
mod token;

pub use fault::{ChainFault, What};
pub use terms::body_of;
