//! Worked rows: a call, what it is given and what it has to give, a line each. They are read,
//! compared and counted here; a program says what each of its calls gives.
//!
//! A line is the name of a call, a space, its arguments, ` => `, and its result. Empty lines and those
//! that begin with `#` are passed over. Arguments that are documents stand in a JSON array, in which
//! an object of one name stands for what JSON has not: `minval` and `maxval` for MINVAL and MAXVAL,
//! `literal` for a LITERAL of its value, or of nothing where that is null.
#![tactic(auto)]

mod documents;
mod marked;
mod row;
mod run;

pub use documents::{arguments, list, number, object, shown, shown_or_none, text, word};
pub use row::Row;
pub use run::{Answers, run_rows};
