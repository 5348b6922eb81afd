//! Runs worked rows on calls of the crates of data, and says which differ and how many passed.
//!
//! A line of the input is a row: the name of a call, a space, its arguments, ` => `, and its result.
//! Empty lines and those that begin with `#` are passed over. The calls are described where they are
//! answered: JSON in `reading`, numbers, bytes and times in `scalars`, documents in `documents`,
//! objects and lists under edits in `edits`, terms under edits in `terms`, bags in `bags`, trees in
//! `trees`, and documents that are made because they are too large for a line in `sizes`. `read`, `number`, `answered` and `whole`
//! take the text itself, `laws` a word; all others an array of documents, in which an object of the
//! one name `minval`, `maxval` or `literal` stands for MINVAL, MAXVAL or a LITERAL. Where nothing is
//! found, a row says `none`; what is refused is named by its fault.
#![tactic(auto)]

mod bags;
mod documents;
mod edits;
mod order;
mod reading;
mod row;
mod scalars;
mod sizes;
mod spread;
mod terms;
mod trees;

use row::Calls;
use rows_reader::run_rows;
use std::io;

fn main(rt: HostRuntime) -> io::Result<()> {
    run_rows(&rt, rt.alloc(), &Calls)
}
