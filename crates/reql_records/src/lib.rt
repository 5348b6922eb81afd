//! A journal of records on a disk: records wait in a list, and a flush writes all that wait as one block.
//!
//! What is known of a journal is kept in books (`specs/Books.antt`): which records a crash leaves, and which it may lose. What a
//! call makes of them, and the promise of crash safety over all calls, are in `specs/Safe.antt`.
#![tactic(auto)]

mod journal;
mod laws;

pub use journal::{Journal, Record};
pub use laws::crashes_leave_a_front;
