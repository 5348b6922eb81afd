//! Operators on single values and on arrays: each gives its rule on what its arguments gave.
#![tactic(auto)]

mod adding;
mod arrays;
mod coercing;
mod scalars;
mod times;

pub use adding::arithmetic;
pub use arrays::{delete_at, end_edit, place_edit, set_insert, set_operation, splice_at};
pub use coercing::coerce_to;
pub use scalars::{comparison, constant, funcall, literal, make_array};
pub use times::{epoch_time, to_epoch_time};
