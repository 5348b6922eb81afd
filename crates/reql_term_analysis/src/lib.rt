//! What terms denote, told apart outside the evaluator's cycle (which of them are functions, keys
//! with a direction or ERRORs, and what is made of the answers of terms), and the frames of
//! variables.
#![tactic(auto)]

mod answers;
mod kinds;
mod object;
mod vars;

pub use answers::{
    arg_of, is_true_value, is_whole, late, of_nothing, or_caught, settled, something, stops_at,
    takes_key,
};
pub use kinds::{callee, direction, function_in, is_fit, raising, shape};
pub use object::object_of;
pub use vars::{Vars, find, implicit, lookup, lookup_implicit, reach};
