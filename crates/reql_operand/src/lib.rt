//! The rule of each operator: its value, or its first fault, by what its arguments gave.
#![tactic(auto)]

mod called;
mod copying;
mod counted;
mod documents;
mod field;
mod limits;
mod matching;
mod options;
mod purse;
mod reading;
mod scalars;
mod sequenced;
mod texts;
mod value;
mod wanted;
mod world;

pub use called::{
    answer, answer_datum, answer_items, answer_key, answer_one, answer_test, answer_two, passes,
};
pub use copying::copy_value;
pub use counted::{count_elements, count_range, count_rest, element_at, whole_range};
pub use documents::{as_data, as_object, as_time, time_in_arg, to_object};
pub use field::{get_field, get_fields};
pub use limits::sized;
pub use matching::{fits, is_same};
pub use options::{find_choice, index_text, left_is_open, right_is_open, same_text, text_option};
pub use purse::{BUDGET, Purse, STAGE, paid, size_of};
pub use reading::{as_sequence, as_table, read_part, read_rest, read_slice, to_sequence};
pub use scalars::{is_true, negation, raise, type_of};
pub use sequenced::{alike, in_order, like};
pub use texts::{
    bad_option, misplaced, misplaced_order, negative_count, no_index, not_a_key, over_range,
    wrong_count,
};
pub use value::{Arg, Bounds, Callee, Choice, Group, Key, Rows, Slice, Value};
pub use wanted::{
    as_array, as_datum, as_number, as_text, datum_of, into_datum, is_nothing, items_in_arg,
    number_in_arg, text_in_arg, text_of, type_name, value_in, value_of, wrong, wrong_arg,
};
pub use world::{Database, Viewed, World, table_at};
