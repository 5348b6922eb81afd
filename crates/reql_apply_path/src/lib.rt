//! Operators on the fields of objects and of the elements of sequences: each gives its rule.
#![tactic(auto)]

mod elements;
mod fields;
mod having;
mod members;
mod merging;
mod parts;
mod places;
mod subjects;

pub use fields::{bracket, get_field_rule};
pub use having::{has_fields_rule, with_fields};
pub use members::{keys_rule, object_rule, values_rule};
pub use merging::merge_rule;
pub use parts::{pluck_rule, without_rule};
pub use places::nth_rule;
