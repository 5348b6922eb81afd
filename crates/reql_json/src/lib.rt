//! Documents from JSON values and back, and the text of a JSON value.
#![tactic(auto)]

mod fault;
mod laws;
mod literal;
mod read;
mod show;
mod zone;

pub use fault::{JsonFault, ShowFault};
pub use laws::json_laws;
pub use read::{from_members, from_value, has_reserved};
pub use show::{text, to_value};
pub use zone::ZoneText;
