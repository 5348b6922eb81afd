//! Documents spelled: the bytes of their JSON values, appended to those of an answer, with no value
//! made for them.
#![tactic(auto)]

mod numbers;
mod plain;
mod spell;
mod texts;

pub use numbers::{append_from, append_item, put_byte, write_number};
pub use spell::{document_text, write_document};
pub use texts::{write_comma, write_text};
