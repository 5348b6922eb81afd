//! Secondary indexes: the entries of a document.
#![tactic(auto)]

mod document;

pub use document::entries;
