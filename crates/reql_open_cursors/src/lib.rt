//! What a session holds open between its requests: its cursors, its feeds, and the tokens that wait.
//!
//! Contracts see a shelf as the books of reql_session_spec (`specs/Kept.antt`). The cursors and the feeds stand in vectors in the
//! order of opening, as in the books; a look-up goes through those that are open, whose number has a limit.
#![tactic(auto)]

mod cursors;
mod feeds;
mod later;
mod laws;
mod open;
mod shelf;
mod waiting;

pub use laws::{shelf_laws, slot_laws, waiting_laws};
pub use open::{Cursor, Open};
pub use shelf::Shelf;
