//! The turns of a session: it makes the visits of a turn, and then hears its greeting, answers it or a message of a login,
//! has a frame handled, or receives, until it ends. What a frame asks for, and what a visit finds, is not known here
//! (`Handler`).
//!
//! Contracts see a session as its program has it as a world (`specs/World.antt` of reql_session_api), over the worlds of reql_session_spec.
#![tactic(auto)]

mod ears;
mod greeting;
mod handler;
mod login;
mod receiving;
mod running;
mod served;
mod session;
mod turn;

pub use handler::Handler;
pub use running::{Prepared, Running, begin, finish, prepare, received_room, step};
pub use served::Served;
pub use session::serve_session;
