//! A client: it greets a server over a link by a key, or logs in by a password, asks, and reads the answers.
//!
//! A login as a machine is `specs/Login.antt`: from where it stands and the bytes that are held, what comes next.
#![tactic(auto)]

mod client;
mod entering;
mod fault;
mod fields;
mod finding;
mod greeting;
mod hello;
mod laws;
mod limits;
mod listening;
mod proof;
mod reading;
mod saying;
mod server_first;
#[cfg(test)]
mod tests;
mod turn;
mod word;

pub use client::{Asked, Client, Opened};
pub use fault::ClientFault;
pub use laws::one_reading;
pub use limits::Limits;
