//! A link to a server over TCP on the loopback address, as a client has it.
//!
//! Unlike the links of a server it waits as long as the other side takes: a receive is never idle, and no input ends because time
//! is up.
#![tactic(auto)]

mod link;
mod stream;
#[cfg(test)]
mod tests;

pub use link::{DialedLink, DialedRecord, dial};
