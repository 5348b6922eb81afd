//! What a server tells of itself.
#![tactic(auto)]

mod server;

pub use server::server_info;
