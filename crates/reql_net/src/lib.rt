//! Nets and doors, from which the links to clients come: in memory, and over TCP on the loopback address; and watches, by
//! which a thread serves many links by turns.
//!
//! A link over TCP never waits: what hasn't come is not there, and what its client doesn't take at once waits in the link. The
//! watch of a thread sleeps until the system tells of one of its sockets, a client has taken too long for something, or a table
//! changes for which a session of the thread waits. Where no session waits, a change costs one load of a word for each thread.
//!
//! A net over TCP may say on standard error what comes of its clients, a line each.
#![tactic(auto)]

mod asked;
mod crowd;
mod door;
mod gate;
mod lanes;
mod memory;
mod net;
mod outbox;
mod pace;
mod seats;
mod tcp;
mod tcp_net;
mod tcp_watch;
#[cfg(test)]
mod tests;
mod watch;

pub use door::{Accept, Door, Parting, Rest};
pub use memory::{MemDoor, MemNet};
pub use net::{Net, NetFault, Post};
pub use tcp::{TcpLink, TcpRecord};
pub use tcp_net::{TcpDoor, TcpNet};
pub use tcp_watch::TcpWatch;
pub use watch::{Rounds, Watch};
