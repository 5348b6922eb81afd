// The listening socket that all doors of a net share, with what is said of its clients.
use crate::crowd::Crowd;
use mio::net::{TcpListener, TcpStream};
use std::io::{self, ErrorKind};
use std::net::SocketAddr;
use std::os::fd::{AsRawFd, RawFd};
use std::sync::atomic::AtomicBool;
use std::sync::atomic::Ordering::SeqCst;

// How many clients one call turns away at most.
const TURNED_AWAY: usize = 64;

/// What one look at the listening socket found.
#[derive(Drop)]
pub(crate) enum Knock {
    /// This client.
    Client(TcpStream, SocketAddr),
    /// No client, or none that can be taken now.
    Nobody,
    /// The listener is of no use any more.
    Broken,
}

/// The listening socket, and the crowd behind it.
#[derive(Drop)]
pub(crate) struct Gate {
    listener: TcpListener,
    pub(crate) crowd: Crowd,
    // whether a client waits for which a descriptor or memory is wanted
    starved: AtomicBool,
}

// Whether the next accept may do better at once: a signal came, or a client left before it was taken.
fn passes(kind: ErrorKind) -> bool {
    kind == ErrorKind::Interrupted || kind == ErrorKind::ConnectionAborted
}

// Whether the listener itself is of no use any more: it is closed (EBADF), doesn't listen (EINVAL), or
// is no socket (ENOTSOCK, EOPNOTSUPP).
fn is_final(error: &io::Error) -> bool {
    matches!(error.raw_os_error(), Some(9 | 22 | 88 | 95))
}

impl Gate {
    pub(crate) fn new(listener: TcpListener, crowd: Crowd) -> Gate {
        Gate {
            listener,
            crowd,
            starved: AtomicBool::new(false),
        }
    }

    pub(crate) fn port(&self) -> io::Result<u16> {
        Ok(self.listener.local_addr()?.port())
    }

    pub(crate) fn descriptor(&self) -> RawFd {
        self.listener.as_raw_fd()
    }

    /// Takes the next client, where one is there.
    pub(crate) fn take(&self) -> Knock {
        for _ in 0..u64::MAX {
            match self.listener.accept() {
                Ok((stream, client)) => return Knock::Client(stream, client),
                Err(e) if is_final(&e) => return Knock::Broken,
                Err(e) if e.kind() == ErrorKind::WouldBlock => return Knock::Nobody,
                Err(e) if passes(e.kind()) => {}
                Err(_) => {
                    self.starved.store(true, SeqCst);
                    return Knock::Nobody;
                }
            }
        }
        Knock::Nobody
    }

    /// Whether a client couldn't be taken, for want of a descriptor or of memory, since this was asked.
    pub(crate) fn was_starved(&self) -> bool {
        self.starved.swap(false, SeqCst)
    }

    /// Takes clients for whom there is no place, and closes their connections. False: no more are there now.
    pub(crate) fn turn_away(&self, rt: &HostRuntime) -> bool {
        for _ in 0..TURNED_AWAY {
            match self.take() {
                Knock::Client(_, client) => self.crowd.turns_away(rt, client),
                Knock::Nobody | Knock::Broken => return false,
            }
        }
        true
    }
}
