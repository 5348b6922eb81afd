// What a client was sent and hasn't taken yet.
ghost use Rattle.std.specs.Prelude.{◌≤◌, length};
ghost use Rattle.reql_net.specs.Tcp.{PutFits};

use std::alloc::Global;
use std::io::{ErrorKind, Write};
use std::time::{Duration, Instant};

// How many bytes may wait: those of the longest answer, with what stands around it.
const MOST_BYTES: usize = 268_435_456 + 65_536;

/// How long a client may take nothing while something waits for it.
pub(crate) const STILL_SECONDS: u64 = 30;

/// What one write came to.
#[derive(Clone, Copy)]
pub(crate) enum Put {
    /// So many bytes, at least 1, were taken.
    Bytes(usize),
    /// Nothing is taken now.
    Full,
    Failed,
}

/// One write, tried again where a signal cuts it off.
pub(crate) fn write_within<W: Write>(output: &mut W, piece: &[u8]) -> Put
    ensures { PutFits result (length piece.now) }
{
    for _ in 0..u64::MAX {
        match output.write(piece) {
            Ok(0) => return Put::Failed,
            Ok(n) => return Put::Bytes(n),
            Err(e) => match e.kind() {
                ErrorKind::Interrupted => {}
                ErrorKind::WouldBlock => return Put::Full,
                _ => return Put::Failed,
            },
        }
    }
    Put::Failed
}

/// How an outbox stands after it was tried.
#[derive(Clone, Copy, Debug, PartialEq, Eq)]
pub(crate) enum Flushed {
    /// All was taken.
    Whole,
    /// Something still waits.
    Part,
    /// A write failed, or the client has taken nothing for too long.
    Failed,
}

/// The bytes that wait for a client, and since when it has taken none of them.
#[derive(Drop)]
pub(crate) struct Outbox {
    alloc: Global,
    bytes: Vec<u8>,
    // how many of them were taken
    taken: usize,
    pub(crate) since: Instant,
}

impl Outbox {
    pub(crate) fn new(alloc: Global, now: Instant) -> Outbox {
        Outbox {
            alloc,
            bytes: Vec::new(alloc),
            taken: 0,
            since: now,
        }
    }

    pub(crate) fn is_empty(&self) -> bool {
        self.bytes.is_empty()
    }

    /// When the client will have taken nothing for too long, if something waits.
    pub(crate) fn due(&self) -> Option<Instant> {
        if self.is_empty() {
            return None;
        }
        self.since.checked_add(Duration::from_secs(STILL_SECONDS))
    }

    /// The piece waits behind what is there. False: there is no room or no memory for it.
    pub(crate) fn put(&mut self, rt: &HostRuntime, piece: &[u8]) -> bool {
        if self.bytes.len() > MOST_BYTES || piece.len() > MOST_BYTES - self.bytes.len() {
            return false;
        }
        if self.bytes.is_empty() {
            self.moves(rt);
        }
        self.bytes.extend_from_slice(piece).is_ok()
    }

    fn moves(&mut self, rt: &HostRuntime) {
        if let Ok(now) = Instant::now(rt) {
            self.since = now;
        }
    }

    fn is_still(&self, rt: &HostRuntime) -> bool {
        match self.since.elapsed(rt) {
            Ok(time) => time >= Duration::from_secs(STILL_SECONDS),
            Err(_) => false,
        }
    }

    // Its memory is given back, since most clients need none.
    fn empty(&mut self) {
        self.bytes = Vec::new(self.alloc);
        self.taken = 0;
    }

    /// Writes what is taken now.
    pub(crate) fn flush<W: Write>(&mut self, rt: &HostRuntime, output: &mut W) -> Flushed {
        for _ in 0..u64::MAX {
            if self.taken >= self.bytes.len() {
                self.empty();
                return Flushed::Whole;
            }
            match write_within(output, &self.bytes[self.taken..]) {
                Put::Bytes(n) => {
                    self.taken = self.taken.saturating_add(n);
                    self.moves(rt);
                }
                Put::Full if self.is_still(rt) => return Flushed::Failed,
                Put::Full => return Flushed::Part,
                Put::Failed => return Flushed::Failed,
            }
        }
        Flushed::Failed
    }
}
