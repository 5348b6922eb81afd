ghost use Rattle.std.specs.Prelude.{◌≡◌, ◌<◌, ◌≤◌, length, IfOk};
ghost use Rattle.reql_net.specs.Tcp.{CameFits};
ghost use Rattle.reql_outside.specs.Tape.{IsFresh, Receives, RecvFits, SendFits, Sends};

use crate::lanes::{Lanes, channel_of};
use crate::outbox::{Flushed, Outbox, Put, write_within};
use crate::pace::Pace;
use mio::net::TcpStream;
use reql_outside::{Expected, Link, Recv, Sending};
use std::alloc::Global;
use std::io::{self, ErrorKind, Read};
use std::marker::Model;
use std::os::fd::{AsRawFd, RawFd};
use std::sync::Arc;
use std::sync::atomic::AtomicUsize;
use std::sync::atomic::Ordering::SeqCst;
use std::time::Instant;

// The lane of a link that no thread serves by turns.
const NO_LANE: usize = usize::MAX;

/// The counts of a link over TCP.
#[derive(Clone, Copy, Debug, PartialEq, Eq)]
pub struct TcpRecord {
    /// How often a `recv` failed.
    pub faults_in: u64,
    /// How often a `send` failed.
    pub faults_out: u64,
    /// How often a `recv` was idle.
    pub idles: u64,
    /// Whether the input ended.
    pub over: bool,
    /// Whether it ended because the client took too long.
    pub late: bool,
    /// Whether the client didn't take what it was sent.
    pub unsent: bool,
}

/// A link over a TCP socket. It tells no bytes, and never waits.
///
/// A `recv` is idle where nothing has come. Behind a watch it asks the system only where the watch has seen
/// something come. The input ends where the greeting and the login aren't whole 10 seconds after the client was accepted, and
/// where less than 30 KiB of a frame that has begun come in 30 seconds.
///
/// What a client doesn't take at once waits for it, up to the bytes of the longest answer. Where it takes none of that for 30
/// seconds, or is gone, this `send` or the next call fails; that raises no signal.
#[derive(Drop)]
pub struct TcpLink {
    rt: HostRuntime,
    stream: TcpStream,
    lanes: Arc<Lanes, Global>,
    // the lane of the thread that serves it
    lane: AtomicUsize,
    pub(crate) pace: Pace,
    pub(crate) outbox: Outbox,
    // whether something may have come, and whether the client will send no more
    readable: bool,
    closing: bool,
    // whether a table may have changed that its session waited for in its last turn
    rung: bool,
    // whether its session found nothing to hear in its last turn
    quiet: bool,
    // the channels that its session waits for
    wanted: u32,
    // whether each further call fails
    broken: bool,
    counts: TcpRecord,
}

impl Model for TcpLink {
    ghost use Rattle.reql_outside.specs.Tape.{Tape};
    ghost use Rattle.reql_net.specs.Tcp.{tape_of};

    ghost Value = { Tape };

    ghost view = { λ l. tape_of l.counts };
}

// What one read came to.
#[derive(Clone, Copy)]
enum Came {
    Bytes(usize),
    Nothing,
    Broken,
}

// One read, tried again where a signal cuts it off.
fn read_within<R: Read>(input: &mut R, buf: &mut [u8]) -> Came
    ensures { CameFits result (length buf.old) }
{
    for _ in 0..u64::MAX {
        match input.read(buf) {
            Ok(n) => return Came::Bytes(n),
            Err(e) => match e.kind() {
                ErrorKind::Interrupted => {}
                ErrorKind::WouldBlock => return Came::Nothing,
                _ => return Came::Broken,
            },
        }
    }
    Came::Broken
}

/// What was seen of a link between two of its turns.
#[derive(Clone, Copy)]
pub(crate) struct Signs {
    /// Something may have come.
    pub(crate) readable: bool,
    /// The client will send no more, or the socket has failed.
    pub(crate) closing: bool,
    /// A table may have changed that its session waits for.
    pub(crate) rung: bool,
    /// Nothing can be seen of it.
    pub(crate) lost: bool,
}

impl TcpLink {
    /// A link over the socket of a client that is accepted now.
    pub(crate) fn new(
        rt: HostRuntime,
        stream: TcpStream,
        lanes: Arc<Lanes, Global>,
    ) -> io::Result<TcpLink>
        ensures fresh { IfOk result (λ l. IsFresh l) }
    {
        stream.set_nodelay(true)?;
        let now = Instant::now(&rt)?;
        Ok(TcpLink {
            rt,
            stream,
            lanes,
            lane: AtomicUsize::new(NO_LANE),
            pace: Pace::new(now),
            outbox: Outbox::new(rt.alloc(), now),
            readable: false,
            closing: false,
            rung: false,
            quiet: true,
            wanted: 0,
            broken: false,
            counts: TcpRecord {
                faults_in: 0,
                faults_out: 0,
                idles: 0,
                over: false,
                late: false,
                unsent: false,
            },
        })
    }

    /// The link is served by the thread of this lane.
    pub(crate) fn joins(&self, lane: usize) {
        self.lane.store(lane, SeqCst);
    }

    pub(crate) fn descriptor(&self) -> RawFd {
        self.stream.as_raw_fd()
    }

    /// Whether a turn of its session is worth while, after these signs. Where its client hasn't taken what it was sent, it isn't.
    pub(crate) fn wakes(&mut self, signs: Signs) -> bool
        ensures still { self.new ≡ self.old }
    {
        self.readable = self.readable || signs.readable;
        self.closing = self.closing || signs.closing;
        self.rung = self.rung || signs.rung;
        self.broken = self.broken || signs.lost;
        if !self.flushes() {
            return self.broken;
        }
        let has_cause = self.readable || self.broken || self.rung;
        let wakes = has_cause || !self.quiet || self.pace.is_over(&self.rt);
        if wakes {
            self.rung = false;
            self.quiet = false;
            self.wanted = 0;
        }
        wakes
    }

    /// When its session has to be woken though nothing came.
    pub(crate) fn due(&self) -> Option<Instant> {
        match self.outbox.due() {
            Some(due) => Some(due),
            None => self.pace.due(),
        }
    }

    /// Whether something waits until its client takes it.
    pub(crate) fn is_blocked(&self) -> bool {
        !self.outbox.is_empty()
    }

    /// Whether its session found nothing to hear in its last turn.
    pub(crate) fn is_quiet(&self) -> bool {
        self.quiet
    }

    /// The channels that its session waits for.
    pub(crate) fn wanted(&self) -> u32 {
        self.wanted
    }

    // Sends what waits, as far as the client takes it now. False: something still waits, or that has failed.
    fn flushes(&mut self) -> bool
        ensures still { self.new ≡ self.old }
    {
        if self.outbox.is_empty() {
            return true;
        }
        match self.outbox.flush(&self.rt, &mut self.stream) {
            Flushed::Whole => {
                self.pace.resumes(&self.rt);
                true
            }
            Flushed::Part => false,
            Flushed::Failed => {
                self.broken = true;
                self.counts.unsent = true;
                false
            }
        }
    }

    // How many bytes of a piece were taken, or wait now; 0 for an error.
    fn post(&mut self, piece: &[u8]) -> usize
        ensures room { result ≤ length piece.now }
        ensures still { self.new ≡ self.old }
    {
        if self.broken {
            return 0;
        }
        if !self.outbox.is_empty() {
            return self.keep(piece);
        }
        match write_within(&mut self.stream, piece) {
            Put::Bytes(n) => n,
            Put::Full => self.keep(piece),
            Put::Failed => 0,
        }
    }

    fn keep(&mut self, piece: &[u8]) -> usize
        ensures room { result ≤ length piece.now }
        ensures still { self.new ≡ self.old }
    {
        if self.outbox.put(&self.rt, piece) {
            piece.len()
        } else {
            0
        }
    }

    // Reads where something may have come, or where nobody looks whether it has.
    fn reads(&mut self, buf: &mut [u8]) -> Came
        ensures fits { CameFits result (length buf.old) }
        ensures still { self.new ≡ self.old }
    {
        if !self.readable && self.lane.load(SeqCst) != NO_LANE {
            return Came::Nothing;
        }
        let came = read_within(&mut self.stream, buf);
        self.readable = match came {
            // a client that goes on sending is seen to
            Came::Bytes(n) => n == buf.len() || self.closing,
            Came::Nothing | Came::Broken => false,
        };
        came
    }
}

impl Link for TcpLink {
    ghost use Rattle.reql_net.specs.Tcp.{tape_of};

    type Record = TcpRecord;

    ghost tape = { λ l. l };

    ghost kept = { tape_of };

    fn recv(&mut self, buf: &mut [u8]) -> Recv
        requires { 0 < length buf.old }
        ensures fits { RecvFits result (length buf.old) }
        ensures told { Receives self.old self.new buf.new result }
    {
        if self.counts.over {
            return Recv::End;
        }
        if self.broken {
            self.counts.faults_in = self.counts.faults_in.saturating_add(1);
            return Recv::Failed;
        }
        if self.pace.is_over(&self.rt) {
            self.counts.over = true;
            self.counts.late = true;
            return Recv::End;
        }
        match self.reads(buf) {
            Came::Bytes(0) => {
                self.counts.over = true;
                Recv::End
            }
            Came::Bytes(n) => {
                self.pace.comes(n);
                Recv::Got(n)
            }
            Came::Nothing => {
                self.quiet = true;
                self.counts.idles = self.counts.idles.saturating_add(1);
                Recv::Idle
            }
            Came::Broken => {
                self.counts.faults_in = self.counts.faults_in.saturating_add(1);
                Recv::Failed
            }
        }
    }

    fn send(&mut self, piece: &[u8]) -> Sending
        requires { 0 < length piece.now }
        ensures fits { SendFits result (length piece.now) }
        ensures told { Sends self.old self.new piece.now result }
    {
        let taken = self.post(piece);
        if taken == 0 {
            self.counts.faults_out = self.counts.faults_out.saturating_add(1);
            return Sending::Failed;
        }
        Sending::Sent(taken)
    }

    fn expects(&mut self, expected: Expected)
        ensures still { self.new ≡ self.old }
    {
        self.pace.expects(&self.rt, expected);
    }

    fn awaits(&mut self, slot: u32)
        ensures still { self.new ≡ self.old }
    {
        let channel = channel_of(slot);
        self.wanted |= channel;
        if let Some(lane) = self.lanes.get(self.lane.load(SeqCst)) {
            lane.hear(channel);
        }
    }

    fn changed(&mut self, slot: u32)
        ensures still { self.new ≡ self.old }
    {
        self.lanes.ring(channel_of(slot), self.lane.load(SeqCst));
    }

    fn finish(self) -> TcpRecord {
        let mut link = self;
        link.flushes();
        let TcpLink {
            rt: _,
            stream: _,
            lanes: _,
            lane: _,
            pace: _,
            outbox: _,
            readable: _,
            closing: _,
            rung: _,
            quiet: _,
            wanted: _,
            broken: _,
            counts,
        } = link;
        counts
    }
}
