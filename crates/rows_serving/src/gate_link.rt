// Links to clients that wait for one another.
ghost use Rattle.std.specs.Prelude.{◌≡◌, ◌<◌, ◌≤◌, length, false, None};
ghost use Rattle.reql_outside.specs.Tape.{IsFresh, Receives, RecvFits, SendFits, Sends};

use reql_outside::{Link, Recv, Sending};
use std::alloc::Global;
use std::sync::Arc;
use std::sync::atomic::AtomicU64;
use std::sync::atomic::Ordering::SeqCst;

// How often a link is idle before it fails.
const MOST_IDLES: u64 = 10_000_000;

/// What a client says, and what it is to be answered.
#[derive(Drop)]
pub struct Part {
    /// What it says at once.
    pub first: Vec<u8>,
    /// What it says when all clients have met. It is idle until then.
    pub then: Vec<u8>,
    /// All that it is to be sent. It is idle until so many bytes came, and ends then.
    pub answers: Vec<u8>,
    /// How many bytes it is sent before it meets the others, at its next receive.
    pub meets_at: usize,
    pub has_met: bool,
    /// How many clients there are, and how many of them have met.
    pub clients: u64,
    pub met: Arc<AtomicU64, Global>,
}

// Gives the front of a piece that the buffer has room for, and lets the piece go.
fn give(piece: &mut Vec<u8>, buf: &mut [u8]) -> Recv
    requires piece { 0 < length piece.old.items }
    requires buf { 0 < length buf.old }
    ensures fits { RecvFits result (length buf.old) }
{
    let n = piece.len().min(buf.len());
    buf[..n].copy_from_slice(&piece[..n]);
    piece.clear();
    Recv::Got(n)
}

impl Part {
    // Where the client was sent enough, it meets the others. Whether all have met.
    fn meet(&mut self, sent: usize) -> bool {
        if !self.has_met && sent >= self.meets_at {
            self.has_met = true;
            self.met.fetch_add(1, SeqCst);
        }
        self.met.load(SeqCst) >= self.clients
    }

    // What a receive answers, where so many bytes were sent, and the link was idle so often.
    fn next(&mut self, sent: usize, idles: u64, buf: &mut [u8]) -> Recv
        requires { 0 < length buf.old }
        ensures fits { RecvFits result (length buf.old) }
    {
        let all_met = self.meet(sent);
        if !self.first.is_empty() {
            return give(&mut self.first, buf);
        }
        if all_met && !self.then.is_empty() {
            return give(&mut self.then, buf);
        }
        if all_met && sent >= self.answers.len() {
            return Recv::End;
        }
        if idles < MOST_IDLES {
            return Recv::Idle;
        }
        Recv::Failed
    }
}

/// What a link leaves: its counts, and whether just the answers of its part were sent.
#[derive(Clone, Copy)]
pub struct GateRecord {
    pub answered: bool,
    pub idles: u64,
    pub over: bool,
    pub faults_in: u64,
    pub faults_out: u64,
}

/// A link to a client that plays its part. It tells no bytes.
#[derive(Drop)]
pub struct GateLink {
    part: Part,
    sent: Vec<u8>,
    counts: GateRecord,
}

impl GateLink {
    /// A link to a client that was not heard yet.
    pub fn new(alloc: Global, part: Part) -> GateLink
        ensures idles { result.counts.idles ≡ 0 }
        ensures over { result.counts.over ≡ false }
        ensures faults { (result.counts.faults_in ≡ 0) × (result.counts.faults_out ≡ 0) }
    {
        GateLink {
            part,
            sent: Vec::new(alloc),
            counts: GateRecord {
                answered: false,
                idles: 0,
                over: false,
                faults_in: 0,
                faults_out: 0,
            },
        }
    }
}

impl Link for GateLink {
    type Record = GateRecord;

    ghost tape = { λ l. record {
      given = None;
      sent = None;
      idles = l.counts.idles;
      over = l.counts.over;
      faults_in = l.counts.faults_in;
      faults_out = l.counts.faults_out;
    } };

    ghost kept = { λ r. record {
      given = None;
      sent = None;
      idles = r.idles;
      over = r.over;
      faults_in = r.faults_in;
      faults_out = r.faults_out;
    } };

    fn recv(&mut self, buf: &mut [u8]) -> Recv {
        match self.part.next(self.sent.len(), self.counts.idles, buf) {
            Recv::Got(n) => Recv::Got(n),
            Recv::Idle => {
                self.counts.idles = self.counts.idles.saturating_add(1);
                Recv::Idle
            }
            Recv::End => {
                self.counts.over = true;
                Recv::End
            }
            Recv::Failed => {
                self.counts.faults_in = self.counts.faults_in.saturating_add(1);
                Recv::Failed
            }
        }
    }

    fn send(&mut self, piece: &[u8]) -> Sending {
        if self.sent.extend_from_slice(piece).is_err() {
            self.counts.faults_out = self.counts.faults_out.saturating_add(1);
            return Sending::Failed;
        }
        Sending::Sent(piece.len())
    }

    fn finish(self) -> GateRecord {
        let GateLink {
            part,
            sent,
            mut counts,
        } = self;
        counts.answered = sent.as_slice() == part.answers.as_slice();
        counts
    }
}
