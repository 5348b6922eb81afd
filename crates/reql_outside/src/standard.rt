ghost use Rattle.std.specs.Prelude.{◌≡◌, ◌<◌, length, None};
ghost use Rattle.reql_outside.specs.Tape.{IsFresh, Receives, RecvFits, SendFits, Sends};

use crate::stream::{read_some, write_on};
use crate::{Link, Recv, Sending};
use std::marker::Model;

/// The counts of a link over standard input and output.
#[derive(Clone, Copy, Debug, PartialEq, Eq)]
pub struct StdRecord {
    /// How often reading failed.
    pub faults_in: u64,
    /// How often writing failed.
    pub faults_out: u64,
    /// Whether the input ended.
    pub over: bool,
}

/// A link over standard input and output. It is never idle, holds back nothing that it was sent,
/// and tells no bytes.
///
/// A `recv` is one read. A `send` writes the whole piece, or fails; then a front of the piece may
/// have gone out.
#[derive(Drop)]
pub struct StdLink {
    rt: HostRuntime,
    counts: StdRecord,
}

impl Model for StdLink {
    ghost use Rattle.reql_outside.specs.Tape.{Tape};
    ghost use Rattle.reql_outside.specs.Standard.{tape_of};

    ghost Value = { Tape };

    ghost view = { λ s. tape_of s.counts };
}

impl StdLink {
    /// The link of this process.
    pub fn new(rt: HostRuntime) -> StdLink
        ensures fresh { IsFresh result }
        ensures untold { (result.given ≡ None) × (result.sent ≡ None) }
    {
        StdLink {
            rt,
            counts: StdRecord {
                faults_in: 0,
                faults_out: 0,
                over: false,
            },
        }
    }
}

impl Link for StdLink {
    ghost use Rattle.reql_outside.specs.Standard.{IsAwake, SendsOut, tape_of};

    type Record = StdRecord;

    ghost tape = { λ s. s };

    ghost kept = { tape_of };

    fn recv(&mut self, buf: &mut [u8]) -> Recv
        requires { 0 < length buf.old }
        ensures fits { RecvFits result (length buf.old) }
        ensures told { Receives self.old self.new buf.new result }
        ensures awake { IsAwake self.old result }
    {
        if self.counts.over {
            return Recv::End;
        }
        match read_some(&mut self.rt.stdin(), buf) {
            Some(0) => {
                self.counts.over = true;
                Recv::End
            }
            Some(n) => Recv::Got(n),
            None => {
                self.counts.faults_in = self.counts.faults_in.saturating_add(1);
                Recv::Failed
            }
        }
    }

    fn send(&mut self, piece: &[u8]) -> Sending
        requires { 0 < length piece.now }
        ensures fits { SendFits result (length piece.now) }
        ensures told { Sends self.old self.new piece.now result }
        ensures whole { SendsOut (length piece.now) result }
    {
        let written = write_on(&mut self.rt.stdout(), piece);
        if written < piece.len() {
            self.counts.faults_out = self.counts.faults_out.saturating_add(1);
            return Sending::Failed;
        }
        Sending::Sent(written)
    }

    fn finish(self) -> StdRecord {
        let StdLink { rt: _, counts } = self;
        counts
    }
}
