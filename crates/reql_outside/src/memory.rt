ghost use Rattle.std.specs.Prelude.{◌≡◌, ◌<◌, ◌≤◌, ◌+◌, ◌++◌, [], length, take, min, Some, false, IfOk, OnErr};
ghost use Rattle.reql_outside.specs.Tape.{IsFresh, RecvFits, Receives, SendFits, Sends};
ghost use Rattle.reql_outside.specs.Memory.{PlaysOn, Answers};

use crate::script::{Script, Turn};
use crate::{Link, LinkStep, Recv, Sending};
use std::alloc::{AllocError, Global};
use std::marker::Model;

/// What a link in memory gave and was sent, and its counts.
#[derive(Debug, Drop)]
pub struct MemRecord {
    /// The bytes that it gave.
    pub given: Vec<u8>,
    /// The bytes that it was sent.
    pub sent: Vec<u8>,
    /// How often a `recv` failed.
    pub faults_in: u64,
    /// How often a `send` failed.
    pub faults_out: u64,
    /// How often a `recv` was idle.
    pub idles: u64,
    /// Whether a `recv` has answered `End`.
    pub over: bool,
}

/// A link in memory, which plays a script and keeps what it gave and was sent.
///
/// After the script comes `End`, for good. A call that finds no memory for what it keeps fails.
#[derive(Drop)]
pub struct MemLink {
    script: Script,
    send_fails: Vec<u64>,
    calls: u64,
    most: usize,
    told: MemRecord,
}

impl Model for MemLink {
    ghost use Rattle.std.specs.Prelude.{◌<◌};
    ghost use Rattle.reql_outside.specs.Played.{Played, tape_of};
    ghost use Rattle.reql_outside.specs.Plays.{left_of};

    ghost Value = { Played };

    ghost view = { λ m. record {
      tape = tape_of m.told;
      left = left_of m.script;
      calls = m.calls;
      send_fails = m.send_fails.items;
      most = m.most;
    } };

    ghost invariant = { λ m. 0 < m.most };
}

impl MemLink {
    ghost use Rattle.reql_outside.specs.Played.{opening};

    /// A link that plays the steps in order, and whose k-th send, from 0, fails where k is in the
    /// list. It takes no memory.
    pub fn new(alloc: Global, script: Vec<LinkStep>, send_fails: Vec<u64>) -> MemLink
        ensures fresh { IsFresh result.tape }
        ensures opens { result ≡ opening script.items send_fails.items usize.MAX }
    {
        MemLink::taking(alloc, script, send_fails, usize::MAX)
    }

    /// The same, where a send takes at most `most` bytes. It takes no memory.
    pub fn slow(alloc: Global, script: Vec<LinkStep>, send_fails: Vec<u64>, most: u32) -> MemLink
        requires { 1 ≤ most }
        ensures fresh { IsFresh result.tape }
        ensures opens { result ≡ opening script.items send_fails.items most }
    {
        MemLink::taking(alloc, script, send_fails, most as usize)
    }

    fn taking(alloc: Global, script: Vec<LinkStep>, send_fails: Vec<u64>, most: usize) -> MemLink
        requires { 1 ≤ most }
        ensures fresh { IsFresh result.tape }
        ensures opens { result ≡ opening script.items send_fails.items most }
    {
        MemLink {
            script: Script::new(alloc, script),
            send_fails,
            calls: 0,
            most,
            told: MemRecord {
                given: Vec::new(alloc),
                sent: Vec::new(alloc),
                faults_in: 0,
                faults_out: 0,
                idles: 0,
                over: false,
            },
        }
    }
}

// Copies the front of a piece into the buffer, and keeps what it gave.
fn give(given: &mut Vec<u8>, piece: &[u8], buf: &mut [u8]) -> Result<usize, AllocError>
    requires piece { 0 < length piece.now }
    requires buf { 0 < length buf.old }
    ensures count { IfOk result (λ n. n ≡ min (length piece.now) (length buf.old)) }
    ensures given { IfOk result (λ n. take n buf.new ≡ take n piece.now) }
    ensures kept { IfOk result (λ n. given.new.items ≡ given.old.items ++ take n buf.new) }
    ensures err { OnErr result (given.new.items ≡ given.old.items) }
{
    let n = piece.len().min(buf.len());
    let front = &piece[..n];
    given.extend_from_slice(front)?;
    buf[..n].copy_from_slice(front);
    Ok(n)
}

impl Link for MemLink {
    ghost use Rattle.reql_outside.specs.Played.{tape_of};

    type Record = MemRecord;

    ghost tape = { λ m. m.tape };

    ghost kept = { tape_of };

    #[tactic(auto, using(crate::proofs::Moving::still))]
    fn recv(&mut self, buf: &mut [u8]) -> Recv
        requires { 0 < length buf.old }
        ensures fits { RecvFits result (length buf.old) }
        ensures told { Receives self.old.tape self.new.tape buf.new result }
        ensures plays { PlaysOn self.old self.new buf.new result }
    {
        match self.script.load() {
            Turn::Piece => match give(&mut self.told.given, self.script.piece(), buf) {
                Ok(n) => {
                    self.script.skip(n);
                    Recv::Got(n)
                }
                Err(_) => {
                    self.told.faults_in = self.told.faults_in.saturating_add(1);
                    Recv::Failed
                }
            },
            Turn::Idle => {
                self.told.idles = self.told.idles.saturating_add(1);
                Recv::Idle
            }
            Turn::Fail => {
                self.told.faults_in = self.told.faults_in.saturating_add(1);
                Recv::Failed
            }
            Turn::End => {
                self.told.over = true;
                Recv::End
            }
        }
    }

    #[tactic(auto, using(crate::proofs::Moving::still))]
    fn send(&mut self, piece: &[u8]) -> Sending
        requires { 0 < length piece.now }
        ensures fits { SendFits result (length piece.now) }
        ensures told { Sends self.old.tape self.new.tape piece.now result }
        ensures answers { Answers self.old self.new piece.now result }
    {
        let fails = self.send_fails.contains(&self.calls);
        self.calls = self.calls.saturating_add(1);
        let n = piece.len().min(self.most);
        if fails || self.told.sent.extend_from_slice(&piece[..n]).is_err() {
            self.told.faults_out = self.told.faults_out.saturating_add(1);
            return Sending::Failed;
        }
        Sending::Sent(n)
    }

    fn finish(self) -> MemRecord {
        let MemLink {
            script: _,
            send_fails: _,
            calls: _,
            most: _,
            told,
        } = self;
        told
    }
}
