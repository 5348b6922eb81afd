// A link to a server over TCP.
ghost use Rattle.std.specs.Prelude.{◌≡◌, ◌<◌, length, IfOk};
ghost use Rattle.reql_outside.specs.Tape.{IsFresh, Receives, RecvFits, SendFits, Sends};

use crate::stream::{read_some, write_some};
use reql_outside::{Link, Recv, Sending};
use std::alloc::Global;
use std::io;
use std::marker::Model;
use std::net::TcpStream;

/// The counts of a link to a server.
#[derive(Clone, Copy, Debug, PartialEq, Eq)]
pub struct DialedRecord {
    /// How often a `recv` failed.
    pub faults_in: u64,
    /// How often a `send` failed.
    pub faults_out: u64,
    /// Whether the input ended.
    pub over: bool,
}

/// A link to a server over a TCP socket. It tells no bytes, and is never idle.
///
/// A `recv` waits until some byte comes, the input ends or the socket breaks. A `send` to a server that is gone fails, and raises
/// no signal.
#[derive(Drop)]
pub struct DialedLink {
    stream: TcpStream,
    counts: DialedRecord,
}

impl Model for DialedLink {
    ghost use Rattle.reql_outside.specs.Tape.{Tape};
    ghost use Rattle.reql_dial.specs.Dialed.{tape_of};

    ghost Value = { Tape };

    ghost view = { λ l. tape_of l.counts };
}

/// Connects to a port of 127.0.0.1.
pub fn dial(rt: &HostRuntime, port: u16) -> io::Result<DialedLink>
    ensures fresh { IfOk result (λ l. IsFresh l) }
{
    let alloc: Global = rt.alloc();
    let address = format!(in alloc; "127.0.0.1:{port}")?;
    let stream = TcpStream::connect(rt, address.as_str())?;
    stream.set_nodelay(true)?;
    Ok(DialedLink {
        stream,
        counts: DialedRecord {
            faults_in: 0,
            faults_out: 0,
            over: false,
        },
    })
}

impl Link for DialedLink {
    ghost use Rattle.reql_dial.specs.Dialed.{IsAwake, tape_of};

    type Record = DialedRecord;

    ghost tape = { λ l. l };

    ghost kept = { tape_of };

    fn recv(&mut self, buf: &mut [u8]) -> Recv
        requires { 0 < length buf.old }
        ensures fits { RecvFits result (length buf.old) }
        ensures told { Receives self.old self.new buf.new result }
        ensures awake { IsAwake self.old result }
    {
        if self.counts.over {
            return Recv::End;
        }
        match read_some(&mut self.stream, buf) {
            Some(0) => {
                self.counts.over = true;
                Recv::End
            }
            Some(n) => Recv::Got(n),
            None => {
                self.counts.faults_in = self.counts.faults_in.saturating_add(1);
                Recv::Failed
            }
        }
    }

    fn send(&mut self, piece: &[u8]) -> Sending
        requires { 0 < length piece.now }
        ensures fits { SendFits result (length piece.now) }
        ensures told { Sends self.old self.new piece.now result }
    {
        let taken = write_some(&mut self.stream, piece);
        if taken == 0 {
            self.counts.faults_out = self.counts.faults_out.saturating_add(1);
            return Sending::Failed;
        }
        Sending::Sent(taken)
    }

    fn finish(self) -> DialedRecord {
        let DialedLink { stream: _, counts } = self;
        counts
    }
}
