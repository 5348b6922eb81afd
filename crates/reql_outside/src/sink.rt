// Sinks: what takes the lines that a program prints.
ghost use Rattle.std.specs.Prelude.{◌≡◌};
ghost use Rattle.reql_outside.specs.Written.{Written, IsFresh, Puts, Keeps, opening};

use crate::stream::write_on;
use std::alloc::Global;
use std::marker::Model;

/// What one `put` answers.
#[derive(Clone, Copy, Debug, PartialEq, Eq)]
pub enum Put {
    /// The whole piece was taken.
    Done,
    /// An error came, and `faults` rose by one, as with no other answer. A front of the piece may
    /// have been taken.
    Failed,
}

/// A sink, which takes bytes piece by piece.
///
/// A count of faults that stands at 2^64 - 1 counts as risen: it stays there.
pub trait Sink {
    /// What the sink tells of itself: the bytes that it took, where it tells them, and how often it failed.
    ghost told: { Self → Written };

    /// Takes a piece.
    fn put(&mut self, piece: &[u8]) -> Put
        ensures { Puts (told self.old) (told self.new) piece.now result };
}

/// A sink in memory, which keeps what it takes. A call that finds no memory for that fails.
#[derive(Drop)]
pub struct MemSink {
    took: Vec<u8>,
    calls: u64,
    fails: Vec<u64>,
    faults: u64,
}

impl Model for MemSink {
    ghost use Rattle.reql_outside.specs.Written.{Kept};

    ghost Value = { Kept };

    ghost view = { λ s. record {
      took = s.took.items;
      calls = s.calls;
      fails = s.fails.items;
      faults = s.faults;
    } };
}

impl MemSink {
    /// An empty sink, whose k-th call, from 0, fails where k is in the list. It takes no memory.
    pub fn new(alloc: Global, fails: Vec<u64>) -> MemSink
        ensures { result ≡ opening fails.items }
    {
        MemSink {
            took: Vec::new(alloc),
            calls: 0,
            fails,
            faults: 0,
        }
    }

    /// What it took so far.
    pub fn written(&self) -> &[u8]
        ensures { result.now ≡ self.now.took }
    {
        self.took.as_slice()
    }
}

impl Sink for MemSink {
    ghost use Rattle.reql_outside.specs.Written.{written};

    ghost told = { written };

    fn put(&mut self, piece: &[u8]) -> Put
        ensures told { Puts (written self.old) (written self.new) piece.now result }
        ensures keeps { Keeps self.old self.new piece.now result }
    {
        let fails = self.fails.contains(&self.calls);
        self.calls = self.calls.saturating_add(1);
        if fails || self.took.extend_from_slice(piece).is_err() {
            self.faults = self.faults.saturating_add(1);
            return Put::Failed;
        }
        Put::Done
    }
}

/// The standard output, which tells nothing of what it took.
#[derive(Drop)]
pub struct StdSink {
    rt: HostRuntime,
    faults: u64,
}

impl Model for StdSink {
    ghost use Rattle.std.specs.Prelude.{None};
    ghost use Rattle.reql_outside.specs.Written.{Written};

    ghost Value = { Written };

    ghost view = { λ s. record { wrote = None; faults = s.faults } };
}

impl StdSink {
    /// The standard output of this process.
    pub fn new(rt: HostRuntime) -> StdSink
        ensures { IsFresh result }
    {
        StdSink { rt, faults: 0 }
    }
}

impl Sink for StdSink {
    ghost told = { λ s. s };

    fn put(&mut self, piece: &[u8]) -> Put {
        if write_on(&mut self.rt.stdout(), piece) < piece.len() {
            self.faults = self.faults.saturating_add(1);
            return Put::Failed;
        }
        Put::Done
    }
}
