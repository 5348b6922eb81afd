ghost use Rattle.std.specs.Prelude.{◌≡◌, ◌≤◌, ◌∷◌, [], length, drop};
ghost use Rattle.reql_outside.specs.Script.{Turns};

use std::alloc::Global;
use std::marker::Model;

/// A step of the script that a link in memory plays.
#[derive(Debug, Drop)]
pub enum LinkStep {
    /// These bytes come, in as many pieces as the buffers ask for.
    Give(Vec<u8>),
    /// One `recv` is idle.
    Idle,
    /// One `recv` fails.
    Fail,
}

/// What comes next of a script. `Idle` and `Fail` are over once they are answered.
#[derive(Clone, Copy)]
pub(crate) enum Turn {
    Piece,
    Idle,
    Fail,
    End,
}

/// A script that is being played: the bytes at its front that were loaded, and what comes later.
#[derive(Drop)]
pub(crate) struct Script {
    // the steps to come, the last one first
    steps: Vec<LinkStep>,
    loaded: Vec<u8>,
    start: usize,
}

impl Model for Script {
    ghost use Rattle.std.specs.Prelude.{drop, ◌≤◌, length, reverse};
    ghost use Rattle.reql_outside.specs.Plays.{Scripted, plays_of};

    ghost Value = { Scripted };

    ghost view = { λ s. record {
      piece = drop s.start s.loaded.items;
      later = plays_of (reverse s.steps.items);
    } };

    ghost invariant = { λ s. s.start ≤ length s.loaded.items };
}

impl Script {
    ghost use Rattle.reql_outside.specs.Plays.{plays_of};

    /// The script of these steps, in order. It takes no memory.
    pub(crate) fn new(alloc: Global, mut steps: Vec<LinkStep>) -> Script
        ensures { result ≡ record { piece = []; later = plays_of steps.items } }
    {
        steps.reverse();
        Script {
            steps,
            loaded: Vec::new(alloc),
            start: 0,
        }
    }

    /// Loads the next bytes, where bytes come next.
    pub(crate) fn load(&mut self) -> Turn
        ensures { Turns self.old self.new result }
    {
        while self.start == self.loaded.len() {
            match self.steps.pop() {
                Some(LinkStep::Give(bytes)) => {
                    self.loaded = bytes;
                    self.start = 0;
                }
                Some(LinkStep::Idle) => return Turn::Idle,
                Some(LinkStep::Fail) => return Turn::Fail,
                None => return Turn::End,
            }
        }
        Turn::Piece
    }

    /// The loaded bytes.
    pub(crate) fn piece(&self) -> &[u8]
        ensures { result.now ≡ self.now.piece }
    {
        &self.loaded[self.start..]
    }

    /// Passes over the first n loaded bytes.
    pub(crate) fn skip(&mut self, n: usize)
        requires { n ≤ length self.old.piece }
        ensures { self.new ≡ record { piece = drop n self.old.piece; later = self.old.later } }
    {
        self.start += n;
    }
}
