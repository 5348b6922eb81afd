// The counts of a net.
ghost use Rattle.std.specs.Prelude.{◌≡◌, Some, None};
ghost use Rattle.reql_outside.specs.Tape.{counted};

use std::marker::Model;

/// How often a net was asked, for what the last time, how many posts it gave then, and how often it failed.
#[derive(Drop)]
pub(crate) struct Asked {
    asked: u64,
    last: Option<(u16, u32)>,
    gave: u32,
    faults: u64,
}

impl Model for Asked {
    ghost use Rattle.reql_net.specs.Nets.{Asking};

    ghost Value = { Asking };

    ghost view = { λ a. record { asked = a.asked; last = a.last; gave = a.gave; faults = a.faults } };
}

impl Asked {
    /// Of a net that was never asked.
    pub(crate) fn new() -> Asked
        ensures { result ≡ record { asked = 0; last = None; gave = 0; faults = 0 } }
    {
        Asked {
            asked: 0,
            last: None,
            gave: 0,
            faults: 0,
        }
    }

    /// The net is asked once more, and has given nothing yet.
    pub(crate) fn ask(&mut self, port: u16, n: u32)
        ensures { self.new ≡ record self.old { asked = counted self.old.asked 1; last = Some (port, n); gave = 0 } }
    {
        self.asked = self.asked.saturating_add(1);
        self.last = Some((port, n));
        self.gave = 0;
    }

    /// It gave so many posts.
    pub(crate) fn give(&mut self, n: u32)
        ensures { self.new ≡ record self.old { gave = n } }
    {
        self.gave = n;
    }

    /// That failed.
    pub(crate) fn fail(&mut self)
        ensures { self.new ≡ record self.old { faults = counted self.old.faults 1 } }
    {
        self.faults = self.faults.saturating_add(1);
    }
}
