// Clocks: the time at which a request came.
ghost use Rattle.std.specs.Prelude.{◌≡◌, ℤ, false, pos};
ghost use Rattle.reql_outside.specs.Source.{Source, IsFresh, opening};
ghost use Rattle.reql_outside.specs.Hours.{Tells, TellsOn};

use crate::plays::Plays;
use std::marker::Model;
use std::time::SystemTime;

/// What a clock answers.
#[derive(Clone, Copy, Debug, PartialEq, Eq)]
pub enum Told {
    /// The seconds since the beginning of 1970, in UTC.
    At(i64),
    /// No time was to be had, and `faults` rose by one, as with no other answer. The clock isn't sound.
    Failed,
}

/// A clock that tells whole seconds.
///
/// A count of faults that stands at 2^64 - 1 counts as risen: it stays there. So does the list of what was given, where
/// that is told, once it has so many.
pub trait Clock {
    /// What the clock tells of itself: what it gave, where it tells it, how often it failed, and whether it is sound. A
    /// sound clock never answers Failed, and a clock is sound from its making on, or never.
    ghost told: { Self → Source ℤ };

    /// Tells the time.
    fn seconds(&mut self) -> Told
        ensures { Tells (told self.old) (told self.new) result };
}

/// A clock in memory, which plays a list in order, and the beginning of 1970 for good past its end.
#[derive(Drop)]
pub struct MemClock {
    plays: Plays<i64>,
}

impl Model for MemClock {
    ghost use Rattle.std.specs.Prelude.{ℤ};
    ghost use Rattle.reql_outside.specs.Source.{Played};

    ghost Value = { Played ℤ };

    ghost view = { λ c. c.plays };
}

impl MemClock {
    /// A clock that tells these in order; the k-th call, from 0, fails where k is in `fails`. It is sound
    /// where that is empty. It takes no memory.
    pub fn new(moments: Vec<i64>, fails: Vec<u64>) -> MemClock
        ensures { result ≡ opening moments.items (pos 0) fails.items }
    {
        MemClock {
            plays: Plays::new(moments, 0, fails),
        }
    }
}

impl Clock for MemClock {
    ghost use Rattle.reql_outside.specs.Source.{source};

    ghost told = { source };

    fn seconds(&mut self) -> Told
        ensures told { Tells (source self.old) (source self.new) result }
        ensures plays { TellsOn self.old self.new result }
    {
        match self.plays.next() {
            Some(seconds) => Told::At(seconds),
            None => Told::Failed,
        }
    }
}

/// The clock of the system, which tells nothing of what it gave, and isn't sound.
#[derive(Drop)]
pub struct OsClock {
    rt: HostRuntime,
    faults: u64,
}

impl Model for OsClock {
    ghost use Rattle.std.specs.Prelude.{ℤ, false, None};
    ghost use Rattle.reql_outside.specs.Source.{Source};

    ghost Value = { Source ℤ };

    ghost view = { λ c. record { gave = None; faults = c.faults; sound = false } };
}

// The seconds since the beginning of 1970, where the clock stands behind it and they can be counted.
fn seconds_now(rt: &HostRuntime) -> Option<i64> {
    let now = SystemTime::now(rt).ok()?;
    let since = now.duration_since(SystemTime::UNIX_EPOCH).ok()?;
    i64::try_from(since.as_secs()).ok()
}

impl OsClock {
    /// The clock of this machine.
    pub fn new(rt: HostRuntime) -> OsClock
        ensures fresh { IsFresh result }
        ensures unsound { result.sound ≡ false }
    {
        OsClock { rt, faults: 0 }
    }
}

impl Clock for OsClock {
    ghost told = { λ c. c };

    fn seconds(&mut self) -> Told {
        match seconds_now(&self.rt) {
            Some(seconds) => Told::At(seconds),
            None => {
                self.faults = self.faults.saturating_add(1);
                Told::Failed
            }
        }
    }
}
