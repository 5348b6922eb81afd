// Dice: random bytes for keys that are made.
ghost use Rattle.std.specs.Prelude.{◌≡◌, ℕ, List, false};
ghost use Rattle.reql_outside.specs.Source.{Source, IsFresh, opening};
ghost use Rattle.reql_outside.specs.Chance.{Rolls, RollsOn, zeros};

use crate::plays::Plays;
use std::marker::Model;
use std::random::RandomSource;

/// What one roll answers.
#[derive(Clone, Copy, Debug, PartialEq, Eq)]
pub enum Rolled {
    Bytes([u8; 16]),
    /// No bytes were to be had, and `faults` rose by one, as with no other answer. The dice aren't sound.
    Failed,
}

/// Dice that give sixteen bytes a roll.
///
/// A count of faults that stands at 2^64 - 1 counts as risen: it stays there. So does the list of what was given, where
/// that is told, once it has so many.
pub trait Dice {
    /// What the dice tell of themselves: what they gave, where they tell it, how often they failed, and whether they are
    /// sound. Sound dice never answer Failed, and dice are sound from their making on, or never.
    ghost told: { Self → Source (List ℕ) };

    /// Rolls once.
    fn roll(&mut self) -> Rolled
        ensures { Rolls (told self.old) (told self.new) result };
}

/// Dice in memory, which play a list in order, and zeros for good past its end.
#[derive(Drop)]
pub struct MemDice {
    plays: Plays<[u8; 16]>,
}

impl Model for MemDice {
    ghost use Rattle.std.specs.Prelude.{ℕ, List};
    ghost use Rattle.reql_outside.specs.Source.{Played};

    ghost Value = { Played (List ℕ) };

    ghost view = { λ d. d.plays };
}

impl MemDice {
    /// Dice that give these in order; the k-th roll, from 0, fails where k is in `fails`. They are sound
    /// where that is empty. They take no memory.
    pub fn new(rolls: Vec<[u8; 16]>, fails: Vec<u64>) -> MemDice
        ensures { result ≡ opening rolls.items zeros fails.items }
    {
        MemDice {
            plays: Plays::new(rolls, [0; 16], fails),
        }
    }
}

impl Dice for MemDice {
    ghost use Rattle.reql_outside.specs.Source.{source};

    ghost told = { source };

    fn roll(&mut self) -> Rolled
        ensures told { Rolls (source self.old) (source self.new) result }
        ensures plays { RollsOn self.old self.new result }
    {
        match self.plays.next() {
            Some(bytes) => Rolled::Bytes(bytes),
            None => Rolled::Failed,
        }
    }
}

/// The dice of the system, which tell nothing of what they gave, and aren't sound.
#[derive(Drop)]
pub struct OsDice {
    rt: HostRuntime,
    faults: u64,
}

impl Model for OsDice {
    ghost use Rattle.std.specs.Prelude.{ℕ, List, false, None};
    ghost use Rattle.reql_outside.specs.Source.{Source};

    ghost Value = { Source (List ℕ) };

    ghost view = { λ d. record { gave = None; faults = d.faults; sound = false } };
}

impl OsDice {
    /// The dice of this machine.
    pub fn new(rt: HostRuntime) -> OsDice
        ensures fresh { IsFresh result }
        ensures unsound { result.sound ≡ false }
    {
        OsDice { rt, faults: 0 }
    }
}

impl Dice for OsDice {
    ghost told = { λ d. d };

    fn roll(&mut self) -> Rolled {
        let mut bytes = [0; 16];
        match self.rt.fill_bytes(&mut bytes) {
            Ok(()) => Rolled::Bytes(bytes),
            Err(_) => {
                self.faults = self.faults.saturating_add(1);
                Rolled::Failed
            }
        }
    }
}
