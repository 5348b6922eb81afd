// Nets: where doors come from.
ghost use Rattle.std.specs.Prelude.{◌≡◌, length, true, IfOk, IfErr};
ghost use Rattle.std.specs.List.{All};
ghost use Rattle.reql_net.specs.Nets.{NetTold, IsUntouched, IsSound, asks, Counts};

use crate::door::Door;
use reql_memory::Memory;
use reql_outside::{Clock, Dice};
use std::alloc::Global;

/// What one worker serves its clients with.
#[derive(Drop)]
pub struct Post<R, D, T> {
    pub door: R,
    pub dice: D,
    pub clock: T,
}

/// Why a net gave no posts.
#[derive(Clone, Copy, Debug, PartialEq, Eq)]
pub enum NetFault {
    /// An error came, as where the port is in use, and `faults` rose by one, as with no other answer.
    Failed,
    Memory,
}

/// Where a server's doors come from.
///
/// A count that stands at 2^64 - 1 counts as risen: it stays there.
pub trait Net {
    type Door: Door;

    type Dice: Dice;

    type Clock: Clock;

    /// What the net tells of itself: how often it was asked, the port and the number of the last time,
    /// how many posts it gave then, how often it failed, and whether it is sound. The dice and clocks of
    /// a sound net never answer Failed, and a net is sound from its making on, or never.
    ghost told: { Self → NetTold };

    /// So many posts for a port, one a worker, whose doors share it and have given nothing yet.
    fn doors(
        &mut self,
        alloc: Global,
        port: u16,
        n: u32,
    ) -> Result<Vec<Post<Self::Door, Self::Dice, Self::Clock>>, NetFault>
        ensures count { IfOk result (λ posts. length posts.items ≡ n) }
        ensures untouched { IfOk result (λ posts. All (IsUntouched Self.Door.told) posts.items) }
        ensures sound { IfOk result (λ posts. (told self.old).sound ≡ true → All (IsSound Self.Dice.told Self.Clock.told) posts.items) }
        ensures asked { IfOk result (λ posts. told self.new ≡ asks (told self.old) port n n 0) }
        ensures failed { IfErr result (Counts (told self.old) (told self.new) port n) };
}
