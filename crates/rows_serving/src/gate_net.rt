// A net whose clients wait for one another, a client a door.
ghost use Rattle.std.specs.Prelude.{◌≡◌, length, false, IfOk};
ghost use Rattle.std.specs.List.{All};
ghost use Rattle.reql_net.specs.Nets.{IsUntouched};

use crate::gate_link::{GateLink, Part};
use reql_memory::Memory;
use reql_net::{Accept, Door, Net, NetFault, Post, Rounds};
use reql_outside::{MemClock, MemDice};
use std::alloc::Global;

/// A door that gives one link, where it has one, and then End.
#[derive(Drop)]
pub struct GateDoor {
    alloc: Global,
    part: Option<Part>,
    gave: u64,
    over: bool,
}

impl Door for GateDoor {
    type Link = GateLink;

    type Watch = Rounds;

    ghost told = { λ d. record { gave = d.gave; over = d.over; broken = false; faults = 0 } };

    fn watch(&self, _alloc: Global, _places: usize) -> Option<Rounds> {
        Some(Rounds::new())
    }

    fn accept(&mut self) -> Accept<GateLink> {
        let Some(part) = self.part.take() else {
            self.over = true;
            return Accept::End;
        };
        self.gave = self.gave.saturating_add(1);
        Accept::Link(GateLink::new(self.alloc, part))
    }
}

/// A net that hands out the parts of its clients from the last on, and then doors without a link. It
/// isn't sound.
#[derive(Drop)]
pub struct GateNet {
    parts: Vec<Part>,
    asked: u64,
    last: Option<(u16, u32)>,
    gave: u32,
}

impl GateNet {
    /// A net with these clients.
    pub fn new(parts: Vec<Part>) -> GateNet {
        GateNet {
            parts,
            asked: 0,
            last: None,
            gave: 0,
        }
    }
}

// A post with this client.
fn post(alloc: Global, part: Option<Part>) -> Post<GateDoor, MemDice, MemClock>
    ensures { IsUntouched (λ d. record { gave = d.gave; over = d.over; broken = false; faults = 0 }) result }
{
    Post {
        door: GateDoor {
            alloc,
            part,
            gave: 0,
            over: false,
        },
        dice: MemDice::new(Vec::new(alloc), Vec::new(alloc)),
        clock: MemClock::new(Vec::new(alloc), Vec::new(alloc)),
    }
}

// So many posts, with the last of these clients.
fn posts(
    alloc: Global,
    parts: &mut Vec<Part>,
    n: u32,
) -> Result<Vec<Post<GateDoor, MemDice, MemClock>>, Memory>
    ensures count { IfOk result (λ given. length given.items ≡ n) }
    ensures untouched { IfOk result (λ given. All (IsUntouched (λ d. record { gave = d.gave; over = d.over; broken = false; faults = 0 })) given.items) }
{
    let mut given = Vec::with_capacity(alloc, n as usize)?;
    for _ in 0..n {
        let next = post(alloc, parts.pop());
        given.push_reserved(next);
    }
    Ok(given)
}

impl Net for GateNet {
    type Door = GateDoor;

    type Dice = MemDice;

    type Clock = MemClock;

    ghost told = { λ n. record { asked = n.asked; last = n.last; gave = n.gave; faults = 0; sound = false } };

    fn doors(
        &mut self,
        alloc: Global,
        port: u16,
        n: u32,
    ) -> Result<Vec<Post<GateDoor, MemDice, MemClock>>, NetFault> {
        self.asked = self.asked.saturating_add(1);
        self.last = Some((port, n));
        self.gave = 0;
        match posts(alloc, &mut self.parts, n) {
            Ok(given) => {
                self.gave = n;
                Ok(given)
            }
            Err(Memory) => Err(NetFault::Memory),
        }
    }
}
