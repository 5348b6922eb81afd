// Doors: where links to clients come from.
ghost use Rattle.std.specs.Prelude.{◌≡◌};
ghost use Rattle.reql_net.specs.Doors.{DoorTold, Opens};

use crate::watch::Watch;
use reql_outside::Link;
use std::alloc::Global;

/// What one `accept` answers.
#[derive(Drop)]
pub enum Accept<L> {
    /// The link to the next client. It is fresh.
    Link(L),
    /// No client is there now.
    Idle,
    /// No client comes any more.
    End,
    /// An error came, and `faults` rose by one, as with no other answer.
    Failed,
}

/// How the session of a client ended, as its door is told.
#[derive(Clone, Copy, Debug, PartialEq, Eq)]
pub enum Parting {
    /// Its input ended, and all of it was handled.
    Closed,
    /// Its input ended within a greeting or a request.
    Cut,
    /// It greeted in a version or a protocol that isn't spoken.
    Version,
    /// It greeted with another key.
    Key,
    /// It didn't log in.
    Login,
    /// It announced a request above the limit.
    TooLong,
    /// A receive failed.
    ReadFault,
    /// A send failed.
    WriteFault,
    /// All turns of a session were used up.
    Worn,
    /// Memory was wanted.
    Memory,
}

/// Why a worker takes no more links from its door.
#[derive(Clone, Copy, Debug, PartialEq, Eq)]
pub enum Rest {
    /// It has served as many as it was to.
    Done,
    /// No client comes any more.
    Over,
    /// The door failed.
    Failed,
    /// Memory was wanted for one more session.
    Memory,
}

/// Where a worker's links come from, one after another. A thread serves the links of many doors by turns, and a watch tells
/// it whose turn it is.
///
/// A count that stands at 2^64 - 1 counts as risen: it stays there.
pub trait Door {
    type Link: Link + Drop;

    type Watch: Watch<Self::Link> + Drop;

    /// What the door tells of itself: how many links it gave, whether it has answered `End` or `Failed`,
    /// whether it has answered `Failed`, and how often.
    ghost told: { Self → DoorTold };

    /// A watch for the thread that serves so many doors, of which this is the first. None: memory or a
    /// descriptor was wanted.
    fn watch(&self, _alloc: Global, _places: usize) -> Option<Self::Watch>;

    /// The next client, where one is there now or comes soon.
    fn accept(&mut self) -> Accept<Self::Link>
        ensures { Opens Self.Link.tape (told self.old) (told self.new) result };

    /// Tells the door how the session of its last link ended, and what is left of that.
    fn leaves(&mut self, _record: &<Self::Link as Link>::Record, _how: Parting)
        ensures still { told self.new ≡ told self.old }
    {}

    /// Tells the door that its worker takes no more links.
    fn rests(&mut self, _why: Rest)
        ensures still { told self.new ≡ told self.old }
    {}
}
