// What a course has met so far.
ghost use Rattle.std.specs.Prelude.{◌≡◌, []};

use reql_datum::Point;
use reql_session_api::Arm;
use std::alloc::Global;

/// What a course has met so far.
#[derive(Drop)]
pub struct Met {
    /// The points of the slots that it asked, in order.
    pub points: Vec<Point>,
    /// The feeds that it opened and did not close.
    pub opened: Vec<Arm>,
    /// The number of commands on the names where it saw them last.
    pub names: u64,
    /// Whether it ran a command on a slot.
    pub ran: bool,
}

impl Met {
    /// Nothing yet, where so many commands on the names were seen.
    pub fn new(alloc: Global, names: u64) -> Met
        ensures points { result.points.items ≡ [] }
        ensures opened { result.opened.items ≡ [] }
        ensures names { result.names ≡ names }
    {
        Met {
            points: Vec::new(alloc),
            opened: Vec::new(alloc),
            names,
            ran: false,
        }
    }
}
