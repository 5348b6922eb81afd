// The end of a session: what is open is closed.
ghost use Rattle.std.specs.Prelude.{◌≡◌, ◌++◌, List, [], map, length};
ghost use Rattle.reql_hall.specs.Rooms.{Sits};
ghost use Rattle.reql_session_spec.specs.Requests as story;
ghost use Rattle.reql_session_spec.specs.Tasks.{Talk};
ghost use Rattle.reql_session_spec.specs.Session.{Mach, Leaving};
ghost use Rattle.reql_session_spec.specs.Worlds.{Does, at_desk};
ghost use Rattle.reql_session_spec.specs.declared.end.End.{End};
ghost use Rattle.reql_open_cursors.specs.Kept.{feed_kept};
ghost use Rattle.reql_open_cursors.specs.There.{AllThere};
ghost use Rattle.reql_session.specs.Keeping.{arms_open};

use reql_catalog::Catalogue;
use reql_desk_moves::leave_arms;
use reql_hall::{Desk, Hall};
use reql_open_cursors::Open;
use reql_session_spec::Planning;
use reql_table_spec::TableEngine;
use std::alloc::Global;
use std::sync::Wait;

/// Closes the arms of these feeds in order, in a session that leaves.
pub(crate) fn leave_all<P: Planning, R: Wait, C: TableEngine + Drop>(
    rt: &R,
    alloc: Global,
    hall: &Hall<C, Catalogue>,
    desk: &mut Desk<C, Catalogue>,
    feeds: &[Open],
)
    requires of_this_hall { Sits hall.now desk.old }
    requires there { AllThere (length hall.now.slots) (map feed_kept feeds.now) }
    ensures of_this_hall { Sits hall.now desk.new }
    ensures left { (k : Talk P.Plan) (m : Mach P.Plan) (end : End)
        → m.doing ≡ Leaving (arms_open (map feed_kept feeds.now)) end
        → Does k (at_desk C.some_state desk.old m)
        (at_desk C.some_state desk.new record m { doing = Leaving [] end }) [] }
{
    for at in 0..feeds.len() {
        leave_arms::<P, R, C>(rt, alloc, hall, desk, feeds[at].arms.as_slice());
    }
}
