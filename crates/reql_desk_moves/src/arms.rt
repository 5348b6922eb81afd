// The arms of a feed, and how they are closed: by one Unsubscribe each.
ghost use Rattle.std.specs.Prelude.{◌≡◌, ◌<◌, ◌++◌, length, drop, Option, ℕ, List, []};
ghost use Rattle.reql_hall.specs.Rooms.{Sits};
ghost use Rattle.reql_session_spec.specs.Requests.{Answer};
ghost use Rattle.reql_session_spec.specs.Requests as story;
ghost use Rattle.reql_session_spec.specs.Books.{Books, closed};
ghost use Rattle.reql_session_spec.specs.Tasks.{Talk, Settled, Drops, close, may_tell};
ghost use Rattle.reql_session_spec.specs.Session.{Mach, Leaving};
ghost use Rattle.reql_session_spec.specs.Worlds.{Does, at_desk};
ghost use Rattle.reql_session_spec.specs.declared.end.End.{End};
ghost use Rattle.reql_session_api.specs.Meant.{arms_of};
ghost use Rattle.reql_desk_moves.specs.Acting.{AreThere, ClosesArm};
ghost use Rattle.reql_desk_moves.specs.Steps.{Steps, StopsArms, after_closing};

use crate::slots::run_at;
use reql_catalog::Catalogue;
use reql_hall::{Desk, Hall};
use reql_memory::Seq;
use reql_session_api::Arm;
use reql_session_spec::Planning;
use reql_table_spec::{Cmd, Order, TableEngine};
use std::alloc::Global;
use std::sync::Wait;

// Unsubscribes one arm: false where that is refused for memory, so that the feed stays in its table.
fn close_arm<R: Wait, C: TableEngine + Drop>(
    rt: &R,
    alloc: Global,
    hall: &Hall<C, Catalogue>,
    desk: &mut Desk<C, Catalogue>,
    arm: &Arm,
) -> bool
    requires of_this_hall { Sits hall.now desk.old }
    requires there { arm.now.slot < length hall.now.slots }
    ensures of_this_hall { Sits hall.now desk.new }
    ensures closed { ClosesArm C.some_state desk.old desk.new arm.now result }
{
    let order = Order {
        points: Seq::new(alloc),
        cmd: Cmd::Unsubscribe { feed: arm.feed },
    };
    match run_at(rt, hall, desk, arm.slot, order) {
        Ok(_) => true,
        Err(_) => false,
    }
}

/// Unsubscribes each arm from a place on, in order, for a token that has nothing open any more.
pub fn close_arms<P: Planning, R: Wait, C: TableEngine + Drop>(
    rt: &R,
    alloc: Global,
    hall: &Hall<C, Catalogue>,
    desk: &mut Desk<C, Catalogue>,
    arms: &[Arm],
    from: usize,
)
    requires of_this_hall { Sits hall.now desk.old }
    requires there { AreThere (length hall.now.slots) arms.now }
    ensures of_this_hall { Sits hall.now desk.new }
    ensures closed { (k : Talk P.Plan) (b : Books) (token : ℕ) (a : Option Answer) → closed token b ≡ b
        → Steps k C.some_state desk.old desk.new
        (close b token (arms_of (drop from arms.now)) Settled a) (may_tell b token a) }
{
    for at in from..arms.len() {
        close_arm(rt, alloc, hall, desk, &arms[at]);
    }
}

/// Unsubscribes each arm in order, of what a token has open: false where the first Unsubscribe is refused for memory,
/// so that all stays as it was.
pub fn stop_arms<P: Planning, R: Wait, C: TableEngine + Drop>(
    rt: &R,
    alloc: Global,
    hall: &Hall<C, Catalogue>,
    desk: &mut Desk<C, Catalogue>,
    arms: &[Arm],
) -> bool
    requires of_this_hall { Sits hall.now desk.old }
    requires there { AreThere (length hall.now.slots) arms.now }
    ensures of_this_hall { Sits hall.now desk.new }
    ensures stopped { (k : Talk P.Plan) (b : Books) (token : ℕ) (a : Option Answer)
        → StopsArms k C.some_state desk.old desk.new b token (arms_of arms.now) a result }
{
    if arms.len() == 0 {
        return true;
    }
    if close_arm(rt, alloc, hall, desk, &arms[0]) {
        close_arms::<P, R, C>(rt, alloc, hall, desk, arms, 1);
        true
    } else {
        false
    }
}

/// Unsubscribes each arm in order, of a feed that came to its end: it was lost before it was told, or another arm of it
/// told that its table was dropped. After the first Unsubscribe its token has nothing open any more.
pub fn end_arms<P: Planning, R: Wait, C: TableEngine + Drop>(
    rt: &R,
    alloc: Global,
    hall: &Hall<C, Catalogue>,
    desk: &mut Desk<C, Catalogue>,
    arms: &[Arm],
)
    requires of_this_hall { Sits hall.now desk.old }
    requires there { AreThere (length hall.now.slots) arms.now }
    ensures of_this_hall { Sits hall.now desk.new }
    ensures settled { (k : Talk P.Plan) (b : Books) (token : ℕ) (a : Option Answer)
        → Steps k C.some_state desk.old desk.new (close b token (arms_of arms.now) Settled a)
        (may_tell (after_closing b token (arms_of arms.now)) token a) }
    ensures dropped { (k : Talk P.Plan) (b : Books) (token : ℕ) (a : Option Answer)
        → Steps k C.some_state desk.old desk.new (close b token (arms_of arms.now) Drops a)
        (may_tell (after_closing b token (arms_of arms.now)) token a) }
{
    if arms.len() == 0 {
        return;
    }
    close_arm(rt, alloc, hall, desk, &arms[0]);
    close_arms::<P, R, C>(rt, alloc, hall, desk, arms, 1);
}

/// Unsubscribes each arm in order, in a session that leaves.
pub fn leave_arms<P: Planning, R: Wait, C: TableEngine + Drop>(
    rt: &R,
    alloc: Global,
    hall: &Hall<C, Catalogue>,
    desk: &mut Desk<C, Catalogue>,
    arms: &[Arm],
)
    requires of_this_hall { Sits hall.now desk.old }
    requires there { AreThere (length hall.now.slots) arms.now }
    ensures of_this_hall { Sits hall.now desk.new }
    ensures left { (k : Talk P.Plan) (m : Mach P.Plan) (end : End) (rest : List story.Arm)
        → m.doing ≡ Leaving (arms_of arms.now ++ rest) end
        → Does k (at_desk C.some_state desk.old m)
        (at_desk C.some_state desk.new record m { doing = Leaving rest end }) [] }
{
    for at in 0..arms.len() {
        close_arm(rt, alloc, hall, desk, &arms[at]);
    }
}
