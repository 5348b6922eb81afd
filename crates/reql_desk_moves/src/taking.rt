// A visit of a feed: one Take on each arm, until one is answered.
ghost use Rattle.std.specs.Prelude.{◌≡◌, ◌<◌, ◌≤◌, [], length, vec_capacity, Some, IfOk};
ghost use Rattle.reql_hall.specs.Rooms.{Sits};
ghost use Rattle.reql_table_spec.specs.Replies.{said_of};
ghost use Rattle.reql_session_spec.specs.Books.{Books, Open, feed_of};
ghost use Rattle.reql_session_spec.specs.Tasks.{Talk};
ghost use Rattle.reql_session_api.specs.Meant.{arms_of};
ghost use Rattle.reql_desk_moves.specs.Acting.{AreThere, TakesArm, tells_something};
ghost use Rattle.reql_desk_moves.specs.Steps.{VisitsArms};

use crate::slots::run_at;
use reql_catalog::Catalogue;
use reql_hall::{Desk, Hall};
use reql_memory::{Memory, Seq};
use reql_session_api::Arm;
use reql_session_spec::Planning;
use reql_table_spec::{Cmd, Order, Point, Reply, Said, TableEngine};
use std::alloc::Global;
use std::sync::Wait;

/// What a visit came to.
#[derive(Drop)]
pub enum Visited {
    /// No arm had anything to give.
    Waits,
    /// The arm at a place was answered; the points of the slots that were asked, in order.
    Took {
        at: usize,
        reply: Reply,
        points: Seq<Point>,
    },
    /// Memory was wanted.
    Denied,
}

/// What one Take came to.
#[derive(Drop)]
enum Taken {
    /// The point of the slot then.
    Nothing(Point),
    /// The answer, and the point of the slot then.
    Answered(Reply, Point),
    Denied,
}

// Whether an answer to a Take ends the visit.
fn tells(said: &Said) -> bool
    ensures { result ≡ tells_something (said_of said.now) }
{
    match said {
        Said::Batch { .. } => true,
        Said::Gone => true,
        Said::HistoryFull { .. } => true,
        _ => false,
    }
}

// Takes from one arm.
fn take_arm<R: Wait, C: TableEngine + Drop>(
    rt: &R,
    alloc: Global,
    hall: &Hall<C, Catalogue>,
    desk: &mut Desk<C, Catalogue>,
    arm: &Arm,
    batch: u32,
) -> Taken
    requires of_this_hall { Sits hall.now desk.old }
    requires there { arm.now.slot < length hall.now.slots }
    ensures of_this_hall { Sits hall.now desk.new }
    ensures took { TakesArm C.some_state desk.old desk.new arm.now batch result }
{
    let order = Order {
        points: Seq::new(alloc),
        cmd: Cmd::Take {
            feed: arm.feed,
            max: batch,
        },
    };
    match run_at(rt, hall, desk, arm.slot, order) {
        Err(_) => Taken::Denied,
        Ok(reply) => {
            let point = Point {
                slot: arm.slot,
                place: reply.place,
                stamp: reply.stamp,
            };
            if tells(&reply.said) {
                Taken::Answered(reply, point)
            } else {
                Taken::Nothing(point)
            }
        }
    }
}

// Room for the points of so many slots.
fn room(alloc: Global, count: usize) -> Result<Vec<Point>, Memory>
    ensures none { IfOk result (λ r. r.items ≡ []) }
    ensures room { IfOk result (λ r. count ≤ vec_capacity r) }
{
    match Vec::with_capacity(alloc, count) {
        Ok(points) => Ok(points),
        Err(_) => Err(Memory),
    }
}

/// Takes from each arm of a feed in order, until one is answered. A feed without arms is visited as one for which
/// memory is wanted.
pub fn visit_arms<P: Planning, R: Wait, C: TableEngine + Drop>(
    rt: &R,
    alloc: Global,
    hall: &Hall<C, Catalogue>,
    desk: &mut Desk<C, Catalogue>,
    arms: &[Arm],
    batch: u32,
) -> Visited
    requires of_this_hall { Sits hall.now desk.old }
    requires there { AreThere (length hall.now.slots) arms.now }
    ensures of_this_hall { Sits hall.now desk.new }
    ensures visited { (k : Talk P.Plan) (b : Books) (f : Open) → feed_of f.token b.feeds ≡ Some f
        → f.arms ≡ arms_of arms.now → f.batch ≡ batch
        → VisitsArms k C.some_state desk.old desk.new b f result }
{
    if arms.len() == 0 {
        return Visited::Denied;
    }
    let Ok(mut points) = room(alloc, arms.len()) else {
        return Visited::Denied;
    };
    for at in 0..arms.len() {
        match take_arm(rt, alloc, hall, desk, &arms[at], batch) {
            Taken::Nothing(point) => points.push_reserved(point),
            Taken::Answered(reply, point) => {
                points.push_reserved(point);
                return Visited::Took {
                    at,
                    reply,
                    points: Seq::from_vec(points),
                };
            }
            Taken::Denied => return Visited::Denied,
        }
    }
    Visited::Waits
}
