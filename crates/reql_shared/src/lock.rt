// The lock: word 1 of the table. It is 0 while it is free, 1 while it is taken, and 2 while it is taken and a thread may wait for it.
ghost use Rattle.std.specs.Prelude.{◌≡◌, [], true};
ghost use Rattle.reql_shared.specs.Rule.{Lodges, Entered, IsIn, released};

use crate::engine::Engine;
use crate::rule::{GiveLock, OneHistory, Origin, TakeLock};
use crate::view::{Lodged, View};
use atomic_table::{Seat, Shared as Board};
use std::sync::Wait;

const LOCK: usize = 1;

const FREE: u64 = 0;

const TAKEN: u64 = 1;

const AWAITED: u64 = 2;

// Takes the lock for this seat, and waits for it where it is not free.
pub fn take_lock<E: Engine, R: Wait>(
    rt: &R,
    board: &Board<Lodged<E, E::Cmd>, View<E::Cmd, E::State>, Origin<E>, OneHistory<E>>,
    seat: &mut Seat<Lodged<E, E::Cmd>, View<E::Cmd, E::State>>,
)
    requires sized { (board.now.table_id.words ≡ 2) × (board.now.table_id.slots ≡ 1) }
    requires table { seat.old.table_id ≡ board.now.table_id }
    requires seat { (seat.old.me.1 ≡ []) × (seat.old.me.0.live ≡ true) }
    ensures table { seat.new.table_id ≡ seat.old.table_id }
    ensures entered { Entered (Lodges E.state E.machine) seat.old.me.0 seat.new.me }
{
    if board.compare_exchange::<TakeLock<E>>(seat, LOCK, FREE, TAKEN) != FREE {
        wait_for_lock(rt, board, seat);
    }
}

// Sleeps until the lock is taken for this seat. The lock then says that others may wait, since it cannot know.
fn wait_for_lock<E: Engine, R: Wait>(
    rt: &R,
    board: &Board<Lodged<E, E::Cmd>, View<E::Cmd, E::State>, Origin<E>, OneHistory<E>>,
    seat: &mut Seat<Lodged<E, E::Cmd>, View<E::Cmd, E::State>>,
)
    requires sized { (board.now.table_id.words ≡ 2) × (board.now.table_id.slots ≡ 1) }
    requires table { seat.old.table_id ≡ board.now.table_id }
    requires seat { (seat.old.me.1 ≡ []) × (seat.old.me.0.live ≡ true) }
    ensures table { seat.new.table_id ≡ seat.old.table_id }
    ensures entered { Entered (Lodges E.state E.machine) seat.old.me.0 seat.new.me }
{
    for _ in rt.forever() {
        if board.swap::<TakeLock<E>>(seat, LOCK, AWAITED) == FREE {
            return;
        }
        board.park(rt, LOCK, 2);
    }
    unreachable!()
}

// GivesBack the lock back with the engine, and wakes a thread if one may wait.
pub fn give_lock<E: Engine>(
    board: &Board<Lodged<E, E::Cmd>, View<E::Cmd, E::State>, Origin<E>, OneHistory<E>>,
    seat: &mut Seat<Lodged<E, E::Cmd>, View<E::Cmd, E::State>>,
)
    requires sized { (board.now.table_id.words ≡ 2) × (board.now.table_id.slots ≡ 1) }
    requires table { seat.old.table_id ≡ board.now.table_id }
    requires live { seat.old.me.0.live ≡ true }
    requires held { IsIn (Lodges E.state E.machine) seat.old.me }
    ensures table { seat.new.table_id ≡ seat.old.table_id }
    ensures free { seat.new.me ≡ (released seat.old.me.0, []) }
{
    if board.swap::<GiveLock>(seat, LOCK, FREE) == AWAITED {
        board.wake_one(LOCK);
    }
}
