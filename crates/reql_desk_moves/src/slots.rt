// A command on a slot, and a look at one.
ghost use Rattle.std.specs.Prelude.{◌<◌, length};
ghost use Rattle.reql_hall.specs.Rooms.{Sits};
ghost use Rattle.reql_desk_moves.specs.Acting.{RunsAt, LooksAt};

use reql_catalog::Catalogue;
use reql_hall::{Desk, Hall};
use reql_memory::{Memory, Refused};
use reql_shared::Snap;
use reql_table_spec::{Look, Order, Reply, TableEngine};
use std::sync::Wait;

/// Runs a command on a slot. It may wait for other threads.
pub fn run_at<R: Wait, C: TableEngine + Drop>(
    rt: &R,
    hall: &Hall<C, Catalogue>,
    desk: &mut Desk<C, Catalogue>,
    slot: u32,
    order: Order,
) -> Result<Reply, Refused<Order>>
    requires of_this_hall { Sits hall.now desk.old }
    requires there { slot < length hall.now.slots }
    ensures of_this_hall { Sits hall.now desk.new }
    ensures ran { RunsAt C.some_state desk.old desk.new slot order result }
{
    desk.run(rt, hall, slot, order)
}

/// Looks at a slot. It may wait for other threads.
pub fn look_at<R: Wait, C: TableEngine + Drop>(
    rt: &R,
    hall: &Hall<C, Catalogue>,
    desk: &mut Desk<C, Catalogue>,
    slot: u32,
) -> Result<Look<C::View>, Memory>
    requires of_this_hall { Sits hall.now desk.old }
    requires there { slot < length hall.now.slots }
    ensures of_this_hall { Sits hall.now desk.new }
    ensures looked { LooksAt C.heard C.some_state desk.old desk.new slot result }
{
    desk.look(rt, hall, slot, &Snap)
}
