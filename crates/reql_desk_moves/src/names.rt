// A command on the names, and a look at them.
ghost use Rattle.reql_hall.specs.Rooms.{Sits};
ghost use Rattle.reql_desk_moves.specs.Acting.{ChangesNames, LooksAtNames};

use reql_catalog::{CatCmd, CatReply, Catalogue, Names};
use reql_hall::{Desk, Hall};
use reql_memory::{Memory, Refused};
use reql_shared::Snap;
use reql_table_spec::TableEngine;
use std::sync::Wait;

/// Runs a command on the names. It may wait for other threads.
pub fn change_names_at<R: Wait, C: TableEngine + Drop>(
    rt: &R,
    hall: &Hall<C, Catalogue>,
    desk: &mut Desk<C, Catalogue>,
    cmd: CatCmd,
) -> Result<CatReply, Refused<CatCmd>>
    requires of_this_hall { Sits hall.now desk.old }
    ensures of_this_hall { Sits hall.now desk.new }
    ensures changed { ChangesNames C.some_state desk.old desk.new cmd result }
{
    desk.change_names(rt, hall, cmd)
}

/// Looks at the names, and says at which place of the catalogue's history. It may wait for other threads.
pub fn look_names_at<R: Wait, C: TableEngine + Drop>(
    rt: &R,
    hall: &Hall<C, Catalogue>,
    desk: &mut Desk<C, Catalogue>,
) -> Result<(u64, Names), Memory>
    requires of_this_hall { Sits hall.now desk.old }
    ensures of_this_hall { Sits hall.now desk.new }
    ensures looked { LooksAtNames C.some_state desk.old desk.new result }
{
    match desk.look_names(rt, hall, &Snap) {
        Ok(names) => {
            let place = desk.names_place();
            Ok((place, names))
        }
        Err(memory) => Err(memory),
    }
}
