ghost use Rattle.std.specs.Prelude.{◌≡◌, ℕ, ◌≤◌, [], All, IfOk, length};
ghost use Rattle.reql_shared.specs.Machine.{replay};
ghost use Rattle.reql_hall.specs.Rooms.{Sits};
ghost use Rattle.rows_sharing.specs.Logging.{logging};

use crate::log::Log;
use reql_catalog::{CatCmd, Catalogue};
use reql_datum::Name;
use reql_hall::{Desk, FinalHall, Hall};
use reql_memory::Memory;
use std::alloc::Global;
use std::sync::Wait;
use std::thread;
use std::thread::Threads;

// Gives the numbers below `times` to three slots in turn.
fn give<R: Wait>(rt: &R, hall: &Hall<Log, Catalogue>, desk: &mut Desk<Log, Catalogue>, times: u32)
    requires of_this_hall { Sits hall.now desk.old }
    requires slots { length hall.now.slots ≡ 3 }
    ensures of_this_hall { Sits hall.now desk.new }
{
    for number in 0..times {
        let _ = desk.run(rt, hall, number % 3, u64::from(number));
    }
}

// Makes a database that is named by the desk.
fn name<R: Wait>(
    rt: &R,
    alloc: Global,
    hall: &Hall<Log, Catalogue>,
    desk: &mut Desk<Log, Catalogue>,
)
    requires of_this_hall { Sits hall.now desk.old }
    ensures of_this_hall { Sits hall.now desk.new }
{
    let text = if desk.number() == 0 { "left" } else { "right" };
    if let Ok(name) = Name::of(alloc, text) {
        let _ = desk.change_names(rt, hall, CatCmd::DbCreate(name));
    }
}

// What one desk does.
fn work<R: Wait>(
    rt: &R,
    alloc: Global,
    hall: &Hall<Log, Catalogue>,
    desk: &mut Desk<Log, Catalogue>,
    times: u32,
)
    requires of_this_hall { Sits hall.now desk.old }
    requires slots { length hall.now.slots ≡ 3 }
    ensures of_this_hall { Sits hall.now desk.new }
{
    give(rt, hall, desk, times);
    name(rt, alloc, hall, desk);
}

// Each desk works, in as many threads as there are desks.
fn work_at_all<R: Threads + Wait + Sync>(
    rt: &R,
    alloc: Global,
    hall: &Hall<Log, Catalogue>,
    desks: &mut [Desk<Log, Catalogue>],
    times: u32,
)
    requires of_this_hall { All (Sits hall.now) desks.old }
    requires slots { length hall.now.slots ≡ 3 }
    ensures of_this_hall { All (Sits hall.now) desks.new }
{
    let threads = desks.len().max(1);
    thread::for_each_mut(
        rt,
        desks,
        threads,
        &|_, desk| work(rt, alloc, hall, desk, times),
    );
}

// Three engines that were given nothing.
fn three_logs(alloc: Global) -> Result<Vec<Log>, Memory>
    ensures unused { IfOk result (λ logs. All (λ l. l.entries.items ≡ []) logs.items) }
    ensures three { IfOk result (λ logs. length logs.items ≡ 3) }
{
    let mut logs = Vec::with_capacity(alloc, 3).map_err(|_| Memory)?;
    for _ in 0..3u32 {
        logs.push_reserved(Log {
            entries: Vec::new(alloc),
        });
    }
    Ok(logs)
}

/// A hall of three slots, at which desks worked, each in a thread of its own.
pub fn work_at_desks<R: Threads + Wait + Sync>(
    rt: &R,
    alloc: Global,
    desks: u32,
    times: u32,
) -> Result<FinalHall<Log, Catalogue>, Memory>
    ensures states { IfOk result (λ r. All (λ f. f.engine.entries.items
        ≡ replay logging f.object.start f.history) r.slots) }
    ensures slots { IfOk result (λ r. length r.slots ≡ 3) }
    ensures desks { IfOk result (λ r. All (λ d. length d.slots ≡ 3) r.desks) }
{
    let names = Catalogue::new(alloc, &[], 3)?;
    let logs = three_logs(alloc)?;
    let (hall, mut desks, room) = Hall::new(alloc, names, logs, desks)?;
    work_at_all(rt, alloc, &hall, desks.as_mut_slice(), times);
    Ok(hall.close(rt, desks, room))
}
