// The moves of a course at a desk, each with what it met. A slot that isn't there is answered as one that memory was wanted
// for; no plan asks for one.
ghost use Rattle.std.specs.Prelude.{◌≡◌, ◌<◌, ◌≤◌, [], length, vec_len, vec_capacity, IfOk};
ghost use Rattle.reql_hall.specs.Rooms.{Sits};
ghost use Rattle.reql_table_spec.specs.Replies.{said_of};
ghost use Rattle.reql_session_spec.specs.Tasks.{others};
ghost use Rattle.reql_session_api.specs.Meant.{arms_of};
ghost use Rattle.reql_desk_moves.specs.Acting.{AreThere};
ghost use Rattle.reql_plan_driver.specs.Meeting.{ChangesNamesIn, LooksAtNamesIn, LooksSlotIn, RunsSlotIn, at_slot, closed_by, noted, opened_by, without_closed};

use crate::met::Met;
use reql_catalog::{CatCmd, CatReply, Catalogue, Names};
use reql_datum::{Name, Point};
use reql_desk_moves::{change_names_at, look_at, look_names_at, run_at};
use reql_hall::{Desk, Hall};
use reql_memory::Memory;
use reql_session_api::Arm;
use reql_table_spec::{Cmd, Look, Order, Reply, Said, TableEngine};
use std::alloc::Global;
use std::sync::Wait;

/// Looks at the names.
pub fn look_names<R: Wait, C: TableEngine + Drop>(
    rt: &R,
    hall: &Hall<C, Catalogue>,
    desk: &mut Desk<C, Catalogue>,
    met: &mut Met,
) -> Result<Names, Memory>
    requires of_this_hall { Sits hall.now desk.old }
    ensures of_this_hall { Sits hall.now desk.new }
    ensures looked { LooksAtNamesIn C.some_state desk.old desk.new met.old met.new result }
    ensures opened { met.new.opened.items ≡ met.old.opened.items }
{
    let (place, names) = look_names_at(rt, hall, desk)?;
    met.names = place;
    Ok(names)
}

/// Runs a command on the names.
pub fn change_names<R: Wait, C: TableEngine + Drop>(
    rt: &R,
    hall: &Hall<C, Catalogue>,
    desk: &mut Desk<C, Catalogue>,
    met: &mut Met,
    cmd: CatCmd,
) -> Result<CatReply, Memory>
    requires of_this_hall { Sits hall.now desk.old }
    ensures of_this_hall { Sits hall.now desk.new }
    ensures changed { ChangesNamesIn C.some_state desk.old desk.new met.old met.new cmd result }
    ensures opened { met.new.opened.items ≡ met.old.opened.items }
{
    match change_names_at(rt, hall, desk, cmd) {
        Ok(reply) => {
            met.names = reply.place;
            Ok(reply)
        }
        Err(_) => Err(Memory),
    }
}

/// Looks at a slot.
pub fn look_slot<R: Wait, C: TableEngine + Drop>(
    rt: &R,
    hall: &Hall<C, Catalogue>,
    desk: &mut Desk<C, Catalogue>,
    slots: u32,
    met: &mut Met,
    slot: u32,
) -> Result<Look<C::View>, Memory>
    requires of_this_hall { Sits hall.now desk.old }
    requires slots { slots ≤ length hall.now.slots }
    ensures of_this_hall { Sits hall.now desk.new }
    ensures looked { LooksSlotIn C.heard C.some_state desk.old desk.new met.old met.new slot result }
    ensures opened { met.new.opened.items ≡ met.old.opened.items }
{
    if slot >= slots {
        return Err(Memory);
    }
    let Ok(()) = met.points.reserve(1) else {
        return Err(Memory);
    };
    match look_at(rt, hall, desk, slot) {
        Ok(look) => {
            met.points.push_reserved(Point {
                slot,
                place: look.place,
                stamp: look.stamp,
            });
            Ok(look)
        }
        Err(_) => Err(Memory),
    }
}

// The feed that a command closes.
fn closes(cmd: &Cmd) -> Option<u64>
    ensures { result ≡ closed_by cmd.now }
{
    match cmd {
        Cmd::Unsubscribe { feed } => Some(*feed),
        _ => None,
    }
}

// The feed that an answer opens.
fn opens(said: &Said) -> Option<u64>
    ensures { result ≡ opened_by (said_of said.now) }
{
    match said {
        Said::Opened { feed, .. } => Some(*feed),
        _ => None,
    }
}

// Leaves out the feeds of this number on a slot.
fn forget(opened: &mut Vec<Arm>, slot: u32, feed: u64)
    ensures { arms_of opened.new.items ≡ others (at_slot slot feed) (arms_of opened.old.items) }
{
    opened.retain(|arm| arm.slot != slot || arm.feed != feed);
}

// Leaves out the feed that a command closed, if it closed one.
fn forget_closed(opened: &mut Vec<Arm>, slot: u32, closed: Option<u64>)
    ensures { arms_of opened.new.items ≡ without_closed slot closed (arms_of opened.old.items) }
{
    if let Some(feed) = closed {
        forget(opened, slot, feed);
    }
}

// What a command on a slot that was answered opened or closed.
fn note(opened: &mut Vec<Arm>, slot: u32, closed: Option<u64>, said: &Said, dropped: Name)
    requires room { vec_len opened.old < vec_capacity opened.old }
    requires nothing { dropped ≡ [] }
    ensures { arms_of opened.new.items ≡ noted slot closed (opened_by (said_of said.now)) (arms_of opened.old.items) }
{
    match closed {
        Some(feed) => forget(opened, slot, feed),
        None => {
            if let Some(feed) = opens(said) {
                opened.push_reserved(Arm {
                    slot,
                    feed,
                    dropped,
                });
            }
        }
    }
}

// Room for one more point and one more feed.
fn make_room(alloc: Global, met: &mut Met) -> Result<Name, Memory>
    ensures nothing { IfOk result (λ name. name ≡ []) }
    ensures points { met.new.points.items ≡ met.old.points.items }
    ensures opened { met.new.opened.items ≡ met.old.opened.items }
    ensures names { met.new.names ≡ met.old.names }
    ensures point { IfOk result (λ name. vec_len met.new.points < vec_capacity met.new.points) }
    ensures feed { IfOk result (λ name. vec_len met.new.opened < vec_capacity met.new.opened) }
{
    let Ok(()) = met.points.reserve(1) else {
        return Err(Memory);
    };
    let Ok(()) = met.opened.reserve(1) else {
        return Err(Memory);
    };
    let name = Name::of(alloc, "")?;
    Ok(name)
}

/// Runs a command on a slot. The slots of all open feeds are there, where they were before.
pub fn run_slot<R: Wait, C: TableEngine + Drop>(
    rt: &R,
    alloc: Global,
    hall: &Hall<C, Catalogue>,
    desk: &mut Desk<C, Catalogue>,
    slots: u32,
    met: &mut Met,
    slot: u32,
    order: Order,
) -> Result<Reply, Memory>
    requires of_this_hall { Sits hall.now desk.old }
    requires slots { slots ≤ length hall.now.slots }
    ensures of_this_hall { Sits hall.now desk.new }
    ensures ran { RunsSlotIn C.some_state desk.old desk.new met.old met.new slot order result }
    ensures there { AreThere (length hall.now.slots) met.old.opened.items
        → AreThere (length hall.now.slots) met.new.opened.items }
{
    if slot >= slots {
        return Err(Memory);
    }
    let dropped = make_room(alloc, met)?;
    let closed = closes(&order.cmd);
    match run_at(rt, hall, desk, slot, order) {
        Ok(reply) => {
            met.points.push_reserved(Point {
                slot,
                place: reply.place,
                stamp: reply.stamp,
            });
            note(&mut met.opened, slot, closed, &reply.said, dropped);
            met.ran = true;
            Ok(reply)
        }
        Err(_) => {
            forget_closed(&mut met.opened, slot, closed);
            Err(Memory)
        }
    }
}
