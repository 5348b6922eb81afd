// A course, move by move.
ghost use Rattle.std.specs.Prelude.{◌≡◌, ◌≤◌, ℕ, ℤ, List, [], length};
ghost use Rattle.reql_hall.specs.Rooms.{Sits};
ghost use Rattle.reql_outside.specs.Source.{Source, Gives};
ghost use Rattle.reql_table_spec.specs.Machine.{State};
ghost use Rattle.reql_session_spec.specs.Requests.{ChangeNames, LookNames, LookSlot, Roll, RunSlot, TellTime};
ghost use Rattle.reql_session_api.specs.Meant.{move_of, next_of};
ghost use Rattle.reql_desk_moves.specs.Acting.{AreThere, AtDesk};
ghost use Rattle.reql_plan_driver.specs.Walking.{Follows, IsNext, IsSame, StepsTo, tools};

use crate::finding::{change_names, look_names, look_slot, run_slot};
use crate::met::Met;
use reql_catalog::{CatCmd, Catalogue};
use reql_hall::{Desk, Hall};
use reql_memory::Memory;
use reql_outside::{Clock, Dice, Rolled, Told};
use reql_session_api::{Answered, Found, Move, Planner};
use reql_table_spec::{Order, TableEngine};
use std::alloc::Global;
use std::sync::Wait;

/// What a course reached.
#[derive(Drop)]
pub enum Reached {
    Ends(Answered),
    /// Memory was wanted.
    Denied,
}

/// What one move leads to.
#[derive(Drop)]
enum After {
    On(Move),
    Ends(Answered),
    Denied,
}

// The time, or none where the clock failed.
fn tell<T: Clock>(clock: &mut T) -> Option<i64>
    ensures { Gives (T.told clock.old) (T.told clock.new) result }
{
    match clock.seconds() {
        Told::At(seconds) => Some(seconds),
        Told::Failed => None,
    }
}

// Sixteen bytes, or none where the dice failed.
fn roll<D: Dice>(dice: &mut D) -> Option<[u8; 16]>
    ensures { Gives (D.told dice.old) (D.told dice.new) result }
{
    match dice.roll() {
        Rolled::Bytes(bytes) => Some(bytes),
        Rolled::Failed => None,
    }
}

// What the next move leads to.
fn leads_to(next: Result<Move, Memory>) -> After
    ensures { IsNext next result }
{
    match next {
        Ok(next) => After::On(next),
        Err(_) => After::Denied,
    }
}

// The names are looked at.
fn on_names<R: Wait, C: TableEngine + Drop, P: Planner<View = <C as TableEngine>::View>>(
    rt: &R,
    hall: &Hall<C, Catalogue>,
    desk: &mut Desk<C, Catalogue>,
    planner: &P,
    course: &mut P::Course,
    met: &mut Met,
) -> After
    requires of_this_hall { Sits hall.now desk.old }
    requires asks { next_of (P.talk planner.now) (P.state course.old) ≡ LookNames }
    ensures of_this_hall { Sits hall.now desk.new }
    ensures there { AreThere (length hall.now.slots) met.old.opened.items
        → AreThere (length hall.now.slots) met.new.opened.items }
    ensures request { IsSame (P.state course.old) (P.state course.new) }
    ensures steps { (clock : Source ℤ) (dice : Source (List ℕ)) → StepsTo (P.talk planner.now) C.some_state
        (tools desk.old clock dice) (tools desk.new clock dice) (P.state course.old)
        (P.state course.new) met.old met.new result }
{
    match look_names(rt, hall, desk, met) {
        Ok(names) => leads_to(planner.next(course, Found::SawNames(met.names, names))),
        Err(_) => After::Denied,
    }
}

// A command on the names is run.
fn on_change<R: Wait, C: TableEngine + Drop, P: Planner<View = <C as TableEngine>::View>>(
    rt: &R,
    hall: &Hall<C, Catalogue>,
    desk: &mut Desk<C, Catalogue>,
    planner: &P,
    course: &mut P::Course,
    met: &mut Met,
    cmd: CatCmd,
) -> After
    requires of_this_hall { Sits hall.now desk.old }
    requires asks { next_of (P.talk planner.now) (P.state course.old) ≡ ChangeNames cmd }
    ensures of_this_hall { Sits hall.now desk.new }
    ensures there { AreThere (length hall.now.slots) met.old.opened.items
        → AreThere (length hall.now.slots) met.new.opened.items }
    ensures request { IsSame (P.state course.old) (P.state course.new) }
    ensures steps { (clock : Source ℤ) (dice : Source (List ℕ)) → StepsTo (P.talk planner.now) C.some_state
        (tools desk.old clock dice) (tools desk.new clock dice) (P.state course.old)
        (P.state course.new) met.old met.new result }
{
    match change_names(rt, hall, desk, met, cmd) {
        Ok(reply) => leads_to(planner.next(course, Found::ChangedNames(reply.place, reply))),
        Err(_) => After::Denied,
    }
}

// A slot is looked at.
fn on_look<R: Wait, C: TableEngine + Drop, P: Planner<View = <C as TableEngine>::View>>(
    rt: &R,
    hall: &Hall<C, Catalogue>,
    desk: &mut Desk<C, Catalogue>,
    slots: u32,
    planner: &P,
    course: &mut P::Course,
    met: &mut Met,
    slot: u32,
) -> After
    requires of_this_hall { Sits hall.now desk.old }
    requires slots { slots ≤ length hall.now.slots }
    requires asks { next_of (P.talk planner.now) (P.state course.old) ≡ LookSlot slot }
    ensures of_this_hall { Sits hall.now desk.new }
    ensures there { AreThere (length hall.now.slots) met.old.opened.items
        → AreThere (length hall.now.slots) met.new.opened.items }
    ensures request { IsSame (P.state course.old) (P.state course.new) }
    ensures steps { (clock : Source ℤ) (dice : Source (List ℕ)) → StepsTo (P.talk planner.now) C.some_state
        (tools desk.old clock dice) (tools desk.new clock dice) (P.state course.old)
        (P.state course.new) met.old met.new result }
{
    match look_slot(rt, hall, desk, slots, met, slot) {
        Ok(look) => leads_to(planner.next(course, Found::SawSlot(slot, look))),
        Err(_) => After::Denied,
    }
}

// A command on a slot is run.
fn on_run<R: Wait, C: TableEngine + Drop, P: Planner<View = <C as TableEngine>::View>>(
    rt: &R,
    alloc: Global,
    hall: &Hall<C, Catalogue>,
    desk: &mut Desk<C, Catalogue>,
    slots: u32,
    planner: &P,
    course: &mut P::Course,
    met: &mut Met,
    slot: u32,
    order: Order,
) -> After
    requires of_this_hall { Sits hall.now desk.old }
    requires slots { slots ≤ length hall.now.slots }
    requires asks { next_of (P.talk planner.now) (P.state course.old) ≡ RunSlot slot order }
    ensures of_this_hall { Sits hall.now desk.new }
    ensures there { AreThere (length hall.now.slots) met.old.opened.items
        → AreThere (length hall.now.slots) met.new.opened.items }
    ensures request { IsSame (P.state course.old) (P.state course.new) }
    ensures steps { (clock : Source ℤ) (dice : Source (List ℕ)) → StepsTo (P.talk planner.now) C.some_state
        (tools desk.old clock dice) (tools desk.new clock dice) (P.state course.old)
        (P.state course.new) met.old met.new result }
{
    match run_slot(rt, alloc, hall, desk, slots, met, slot, order) {
        Ok(reply) => leads_to(planner.next(course, Found::RanSlot(slot, reply))),
        Err(_) => After::Denied,
    }
}

// The clock is asked.
fn on_time<T: Clock, P: Planner>(
    clock: &mut T,
    planner: &P,
    course: &mut P::Course,
    met: &Met,
) -> After
    requires asks { next_of (P.talk planner.now) (P.state course.old) ≡ TellTime }
    ensures request { IsSame (P.state course.old) (P.state course.new) }
    ensures steps { (some : State) (desk : AtDesk) (dice : Source (List ℕ)) → StepsTo (P.talk planner.now) some
        (tools desk (T.told clock.old) dice) (tools desk (T.told clock.new) dice) (P.state course.old)
        (P.state course.new) met.now met.now result }
{
    let moment = tell(clock);
    leads_to(planner.next(course, Found::Clocked(moment)))
}

// The dice are rolled.
fn on_roll<D: Dice, P: Planner>(
    dice: &mut D,
    planner: &P,
    course: &mut P::Course,
    met: &Met,
) -> After
    requires asks { next_of (P.talk planner.now) (P.state course.old) ≡ Roll }
    ensures request { IsSame (P.state course.old) (P.state course.new) }
    ensures steps { (some : State) (desk : AtDesk) (clock : Source ℤ) → StepsTo (P.talk planner.now) some
        (tools desk clock (D.told dice.old)) (tools desk clock (D.told dice.new)) (P.state course.old)
        (P.state course.new) met.now met.now result }
{
    let bytes = roll(dice);
    leads_to(planner.next(course, Found::Rolled(bytes)))
}

// One move.
fn step<
    R: Wait,
    C: TableEngine + Drop,
    P: Planner<View = <C as TableEngine>::View>,
    D: Dice,
    T: Clock,
>(
    rt: &R,
    alloc: Global,
    hall: &Hall<C, Catalogue>,
    desk: &mut Desk<C, Catalogue>,
    slots: u32,
    clock: &mut T,
    dice: &mut D,
    planner: &P,
    course: &mut P::Course,
    met: &mut Met,
    next: Move,
) -> After
    requires of_this_hall { Sits hall.now desk.old }
    requires slots { slots ≤ length hall.now.slots }
    requires asks { next_of (P.talk planner.now) (P.state course.old) ≡ move_of next }
    ensures of_this_hall { Sits hall.now desk.new }
    ensures there { AreThere (length hall.now.slots) met.old.opened.items
        → AreThere (length hall.now.slots) met.new.opened.items }
    ensures request { IsSame (P.state course.old) (P.state course.new) }
    ensures steps { StepsTo (P.talk planner.now) C.some_state
        (tools desk.old (T.told clock.old) (D.told dice.old))
        (tools desk.new (T.told clock.new) (D.told dice.new)) (P.state course.old)
        (P.state course.new) met.old met.new result }
{
    match next {
        Move::LookNames => on_names(rt, hall, desk, planner, course, met),
        Move::ChangeNames(cmd) => on_change(rt, hall, desk, planner, course, met, cmd),
        Move::LookSlot(slot) => on_look(rt, hall, desk, slots, planner, course, met, slot),
        Move::RunSlot(slot, order) => {
            on_run(
                rt, alloc, hall, desk, slots, planner, course, met, slot, order,
            )
        }
        Move::TellTime => on_time(clock, planner, course, met),
        Move::Roll => on_roll(dice, planner, course, met),
        Move::Ends(answered) => After::Ends(answered),
    }
}

/// Follows a course that has found nothing yet, to what it comes to. The slots of all open feeds are there, where they were
/// before.
pub fn follow<
    R: Wait,
    C: TableEngine + Drop,
    P: Planner<View = <C as TableEngine>::View>,
    D: Dice,
    T: Clock,
>(
    rt: &R,
    alloc: Global,
    hall: &Hall<C, Catalogue>,
    desk: &mut Desk<C, Catalogue>,
    slots: u32,
    clock: &mut T,
    dice: &mut D,
    planner: &P,
    course: &mut P::Course,
    met: &mut Met,
) -> Reached
    requires of_this_hall { Sits hall.now desk.old }
    requires slots { slots ≤ length hall.now.slots }
    requires first { (P.state course.old).found ≡ [] }
    requires points { met.old.points.items ≡ [] }
    ensures of_this_hall { Sits hall.now desk.new }
    ensures there { AreThere (length hall.now.slots) met.old.opened.items
        → AreThere (length hall.now.slots) met.new.opened.items }
    ensures request { IsSame (P.state course.old) (P.state course.new) }
    ensures follows { Follows (P.talk planner.now) C.some_state
        (tools desk.old (T.told clock.old) (D.told dice.old))
        (tools desk.new (T.told clock.new) (D.told dice.new)) (P.state course.old)
        (P.state course.new) met.old met.new result }
{
    let Ok(mut next) = planner.first(course) else {
        return Reached::Denied;
    };
    for _ in 0..u64::MAX {
        match step(
            rt, alloc, hall, desk, slots, clock, dice, planner, course, met, next,
        ) {
            After::On(later) => next = later,
            After::Ends(answered) => return Reached::Ends(answered),
            After::Denied => return Reached::Denied,
        }
    }
    Reached::Denied
}
