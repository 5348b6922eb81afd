// A request is followed to its end.
ghost use Rattle.std.specs.Prelude.{◌≡◌, ◌≤◌, ◌++◌, ℤ, ℕ, List, [], false, length};
ghost use Rattle.reql_hall.specs.Rooms.{Sits};
ghost use Rattle.reql_session_spec.specs.Books.{has_token, is_open, opened};
ghost use Rattle.reql_session_spec.specs.Tasks.{Planning as IsPlanning, at, lesser as lesser_of};
ghost use Rattle.reql_open_cursors.specs.Kept.{books_of};
ghost use Rattle.reql_session.specs.Settling.{Settles, working};
ghost use Rattle.reql_session.specs.Keeping.{Keeps};

use crate::changes::tell_changes;
use crate::ending::end_course;
use crate::settling::give_up;
use crate::voice::Voice;
use reql_catalog::Catalogue;
use reql_hall::{Desk, Hall};
use reql_open_cursors::Shelf;
use reql_outside::{Clock, Dice, Link};
use reql_plan_driver::{Met, Reached, follow};
use reql_session_api::Planner;
use reql_session_spec::{End, Planning};
use reql_table_spec::TableEngine;
use std::alloc::Global;
use std::sync::Wait;

// The lesser of two numbers.
fn lesser(a: u32, b: u32) -> u32
    ensures { result ≡ lesser_of a b }
{
    if a < b { a } else { b }
}

/// Follows a plan, for a token that has nothing open, and tells what it comes to.
pub(crate) fn start<
    R: Wait,
    C: TableEngine + Drop,
    P: Planner<View = <C as TableEngine>::View>,
    D: Dice,
    T: Clock,
    L: Link,
>(
    rt: &R,
    alloc: Global,
    hall: &Hall<C, Catalogue>,
    desk: &mut Desk<C, Catalogue>,
    slots: u32,
    clock: &mut T,
    dice: &mut D,
    planner: &P,
    voice: &mut Voice,
    link: &mut L,
    shelf: &mut Shelf,
    token: u64,
    noreply: bool,
    plan: P::Plan,
) -> Option<End>
where
    <P as Planning>::Plan: Drop,
    <P as Planner>::Course: Drop,
    requires of_this_hall { Sits hall.now desk.old }
    requires slots { slots ≤ length hall.now.slots }
    ensures of_this_hall { Sits hall.now desk.new }
    ensures keeps { (rest : List ℕ) → is_open token (books_of shelf.old) ≡ false
        → has_token token ((books_of shelf.old).waiting ++ rest) ≡ false
        → Keeps (length hall.now.slots) rest (books_of shelf.old)
        → Keeps (length hall.now.slots) rest (books_of shelf.new) }
    ensures started { Settles (P.talk planner.now) (L.tape link.old) (L.tape link.new)
        (working C.some_state desk.old (books_of shelf.old) (T.told clock.old) (D.told dice.old))
        (working C.some_state desk.new (books_of shelf.new) (T.told clock.new) (D.told dice.new))
        (at (books_of shelf.old) (IsPlanning token plan noreply (opened (books_of shelf.old)) [] [])) result }
{
    let mut met = Met::new(alloc, shelf.names);
    let Ok(open) = shelf.opened() else {
        return give_up::<P, R, C, L>(
            rt,
            alloc,
            hall,
            desk,
            voice,
            link,
            shelf,
            token,
            met.opened.as_slice(),
            noreply,
        );
    };
    let limits = planner.limits();
    let batch = lesser(planner.batch(&plan), limits.batch);
    let mut course = planner.begin(alloc, plan, noreply, open);
    let reached = follow(
        rt,
        alloc,
        hall,
        desk,
        slots,
        clock,
        dice,
        planner,
        &mut course,
        &mut met,
    );
    tell_changes(link, &met);
    shelf.saw_names(met.names);
    match reached {
        Reached::Ends(to) => end_course::<P, R, C, L>(
            rt, alloc, hall, desk, slots, voice, link, limits, shelf, token, batch, noreply, &met,
            to,
        ),
        Reached::Denied => give_up::<P, R, C, L>(
            rt,
            alloc,
            hall,
            desk,
            voice,
            link,
            shelf,
            token,
            met.opened.as_slice(),
            noreply,
        ),
    }
}
