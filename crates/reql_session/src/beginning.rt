// A frame is begun with.
ghost use Rattle.std.specs.Prelude.{◌≡◌, ◌⊎◌, ◌≤◌, ℤ, ℕ, List, [], None, Bool, length};
ghost use Rattle.reql_hall.specs.Rooms.{Sits};
ghost use Rattle.reql_session_spec.specs.Requests.{Answer, Client, Compile, Waited};
ghost use Rattle.reql_session_spec.specs.Tasks.{Talk, begin as begin_of, continue_feed as continue_feed_of, continue_on, takes_up, tell_now as tell_now_of, refuse as refuse_of, seen_in};
ghost use Rattle.reql_session_spec.specs.Books.{cursor_of, feed_of};
ghost use Rattle.reql_session_spec.specs.Bodies.{body};
ghost use Rattle.reql_session_spec.specs.Bodies as texts;
ghost use Rattle.reql_open_cursors.specs.Kept.{books_of};
ghost use Rattle.reql_session.specs.Settling.{Settles, SettlesOrWants, working};
ghost use Rattle.reql_session.specs.Keeping.{Keeps};
ghost use Rattle.reql_session_api.specs.World.{AtWork};
ghost use Rattle.reql_session_api.specs.Meant.{asked_of};
ghost use Rattle.reql_outside.specs.Source.{Source};

use crate::continuing::{continue_cursor, continue_left};
use crate::starting::start;
use crate::stopping::stop;
use crate::telling::{after, tell, tell_internal, tell_now};
use crate::visiting::visit_feed;
use crate::voice::Voice;
use reql_bodies::{at_wait, client, compile, cut_to, in_use, info, is_long, not_open, waited};
use reql_catalog::Catalogue;
use reql_datum::Name;
use reql_hall::{Desk, Hall};
use reql_open_cursors::Shelf;
use reql_outside::{Clock, Dice, Link};
use reql_session_api::{Planner, Query};
use reql_session_spec::{End, Planning};
use reql_table_spec::{Limits, TableEngine};
use std::alloc::Global;
use std::sync::Wait;

// An answer that is always the same, or the fault in its place where it is too long.
fn tell_fixed<P: Planning, L: Link>(
    alloc: Global,
    voice: &mut Voice,
    link: &mut L,
    limits: &Limits,
    token: u64,
    written: &[u8],
) -> Option<End>
    ensures { (k : Talk P.Plan) (w : AtWork) (a : Answer) → k.limits ≡ limits.now
        → seen_in a ≡ None → written.now ≡ body a
        → Settles k (L.tape link.old) (L.tape link.new) w w (tell_now_of k w.books token a) result }
{
    if is_long::<P>(limits, written) {
        let cut = cut_to::<P>(alloc, limits, None);
        return tell::<P, L>(voice, link, token, cut);
    }
    match voice.say(link, token, written) {
        Ok(whole) => after(whole),
        Err(_) => tell_internal::<P, L>(voice, link, token),
    }
}

// The fault of a client, where an answer is wanted.
fn refuse_client<P: Planning, L: Link>(
    alloc: Global,
    voice: &mut Voice,
    link: &mut L,
    limits: &Limits,
    token: u64,
    noreply: bool,
    why: &Name,
) -> Option<End>
    ensures { (k : Talk P.Plan) (w : AtWork) → k.limits ≡ limits.now
        → Settles k (L.tape link.old) (L.tape link.new) w w (refuse_of k w.books token noreply (Client why.now)) result }
{
    if noreply {
        return None;
    }
    let written = client(alloc, why.as_str());
    tell_now::<P, L>(alloc, voice, link, limits, token, written)
}

// The fault of a request that can't be planned, where an answer is wanted.
fn refuse_compile<P: Planning, L: Link>(
    alloc: Global,
    voice: &mut Voice,
    link: &mut L,
    limits: &Limits,
    token: u64,
    noreply: bool,
    why: &Name,
) -> Option<End>
    ensures { (k : Talk P.Plan) (w : AtWork) → k.limits ≡ limits.now
        → Settles k (L.tape link.old) (L.tape link.new) w w (refuse_of k w.books token noreply (Compile why.now)) result }
{
    if noreply {
        return None;
    }
    let written = compile(alloc, why.as_str());
    tell_now::<P, L>(alloc, voice, link, limits, token, written)
}

// The fault of a request on a token that has something open, where an answer is wanted.
fn refuse_in_use<P: Planning, L: Link>(
    alloc: Global,
    voice: &mut Voice,
    link: &mut L,
    limits: &Limits,
    token: u64,
    noreply: bool,
) -> Option<End>
    ensures { (k : Talk P.Plan) (w : AtWork) → k.limits ≡ limits.now
        → Settles k (L.tape link.old) (L.tape link.new) w w (refuse_of k w.books token noreply (Client (texts.in_use token))) result }
{
    if noreply {
        return None;
    }
    let written = in_use(alloc, token);
    tell_now::<P, L>(alloc, voice, link, limits, token, written)
}

// A CONTINUE of a feed, or of a token that has nothing open.
fn continue_feed<P: Planning, R: Wait, C: TableEngine + Drop, L: Link>(
    rt: &R,
    alloc: Global,
    hall: &Hall<C, Catalogue>,
    desk: &mut Desk<C, Catalogue>,
    voice: &mut Voice,
    link: &mut L,
    limits: &Limits,
    shelf: &mut Shelf,
    token: u64,
) -> Option<End>
    requires of_this_hall { Sits hall.now desk.old }
    requires keeps { Keeps (length hall.now.slots) [] (books_of shelf.old) }
    ensures of_this_hall { Sits hall.now desk.new }
    ensures keeps { Keeps (length hall.now.slots) [] (books_of shelf.new) }
    ensures continued { (k : Talk P.Plan) (clock : Source ℤ) (dice : Source (List ℕ)) → k.limits ≡ limits.now
        → SettlesOrWants k (L.tape link.old) (L.tape link.new)
        (working C.some_state desk.old (books_of shelf.old) clock dice)
        (working C.some_state desk.new (books_of shelf.new) clock dice)
        token (continue_feed_of k (books_of shelf.old) token (feed_of token (books_of shelf.old).feeds)) result }
{
    let Some(feed) = shelf.feed(token) else {
        let written = not_open(alloc, token);
        return tell_now::<P, L>(alloc, voice, link, limits, token, written);
    };
    let has_left = feed.left().len() > 0;
    if shelf.waits(token) {
        let written = at_wait(alloc, token);
        return tell_now::<P, L>(alloc, voice, link, limits, token, written);
    }
    if has_left {
        return continue_left::<P, R, C, L>(
            rt, alloc, hall, desk, voice, link, limits, shelf, token,
        );
    }
    visit_feed::<P, R, C, L>(rt, alloc, hall, desk, voice, link, limits, shelf, token)
}

// A CONTINUE.
fn go_on<P: Planning, R: Wait, C: TableEngine + Drop, L: Link>(
    rt: &R,
    alloc: Global,
    hall: &Hall<C, Catalogue>,
    desk: &mut Desk<C, Catalogue>,
    voice: &mut Voice,
    link: &mut L,
    limits: &Limits,
    shelf: &mut Shelf,
    token: u64,
) -> Option<End>
    requires of_this_hall { Sits hall.now desk.old }
    requires keeps { Keeps (length hall.now.slots) [] (books_of shelf.old) }
    ensures of_this_hall { Sits hall.now desk.new }
    ensures keeps { Keeps (length hall.now.slots) [] (books_of shelf.new) }
    ensures continued { (k : Talk P.Plan) (clock : Source ℤ) (dice : Source (List ℕ)) → k.limits ≡ limits.now
        → SettlesOrWants k (L.tape link.old) (L.tape link.new)
        (working C.some_state desk.old (books_of shelf.old) clock dice)
        (working C.some_state desk.new (books_of shelf.new) clock dice)
        token (continue_on k (books_of shelf.old) token (cursor_of token (books_of shelf.old).cursors)) result }
{
    if shelf.cursor(token).is_some() {
        return continue_cursor::<P, L>(alloc, voice, link, limits, shelf, token);
    }
    continue_feed::<P, R, C, L>(rt, alloc, hall, desk, voice, link, limits, shelf, token)
}

// What a body asks for is done.
fn begin<
    R: Wait,
    C: TableEngine + Drop,
    P: Planner<View = <C as TableEngine>::View>,
    D: Dice,
    T: Clock,
    L: Link,
>(
    rt: &R,
    alloc: Global,
    hall: &Hall<C, Catalogue>,
    desk: &mut Desk<C, Catalogue>,
    slots: u32,
    clock: &mut T,
    dice: &mut D,
    planner: &P,
    voice: &mut Voice,
    link: &mut L,
    shelf: &mut Shelf,
    token: u64,
    query: Query<P::Plan>,
) -> Option<End>
where
    <P as Planning>::Plan: Drop,
    <P as Planner>::Course: Drop,
    requires of_this_hall { Sits hall.now desk.old }
    requires slots { slots ≤ length hall.now.slots }
    requires keeps { Keeps (length hall.now.slots) [] (books_of shelf.old) }
    ensures of_this_hall { Sits hall.now desk.new }
    ensures keeps { Keeps (length hall.now.slots) [] (books_of shelf.new) }
    ensures begun { SettlesOrWants (P.talk planner.now) (L.tape link.old) (L.tape link.new)
        (working C.some_state desk.old (books_of shelf.old) (T.told clock.old) (D.told dice.old))
        (working C.some_state desk.new (books_of shelf.new) (T.told clock.new) (D.told dice.new))
        token (begin_of (P.talk planner.now) (books_of shelf.old) token (asked_of query)) result }
{
    let limits = planner.limits();
    match query {
        Query::Unreadable(noreply, why) => {
            refuse_client::<P, L>(alloc, voice, link, limits, token, noreply, &why)
        }
        Query::Unplanned(noreply, why) => {
            if shelf.is_open(token) {
                return refuse_in_use::<P, L>(alloc, voice, link, limits, token, noreply);
            }
            refuse_compile::<P, L>(alloc, voice, link, limits, token, noreply, &why)
        }
        Query::Start(noreply, plan) => {
            if shelf.is_open(token) {
                return refuse_in_use::<P, L>(alloc, voice, link, limits, token, noreply);
            }
            start(
                rt, alloc, hall, desk, slots, clock, dice, planner, voice, link, shelf, token,
                noreply, plan,
            )
        }
        Query::Continue => go_on::<P, R, C, L>(
            rt, alloc, hall, desk, voice, link, limits, shelf, token,
        ),
        Query::Stop => stop::<P, R, C, L>(rt, alloc, hall, desk, voice, link, shelf, token),
        Query::NoreplyWait => tell_fixed::<P, L>(alloc, voice, link, limits, token, waited()),
        Query::ServerInfo => tell_fixed::<P, L>(alloc, voice, link, limits, token, info()),
    }
}

/// Takes up a frame: its body is read, and what it asks for is done.
pub(crate) fn take_up<
    R: Wait,
    C: TableEngine + Drop,
    P: Planner<View = <C as TableEngine>::View>,
    D: Dice,
    T: Clock,
    L: Link,
>(
    rt: &R,
    alloc: Global,
    hall: &Hall<C, Catalogue>,
    desk: &mut Desk<C, Catalogue>,
    slots: u32,
    clock: &mut T,
    dice: &mut D,
    planner: &P,
    voice: &mut Voice,
    link: &mut L,
    shelf: &mut Shelf,
    token: u64,
    body: &[u8],
) -> Option<End>
where
    <P as Planning>::Plan: Drop,
    <P as Planner>::Course: Drop,
    requires of_this_hall { Sits hall.now desk.old }
    requires slots { slots ≤ length hall.now.slots }
    requires keeps { Keeps (length hall.now.slots) [] (books_of shelf.old) }
    ensures of_this_hall { Sits hall.now desk.new }
    ensures keeps { Keeps (length hall.now.slots) [] (books_of shelf.new) }
    ensures taken { (is_read : Bool) × Settles (P.talk planner.now) (L.tape link.old) (L.tape link.new)
        (working C.some_state desk.old (books_of shelf.old) (T.told clock.old) (D.told dice.old))
        (working C.some_state desk.new (books_of shelf.new) (T.told clock.new) (D.told dice.new))
        (takes_up (P.talk planner.now) (books_of shelf.old) token body.now is_read) result }
{
    match planner.read(alloc, body) {
        Ok(query) => begin(
            rt, alloc, hall, desk, slots, clock, dice, planner, voice, link, shelf, token, query,
        ),
        Err(_) => tell_internal::<P, L>(voice, link, token),
    }
}
