// The ends of a course that leave something open: a stream that has more, and a feed.
ghost use Rattle.std.specs.Prelude.{◌≡◌, ◌≤◌, ◌<◌, ◌++◌, ℤ, ℕ, List, false, length, map};
ghost use Rattle.reql_datum.specs.View.{plain};
ghost use Rattle.reql_outside.specs.Source.{Source};
ghost use Rattle.reql_hall.specs.Rooms.{Sits};
ghost use Rattle.reql_session_spec.specs.Requests.{Feed, Stream};
ghost use Rattle.reql_session_spec.specs.Books.{has_token, is_open};
ghost use Rattle.reql_session_spec.specs.Tasks.{Talk};
ghost use Rattle.reql_session_api.specs.Meant.{Course, arms_of, shown_of};
ghost use Rattle.reql_desk_moves.specs.Acting.{AreThere};
ghost use Rattle.reql_open_cursors.specs.Kept.{books_of};
ghost use Rattle.reql_session.specs.Settling.{Settles, working};
ghost use Rattle.reql_session.specs.Ending.{Reaches, on_course};
ghost use Rattle.reql_session.specs.Keeping.{Keeps};

use crate::arms::are_there;
use crate::points::by_slot;
use crate::settling::{finish, finish_internal, give_up};
use crate::telling::{after, tell_internal};
use crate::voice::Voice;
use reql_answer::Stamp;
use reql_bodies::{batch as feed_batch, cut_to, is_long, part};
use reql_catalog::Catalogue;
use reql_datum::Items;
use reql_hall::{Desk, Hall};
use reql_open_cursors::{Cursor, Open, Shelf};
use reql_outside::Link;
use reql_plan_driver::Met;
use reql_session_api::Arm;
use reql_session_spec::{End, Planning};
use reql_table_spec::{Limits, TableEngine};
use std::alloc::Global;
use std::sync::Wait;

/// Tells the first batch of a stream that has more, which stays open as a cursor.
pub(crate) fn open_cursor<P: Planning, R: Wait, C: TableEngine + Drop, L: Link>(
    rt: &R,
    alloc: Global,
    hall: &Hall<C, Catalogue>,
    desk: &mut Desk<C, Catalogue>,
    voice: &mut Voice,
    link: &mut L,
    limits: &Limits,
    shelf: &mut Shelf,
    token: u64,
    batch: u32,
    noreply: bool,
    met: &Met,
    documents: Items,
) -> Option<End>
    requires of_this_hall { Sits hall.now desk.old }
    requires there { AreThere (length hall.now.slots) met.now.opened.items }
    requires more { batch < length documents }
    ensures of_this_hall { Sits hall.now desk.new }
    ensures keeps { (rest : List ℕ) → is_open token (books_of shelf.old) ≡ false
        → has_token token ((books_of shelf.old).waiting ++ rest) ≡ false
        → Keeps (length hall.now.slots) rest (books_of shelf.old)
        → Keeps (length hall.now.slots) rest (books_of shelf.new) }
    ensures opened { (k : Talk P.Plan) (c : Course P.Plan) (clock : Source ℤ) (dice : Source (List ℕ))
        → c.noreply ≡ noreply
        → Reaches k c (Stream documents) limits.now met.now.points.items batch
        → Settles k (L.tape link.old) (L.tape link.new)
        (working C.some_state desk.old (books_of shelf.old) clock dice)
        (working C.some_state desk.new (books_of shelf.new) clock dice)
        (on_course (books_of shelf.old) token c (arms_of met.now.opened.items)) result }
{
    let arms = met.opened.as_slice();
    let mut cursor = Cursor {
        token,
        items: documents,
        from: 0,
        batch,
    };
    let Ok(points) = by_slot(alloc, met.points.as_slice()) else {
        return give_up::<P, R, C, L>(
            rt, alloc, hall, desk, voice, link, shelf, token, arms, noreply,
        );
    };
    let stamp = Stamp {
        catalogue: shelf.names,
        points: points.as_slice(),
    };
    let Ok(written) = part(alloc, cursor.first(), Some(stamp)) else {
        return give_up::<P, R, C, L>(
            rt, alloc, hall, desk, voice, link, shelf, token, arms, noreply,
        );
    };
    let Ok(()) = shelf.room_for_cursor() else {
        return give_up::<P, R, C, L>(
            rt, alloc, hall, desk, voice, link, shelf, token, arms, noreply,
        );
    };
    if is_long::<P>(limits, written.as_slice()) {
        let cut = cut_to::<P>(alloc, limits, Some(stamp));
        shelf.close(token);
        return finish::<P, R, C, L>(rt, alloc, hall, desk, voice, link, token, arms, cut);
    }
    match voice.say(link, token, written.as_slice()) {
        Ok(whole) => {
            cursor.from = batch as usize;
            shelf.open_cursor(cursor);
            after(whole)
        }
        Err(_) => tell_internal::<P, L>(voice, link, token),
    }
}

/// Tells the first batch of a feed, which stays open.
pub(crate) fn open_feed<P: Planning, R: Wait, C: TableEngine + Drop, L: Link>(
    rt: &R,
    alloc: Global,
    hall: &Hall<C, Catalogue>,
    desk: &mut Desk<C, Catalogue>,
    slots: u32,
    voice: &mut Voice,
    link: &mut L,
    limits: &Limits,
    shelf: &mut Shelf,
    noreply: bool,
    met: &Met,
    feed: Open,
) -> Option<End>
    requires of_this_hall { Sits hall.now desk.old }
    requires slots { slots ≤ length hall.now.slots }
    requires there { AreThere (length hall.now.slots) met.now.opened.items }
    requires fresh { feed.from ≡ 0 }
    ensures of_this_hall { Sits hall.now desk.new }
    ensures keeps { (rest : List ℕ) → is_open feed.token (books_of shelf.old) ≡ false
        → has_token feed.token ((books_of shelf.old).waiting ++ rest) ≡ false
        → Keeps (length hall.now.slots) rest (books_of shelf.old)
        → Keeps (length hall.now.slots) rest (books_of shelf.new) }
    ensures opened { (k : Talk P.Plan) (c : Course P.Plan) (clock : Source ℤ) (dice : Source (List ℕ))
        → c.noreply ≡ noreply
        → Reaches k c (Feed (arms_of feed.arms.items) feed.notes (map (shown_of (arms_of feed.arms.items)) feed.items.items))
        limits.now met.now.points.items feed.batch
        → Settles k (L.tape link.old) (L.tape link.new)
        (working C.some_state desk.old (books_of shelf.old) clock dice)
        (working C.some_state desk.new (books_of shelf.new) clock dice)
        (on_course (books_of shelf.old) feed.token c (arms_of met.now.opened.items)) result }
{
    let mut feed = feed;
    let token = feed.token;
    let arms = met.opened.as_slice();
    if !are_there(feed.arms.as_slice(), slots) {
        return give_up::<P, R, C, L>(
            rt, alloc, hall, desk, voice, link, shelf, token, arms, noreply,
        );
    }
    let Ok(points) = by_slot(alloc, met.points.as_slice()) else {
        return give_up::<P, R, C, L>(
            rt, alloc, hall, desk, voice, link, shelf, token, arms, noreply,
        );
    };
    let stamp = Stamp {
        catalogue: shelf.names,
        points: points.as_slice(),
    };
    let Ok(written) = feed_batch(alloc, feed.notes.as_slice(), feed.first(), Some(stamp)) else {
        return give_up::<P, R, C, L>(
            rt, alloc, hall, desk, voice, link, shelf, token, arms, noreply,
        );
    };
    let Ok(()) = shelf.room_for_feed() else {
        return give_up::<P, R, C, L>(
            rt, alloc, hall, desk, voice, link, shelf, token, arms, noreply,
        );
    };
    if is_long::<P>(limits, written.as_slice()) {
        let cut = cut_to::<P>(alloc, limits, Some(stamp));
        shelf.close(token);
        return finish::<P, R, C, L>(
            rt,
            alloc,
            hall,
            desk,
            voice,
            link,
            token,
            feed.arms.as_slice(),
            cut,
        );
    }
    match voice.say(link, token, written.as_slice()) {
        Ok(whole) => {
            feed.from = feed.batch as usize;
            shelf.open_feed(feed);
            after(whole)
        }
        Err(_) => {
            shelf.close(token);
            finish_internal::<P, R, C, L>(
                rt,
                alloc,
                hall,
                desk,
                voice,
                link,
                token,
                feed.arms.as_slice(),
            )
        }
    }
}
