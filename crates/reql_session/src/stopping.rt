// A STOP.
ghost use Rattle.std.specs.Prelude.{◌≡◌, ℤ, ℕ, List, [], None, Some, IfOk, cond, length};
ghost use Rattle.reql_outside.specs.Source.{Source};
ghost use Rattle.reql_hall.specs.Rooms.{Sits};
ghost use Rattle.reql_session_spec.specs.Books.{Cursor, Open, closed, cursor_of, feed_of};
ghost use Rattle.reql_session_spec.specs.Requests.{Last};
ghost use Rattle.reql_session_spec.specs.Bodies.{body};
ghost use Rattle.reql_session_spec.specs.Tasks.{Talk, Stops, close, stop as stop_of, stop_feed as stop_feed_of};
ghost use Rattle.reql_table_spec.specs.Machine.{State};
ghost use Rattle.reql_desk_moves.specs.Acting.{AtDesk};
ghost use Rattle.reql_open_cursors.specs.Kept.{books_of};
ghost use Rattle.reql_session.specs.Settling.{Settles, working};
ghost use Rattle.reql_session.specs.Keeping.{Keeps};

use crate::telling::{after, tell, tell_internal};
use crate::voice::Voice;
use reql_bodies::last;
use reql_catalog::Catalogue;
use reql_desk_moves::stop_arms;
use reql_hall::{Desk, Hall};
use reql_memory::Memory;
use reql_open_cursors::Shelf;
use reql_outside::Link;
use reql_session_spec::{End, Planning};
use reql_table_spec::TableEngine;
use std::alloc::Global;
use std::sync::Wait;

// The answer to a STOP.
fn nothing_more(alloc: Global) -> Result<Vec<u8>, Memory>
    ensures { IfOk result (λ b. b.items ≡ body (Last [] None)) }
{
    last(alloc, &[], None)
}

// The cursor of a token is closed once that was told.
fn stop_cursor<P: Planning, L: Link>(
    alloc: Global,
    voice: &mut Voice,
    link: &mut L,
    shelf: &mut Shelf,
    token: u64,
) -> Option<End>
    ensures keeps { (slots : ℕ) → Keeps slots [] (books_of shelf.old) → Keeps slots [] (books_of shelf.new) }
    ensures stopped { (k : Talk P.Plan) (some : State) (desk : AtDesk) (clock : Source ℤ) (dice : Source (List ℕ))
        (c : Cursor) → Settles k (L.tape link.old) (L.tape link.new)
        (working some desk (books_of shelf.old) clock dice) (working some desk (books_of shelf.new) clock dice)
        (stop_of (books_of shelf.old) token (Some c)) result }
{
    let Ok(written) = nothing_more(alloc) else {
        return tell_internal::<P, L>(voice, link, token);
    };
    match voice.say(link, token, written.as_slice()) {
        Ok(whole) => {
            shelf.close(token);
            after(whole)
        }
        Err(_) => tell_internal::<P, L>(voice, link, token),
    }
}

// A token has nothing open any more, where this is so.
fn close_where(shelf: &mut Shelf, token: u64, closes: bool)
    ensures { books_of shelf.new ≡ cond closes (closed token (books_of shelf.old)) (books_of shelf.old) }
{
    if closes {
        shelf.close(token);
    }
}

// The arms of the feed of a token are closed, and then that is told.
fn close_feed<P: Planning, R: Wait, C: TableEngine + Drop, L: Link>(
    rt: &R,
    alloc: Global,
    hall: &Hall<C, Catalogue>,
    desk: &mut Desk<C, Catalogue>,
    voice: &mut Voice,
    link: &mut L,
    shelf: &mut Shelf,
    token: u64,
) -> Option<End>
    requires of_this_hall { Sits hall.now desk.old }
    requires keeps { Keeps (length hall.now.slots) [] (books_of shelf.old) }
    ensures of_this_hall { Sits hall.now desk.new }
    ensures keeps { Keeps (length hall.now.slots) [] (books_of shelf.new) }
    ensures closed { (k : Talk P.Plan) (clock : Source ℤ) (dice : Source (List ℕ)) (f : Open)
        → feed_of token (books_of shelf.old).feeds ≡ Some f
        → Settles k (L.tape link.old) (L.tape link.new)
        (working C.some_state desk.old (books_of shelf.old) clock dice)
        (working C.some_state desk.new (books_of shelf.new) clock dice)
        (close (books_of shelf.old) token f.arms Stops (Some (Last [] None))) result }
{
    let Some(feed) = shelf.feed(token) else {
        return tell_internal::<P, L>(voice, link, token);
    };
    let arms = feed.arms.as_slice();
    let has_arms = arms.len() > 0;
    if !stop_arms::<P, R, C>(rt, alloc, hall, desk, arms) {
        return tell_internal::<P, L>(voice, link, token);
    }
    close_where(shelf, token, has_arms);
    tell::<P, L>(voice, link, token, nothing_more(alloc))
}

// A feed is stopped: a CONTINUE of it that waits is answered first.
fn stop_feed<P: Planning, R: Wait, C: TableEngine + Drop, L: Link>(
    rt: &R,
    alloc: Global,
    hall: &Hall<C, Catalogue>,
    desk: &mut Desk<C, Catalogue>,
    voice: &mut Voice,
    link: &mut L,
    shelf: &mut Shelf,
    token: u64,
) -> Option<End>
    requires of_this_hall { Sits hall.now desk.old }
    requires keeps { Keeps (length hall.now.slots) [] (books_of shelf.old) }
    ensures of_this_hall { Sits hall.now desk.new }
    ensures keeps { Keeps (length hall.now.slots) [] (books_of shelf.new) }
    ensures stopped { (k : Talk P.Plan) (clock : Source ℤ) (dice : Source (List ℕ)) (f : Open)
        → feed_of token (books_of shelf.old).feeds ≡ Some f
        → Settles k (L.tape link.old) (L.tape link.new)
        (working C.some_state desk.old (books_of shelf.old) clock dice)
        (working C.some_state desk.new (books_of shelf.new) clock dice)
        (stop_feed_of (books_of shelf.old) token (Some f)) result }
{
    if !shelf.waits(token) {
        return close_feed::<P, R, C, L>(rt, alloc, hall, desk, voice, link, shelf, token);
    }
    let Ok(written) = nothing_more(alloc) else {
        return tell_internal::<P, L>(voice, link, token);
    };
    match voice.say(link, token, written.as_slice()) {
        Ok(true) => {
            shelf.stop_waiting(token);
            close_feed::<P, R, C, L>(rt, alloc, hall, desk, voice, link, shelf, token)
        }
        Ok(false) => {
            shelf.stop_waiting(token);
            Some(End::WriteFault)
        }
        Err(_) => tell_internal::<P, L>(voice, link, token),
    }
}

/// Closes what a token has open, and tells that there is no more.
pub(crate) fn stop<P: Planning, R: Wait, C: TableEngine + Drop, L: Link>(
    rt: &R,
    alloc: Global,
    hall: &Hall<C, Catalogue>,
    desk: &mut Desk<C, Catalogue>,
    voice: &mut Voice,
    link: &mut L,
    shelf: &mut Shelf,
    token: u64,
) -> Option<End>
    requires of_this_hall { Sits hall.now desk.old }
    requires keeps { Keeps (length hall.now.slots) [] (books_of shelf.old) }
    ensures of_this_hall { Sits hall.now desk.new }
    ensures keeps { Keeps (length hall.now.slots) [] (books_of shelf.new) }
    ensures stopped { (k : Talk P.Plan) (clock : Source ℤ) (dice : Source (List ℕ))
        → Settles k (L.tape link.old) (L.tape link.new)
        (working C.some_state desk.old (books_of shelf.old) clock dice)
        (working C.some_state desk.new (books_of shelf.new) clock dice)
        (stop_of (books_of shelf.old) token (cursor_of token (books_of shelf.old).cursors)) result }
{
    if shelf.cursor(token).is_some() {
        return stop_cursor::<P, L>(alloc, voice, link, shelf, token);
    }
    if shelf.feed(token).is_some() {
        return stop_feed::<P, R, C, L>(rt, alloc, hall, desk, voice, link, shelf, token);
    }
    tell::<P, L>(voice, link, token, nothing_more(alloc))
}
