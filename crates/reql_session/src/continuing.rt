// A CONTINUE of a cursor, and of a feed that has items left.
ghost use Rattle.std.specs.Prelude.{◌≡◌, ◌∷◌, ℤ, ℕ, List, [], false, None, Some, IfOk, drop, length, nat_le, take};
ghost use Rattle.reql_outside.specs.Source.{Source};
ghost use Rattle.reql_hall.specs.Rooms.{Sits};
ghost use Rattle.reql_session_spec.specs.Requests as story;
ghost use Rattle.reql_session_spec.specs.Books as books;
ghost use Rattle.reql_session_spec.specs.Books.{closed, cursor_of, feed_of, has_token, with_rest};
ghost use Rattle.reql_session_spec.specs.Bodies.{body};
ghost use Rattle.reql_session_spec.specs.Tasks.{Talk, continue_cursor as continue_cursor_of, continue_left as continue_left_of, tell as tell_answer};
ghost use Rattle.reql_session_api.specs.World.{AtWork};
ghost use Rattle.reql_open_cursors.specs.Apart.{IsApart};
ghost use Rattle.reql_open_cursors.specs.Kept.{books_of, cursor_kept};
ghost use Rattle.reql_session.specs.Settling.{SettlesOrWants, working};
ghost use Rattle.reql_session.specs.Keeping.{Keeps};

use crate::losing::lose_with;
use crate::telling::{after, tell, tell_internal};
use crate::voice::Voice;
use reql_bodies::{batch as feed_batch, cut_to, is_long, last, part};
use reql_catalog::Catalogue;
use reql_datum::Memory;
use reql_hall::{Desk, Hall};
use reql_open_cursors::{Cursor, Shelf};
use reql_outside::Link;
use reql_session_spec::{End, Planning};
use reql_table_spec::{Limits, TableEngine};
use std::alloc::Global;
use std::sync::Wait;

// Tells the last batch of the cursor of a token, which is closed with it.
fn tell_last<P: Planning, L: Link>(
    alloc: Global,
    voice: &mut Voice,
    link: &mut L,
    limits: &Limits,
    shelf: &mut Shelf,
    token: u64,
    written: Result<Vec<u8>, Memory>,
) -> Option<End>
    ensures keeps { (slots : ℕ) → Keeps slots [] (books_of shelf.old) → Keeps slots [] (books_of shelf.new) }
    ensures told { (k : Talk P.Plan) (w : AtWork) (c : books.Cursor) → k.limits ≡ limits.now
        → w.books ≡ books_of shelf.old → IfOk written (λ b. b.items ≡ body (story.Last c.rest None))
        → SettlesOrWants k (L.tape link.old) (L.tape link.new) w (record w { books = books_of shelf.new }) token
        (tell_answer k (books_of shelf.old) token (story.Last c.rest None) (closed token (books_of shelf.old)) [] None)
        result }
{
    let Ok(written) = written else {
        return tell_internal::<P, L>(voice, link, token);
    };
    if is_long::<P>(limits, written.as_slice()) {
        shelf.close(token);
        let cut = cut_to::<P>(alloc, limits, None);
        return tell::<P, L>(voice, link, token, cut);
    }
    match voice.say(link, token, written.as_slice()) {
        Ok(whole) => {
            shelf.close(token);
            after(whole)
        }
        Err(_) => tell_internal::<P, L>(voice, link, token),
    }
}

// Tells a batch of the cursor of a token that has more.
fn tell_part<P: Planning, L: Link>(
    alloc: Global,
    voice: &mut Voice,
    link: &mut L,
    limits: &Limits,
    shelf: &mut Shelf,
    token: u64,
    written: Result<Vec<u8>, Memory>,
) -> Option<End>
    ensures keeps { (slots : ℕ) (c : books.Cursor) → cursor_of token (books_of shelf.old).cursors ≡ Some c
        → Keeps slots [] (books_of shelf.old) → Keeps slots [] (books_of shelf.new) }
    ensures told { (k : Talk P.Plan) (w : AtWork) (c : books.Cursor) → k.limits ≡ limits.now
        → w.books ≡ books_of shelf.old → IsApart (books_of shelf.old)
        → cursor_of token (books_of shelf.old).cursors ≡ Some c
        → IfOk written (λ b. b.items ≡ body (story.Part (take c.batch c.rest) None))
        → SettlesOrWants k (L.tape link.old) (L.tape link.new) w (record w { books = books_of shelf.new }) token
        (tell_answer k (books_of shelf.old) token (story.Part (take c.batch c.rest) None)
        (with_rest token (drop c.batch c.rest) (books_of shelf.old)) [] None) result }
{
    let Ok(written) = written else {
        return tell_internal::<P, L>(voice, link, token);
    };
    if is_long::<P>(limits, written.as_slice()) {
        shelf.close(token);
        let cut = cut_to::<P>(alloc, limits, None);
        return tell::<P, L>(voice, link, token, cut);
    }
    match voice.say(link, token, written.as_slice()) {
        Ok(whole) => {
            shelf.advance_cursor(token);
            after(whole)
        }
        Err(_) => tell_internal::<P, L>(voice, link, token),
    }
}

// Whether what is left of a cursor is one batch.
#[tactic(auto, using(crate::proofs::Tokens::as_many))]
fn is_last(cursor: &Cursor) -> bool
    ensures { result ≡ nat_le (length (cursor_kept cursor.now).rest) (cursor_kept cursor.now).batch }
{
    cursor.left().len() <= cursor.batch as usize
}

/// Tells the next batch of the cursor of a token, which is closed with the last one.
pub(crate) fn continue_cursor<P: Planning, L: Link>(
    alloc: Global,
    voice: &mut Voice,
    link: &mut L,
    limits: &Limits,
    shelf: &mut Shelf,
    token: u64,
) -> Option<End>
    ensures keeps { (slots : ℕ) → Keeps slots [] (books_of shelf.old) → Keeps slots [] (books_of shelf.new) }
    ensures continued { (k : Talk P.Plan) (w : AtWork) (c : books.Cursor) → k.limits ≡ limits.now
        → w.books ≡ books_of shelf.old → IsApart (books_of shelf.old)
        → cursor_of token (books_of shelf.old).cursors ≡ Some c
        → SettlesOrWants k (L.tape link.old) (L.tape link.new) w (record w { books = books_of shelf.new })
        token (continue_cursor_of k (books_of shelf.old) c) result }
{
    let Some(cursor) = shelf.cursor(token) else {
        return tell_internal::<P, L>(voice, link, token);
    };
    if is_last(cursor) {
        let written = last(alloc, cursor.left(), None);
        return tell_last::<P, L>(alloc, voice, link, limits, shelf, token, written);
    }
    let written = part(alloc, cursor.first(), None);
    tell_part::<P, L>(alloc, voice, link, limits, shelf, token, written)
}

/// Tells the next batch of the items that are left of the feed of a token, where some are.
pub(crate) fn continue_left<P: Planning, R: Wait, C: TableEngine + Drop, L: Link>(
    rt: &R,
    alloc: Global,
    hall: &Hall<C, Catalogue>,
    desk: &mut Desk<C, Catalogue>,
    voice: &mut Voice,
    link: &mut L,
    limits: &Limits,
    shelf: &mut Shelf,
    token: u64,
) -> Option<End>
    requires of_this_hall { Sits hall.now desk.old }
    requires keeps { Keeps (length hall.now.slots) [] (books_of shelf.old) }
    ensures of_this_hall { Sits hall.now desk.new }
    ensures keeps { has_token token (books_of shelf.old).waiting ≡ false
        → Keeps (length hall.now.slots) [] (books_of shelf.new) }
    ensures continued { (k : Talk P.Plan) (clock : Source ℤ) (dice : Source (List ℕ)) (f : books.Open)
        (x : story.Shown) (xs : List story.Shown) → k.limits ≡ limits.now
        → feed_of token (books_of shelf.old).feeds ≡ Some f → f.left ≡ x ∷ xs
        → SettlesOrWants k (L.tape link.old) (L.tape link.new)
        (working C.some_state desk.old (books_of shelf.old) clock dice)
        (working C.some_state desk.new (books_of shelf.new) clock dice)
        token (continue_left_of k (books_of shelf.old) f f.left) result }
{
    let Some(feed) = shelf.feed(token) else {
        return tell_internal::<P, L>(voice, link, token);
    };
    let Ok(written) = feed_batch(alloc, feed.notes.as_slice(), feed.first(), None) else {
        return tell_internal::<P, L>(voice, link, token);
    };
    if is_long::<P>(limits, written.as_slice()) {
        let cut = cut_to::<P>(alloc, limits, None);
        return lose_with::<P, R, C, L>(rt, alloc, hall, desk, voice, link, shelf, token, cut);
    }
    match voice.say(link, token, written.as_slice()) {
        Ok(whole) => {
            shelf.advance_feed(token);
            after(whole)
        }
        Err(_) => tell_internal::<P, L>(voice, link, token),
    }
}
