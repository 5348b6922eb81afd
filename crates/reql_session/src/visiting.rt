// A visit of a feed that has nothing left: each of its arms is taken from, until one is answered.
ghost use Rattle.std.specs.Prelude.{◌≡◌, ◌<◌, ◌++◌, ◌∷◌, ℤ, ℕ, List, [], None, Some, IfOk, false, true, length, drop, vec_len, vec_capacity};
ghost use Rattle.reql_outside.specs.Source.{Source};
ghost use Rattle.reql_hall.specs.Rooms.{Sits};
ghost use Rattle.reql_answer.specs.declared.error.ErrorType.TheVariants as errors;
ghost use Rattle.reql_session_spec.specs.Requests as story;
ghost use Rattle.reql_session_spec.specs.Books as books;
ghost use Rattle.reql_session_spec.specs.Books.{closed, feed_of, has_token};
ghost use Rattle.reql_session_spec.specs.Bodies.{body};
ghost use Rattle.reql_session_spec.specs.Bodies as texts;
ghost use Rattle.reql_session_spec.specs.Tasks.{Talk, Settled, Visiting, at as at_task, close, fitted as fitted_of, took_said};
ghost use Rattle.reql_desk_moves.specs.Steps.{put_points, VisitsArms};
ghost use Rattle.reql_desk_moves.specs.Acting.{AtDesk, tells_something};
ghost use Rattle.reql_table_spec.specs.Replies.{said_of};
ghost use Rattle.reql_open_cursors.specs.Kept.{books_of};
ghost use Rattle.reql_open_cursors.specs.Apart.{IsApart};
ghost use Rattle.reql_open_cursors.specs.There.{AllThere};
ghost use Rattle.reql_session.specs.Settling.{Settles, working};
ghost use Rattle.reql_session.specs.Keeping.{Keeps};

use crate::batching::told_batch;
use crate::changes::await_changes;
use crate::gone::told_gone;
use crate::losing::lose_with;
use crate::telling::tell_internal;
use crate::voice::Voice;
use reql_bodies::{fitted, full};
use reql_catalog::Catalogue;
use reql_datum::{Memory, Point};
use reql_desk_moves::{Visited, visit_arms};
use reql_hall::{Desk, Hall};
use reql_open_cursors::Shelf;
use reql_outside::Link;
use reql_session_spec::{End, Planning};
use reql_table_spec::{Limits, Said, TableEngine};
use std::alloc::Global;
use std::sync::Wait;

// The answer where the history of a table is full.
fn write_full<P: Planning>(alloc: Global, limits: &Limits) -> Result<Vec<u8>, Memory>
    ensures { (k : Talk P.Plan) → k.limits ≡ limits.now → IfOk result (λ b. b.items
        ≡ body (fitted_of k (story.Failed errors.ResourceLimit texts.full None))) }
{
    let body = full(alloc)?;
    fitted::<P>(alloc, limits, body, None)
}

// The history of the table of an arm is full.
fn told_full<P: Planning, R: Wait, C: TableEngine + Drop, L: Link>(
    rt: &R,
    alloc: Global,
    hall: &Hall<C, Catalogue>,
    desk: &mut Desk<C, Catalogue>,
    voice: &mut Voice,
    link: &mut L,
    limits: &Limits,
    shelf: &mut Shelf,
    token: u64,
) -> Option<End>
    requires of_this_hall { Sits hall.now desk.old }
    requires there { AllThere (length hall.now.slots) (books_of shelf.old).feeds }
    requires apart { IsApart (books_of shelf.old) }
    ensures of_this_hall { Sits hall.now desk.new }
    ensures keeps { (rest : List ℕ) → has_token token ((books_of shelf.old).waiting ++ rest) ≡ false
        → Keeps (length hall.now.slots) rest (books_of shelf.old)
        → Keeps (length hall.now.slots) rest (books_of shelf.new) }
    ensures told { (k : Talk P.Plan) (clock : Source ℤ) (dice : Source (List ℕ)) (f : books.Open)
        → k.limits ≡ limits.now → feed_of token (books_of shelf.old).feeds ≡ Some f
        → Settles k (L.tape link.old) (L.tape link.new)
        (working C.some_state desk.old (books_of shelf.old) clock dice)
        (working C.some_state desk.new (books_of shelf.new) clock dice)
        (close (closed token (books_of shelf.old)) token f.arms Settled
        (Some (fitted_of k (story.Failed errors.ResourceLimit texts.full None)))) result }
{
    let written = write_full::<P>(alloc, limits);
    lose_with::<P, R, C, L>(rt, alloc, hall, desk, voice, link, shelf, token, written)
}

// What the arm at a place was answered, which tells something, is told.
fn took<P: Planning, R: Wait, C: TableEngine + Drop, L: Link>(
    rt: &R,
    alloc: Global,
    hall: &Hall<C, Catalogue>,
    desk: &mut Desk<C, Catalogue>,
    voice: &mut Voice,
    link: &mut L,
    limits: &Limits,
    shelf: &mut Shelf,
    token: u64,
    batch: u32,
    at: usize,
    said: Said,
    points: &[Point],
) -> Option<End>
    requires of_this_hall { Sits hall.now desk.old }
    requires there { AllThere (length hall.now.slots) (books_of shelf.old).feeds }
    requires apart { IsApart (books_of shelf.old) }
    requires room { vec_len shelf.old.waiting < vec_capacity shelf.old.waiting }
    ensures of_this_hall { Sits hall.now desk.new }
    ensures keeps { (rest : List ℕ) (f : books.Open) → feed_of token (books_of shelf.old).feeds ≡ Some f → f.left ≡ []
        → has_token token ((books_of shelf.old).waiting ++ rest) ≡ false
        → Keeps (length hall.now.slots) rest (books_of shelf.old)
        → Keeps (length hall.now.slots) rest (books_of shelf.new) }
    ensures told { (k : Talk P.Plan) (clock : Source ℤ) (dice : Source (List ℕ)) (f : books.Open)
        (arm : story.Arm) (arms : List story.Arm) → k.limits ≡ limits.now → f.batch ≡ batch
        → feed_of token (books_of shelf.old).feeds ≡ Some f → drop at f.arms ≡ arm ∷ arms
        → tells_something (said_of said) ≡ true
        → Settles k (L.tape link.old) (L.tape link.new)
        (working C.some_state desk.old (books_of shelf.old) clock dice)
        (working C.some_state desk.new (books_of shelf.new) clock dice)
        (took_said k (books_of shelf.old) f arm arms (put_points [] points.now) (said_of said)) result }
{
    match said {
        Said::Batch {
            skipped,
            last,
            items,
        } => told_batch::<P, R, C, L>(
            rt, alloc, hall, desk, voice, link, limits, shelf, token, batch, at, skipped, last,
            items, points,
        ),
        Said::Gone => told_gone::<P, R, C, L>(
            rt, alloc, hall, desk, voice, link, limits, shelf, token, at, points,
        ),
        Said::HistoryFull { .. } => {
            told_full::<P, R, C, L>(rt, alloc, hall, desk, voice, link, limits, shelf, token)
        }
        _ => tell_internal::<P, L>(voice, link, token),
    }
}

// What a visit came to is told, or its CONTINUE waits.
fn came<P: Planning, R: Wait, C: TableEngine + Drop, L: Link>(
    rt: &R,
    alloc: Global,
    hall: &Hall<C, Catalogue>,
    desk: &mut Desk<C, Catalogue>,
    voice: &mut Voice,
    link: &mut L,
    limits: &Limits,
    shelf: &mut Shelf,
    token: u64,
    batch: u32,
    visited: Visited,
) -> Option<End>
    requires of_this_hall { Sits hall.now desk.old }
    requires there { AllThere (length hall.now.slots) (books_of shelf.old).feeds }
    requires apart { IsApart (books_of shelf.old) }
    requires room { vec_len shelf.old.waiting < vec_capacity shelf.old.waiting }
    ensures of_this_hall { Sits hall.now desk.new }
    ensures keeps { (rest : List ℕ) (f : books.Open) → feed_of token (books_of shelf.old).feeds ≡ Some f → f.left ≡ []
        → has_token token ((books_of shelf.old).waiting ++ rest) ≡ false
        → Keeps (length hall.now.slots) rest (books_of shelf.old)
        → Keeps (length hall.now.slots) rest (books_of shelf.new) }
    ensures told { (k : Talk P.Plan) (clock : Source ℤ) (dice : Source (List ℕ)) (f : books.Open) (before : AtDesk)
        → k.limits ≡ limits.now → f.batch ≡ batch → feed_of token (books_of shelf.old).feeds ≡ Some f
        → VisitsArms k C.some_state before desk.old (books_of shelf.old) f visited
        → Settles k (L.tape link.old) (L.tape link.new)
        (working C.some_state before (books_of shelf.old) clock dice)
        (working C.some_state desk.new (books_of shelf.new) clock dice)
        (at_task (books_of shelf.old) (Visiting f.token f.arms [])) result }
{
    match visited {
        Visited::Waits => {
            shelf.wait(token);
            None
        }
        Visited::Denied => tell_internal::<P, L>(voice, link, token),
        Visited::Took { at, reply, points } => took::<P, R, C, L>(
            rt,
            alloc,
            hall,
            desk,
            voice,
            link,
            limits,
            shelf,
            token,
            batch,
            at,
            reply.said,
            points.as_slice(),
        ),
    }
}

/// Visits the feed of a token, which has nothing left: what its first arm that has something gives is told, or its CONTINUE
/// waits.
pub(crate) fn visit_feed<P: Planning, R: Wait, C: TableEngine + Drop, L: Link>(
    rt: &R,
    alloc: Global,
    hall: &Hall<C, Catalogue>,
    desk: &mut Desk<C, Catalogue>,
    voice: &mut Voice,
    link: &mut L,
    limits: &Limits,
    shelf: &mut Shelf,
    token: u64,
) -> Option<End>
    requires of_this_hall { Sits hall.now desk.old }
    requires there { AllThere (length hall.now.slots) (books_of shelf.old).feeds }
    requires apart { IsApart (books_of shelf.old) }
    ensures of_this_hall { Sits hall.now desk.new }
    ensures keeps { (rest : List ℕ) (f : books.Open) → feed_of token (books_of shelf.old).feeds ≡ Some f → f.left ≡ []
        → has_token token ((books_of shelf.old).waiting ++ rest) ≡ false
        → Keeps (length hall.now.slots) rest (books_of shelf.old)
        → Keeps (length hall.now.slots) rest (books_of shelf.new) }
    ensures visited { (k : Talk P.Plan) (clock : Source ℤ) (dice : Source (List ℕ)) (f : books.Open)
        → k.limits ≡ limits.now → feed_of token (books_of shelf.old).feeds ≡ Some f
        → Settles k (L.tape link.old) (L.tape link.new)
        (working C.some_state desk.old (books_of shelf.old) clock dice)
        (working C.some_state desk.new (books_of shelf.new) clock dice)
        (at_task (books_of shelf.old) (Visiting f.token f.arms [])) result }
{
    let Ok(()) = shelf.room_to_wait() else {
        return tell_internal::<P, L>(voice, link, token);
    };
    let Some(feed) = shelf.feed(token) else {
        return tell_internal::<P, L>(voice, link, token);
    };
    let batch = feed.batch;
    await_changes(link, feed.arms.as_slice());
    let visited = visit_arms::<P, R, C>(rt, alloc, hall, desk, feed.arms.as_slice(), batch);
    came::<P, R, C, L>(
        rt, alloc, hall, desk, voice, link, limits, shelf, token, batch, visited,
    )
}
