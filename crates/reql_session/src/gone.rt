// The table of an arm of a feed was dropped: the feed's fault is told, and the feed is closed.
ghost use Rattle.std.specs.Prelude.{◌≡◌, ◌++◌, ◌∷◌, ◌||◌, ℤ, ℕ, nat_eq, List, [], None, Some, IfOk, false, not, option_map, length, drop};
ghost use Rattle.reql_outside.specs.Source.{Source};
ghost use Rattle.reql_hall.specs.Rooms.{Sits};
ghost use Rattle.reql_session_spec.specs.Requests as story;
ghost use Rattle.reql_session_spec.specs.Books as books;
ghost use Rattle.reql_session_spec.specs.Books.{closed, feed_of, has_token};
ghost use Rattle.reql_session_spec.specs.Bodies.{body};
ghost use Rattle.reql_session_spec.specs.Tasks.{Talk, Drops, Telling, at as at_task, close, gone, others};
ghost use Rattle.reql_session_api.specs.Meant.{arm_of, arms_of};
ghost use Rattle.reql_session_api.specs.World.{AtWork};
ghost use Rattle.reql_desk_moves.specs.Steps.{put_points};
ghost use Rattle.reql_open_cursors.specs.Kept.{books_of};
ghost use Rattle.reql_open_cursors.specs.Apart.{IsApart};
ghost use Rattle.reql_open_cursors.specs.There.{AllThere};
ghost use Rattle.reql_session.specs.Settling.{Settles, working};
ghost use Rattle.reql_session.specs.Batches.{is_none_of};
ghost use Rattle.reql_session.specs.Keeping.{Keeps};

use crate::answers::write_failed;
use crate::telling::{after, tell as tell_answer, tell_internal};
use crate::voice::Voice;
use reql_answer::ErrorType;
use reql_catalog::Catalogue;
use reql_datum::{Memory, Point};
use reql_desk_moves::end_arms;
use reql_hall::{Desk, Hall};
use reql_open_cursors::Shelf;
use reql_outside::Link;
use reql_session_api::Arm;
use reql_session_spec::{End, Planning};
use reql_table_spec::{Limits, TableEngine};
use std::alloc::Global;
use std::sync::Wait;

// Whether this arm is another one.
fn is_other(arm: &Arm, slot: u32, number: u64) -> bool
    ensures { result ≡ (not (nat_eq arm.now.slot slot) || not (nat_eq arm.now.feed number)) }
{
    if arm.slot != slot {
        return true;
    }
    arm.feed != number
}

// Leaves out an arm of a feed.
fn keep_others(arms: &mut Vec<Arm>, slot: u32, number: u64)
    ensures { (arm : story.Arm) → arm.slot ≡ slot → arm.feed ≡ number
        → arms_of arms.new.items ≡ others arm (arms_of arms.old.items) }
{
    arms.retain(|arm| is_other(arm, slot, number));
}

// The other arms of a feed were to be closed, and are; then its fault is told.
fn told_gone_of_others<P: Planning, R: Wait, C: TableEngine + Drop, L: Link>(
    rt: &R,
    alloc: Global,
    hall: &Hall<C, Catalogue>,
    desk: &mut Desk<C, Catalogue>,
    voice: &mut Voice,
    link: &mut L,
    shelf: &mut Shelf,
    token: u64,
    slot: u32,
    number: u64,
    written: Result<Vec<u8>, Memory>,
) -> Option<End>
    requires of_this_hall { Sits hall.now desk.old }
    requires there { AllThere (length hall.now.slots) (books_of shelf.old).feeds }
    requires apart { IsApart (books_of shelf.old) }
    ensures of_this_hall { Sits hall.now desk.new }
    ensures keeps { (rest : List ℕ) → has_token token ((books_of shelf.old).waiting ++ rest) ≡ false
        → Keeps (length hall.now.slots) rest (books_of shelf.old)
        → Keeps (length hall.now.slots) rest (books_of shelf.new) }
    ensures told { (k : Talk P.Plan) (clock : Source ℤ) (dice : Source (List ℕ)) (f : books.Open) (a : story.Answer)
        (arm : story.Arm) → feed_of token (books_of shelf.old).feeds ≡ Some f → IfOk written (λ b. b.items ≡ body a)
        → arm.slot ≡ slot → arm.feed ≡ number → is_none_of (others arm f.arms) ≡ false
        → Settles k (L.tape link.old) (L.tape link.new)
        (working C.some_state desk.old (books_of shelf.old) clock dice)
        (working C.some_state desk.new (books_of shelf.new) clock dice)
        (close (books_of shelf.old) token (others arm f.arms) Drops (Some a)) result }
{
    match shelf.remove_feed(token) {
        Some(mut feed) => {
            keep_others(&mut feed.arms, slot, number);
            end_arms::<P, R, C>(rt, alloc, hall, desk, feed.arms.as_slice());
            tell_answer::<P, L>(voice, link, token, written)
        }
        None => tell_internal::<P, L>(voice, link, token),
    }
}

// A feed that has no other arms is closed once its fault was sent.
fn told_gone_alone<P: Planning, L: Link>(
    voice: &mut Voice,
    link: &mut L,
    shelf: &mut Shelf,
    token: u64,
    written: Result<Vec<u8>, Memory>,
) -> Option<End>
    ensures keeps { (slots : ℕ) (rest : List ℕ) → has_token token ((books_of shelf.old).waiting ++ rest) ≡ false
        → Keeps slots rest (books_of shelf.old) → Keeps slots rest (books_of shelf.new) }
    ensures told { (k : Talk P.Plan) (w : AtWork) (a : story.Answer) → IfOk written (λ b. b.items ≡ body a)
        → Settles k (L.tape link.old) (L.tape link.new) w (record w { books = books_of shelf.new })
        (at_task (books_of shelf.old) (Telling token a (closed token (books_of shelf.old)) None None)) result }
{
    let Ok(written) = written else {
        return tell_internal::<P, L>(voice, link, token);
    };
    match voice.say(link, token, written.as_slice()) {
        Ok(whole) => {
            shelf.close(token);
            after(whole)
        }
        Err(_) => tell_internal::<P, L>(voice, link, token),
    }
}

// Whether a feed has another arm than this one.
fn has_others(arms: &[Arm], slot: u32, number: u64) -> bool
    ensures { (arm : story.Arm) → arm.slot ≡ slot → arm.feed ≡ number
        → result ≡ not (is_none_of (others arm (arms_of arms.now))) }
{
    for arm in arms {
        if is_other(arm, slot, number) {
            return true;
        }
    }
    false
}

// The arm at a place.
fn arm_at(arms: &[Arm], at: usize) -> Option<&Arm>
    ensures { (arm : story.Arm) (rest : List story.Arm) → drop at (arms_of arms.now) ≡ arm ∷ rest
        → option_map (λ a. arm_of a.now) result ≡ Some arm }
{
    if at >= arms.len() {
        return None;
    }
    Some(&arms[at])
}

/// The table of the arm at a place was dropped.
pub(crate) fn told_gone<P: Planning, R: Wait, C: TableEngine + Drop, L: Link>(
    rt: &R,
    alloc: Global,
    hall: &Hall<C, Catalogue>,
    desk: &mut Desk<C, Catalogue>,
    voice: &mut Voice,
    link: &mut L,
    limits: &Limits,
    shelf: &mut Shelf,
    token: u64,
    at: usize,
    points: &[Point],
) -> Option<End>
    requires of_this_hall { Sits hall.now desk.old }
    requires there { AllThere (length hall.now.slots) (books_of shelf.old).feeds }
    requires apart { IsApart (books_of shelf.old) }
    ensures of_this_hall { Sits hall.now desk.new }
    ensures keeps { (rest : List ℕ) → has_token token ((books_of shelf.old).waiting ++ rest) ≡ false
        → Keeps (length hall.now.slots) rest (books_of shelf.old)
        → Keeps (length hall.now.slots) rest (books_of shelf.new) }
    ensures told { (k : Talk P.Plan) (clock : Source ℤ) (dice : Source (List ℕ)) (f : books.Open)
        (arm : story.Arm) (arms : List story.Arm) → k.limits ≡ limits.now
        → feed_of token (books_of shelf.old).feeds ≡ Some f → drop at f.arms ≡ arm ∷ arms
        → Settles k (L.tape link.old) (L.tape link.new)
        (working C.some_state desk.old (books_of shelf.old) clock dice)
        (working C.some_state desk.new (books_of shelf.new) clock dice)
        (gone k (books_of shelf.old) f arm (put_points [] points.now) (others arm f.arms)) result }
{
    let names = shelf.names;
    let Some(feed) = shelf.feed(token) else {
        return tell_internal::<P, L>(voice, link, token);
    };
    let Some(arm) = arm_at(feed.arms.as_slice(), at) else {
        return tell_internal::<P, L>(voice, link, token);
    };
    let slot = arm.slot;
    let number = arm.feed;
    let written = write_failed::<P>(
        alloc,
        limits,
        names,
        points,
        ErrorType::OpFailed,
        &arm.dropped,
    );
    if has_others(feed.arms.as_slice(), slot, number) {
        return told_gone_of_others::<P, R, C, L>(
            rt, alloc, hall, desk, voice, link, shelf, token, slot, number, written,
        );
    }
    told_gone_alone::<P, L>(voice, link, shelf, token, written)
}
