// A batch that an arm of a feed gave is told.
ghost use Rattle.std.specs.Prelude.{◌≡◌, ◌<◌, ◌≤◌, ◌+◌, ◌-◌, ◌++◌, ◌∷◌, ℤ, ℕ, List, [], Some, IfOk, false, length, take, drop, map, get_or, min, vec_len, vec_capacity};
ghost use Rattle.reql_datum.specs.View.{plain};
ghost use Rattle.reql_outside.specs.Source.{Source};
ghost use Rattle.reql_hall.specs.Rooms.{Sits};
ghost use Rattle.reql_session_spec.specs.Requests as story;
ghost use Rattle.reql_session_spec.specs.Books as books;
ghost use Rattle.reql_session_spec.specs.Books.{feed_of, has_token, with_left};
ghost use Rattle.reql_session_spec.specs.Tasks.{Talk, batch_of, change_items, is_empty, skipped_item, tell};
ghost use Rattle.reql_session_api.specs.Meant.{no_arm, shown_of};
ghost use Rattle.reql_desk_moves.specs.Steps.{put_points};
ghost use Rattle.reql_open_cursors.specs.Kept.{books_of};
ghost use Rattle.reql_open_cursors.specs.Apart.{IsApart};
ghost use Rattle.reql_open_cursors.specs.There.{AllThere};
ghost use Rattle.reql_session.specs.Settling.{Settles, working};
ghost use Rattle.reql_session.specs.Batches.{skips, items_of, tells_items};
ghost use Rattle.reql_session.specs.Keeping.{Keeps};

use crate::losing::{lose, lose_with};
use crate::points::by_slot;
use crate::skipped::shown_items;
use crate::telling::{after, tell_internal};
use crate::voice::Voice;
use reql_answer::Stamp;
use reql_bodies::{batch as feed_batch, cut_to, is_long};
use reql_catalog::Catalogue;
use reql_datum::{Datum, Memory, Point, Seq};
use reql_hall::{Desk, Hall};
use reql_open_cursors::Shelf;
use reql_outside::Link;
use reql_session_api::Shown;
use reql_session_spec::{End, Planning};
use reql_table_spec::{Limits, TableEngine};
use std::alloc::Global;
use std::sync::Wait;

// How many items of a batch are told at once: the one that tells how many were left out, and so many changes.
fn first_count(skipped: u64, batch: u32, all: usize) -> usize
    ensures { result ≡ min (skips skipped + batch) all }
{
    let skips: usize = if skipped == 0 { 0 } else { 1 };
    match skips.checked_add(batch as usize) {
        Some(most) => { if most < all { most } else { all } }
        None => all,
    }
}

// So many items that stand first.
fn first_ones(shown: &[Shown], count: usize) -> &[Shown]
    requires { count ≤ length shown.now }
    ensures { result.now ≡ take count shown.now }
{
    &shown[..count]
}

// Items are told, with points by slot, of which the first ones are a batch; the others are left.
fn tell_items<P: Planning, R: Wait, C: TableEngine + Drop, L: Link>(
    rt: &R,
    alloc: Global,
    hall: &Hall<C, Catalogue>,
    desk: &mut Desk<C, Catalogue>,
    voice: &mut Voice,
    link: &mut L,
    limits: &Limits,
    shelf: &mut Shelf,
    token: u64,
    shown: Vec<Shown>,
    count: usize,
    points: &[Point],
) -> Option<End>
    requires of_this_hall { Sits hall.now desk.old }
    requires there { AllThere (length hall.now.slots) (books_of shelf.old).feeds }
    requires apart { IsApart (books_of shelf.old) }
    requires count { count ≤ length shown.items }
    ensures of_this_hall { Sits hall.now desk.new }
    ensures keeps { (rest : List ℕ) → has_token token ((books_of shelf.old).waiting ++ rest) ≡ false
        → Keeps (length hall.now.slots) rest (books_of shelf.old)
        → Keeps (length hall.now.slots) rest (books_of shelf.new) }
    ensures told { (k : Talk P.Plan) (clock : Source ℤ) (dice : Source (List ℕ)) (f : books.Open)
        → k.limits ≡ limits.now → feed_of token (books_of shelf.old).feeds ≡ Some f
        → Settles k (L.tape link.old) (L.tape link.new)
        (working C.some_state desk.old (books_of shelf.old) clock dice)
        (working C.some_state desk.new (books_of shelf.new) clock dice)
        (tell k (books_of shelf.old) token
        (story.Batch f.notes (map (shown_of f.arms) (take count shown.items))
        (Some (story.stamped (books_of shelf.old).names points.now)))
        (with_left token (map (shown_of f.arms) (drop count shown.items)) (books_of shelf.old)) f.arms (Some f.arms)) result }
{
    let names = shelf.names;
    let Some(feed) = shelf.feed(token) else {
        return tell_internal::<P, L>(voice, link, token);
    };
    let stamp = Stamp {
        catalogue: names,
        points,
    };
    let batch = first_ones(shown.as_slice(), count);
    let Ok(written) = feed_batch(alloc, feed.notes.as_slice(), batch, Some(stamp)) else {
        return lose::<P, R, C, L>(rt, alloc, hall, desk, voice, link, shelf, token);
    };
    if is_long::<P>(limits, written.as_slice()) {
        let cut = cut_to::<P>(alloc, limits, Some(stamp));
        return lose_with::<P, R, C, L>(rt, alloc, hall, desk, voice, link, shelf, token, cut);
    }
    match voice.say(link, token, written.as_slice()) {
        Ok(whole) => {
            shelf.put_left(token, shown, count);
            after(whole)
        }
        Err(_) => lose::<P, R, C, L>(rt, alloc, hall, desk, voice, link, shelf, token),
    }
}

// Whether a batch shows nothing.
fn shows_nothing(skipped: u64, items: &[(u64, Datum)]) -> bool
    ensures { (at : ℕ) (arm : story.Arm) (last : ℕ)
        → result ≡ is_empty (items_of at arm skipped last (map (λ i. (i.0, plain i.1)) items.now)) }
{
    if skipped != 0 {
        return false;
    }
    items.is_empty()
}

// A place as items tell it.
fn number_of(at: usize) -> Result<u32, Memory>
    ensures { IfOk result (λ place. place ≡ at) }
{
    match u32::try_from(at) {
        Ok(place) => Ok(place),
        Err(_) => Err(Memory),
    }
}

// A batch that the arm at a place gave and that shows something.
fn told_some<P: Planning, R: Wait, C: TableEngine + Drop, L: Link>(
    rt: &R,
    alloc: Global,
    hall: &Hall<C, Catalogue>,
    desk: &mut Desk<C, Catalogue>,
    voice: &mut Voice,
    link: &mut L,
    limits: &Limits,
    shelf: &mut Shelf,
    token: u64,
    batch: u32,
    at: usize,
    skipped: u64,
    last: u64,
    items: Seq<(u64, Datum)>,
    points: &[Point],
) -> Option<End>
    requires of_this_hall { Sits hall.now desk.old }
    requires there { AllThere (length hall.now.slots) (books_of shelf.old).feeds }
    requires apart { IsApart (books_of shelf.old) }
    ensures of_this_hall { Sits hall.now desk.new }
    ensures keeps { (rest : List ℕ) → has_token token ((books_of shelf.old).waiting ++ rest) ≡ false
        → Keeps (length hall.now.slots) rest (books_of shelf.old)
        → Keeps (length hall.now.slots) rest (books_of shelf.new) }
    ensures told { (k : Talk P.Plan) (clock : Source ℤ) (dice : Source (List ℕ)) (f : books.Open)
        → k.limits ≡ limits.now → feed_of token (books_of shelf.old).feeds ≡ Some f
        → Settles k (L.tape link.old) (L.tape link.new)
        (working C.some_state desk.old (books_of shelf.old) clock dice)
        (working C.some_state desk.new (books_of shelf.new) clock dice)
        (tells_items k (books_of shelf.old) token f batch (put_points [] points.now)
        (skipped_item at (get_or f.arms at no_arm) skipped last)
        (change_items at (get_or f.arms at no_arm) (map (λ i. (i.0, plain i.1)) items))) result }
{
    let Ok(place) = number_of(at) else {
        return lose::<P, R, C, L>(rt, alloc, hall, desk, voice, link, shelf, token);
    };
    let Ok(points) = by_slot(alloc, points) else {
        return lose::<P, R, C, L>(rt, alloc, hall, desk, voice, link, shelf, token);
    };
    let Ok(shown) = shown_items(alloc, place, skipped, last, items) else {
        return lose::<P, R, C, L>(rt, alloc, hall, desk, voice, link, shelf, token);
    };
    let count = first_count(skipped, batch, shown.len());
    tell_items::<P, R, C, L>(
        rt,
        alloc,
        hall,
        desk,
        voice,
        link,
        limits,
        shelf,
        token,
        shown,
        count,
        points.as_slice(),
    )
}

/// A batch that the arm at a place gave. One that shows nothing leaves the CONTINUE waiting, for which there is room.
pub(crate) fn told_batch<P: Planning, R: Wait, C: TableEngine + Drop, L: Link>(
    rt: &R,
    alloc: Global,
    hall: &Hall<C, Catalogue>,
    desk: &mut Desk<C, Catalogue>,
    voice: &mut Voice,
    link: &mut L,
    limits: &Limits,
    shelf: &mut Shelf,
    token: u64,
    batch: u32,
    at: usize,
    skipped: u64,
    last: u64,
    items: Seq<(u64, Datum)>,
    points: &[Point],
) -> Option<End>
    requires of_this_hall { Sits hall.now desk.old }
    requires there { AllThere (length hall.now.slots) (books_of shelf.old).feeds }
    requires apart { IsApart (books_of shelf.old) }
    requires room { vec_len shelf.old.waiting < vec_capacity shelf.old.waiting }
    ensures of_this_hall { Sits hall.now desk.new }
    ensures keeps { (rest : List ℕ) (f : books.Open) → feed_of token (books_of shelf.old).feeds ≡ Some f → f.left ≡ []
        → has_token token ((books_of shelf.old).waiting ++ rest) ≡ false
        → Keeps (length hall.now.slots) rest (books_of shelf.old)
        → Keeps (length hall.now.slots) rest (books_of shelf.new) }
    ensures told { (k : Talk P.Plan) (clock : Source ℤ) (dice : Source (List ℕ)) (f : books.Open)
        (arm : story.Arm) (arms : List story.Arm) → k.limits ≡ limits.now → f.batch ≡ batch
        → feed_of token (books_of shelf.old).feeds ≡ Some f → drop at f.arms ≡ arm ∷ arms
        → Settles k (L.tape link.old) (L.tape link.new)
        (working C.some_state desk.old (books_of shelf.old) clock dice)
        (working C.some_state desk.new (books_of shelf.new) clock dice)
        (batch_of k (books_of shelf.old) f (length f.arms - length (arm ∷ arms)) arm (put_points [] points.now)
        skipped last (map (λ i. (i.0, plain i.1)) items)) result }
{
    if shows_nothing(skipped, items.as_slice()) {
        shelf.wait(token);
        return None;
    }
    told_some::<P, R, C, L>(
        rt, alloc, hall, desk, voice, link, limits, shelf, token, batch, at, skipped, last, items,
        points,
    )
}
