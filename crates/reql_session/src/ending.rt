// The end of a course.
ghost use Rattle.std.specs.Prelude.{◌≡◌, ◌≤◌, ◌++◌, ℤ, ℕ, List, IfOk, false, length};
ghost use Rattle.reql_outside.specs.Source.{Source};
ghost use Rattle.reql_hall.specs.Rooms.{Sits};
ghost use Rattle.reql_session_spec.specs.Requests.{Answer, Unsent, Wanting};
ghost use Rattle.reql_session_spec.specs.Requests as story;
ghost use Rattle.reql_session_spec.specs.Books.{has_token, is_open};
ghost use Rattle.reql_session_spec.specs.Bodies.{body};
ghost use Rattle.reql_session_spec.specs.Tasks.{Talk, batch_size, comes_to, fitted, settle as settle_of};
ghost use Rattle.reql_session_api.specs.Meant.{Course, answered_of, arms_of, next_of};
ghost use Rattle.reql_desk_moves.specs.Acting.{AreThere};
ghost use Rattle.reql_desk_moves.specs.Steps.{after_closing};
ghost use Rattle.reql_open_cursors.specs.Kept.{books_of};
ghost use Rattle.reql_session.specs.Settling.{Settles, working};
ghost use Rattle.reql_session.specs.Ending.{Reaches, on_course};
ghost use Rattle.reql_session.specs.Keeping.{Keeps};

use crate::answers::{write_failed, write_last, write_one};
use crate::opening::{open_cursor, open_feed};
use crate::settling::{settle, settle_internal, settle_silently};
use crate::voice::Voice;
use reql_catalog::Catalogue;
use reql_hall::{Desk, Hall};
use reql_memory::Memory;
use reql_open_cursors::{Open, Shelf};
use reql_outside::Link;
use reql_plan_driver::Met;
use reql_session_api::{Answered, Arm};
use reql_session_spec::{End, Planning};
use reql_table_spec::{Limits, TableEngine};
use std::alloc::Global;
use std::sync::Wait;

// An answer after which nothing of the request is open.
fn end_with<P: Planning, R: Wait, C: TableEngine + Drop, L: Link>(
    rt: &R,
    alloc: Global,
    hall: &Hall<C, Catalogue>,
    desk: &mut Desk<C, Catalogue>,
    voice: &mut Voice,
    link: &mut L,
    shelf: &mut Shelf,
    token: u64,
    arms: &[Arm],
    written: Result<Vec<u8>, Memory>,
) -> Option<End>
    requires of_this_hall { Sits hall.now desk.old }
    requires there { AreThere (length hall.now.slots) arms.now }
    ensures of_this_hall { Sits hall.now desk.new }
    ensures books { books_of shelf.new ≡ after_closing (books_of shelf.old) token (arms_of arms.now) }
    ensures ended { (k : Talk P.Plan) (c : Course P.Plan) (clock : Source ℤ) (dice : Source (List ℕ))
        (to : story.Answered) (a : Answer) → next_of k c ≡ story.Ends to
        → comes_to k (books_of shelf.old) token (batch_size k c.plan) c.found (arms_of arms.now) to
        ≡ settle_of k (books_of shelf.old) token (arms_of arms.now) a
        → IfOk written (λ b. b.items ≡ body (fitted k a))
        → Settles k (L.tape link.old) (L.tape link.new)
        (working C.some_state desk.old (books_of shelf.old) clock dice)
        (working C.some_state desk.new (books_of shelf.new) clock dice)
        (on_course (books_of shelf.old) token c (arms_of arms.now)) result }
{
    settle::<P, R, C, L>(
        rt, alloc, hall, desk, voice, link, shelf, token, arms, written,
    )
}

/// Tells what a course came to, and keeps what is open then. The names' place is that of the books.
pub(crate) fn end_course<P: Planning, R: Wait, C: TableEngine + Drop, L: Link>(
    rt: &R,
    alloc: Global,
    hall: &Hall<C, Catalogue>,
    desk: &mut Desk<C, Catalogue>,
    slots: u32,
    voice: &mut Voice,
    link: &mut L,
    limits: &Limits,
    shelf: &mut Shelf,
    token: u64,
    batch: u32,
    noreply: bool,
    met: &Met,
    to: Answered,
) -> Option<End>
    requires of_this_hall { Sits hall.now desk.old }
    requires slots { slots ≤ length hall.now.slots }
    requires there { AreThere (length hall.now.slots) met.now.opened.items }
    ensures of_this_hall { Sits hall.now desk.new }
    ensures keeps { (rest : List ℕ) → is_open token (books_of shelf.old) ≡ false
        → has_token token ((books_of shelf.old).waiting ++ rest) ≡ false
        → Keeps (length hall.now.slots) rest (books_of shelf.old)
        → Keeps (length hall.now.slots) rest (books_of shelf.new) }
    ensures ended { (k : Talk P.Plan) (c : Course P.Plan) (clock : Source ℤ) (dice : Source (List ℕ))
        → c.noreply ≡ noreply → Reaches k c (answered_of to) limits.now met.now.points.items batch
        → Settles k (L.tape link.old) (L.tape link.new)
        (working C.some_state desk.old (books_of shelf.old) clock dice)
        (working C.some_state desk.new (books_of shelf.new) clock dice)
        (on_course (books_of shelf.old) token c (arms_of met.now.opened.items)) result }
{
    let arms = met.opened.as_slice();
    let points = met.points.as_slice();
    let names = shelf.names;
    match to {
        Answered::Unsent => {
            settle_silently::<P, R, C>(rt, alloc, hall, desk, shelf, token, arms);
            None
        }
        Answered::One(document) => {
            let written = write_one::<P>(alloc, limits, names, points, &document);
            end_with::<P, R, C, L>(
                rt, alloc, hall, desk, voice, link, shelf, token, arms, written,
            )
        }
        Answered::Stream(documents) => {
            if documents.len() > batch as usize {
                return open_cursor::<P, R, C, L>(
                    rt, alloc, hall, desk, voice, link, limits, shelf, token, batch, noreply, met,
                    documents,
                );
            }
            let written = write_last::<P>(alloc, limits, names, points, documents.as_slice());
            end_with::<P, R, C, L>(
                rt, alloc, hall, desk, voice, link, shelf, token, arms, written,
            )
        }
        Answered::Feed { arms, notes, items } => {
            let feed = Open {
                token,
                arms,
                items,
                from: 0,
                batch,
                notes,
            };
            open_feed::<P, R, C, L>(
                rt, alloc, hall, desk, slots, voice, link, limits, shelf, noreply, met, feed,
            )
        }
        Answered::Fault(error, why) => {
            let written = write_failed::<P>(alloc, limits, names, points, error, &why);
            end_with::<P, R, C, L>(
                rt, alloc, hall, desk, voice, link, shelf, token, arms, written,
            )
        }
        Answered::Wanting => {
            settle_internal::<P, R, C, L>(rt, alloc, hall, desk, voice, link, shelf, token, arms)
        }
    }
}
