// A feed is lost: it is closed, and its last answer is told.
ghost use Rattle.std.specs.Prelude.{◌≡◌, ◌++◌, ℤ, ℕ, List, Some, IfOk, false, length};
ghost use Rattle.reql_outside.specs.Source.{Source};
ghost use Rattle.reql_hall.specs.Rooms.{Sits};
ghost use Rattle.reql_session_spec.specs.Requests as story;
ghost use Rattle.reql_session_spec.specs.Books as books;
ghost use Rattle.reql_session_spec.specs.Books.{closed, feed_of, has_token};
ghost use Rattle.reql_session_spec.specs.Bodies.{body};
ghost use Rattle.reql_session_spec.specs.Tasks.{Talk, Settled, close};
ghost use Rattle.reql_open_cursors.specs.Kept.{books_of};
ghost use Rattle.reql_open_cursors.specs.Apart.{IsApart};
ghost use Rattle.reql_open_cursors.specs.There.{AllThere};
ghost use Rattle.reql_session.specs.Settling.{Settles, working};
ghost use Rattle.reql_session.specs.Keeping.{Keeps};

use crate::settling::{finish, finish_internal};
use crate::telling::tell_internal;
use crate::voice::Voice;
use reql_catalog::Catalogue;
use reql_datum::Memory;
use reql_hall::{Desk, Hall};
use reql_open_cursors::Shelf;
use reql_outside::Link;
use reql_session_spec::{End, Planning};
use reql_table_spec::TableEngine;
use std::alloc::Global;
use std::sync::Wait;

/// The feed of a token is closed, since memory is wanted for what it gave.
pub(crate) fn lose<P: Planning, R: Wait, C: TableEngine + Drop, L: Link>(
    rt: &R,
    alloc: Global,
    hall: &Hall<C, Catalogue>,
    desk: &mut Desk<C, Catalogue>,
    voice: &mut Voice,
    link: &mut L,
    shelf: &mut Shelf,
    token: u64,
) -> Option<End>
    requires of_this_hall { Sits hall.now desk.old }
    requires there { AllThere (length hall.now.slots) (books_of shelf.old).feeds }
    requires apart { IsApart (books_of shelf.old) }
    ensures of_this_hall { Sits hall.now desk.new }
    ensures keeps { (rest : List ℕ) → has_token token ((books_of shelf.old).waiting ++ rest) ≡ false
        → Keeps (length hall.now.slots) rest (books_of shelf.old)
        → Keeps (length hall.now.slots) rest (books_of shelf.new) }
    ensures lost { (k : Talk P.Plan) (clock : Source ℤ) (dice : Source (List ℕ)) (f : books.Open)
        → feed_of token (books_of shelf.old).feeds ≡ Some f
        → Settles k (L.tape link.old) (L.tape link.new)
        (working C.some_state desk.old (books_of shelf.old) clock dice)
        (working C.some_state desk.new (books_of shelf.new) clock dice)
        (close (closed token (books_of shelf.old)) token f.arms Settled (Some story.Internal)) result }
{
    match shelf.remove_feed(token) {
        Some(feed) => {
            let arms = feed.arms.as_slice();
            finish_internal::<P, R, C, L>(rt, alloc, hall, desk, voice, link, token, arms)
        }
        None => tell_internal::<P, L>(voice, link, token),
    }
}

/// The feed of a token is closed, and an answer is told.
pub(crate) fn lose_with<P: Planning, R: Wait, C: TableEngine + Drop, L: Link>(
    rt: &R,
    alloc: Global,
    hall: &Hall<C, Catalogue>,
    desk: &mut Desk<C, Catalogue>,
    voice: &mut Voice,
    link: &mut L,
    shelf: &mut Shelf,
    token: u64,
    written: Result<Vec<u8>, Memory>,
) -> Option<End>
    requires of_this_hall { Sits hall.now desk.old }
    requires there { AllThere (length hall.now.slots) (books_of shelf.old).feeds }
    requires apart { IsApart (books_of shelf.old) }
    ensures of_this_hall { Sits hall.now desk.new }
    ensures keeps { (rest : List ℕ) → has_token token ((books_of shelf.old).waiting ++ rest) ≡ false
        → Keeps (length hall.now.slots) rest (books_of shelf.old)
        → Keeps (length hall.now.slots) rest (books_of shelf.new) }
    ensures lost { (k : Talk P.Plan) (clock : Source ℤ) (dice : Source (List ℕ)) (f : books.Open) (a : story.Answer)
        → feed_of token (books_of shelf.old).feeds ≡ Some f → IfOk written (λ b. b.items ≡ body a)
        → Settles k (L.tape link.old) (L.tape link.new)
        (working C.some_state desk.old (books_of shelf.old) clock dice)
        (working C.some_state desk.new (books_of shelf.new) clock dice)
        (close (closed token (books_of shelf.old)) token f.arms Settled (Some a)) result }
{
    match shelf.remove_feed(token) {
        Some(feed) => {
            let arms = feed.arms.as_slice();
            finish::<P, R, C, L>(rt, alloc, hall, desk, voice, link, token, arms, written)
        }
        None => tell_internal::<P, L>(voice, link, token),
    }
}
