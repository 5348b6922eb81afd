// The end of a task: arms are closed, and then an answer is told, or none.
ghost use Rattle.std.specs.Prelude.{◌≡◌, ℤ, ℕ, List, None, Some, IfOk, length, cond};
ghost use Rattle.reql_outside.specs.Source.{Source};
ghost use Rattle.reql_outside.specs.Tape.{Tape};
ghost use Rattle.reql_hall.specs.Rooms.{Sits};
ghost use Rattle.reql_answer.specs.Body.{stamped_by};
ghost use Rattle.reql_session_spec.specs.Requests.{Answer, Internal};
ghost use Rattle.reql_session_spec.specs.Books.{Books, closed};
ghost use Rattle.reql_session_spec.specs.Bodies.{body};
ghost use Rattle.reql_session_spec.specs.Tasks.{Talk, Settled, close, seen_in};
ghost use Rattle.reql_session_spec.specs.Tasks as tasks;
ghost use Rattle.reql_session_api.specs.Meant.{arms_of};
ghost use Rattle.reql_desk_moves.specs.Acting.{AreThere};
ghost use Rattle.reql_desk_moves.specs.Steps.{after_closing};
ghost use Rattle.reql_open_cursors.specs.Kept.{books_of};
ghost use Rattle.reql_session.specs.Settling.{Settles, working};

use crate::telling::{tell, tell_internal};
use crate::voice::Voice;
use reql_catalog::Catalogue;
use reql_desk_moves::{close_arms, end_arms};
use reql_hall::{Desk, Hall};
use reql_memory::Memory;
use reql_open_cursors::Shelf;
use reql_outside::Link;
use reql_session_api::Arm;
use reql_session_spec::{End, Planning};
use reql_table_spec::TableEngine;
use std::alloc::Global;
use std::sync::Wait;

/// The books after these arms of a token were closed.
pub(crate) fn close_if_any(shelf: &mut Shelf, token: u64, arms: &[Arm])
    ensures { books_of shelf.new ≡ after_closing (books_of shelf.old) token (arms_of arms.now) }
{
    if arms.len() > 0 {
        shelf.close(token);
    }
}

/// Closes the arms that a request opened, and tells its answer.
pub(crate) fn settle<P: Planning, R: Wait, C: TableEngine + Drop, L: Link>(
    rt: &R,
    alloc: Global,
    hall: &Hall<C, Catalogue>,
    desk: &mut Desk<C, Catalogue>,
    voice: &mut Voice,
    link: &mut L,
    shelf: &mut Shelf,
    token: u64,
    arms: &[Arm],
    written: Result<Vec<u8>, Memory>,
) -> Option<End>
    requires of_this_hall { Sits hall.now desk.old }
    requires there { AreThere (length hall.now.slots) arms.now }
    ensures of_this_hall { Sits hall.now desk.new }
    ensures books { books_of shelf.new ≡ after_closing (books_of shelf.old) token (arms_of arms.now) }
    ensures settled { (k : Talk P.Plan) (clock : Source ℤ) (dice : Source (List ℕ)) (a : Answer)
        → IfOk written (λ b. b.items ≡ body a) → Settles k (L.tape link.old) (L.tape link.new)
        (working C.some_state desk.old (books_of shelf.old) clock dice)
        (working C.some_state desk.new (books_of shelf.new) clock dice)
        (close (books_of shelf.old) token (arms_of arms.now) Settled (Some a)) result }
{
    end_arms::<P, R, C>(rt, alloc, hall, desk, arms);
    close_if_any(shelf, token, arms);
    tell::<P, L>(voice, link, token, written)
}

/// Closes the arms that a request opened, and tells that memory is wanted.
pub(crate) fn settle_internal<P: Planning, R: Wait, C: TableEngine + Drop, L: Link>(
    rt: &R,
    alloc: Global,
    hall: &Hall<C, Catalogue>,
    desk: &mut Desk<C, Catalogue>,
    voice: &mut Voice,
    link: &mut L,
    shelf: &mut Shelf,
    token: u64,
    arms: &[Arm],
) -> Option<End>
    requires of_this_hall { Sits hall.now desk.old }
    requires there { AreThere (length hall.now.slots) arms.now }
    ensures of_this_hall { Sits hall.now desk.new }
    ensures books { books_of shelf.new ≡ after_closing (books_of shelf.old) token (arms_of arms.now) }
    ensures settled { (k : Talk P.Plan) (clock : Source ℤ) (dice : Source (List ℕ))
        → Settles k (L.tape link.old) (L.tape link.new)
        (working C.some_state desk.old (books_of shelf.old) clock dice)
        (working C.some_state desk.new (books_of shelf.new) clock dice)
        (close (books_of shelf.old) token (arms_of arms.now) Settled (Some Internal)) result }
{
    end_arms::<P, R, C>(rt, alloc, hall, desk, arms);
    close_if_any(shelf, token, arms);
    tell_internal::<P, L>(voice, link, token)
}

/// Closes the arms that a request opened, and tells nothing.
pub(crate) fn settle_silently<P: Planning, R: Wait, C: TableEngine + Drop>(
    rt: &R,
    alloc: Global,
    hall: &Hall<C, Catalogue>,
    desk: &mut Desk<C, Catalogue>,
    shelf: &mut Shelf,
    token: u64,
    arms: &[Arm],
)
    requires of_this_hall { Sits hall.now desk.old }
    requires there { AreThere (length hall.now.slots) arms.now }
    ensures of_this_hall { Sits hall.now desk.new }
    ensures books { books_of shelf.new ≡ after_closing (books_of shelf.old) token (arms_of arms.now) }
    ensures settled { (k : Talk P.Plan) (t : Tape) (clock : Source ℤ) (dice : Source (List ℕ))
        → Settles k t t (working C.some_state desk.old (books_of shelf.old) clock dice)
        (working C.some_state desk.new (books_of shelf.new) clock dice)
        (close (books_of shelf.old) token (arms_of arms.now) Settled None) None }
{
    end_arms::<P, R, C>(rt, alloc, hall, desk, arms);
    close_if_any(shelf, token, arms);
}

/// Closes the arms that a request opened for which memory is wanted, and tells that, where an answer is wanted.
pub(crate) fn give_up<P: Planning, R: Wait, C: TableEngine + Drop, L: Link>(
    rt: &R,
    alloc: Global,
    hall: &Hall<C, Catalogue>,
    desk: &mut Desk<C, Catalogue>,
    voice: &mut Voice,
    link: &mut L,
    shelf: &mut Shelf,
    token: u64,
    arms: &[Arm],
    noreply: bool,
) -> Option<End>
    requires of_this_hall { Sits hall.now desk.old }
    requires there { AreThere (length hall.now.slots) arms.now }
    ensures of_this_hall { Sits hall.now desk.new }
    ensures books { books_of shelf.new ≡ after_closing (books_of shelf.old) token (arms_of arms.now) }
    ensures settled { (k : Talk P.Plan) (clock : Source ℤ) (dice : Source (List ℕ))
        → Settles k (L.tape link.old) (L.tape link.new)
        (working C.some_state desk.old (books_of shelf.old) clock dice)
        (working C.some_state desk.new (books_of shelf.new) clock dice)
        (close (books_of shelf.old) token (arms_of arms.now) Settled (cond noreply None (Some Internal))) result }
{
    if noreply {
        settle_silently::<P, R, C>(rt, alloc, hall, desk, shelf, token, arms);
        return None;
    }
    settle_internal::<P, R, C, L>(rt, alloc, hall, desk, voice, link, shelf, token, arms)
}

/// Closes the arms of a token that has nothing open any more, and tells an answer.
pub(crate) fn finish<P: Planning, R: Wait, C: TableEngine + Drop, L: Link>(
    rt: &R,
    alloc: Global,
    hall: &Hall<C, Catalogue>,
    desk: &mut Desk<C, Catalogue>,
    voice: &mut Voice,
    link: &mut L,
    token: u64,
    arms: &[Arm],
    written: Result<Vec<u8>, Memory>,
) -> Option<End>
    requires of_this_hall { Sits hall.now desk.old }
    requires there { AreThere (length hall.now.slots) arms.now }
    ensures of_this_hall { Sits hall.now desk.new }
    ensures finished { (k : Talk P.Plan) (b : Books) (clock : Source ℤ) (dice : Source (List ℕ)) (a : Answer)
        → IfOk written (λ w. w.items ≡ body a) → Settles k (L.tape link.old) (L.tape link.new)
        (working C.some_state desk.old (closed token b) clock dice)
        (working C.some_state desk.new (closed token b) clock dice)
        (close (closed token b) token (arms_of arms.now) Settled (Some a)) result }
{
    close_arms::<P, R, C>(rt, alloc, hall, desk, arms, 0);
    tell::<P, L>(voice, link, token, written)
}

/// Closes the arms of a token that has nothing open any more, and tells that memory is wanted.
pub(crate) fn finish_internal<P: Planning, R: Wait, C: TableEngine + Drop, L: Link>(
    rt: &R,
    alloc: Global,
    hall: &Hall<C, Catalogue>,
    desk: &mut Desk<C, Catalogue>,
    voice: &mut Voice,
    link: &mut L,
    token: u64,
    arms: &[Arm],
) -> Option<End>
    requires of_this_hall { Sits hall.now desk.old }
    requires there { AreThere (length hall.now.slots) arms.now }
    ensures of_this_hall { Sits hall.now desk.new }
    ensures finished { (k : Talk P.Plan) (b : Books) (clock : Source ℤ) (dice : Source (List ℕ))
        → Settles k (L.tape link.old) (L.tape link.new)
        (working C.some_state desk.old (closed token b) clock dice)
        (working C.some_state desk.new (closed token b) clock dice)
        (close (closed token b) token (arms_of arms.now) Settled (Some Internal)) result }
{
    close_arms::<P, R, C>(rt, alloc, hall, desk, arms, 0);
    tell_internal::<P, L>(voice, link, token)
}
