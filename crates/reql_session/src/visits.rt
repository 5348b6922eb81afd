// The visits of a turn.
ghost use Rattle.std.specs.Prelude.{◌≡◌, ℤ, ℕ, List, [], length};
ghost use Rattle.reql_outside.specs.Source.{Source};
ghost use Rattle.reql_hall.specs.Rooms.{Sits};
ghost use Rattle.reql_session_spec.specs.Logins.{Stage};
ghost use Rattle.reql_session_spec.specs.Session.{Visits};
ghost use Rattle.reql_session_spec.specs.Tasks.{Talk};
ghost use Rattle.reql_session_api.specs.World.{Outcome, world_at};
ghost use Rattle.reql_open_cursors.specs.Kept.{books_of};
ghost use Rattle.reql_session.specs.Settling.{working};
ghost use Rattle.reql_session.specs.Keeping.{Keeps};

use crate::visiting::visit_feed;
use crate::voice::Voice;
use reql_catalog::Catalogue;
use reql_hall::{Desk, Hall};
use reql_open_cursors::Shelf;
use reql_outside::Link;
use reql_session_spec::{End, Planning};
use reql_table_spec::{Limits, TableEngine};
use std::alloc::Global;
use std::sync::Wait;

/// Visits the feeds of these tokens in order.
pub(crate) fn visit_all<P: Planning, R: Wait, C: TableEngine + Drop, L: Link>(
    rt: &R,
    alloc: Global,
    hall: &Hall<C, Catalogue>,
    desk: &mut Desk<C, Catalogue>,
    voice: &mut Voice,
    link: &mut L,
    limits: &Limits,
    shelf: &mut Shelf,
    tokens: &[u64],
) -> Option<End>
    requires of_this_hall { Sits hall.now desk.old }
    requires keeps { Keeps (length hall.now.slots) tokens.now (books_of shelf.old) }
    ensures of_this_hall { Sits hall.now desk.new }
    ensures keeps { Keeps (length hall.now.slots) [] (books_of shelf.new) }
    ensures visited { (k : Talk P.Plan) (clock : Source ℤ) (dice : Source (List ℕ)) (held : List ℕ) (stage : Stage)
        → k.limits ≡ limits.now
        → Outcome k (world_at (L.tape link.old) (working C.some_state desk.old (books_of shelf.old) clock dice)
        held stage (Visits tokens.now)) (L.tape link.new)
        (working C.some_state desk.new (books_of shelf.new) clock dice) held stage (Visits []) 0 result }
{
    let mut place = 0;
    while let Some(token) = tokens.get(place) {
        let end = visit_feed::<P, R, C, L>(
            rt, alloc, hall, desk, voice, link, limits, shelf, *token,
        );
        if end.is_some() {
            return end;
        }
        place += 1;
    }
    None
}
