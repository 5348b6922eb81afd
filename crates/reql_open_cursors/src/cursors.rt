// The open cursors, in the order of opening.
ghost use Rattle.std.specs.Prelude.{◌≡◌, ◌<◌, None, Some, true, length, map, filter, not, nat_eq, slice_index_or, drop, option_map, MatchOption};
ghost use Rattle.std.specs.Prelude.{set};
ghost use Rattle.reql_session_spec.specs.Books.{cursor_of};
ghost use Rattle.reql_session_spec.specs.Books as books;
ghost use Rattle.reql_open_cursors.specs.Apart.{AllApart, cursors_with};
ghost use Rattle.reql_open_cursors.specs.Kept.{cursor_kept, cursor_on};

use crate::later::later;
use crate::open::Cursor;

/// The cursor of a token.
pub(crate) fn find(cursors: &[Cursor], token: u64) -> Option<&Cursor>
    ensures { option_map (λ c. cursor_kept c.now) result ≡ cursor_of token (map cursor_kept cursors.now) }
{
    let mut place = 0;
    while let Some(cursor) = cursors.get(place) {
        if cursor.token == token {
            return Some(cursor);
        }
        place += 1;
    }
    None
}

/// The place of the cursor of a token.
pub(crate) fn place_of(cursors: &[Cursor], token: u64) -> Option<usize>
    ensures none { MatchOption result (cursor_of token (map cursor_kept cursors.now) ≡ None)
        (λ place. place < length cursors.now) }
    ensures some { MatchOption result (Unit {0}) (λ place. (e : _)
        → nat_eq (slice_index_or cursors.now place e).token token ≡ true) }
    ensures there { MatchOption result (Unit {0}) (λ place. (e : _)
        → cursor_of token (map cursor_kept cursors.now) ≡ Some (cursor_kept (slice_index_or cursors.now place e))) }
{
    for place in 0..cursors.len() {
        if cursors[place].token == token {
            return Some(place);
        }
    }
    None
}

/// Leaves out the cursors of a token.
pub(crate) fn forget(cursors: &mut Vec<Cursor>, token: u64)
    ensures { cursors.new.items ≡ filter (λ c. not (nat_eq c.token token)) cursors.old.items }
{
    cursors.retain(|cursor| cursor.token != token);
}

// So many are told of what is kept.
fn told(cursor: &mut Cursor, from: usize)
    ensures { cursor.new ≡ record cursor.old { from = from } }
{
    cursor.from = from;
}

// The first ones that are left of what stands at a place are told.
fn step_at(cursors: &mut Vec<Cursor>, place: usize)
    requires { place < length cursors.old.items }
    ensures { (e : Cursor) → cursors.new.items ≡ set cursors.old.items place
        (cursor_on (slice_index_or cursors.old.items place e)) }
{
    let cursor = &cursors[place];
    let from = later(cursor.from, cursor.batch, cursor.items.len());
    told(&mut cursors[place], from);
}

/// The first ones that are left of a cursor are told.
pub(crate) fn advance(cursors: &mut Vec<Cursor>, token: u64)
    ensures { (x : books.Cursor) → AllApart (map (λ y. y.token) (map cursor_kept cursors.old.items))
        → cursor_of token (map cursor_kept cursors.old.items) ≡ Some x
        → map cursor_kept cursors.new.items ≡ cursors_with token (drop x.batch x.rest) (map cursor_kept cursors.old.items) }
{
    match place_of(cursors.as_slice(), token) {
        Some(place) => step_at(cursors, place),
        None => {}
    }
}
