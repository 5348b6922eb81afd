// Half of the entries that are kept, with what they go on from.
ghost use Rattle.std.specs.Prelude.{◌≡◌, ◌<◌, ◌≤◌, ◌+◌, ◌^◌, ◌++◌, ◌∷◌, ◌/◌, [], length, nat_lt, not, true, Some, None, IfOk, OnOk};
ghost use Rattle.reql_tail.specs.Halves.{all_entries, turns, has_room, last_half, AreSame, IsAdded, IsTurned};

use crate::led::Led;
use reql_memory::Memory;
use std::alloc::Global;

/// Entries, and the value that they lead on.
#[derive(Drop)]
pub(crate) struct Half<B, E> {
    pub(crate) start: B,
    pub(crate) entries: Vec<E>,
}

/// A half that starts where a value stands, with room for its first entry.
pub(crate) fn begun<B: Led>(alloc: Global, now: &B) -> Result<Half<B, B::Entry>, Memory>
    ensures start { IfOk result (λ h. h.start ≡ now.now) }
    ensures none { IfOk result (λ h. h.entries.items ≡ []) }
    ensures room { IfOk result (λ h. has_room h ≡ true) }
{
    let entries = Vec::with_capacity(alloc, 1)?;
    let start = now.share()?;
    Ok(Half { start, entries })
}

/// Whether the next entry begins a half.
pub(crate) fn begins<B, E>(most: u32, older: &Half<B, E>, newer: &Option<Half<B, E>>) -> bool
    requires { length (all_entries older.now newer.now) < 2 ^ 64 }
    ensures { result ≡ turns most older.now newer.now }
{
    match newer {
        None => older.entries.len() >= most as usize / 2,
        Some(half) => older.entries.len() + half.entries.len() >= most as usize,
    }
}

/// Makes room for an entry that begins no half.
pub(crate) fn make_room<B, E>(
    older: &mut Half<B, E>,
    newer: &mut Option<Half<B, E>>,
) -> Result<(), Memory>
    ensures room { IfOk result (λ _. has_room (last_half older.new newer.new) ≡ true) }
    ensures same { AreSame older.old newer.old older.new newer.new }
{
    match newer {
        None => {
            older.entries.reserve(1)?;
            Ok(())
        }
        Some(half) => {
            half.entries.reserve(1)?;
            Ok(())
        }
    }
}

/// Adds an entry that begins no half.
pub(crate) fn add<B, E>(older: &mut Half<B, E>, newer: &mut Option<Half<B, E>>, entry: E)
    requires { has_room (last_half older.old newer.old) ≡ true }
    ensures { IsAdded older.old newer.old entry older.new newer.new }
{
    match newer {
        None => older.entries.push_reserved(entry),
        Some(half) => half.entries.push_reserved(entry),
    }
}

/// Adds an entry that begins a half: the newer half becomes the older one, if there are two.
pub(crate) fn turn<B: Drop, E: Drop>(
    older: &mut Half<B, E>,
    newer: &mut Option<Half<B, E>>,
    next: Half<B, E>,
    entry: E,
)
    requires { has_room next ≡ true }
    ensures { IsTurned older.old newer.old next entry older.new newer.new }
{
    let mut next = next;
    next.entries.push_reserved(entry);
    if let Some(half) = newer.replace(next) {
        *older = half;
    }
}
