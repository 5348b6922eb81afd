// The entries of a history, which stand in two parts.
ghost use Rattle.std.specs.Prelude.{◌≡◌, [], ◌∷◌, ◌++◌, ◌+◌, ◌<◌, ◌^◌, drop, MatchOption, OnSome};

use reql_table_spec::Entry;

fn at(part: &[Entry], place: usize) -> Option<&Entry>
    ensures rest { MatchOption result (drop place part.now ≡ [])
        (λ e. drop place part.now ≡ e.now ∷ drop (place + 1) part.now) }
    ensures fits { OnSome result (place < 2 ^ 63) }
{
    part.get(place)
}

/// The entry at a place, from 0.
#[tactic(auto, using(crate::proofs::Parts::in_first, crate::proofs::Parts::in_second))]
pub(crate) fn entry_at<'a>(
    older: &'a [Entry],
    newer: &'a [Entry],
    place: usize,
) -> Option<&'a Entry>
    ensures rest { MatchOption result (drop place (older.now ++ newer.now) ≡ [])
        (λ e. drop place (older.now ++ newer.now)
        ≡ e.now ∷ drop (place + 1) (older.now ++ newer.now)) }
    ensures fits { OnSome result (place + 1 < 2 ^ 64) }
{
    let first = older.len();
    if place < first {
        return at(older, place);
    }
    at(newer, place - first)
}
