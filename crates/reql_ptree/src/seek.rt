// Where a key stands among pairs by rising key.
ghost use Rattle.std.specs.Prelude.{◌≡◌, ◌+◌, ◌≤◌, length, map, IfOk, IfErr, option_map, slice_get};
ghost use Rattle.std.specs.List.Sorted.{IsSearchInRange};
ghost use Rattle.std.specs.Map.{keys_of};
ghost use Rattle.reql_datum.specs.Order.{order};
ghost use Rattle.reql_memory.specs.Sorted.{IsHitBy, IsGapBy};
ghost use Rattle.reql_datum.specs.View.{plain};
ghost use Rattle.reql_ptree.specs.Chunk.{pair, IsChunk};
ghost use Rattle.reql_ptree.specs.Next.{next_of, prev_of, IsCut};
ghost use Rattle.reql_ptree.specs.Pairs.{AreRising, find};
ghost use Rattle.reql_ptree.specs.Seen.{pair_seen};
ghost use Rattle.reql_ptree.specs.Way.{pairs_in};
ghost use Rattle.reql_ptree.specs.Tall.{digits};

use crate::chunk::{Chunk, Pair};
use crate::steps::Steps;
use reql_datum::{Datum, compare};
use std::cmp::Ordering;

/// Where the key is, or where it would stand, by halving. A step is a pair looked at.
pub(crate) fn seek<L>(pairs: &[Pair], key: &Datum, steps: &mut Steps<L>) -> Result<usize, usize>
    requires rising { AreRising (map pair pairs.now) }
    ensures hit { IfOk result (IsHitBy order (keys_of (map pair pairs.now)) (plain key.now)) }
    ensures gap { IfErr result (IsGapBy order (keys_of (map pair pairs.now)) (plain key.now)) }
    ensures in_range { IsSearchInRange result (length pairs.now) }
    ensures counted { steps.new ≤ steps.old + digits (length pairs.now) }
{
    let mut low = 0;
    let mut high = pairs.len();
    while low < high {
        let middle = low + (high - low) / 2;
        steps.tick();
        match compare(&pairs[middle].key, key) {
            Ordering::Equal => return Ok(middle),
            Ordering::Less => low = middle + 1,
            Ordering::Greater => high = middle,
        }
    }
    Err(low)
}

/// The same among the pairs of a chunk, in four steps at most.
pub(crate) fn seek_few<L>(pairs: &[Pair], key: &Datum, steps: &mut Steps<L>) -> Result<usize, usize>
    requires chunk { IsChunk (map pair pairs.now) }
    ensures hit { IfOk result (IsHitBy order (keys_of (map pair pairs.now)) (plain key.now)) }
    ensures gap { IfErr result (IsGapBy order (keys_of (map pair pairs.now)) (plain key.now)) }
    ensures in_range { IsSearchInRange result (length pairs.now) }
    ensures counted { steps.new ≤ steps.old + 4 }
{
    seek(pairs, key, steps)
}

/// The value at a key.
pub(crate) fn chunk_value<'a, L>(
    chunk: &'a Chunk,
    key: &Datum,
    steps: &mut Steps<L>,
) -> Option<&'a Datum>
    ensures found { option_map (λ d. plain d.now) result ≡ find (plain key.now) chunk.now }
    ensures counted { steps.new ≤ steps.old + digits (length chunk.now) }
    ensures chunk { IsChunk chunk.now }
{
    let pairs = chunk.pairs();
    match seek(pairs, key, steps) {
        Ok(place) => {
            let pair = &pairs[place];
            Some(&pair.value)
        }
        Err(_) => None,
    }
}

// How many keys are behind this one, which counts itself if `at` says so.
pub(crate) fn cut<L>(pairs: &[Pair], key: &Datum, at: bool, steps: &mut Steps<L>) -> usize
    requires rising { AreRising (map pair pairs.now) }
    ensures cut { IsCut (plain key.now) at (map pair pairs.now) result }
    ensures in_range { result ≤ length pairs.now }
    ensures counted { steps.new ≤ steps.old + digits (length pairs.now) }
{
    match seek(pairs, key, steps) {
        Ok(place) => { if at { place + 1 } else { place } }
        Err(place) => place,
    }
}

/// How many keys of a chunk are behind this one, which counts itself if `at`.
pub(crate) fn chunk_cut<L>(chunk: &Chunk, key: &Datum, at: bool, steps: &mut Steps<L>) -> u64
    ensures cut { IsCut (plain key.now) at chunk.now result }
    ensures in_range { result ≤ length chunk.now }
    ensures counted { steps.new ≤ steps.old + digits (length chunk.now) }
    ensures chunk { IsChunk chunk.now }
{
    cut(chunk.pairs(), key, at, steps) as u64
}

/// The first pair at or above a key, past the key itself if `past`.
pub(crate) fn chunk_next<'a, L>(
    chunk: &'a Chunk,
    key: &Datum,
    past: bool,
    steps: &mut Steps<L>,
) -> Option<(&'a Datum, &'a Datum)>
    ensures found { option_map pair_seen result ≡ next_of (plain key.now) past chunk.now }
    ensures counted { steps.new ≤ steps.old + digits (length chunk.now) }
    ensures chunk { IsChunk chunk.now }
{
    let pairs = chunk.pairs();
    let place = cut(pairs, key, past, steps);
    pair_at(pairs, place)
}

/// The last pair at or below a key, past the key itself if `past`.
pub(crate) fn chunk_prev<'a, L>(
    chunk: &'a Chunk,
    key: &Datum,
    past: bool,
    steps: &mut Steps<L>,
) -> Option<(&'a Datum, &'a Datum)>
    ensures found { option_map pair_seen result ≡ prev_of (plain key.now) past chunk.now }
    ensures counted { steps.new ≤ steps.old + digits (length chunk.now) }
    ensures chunk { IsChunk chunk.now }
{
    let pairs = chunk.pairs();
    let place = cut(pairs, key, !past, steps);
    if place == 0 {
        return None;
    }
    pair_at(pairs, place - 1)
}

/// The pair at a place.
pub(crate) fn pair_at(pairs: &[Pair], place: usize) -> Option<(&Datum, &Datum)>
    ensures { option_map pair_seen result ≡ slice_get (map pair pairs.now) place }
{
    match pairs.get(place) {
        Some(found) => Some((&found.key, &found.value)),
        None => None,
    }
}

/// The first pair of a chunk, if there is one.
pub(crate) fn first_pair(chunk: Option<&Chunk>) -> Option<(&Datum, &Datum)>
    ensures { option_map pair_seen result ≡ slice_get (pairs_in chunk.entry) 0 }
{
    match chunk {
        None => None,
        Some(chunk) => pair_at(chunk.pairs(), 0),
    }
}
