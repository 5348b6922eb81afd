// Chunks with a pair put in or left out.
ghost use Rattle.std.specs.Prelude.{◌≡◌, ◌+◌, ◌<◌, ◌≤◌, [], ◌∷◌, ◌++◌, length, map, take, drop, IfOk, IfErr, is_ok, if◌then◌else◌};
ghost use Rattle.std.specs.List.Sorted.{IsSearchInRange};
ghost use Rattle.std.specs.Map.{keys_of};
ghost use Rattle.reql_datum.specs.Order.{order};
ghost use Rattle.reql_datum.specs.Plain.{Plain};
ghost use Rattle.reql_memory.specs.Sorted.{IsHitBy, IsGapBy};
ghost use Rattle.reql_datum.specs.View.{plain};
ghost use Rattle.reql_ptree.specs.Chunk.{pair, IsChunk};
ghost use Rattle.reql_ptree.specs.Halves.{halves, high_pairs};
ghost use Rattle.reql_ptree.specs.Pairs.{AreRising, put, without};
ghost use Rattle.reql_ptree.specs.Tall.{digits};

use crate::chunk::{Chunk, Pair};
use crate::seek::seek_few;
use crate::steps::Steps;
use reql_datum::{Datum, Memory};
use std::alloc::Global;
use std::mem;

// How many pairs a chunk holds at most.
pub(crate) const MOST: usize = 15;

/// A chunk, or two where one wouldn't do.
#[derive(Drop)]
pub(crate) struct Halves {
    pub(crate) low: Chunk,
    pub(crate) high: Option<Chunk>,
}

/// A copy of the pairs, with room for one more.
pub(crate) fn copied(alloc: Global, pairs: &[Pair]) -> Result<Vec<Pair>, Memory>
    ensures { IfOk result (λ copies. copies.items ≡ pairs.now) }
{
    let Ok(mut copies) = Vec::with_capacity(alloc, pairs.len().saturating_add(1)) else {
        return Err(Memory);
    };
    for pair in pairs {
        let key = pair.key.copy()?;
        let value = pair.value.copy()?;
        if let Err(_) = copies.push(Pair { key, value }) {
            return Err(Memory);
        }
    }
    Ok(copies)
}

/// The chunk of a pair alone.
pub(crate) fn chunk_of(alloc: Global, key: &Datum, value: &Datum) -> Result<Chunk, Memory>
    ensures { IfOk result (λ chunk. chunk ≡ (plain key.now, plain value.now) ∷ []) }
{
    let key = key.copy()?;
    let value = value.copy()?;
    match vec![in alloc; Pair { key, value }] {
        Ok(pairs) => Chunk::of(alloc, pairs),
        Err(_) => Err(Memory),
    }
}

// Writes over the value at a place, and gives the old one.
pub(crate) fn set_value(all: &mut Vec<Pair>, place: usize, value: Datum) -> Datum
    requires in_range { place < length all.old.items }
    ensures pairs { (k : Plain) → IsHitBy order (keys_of (map pair all.old.items)) k place
        → map pair all.new.items ≡ put k (plain value) (map pair all.old.items) }
    ensures length { length all.new.items ≡ length all.old.items }
{
    let pair = &mut all[place];
    mem::replace(&mut pair.value, value)
}

// The pairs with a value at a key whose place is known.
fn put_at(
    alloc: Global,
    pairs: &[Pair],
    place: Result<usize, usize>,
    key: &Datum,
    value: &Datum,
) -> Result<Vec<Pair>, Memory>
    requires rising { AreRising (map pair pairs.now) }
    requires hit { IfOk place (IsHitBy order (keys_of (map pair pairs.now)) (plain key.now)) }
    requires gap { IfErr place (IsGapBy order (keys_of (map pair pairs.now)) (plain key.now)) }
    requires in_range { IsSearchInRange place (length pairs.now) }
    ensures pairs { IfOk result (λ all. map pair all.items
        ≡ put (plain key.now) (plain value.now) (map pair pairs.now)) }
    ensures length { IfOk result (λ all. length all.items ≤ length pairs.now + 1) }
    ensures some { IfOk result (λ all. 0 < length all.items) }
{
    let mut all = copied(alloc, pairs)?;
    let value = value.copy()?;
    match place {
        Ok(place) => {
            drop(set_value(&mut all, place, value));
            Ok(all)
        }
        Err(place) => {
            let key = key.copy()?;
            match all.insert(place, Pair { key, value }) {
                Ok(()) => Ok(all),
                Err(_) => Err(Memory),
            }
        }
    }
}

// Where sixteen pairs are cut, of which the one at this place is new.
fn cut_for(place: usize) -> usize
    ensures some { 0 < result }
    ensures few { result ≤ 15 }
{
    if place == MOST {
        return MOST;
    }
    if place == 0 {
        return 1;
    }
    8
}

// Rising pairs as one chunk or two. A pair that comes in at either end of a full chunk goes alone,
// so that chunks stay full where keys come in order.
fn parted(alloc: Global, pairs: Vec<Pair>, place: usize) -> Result<Halves, Memory>
    requires rising { AreRising (map pair pairs.items) }
    requires some { 0 < length pairs.items }
    requires few { length pairs.items ≤ 16 }
    ensures { IfOk result (λ parts. halves parts ≡ map pair pairs.items) }
{
    let mut low = pairs;
    if low.len() <= MOST {
        let low = Chunk::of(alloc, low)?;
        return Ok(Halves { low, high: None });
    }
    match low.split_off(cut_for(place)) {
        Ok(high) => {
            let low = Chunk::of(alloc, low)?;
            let high = Chunk::of(alloc, high)?;
            Ok(Halves {
                low,
                high: Some(high),
            })
        }
        Err(_) => Err(Memory),
    }
}

/// A chunk with a value at a key.
pub(crate) fn chunk_put<L>(
    alloc: Global,
    chunk: &Chunk,
    key: &Datum,
    value: &Datum,
    steps: &mut Steps<L>,
) -> Result<Halves, Memory>
    ensures pairs { IfOk result (λ parts. halves parts
        ≡ put (plain key.now) (plain value.now) chunk.now) }
    ensures counted { steps.new ≤ steps.old + 4 }
{
    let pairs = chunk.pairs();
    let place = seek_few(pairs, key, steps);
    let at = match place {
        Ok(at) => at,
        Err(at) => at,
    };
    let all = put_at(alloc, pairs, place, key, value)?;
    parted(alloc, all, at)
}

// The pairs without the one at a place.
fn without_at(alloc: Global, pairs: &[Pair], place: usize) -> Result<Vec<Pair>, Memory>
    requires in_range { place < length pairs.now }
    ensures pairs { IfOk result (λ rest. (k : Plain) → IsHitBy order (keys_of (map pair pairs.now))
        k place → map pair rest.items ≡ without k (map pair pairs.now)) }
    ensures length { IfOk result (λ rest. length rest.items ≤ length pairs.now) }
{
    let mut rest = copied(alloc, pairs)?;
    drop(rest.remove(place));
    Ok(rest)
}

/// A chunk without a key, which is nothing where it held no other.
pub(crate) fn chunk_remove<L>(
    alloc: Global,
    chunk: &Chunk,
    key: &Datum,
    steps: &mut Steps<L>,
) -> Result<Option<Chunk>, Memory>
    ensures pairs { IfOk result (λ rest. high_pairs rest ≡ without (plain key.now) chunk.now) }
    ensures counted { steps.new ≤ steps.old + 4 }
{
    let pairs = chunk.pairs();
    match seek_few(pairs, key, steps) {
        Err(_) => Ok(Some(chunk.copy()?)),
        Ok(place) => {
            let rest = without_at(alloc, pairs, place)?;
            if rest.is_empty() {
                return Ok(None);
            }
            Ok(Some(Chunk::of(alloc, rest)?))
        }
    }
}
