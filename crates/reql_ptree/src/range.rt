// The values of a range, in either direction, as many as are asked for.
ghost use Rattle.std.specs.Prelude.{true, false, ◌*◌, min, ◌≡◌, ◌+◌, ◌<◌, ◌≤◌, [], ◌++◌, ◌∷◌, length, map, take, drop, IfOk, option_map};
ghost use Rattle.reql_datum.specs.View.{plain};
ghost use Rattle.reql_ptree.specs.Chunk.{pair};
ghost use Rattle.reql_ptree.specs.Ends.{cut_seen, is_past, is_before, between, given, IsFrom, IsTo, search_for};
ghost use Rattle.reql_ptree.specs.Gather.{Gives, Spends, Waits};
ghost use Rattle.reql_ptree.specs.Pairs.{AreRising};
ghost use Rattle.reql_ptree.specs.Tall.{tall};
ghost use Rattle.reql_ptree.specs.Way.{pairs_in};

use crate::around::is_behind;
use crate::chunk::{Chunk, Pair};
use crate::seek::cut;
use crate::side::Side;
use crate::steps::Steps;
use reql_datum::{Datum, Items, Memory};
use std::alloc::Global;

/// A place between keys: those that are behind it are below its key, or at it where `at`.
#[derive(Clone, Copy)]
pub(crate) struct Cut<'a> {
    pub(crate) key: &'a Datum,
    pub(crate) at: bool,
}

/// The pairs between two places, each of which may be missing, in rising or falling order, until
/// so many values are there.
#[derive(Clone, Copy)]
pub(crate) struct Range<'a> {
    pub(crate) low: Option<Cut<'a>>,
    pub(crate) high: Option<Cut<'a>>,
    pub(crate) falling: bool,
    pub(crate) most: u64,
}

fn is_past(low: Option<Cut<'_>>, key: &Datum) -> bool
    ensures { result ≡ is_past (option_map cut_seen low.entry) (plain key.now) }
{
    match low {
        None => true,
        Some(cut) => !is_behind(cut.key, key, cut.at),
    }
}

fn is_before(high: Option<Cut<'_>>, key: &Datum) -> bool
    ensures { result ≡ is_before (option_map cut_seen high.entry) (plain key.now) }
{
    match high {
        None => true,
        Some(cut) => is_behind(cut.key, key, cut.at),
    }
}

fn give(out: &mut Items, value: &Datum) -> Result<(), Memory>
    ensures { IfOk result (λ _. out.new ≡ out.old ++ plain value.now ∷ []) }
{
    let value = value.copy()?;
    match out.push(value) {
        Ok(()) => Ok(()),
        Err(_) => Err(Memory),
    }
}

// The values of pairs by rising key.
fn give_rising(out: &mut Items, part: &[Pair], most: u64) -> Result<(), Memory>
    requires room { length out.old ≤ most }
    ensures { IfOk result (λ _. out.new ≡ take most (out.old ++ given false (map pair part.now))) }
{
    let mut place = 0;
    while place < part.len() && (out.len() as u64) < most {
        give(out, &part[place].value)?;
        place += 1;
    }
    Ok(())
}

// And by falling key.
fn give_falling(out: &mut Items, part: &[Pair], most: u64) -> Result<(), Memory>
    requires room { length out.old ≤ most }
    ensures { IfOk result (λ _. out.new ≡ take most (out.old ++ given true (map pair part.now))) }
{
    let mut place = part.len();
    while place > 0 && (out.len() as u64) < most {
        place -= 1;
        give(out, &part[place].value)?;
    }
    Ok(())
}

fn give_part(out: &mut Items, part: &[Pair], falling: bool, most: u64) -> Result<(), Memory>
    requires room { length out.old ≤ most }
    ensures { IfOk result (λ _. out.new ≡ take most
        (out.old ++ given falling (map pair part.now))) }
{
    if falling {
        return give_falling(out, part, most);
    }
    give_rising(out, part, most)
}

// How many pairs are not past the low end.
fn low_place<L>(low: Option<Cut<'_>>, pairs: &[Pair], steps: &mut Steps<L>) -> usize
    requires rising { AreRising (map pair pairs.now) }
    ensures from { IsFrom (option_map cut_seen low.entry) (map pair pairs.now) result }
    ensures counted { steps.new ≤ steps.old + search_for (option_map cut_seen low.entry)
        (length pairs.now) }
{
    match low {
        None => 0,
        Some(place) => cut(pairs, place.key, place.at, steps),
    }
}

// How many pairs are before the high end.
fn high_place<L>(high: Option<Cut<'_>>, pairs: &[Pair], steps: &mut Steps<L>) -> usize
    requires rising { AreRising (map pair pairs.now) }
    ensures in_range { result ≤ length pairs.now }
    ensures to { IsTo (option_map cut_seen high.entry) (map pair pairs.now) result }
    ensures counted { steps.new ≤ steps.old + search_for (option_map cut_seen high.entry)
        (length pairs.now) }
{
    match high {
        None => pairs.len(),
        Some(place) => cut(pairs, place.key, place.at, steps),
    }
}

// The pairs from one place to another, none where that is before it.
fn part_of(pairs: &[Pair], from: usize, to: usize) -> &[Pair]
    requires in_range { to ≤ length pairs.now }
    ensures { map pair result.now ≡ drop from (take to (map pair pairs.now)) }
{
    if from >= to {
        return &pairs[..0];
    }
    &pairs[from..to]
}

// The values of a waiting chunk.
fn gather_chunk<L>(
    waiting: Option<&Chunk>,
    range: &Range<'_>,
    out: &mut Items,
    steps: &mut Steps<L>,
) -> Result<(), Memory>
    requires room { length out.old < range.now.most }
    requires opens { Waits range.now (pairs_in waiting) }
    ensures values { IfOk result (λ _. Gives range.now (pairs_in waiting.entry) out.old out.new) }
    ensures counted { Spends range.now (pairs_in waiting.entry) [] 0 out.old steps.old steps.new }
{
    let Some(chunk) = waiting else {
        return Ok(());
    };
    let pairs = chunk.pairs();
    let from = low_place(range.low, pairs, steps);
    let to = high_place(range.high, pairs, steps);
    give_part(out, part_of(pairs, from, to), range.falling, range.most)
}

/// The values of a side, and of a chunk that waits before it, of which only the first key was
/// looked at.
pub(crate) fn gather<L>(
    side: &Side,
    waiting: Option<&Chunk>,
    range: &Range<'_>,
    out: &mut Items,
    steps: &mut Steps<L>,
) -> Result<(), Memory>
    requires rising { AreRising (pairs_in waiting ++ side.now.0) }
    requires room { length out.old < range.now.most }
    requires opens { Waits range.now (pairs_in waiting) }
    ensures values { IfOk result (λ _. Gives range.now (pairs_in waiting.entry ++ side.now.0)
        out.old out.new) }
    ensures counted { Spends range.now (pairs_in waiting.entry) side.now.0 side.now.1 out.old
        steps.old steps.new }
{
    let Some(node) = side.node() else {
        return gather_chunk(waiting, range, out, steps);
    };
    steps.tick();
    let first = node.chunk.first();
    if !is_past(range.low, first) {
        return gather(&node.right, Some(&node.chunk), range, out, steps);
    }
    if !is_before(range.high, first) {
        return gather(&node.left, waiting, range, out, steps);
    }
    let below = Range {
        high: None,
        ..*range
    };
    let above = Range {
        low: None,
        ..*range
    };
    if range.falling {
        gather(&node.right, Some(&node.chunk), &above, out, steps)?;
        if out.len() as u64 >= range.most {
            return Ok(());
        }
        return gather(&node.left, waiting, &below, out, steps);
    }
    gather(&node.left, waiting, &below, out, steps)?;
    if out.len() as u64 >= range.most {
        return Ok(());
    }
    gather(&node.right, Some(&node.chunk), &above, out, steps)
}

/// The values of a range.
pub(crate) fn range_in<L>(
    alloc: Global,
    side: &Side,
    range: &Range<'_>,
    steps: &mut Steps<L>,
) -> Result<Items, Memory>
    ensures values { IfOk result (λ items. Gives range.now side.now.0 [] items) }
    ensures counted { steps.new ≤ steps.old + (2 * tall (length side.now.0) + min range.now.most
        (length (between (option_map cut_seen range.now.low) (option_map cut_seen range.now.high)
        side.now.0))) }
{
    let _facts = side.height();
    let mut out = Items::new(alloc);
    if range.most == 0 {
        return Ok(out);
    }
    gather(side, None, range, &mut out, steps)?;
    Ok(out)
}
