// SLICE.
ghost use Rattle.std.specs.Prelude.{◌≡◌, ◌+◌, ◌-◌, ◌≤◌, ◌<◌, ◌^◌, suc, min, not, Ok, List, ◌∷◌, if◌then◌else◌};
ghost use Rattle.reql_datum.specs.Answer.{Answer};
ghost use Rattle.reql_datum.specs.Outcome.{Gives};
ghost use Rattle.reql_datum.specs.Plain.{Plain};
ghost use Rattle.reql_rules.specs.Places.{edge as edge_of, sliced as sliced_of};
ghost use Rattle.reql_value_spec.specs.Meant.{Calls};
ghost use Rattle.reql_value_spec.specs.Sequenced.{alike_first};
ghost use Rattle.reql_value_spec.specs.Sequences.{slice_end as slice_end_of, slice_rule};
ghost use Rattle.reql_value_spec.specs.World.{World as Seen};
ghost use Rattle.reql_operand.specs.Seen.{meant, shown, all_shown, all_chosen};
ghost use Rattle.reql_operand.specs.Tables.{seen};
ghost use Rattle.reql_apply_seq.specs.Sources.{elements};
ghost use Rattle.reql_apply_seq.specs.Slicing.{alike_any, end_from, end_among};

use crate::places::front_or_back;
use crate::source::{Source, part, size, source_of};
use reql_datum::{Fault, Items, Whole};
use reql_operand::{
    Arg, Choice, Value, World, alike, as_number, left_is_open, misplaced, right_is_open,
};
use reql_term::TableView;
use std::alloc::Global;

/// SLICE: the elements from one place up to another, or up to the end. Of a table or a slice of one
/// no others are read.
pub fn slice<V: TableView>(
    alloc: Global,
    source: &Arg,
    places: &[Arg],
    opts: &[Choice],
    world: &World<V>,
) -> Result<Value, Fault>
    ensures { let w = seen V.documents V.indexes V.entries world.now in
        (calls : Calls) → Gives (meant w) result (alike_first slice_rule w calls
        (shown w source.now ∷ all_shown w places.now) (all_chosen w opts.now)) }
{
    match places {
        [from, rest @ ..] => slice_in(alloc, source, from, rest, opts, world),
        [] => Err(Fault::QueryLogic(misplaced(alloc)?)),
    }
}

fn slice_in<V: TableView>(
    alloc: Global,
    source: &Arg,
    from: &Arg,
    rest: &[Arg],
    opts: &[Choice],
    world: &World<V>,
) -> Result<Value, Fault>
    ensures { let w = seen V.documents V.indexes V.entries world.now in
        (calls : Calls) → Gives (meant w) result (alike_first slice_rule w calls
        (shown w source.now ∷ shown w from.now ∷ all_shown w rest.now) (all_chosen w opts.now)) }
{
    let kept = slice_of(alloc, source, from, rest, opts, world);
    part_alike(source, kept)
}

// What was answered, as a part of the first argument.
fn part_alike(source: &Arg, answer: Result<Items, Fault>) -> Result<Value, Fault>
    ensures { (w : Seen) (a : Answer (List Plain)) → Gives (λ items. items) answer a
        → Gives (meant w) result (alike_any (shown w source.now) a) }
{
    match answer {
        Ok(items) => Ok(alike(source, items)),
        Err(fault) => Err(fault),
    }
}

fn slice_of<V: TableView>(
    alloc: Global,
    source: &Arg,
    from: &Arg,
    rest: &[Arg],
    opts: &[Choice],
    world: &World<V>,
) -> Result<Items, Fault>
    ensures { let w = seen V.documents V.indexes V.entries world.now in
        (calls : Calls) → Gives (λ items. items) result
        (slice_rule w calls (shown w source.now ∷ shown w from.now ∷ all_shown w rest.now)
        (all_chosen w opts.now)) }
{
    let all = source_of(alloc, source, world)?;
    let start = as_number(alloc, from)?;
    let end = end_of(alloc, &all, rest, world)?;
    let is_after = left_is_open(alloc, opts)?;
    let is_before = right_is_open(alloc, opts)?;
    let kept = between(alloc, world, &all, is_after, start, !is_before, end)?;
    Ok(kept)
}

// The place up to which elements of a sequence are taken, if one is given.
fn end_of<V: TableView>(
    alloc: Global,
    _all: &Source,
    rest: &[Arg],
    _world: &World<V>,
) -> Result<Option<Whole>, Fault>
    ensures { let w = seen V.documents V.indexes V.entries _world.now in
        Gives (end_among (elements w _all.now)) result
        (slice_end_of (elements w _all.now) (all_shown w rest.now)) }
{
    match rest {
        [] => Ok(None),
        [end] => Ok(Some(as_number(alloc, end)?)),
        _ => Err(Fault::QueryLogic(misplaced(alloc)?)),
    }
}

// The elements between two edges, each before the element at a place or past it.
#[tactic(auto, using(crate::proofs::Edges::sliced_between))]
fn between<V: TableView>(
    alloc: Global,
    world: &World<V>,
    all: &Source,
    is_after: bool,
    start: Whole,
    is_past: bool,
    end: Option<Whole>,
) -> Result<Items, Fault>
    ensures { let w = seen V.documents V.indexes V.entries world.now in
        Gives (λ items. items) result (Ok (sliced_of (elements w all.now) is_after start is_past
        (end_among (elements w all.now) end))) }
{
    let size = size(alloc, world, all)? as usize;
    let first = edge(size, is_after, start);
    let last = last_edge(size, is_past, end);
    part(alloc, world, all, first, last.saturating_sub(first))
}

fn last_edge(size: usize, past: bool, end: Option<Whole>) -> usize
    ensures { result ≡ edge_of size past (end_from size end) }
{
    match end {
        Some(place) => edge(size, past, place),
        None => size,
    }
}

fn edge(size: usize, past: bool, at: Whole) -> usize
    ensures { result ≡ edge_of size past at }
{
    match front_or_back(at) {
        Ok(place) => front_edge(size, past, place),
        Err(place) => back_edge(size, past, place),
    }
}

fn front_edge(size: usize, past: bool, place: usize) -> usize
    ensures { result ≡ min size (if past then suc place else place) }
{
    let within = size.min(place);
    if past && within < size {
        return within + 1;
    }
    within
}

fn back_edge(size: usize, past: bool, place: usize) -> usize
    ensures { result ≡ min size ((if past then suc size else size) - suc place) }
{
    if past {
        return size.saturating_sub(place);
    }
    size.saturating_sub(place).saturating_sub(1)
}
