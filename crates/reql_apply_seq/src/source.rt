// Sequences whose elements are read where they are wanted.
ghost use Rattle.std.specs.Prelude.{◌≡◌, List, Ok, IfOk, IfSome, length, take, drop};
ghost use Rattle.reql_datum.specs.Outcome.{Gives};
ghost use Rattle.reql_datum.specs.Plain.{Plain};
ghost use Rattle.reql_rules.specs.Places.{cut as cut_of};
ghost use Rattle.reql_value_spec.specs.Meant.{Meant, selection, table as table_of, meant_of};
ghost use Rattle.reql_value_spec.specs.Wanted.{to_sequence as to_sequence_of, as_sequence as as_sequence_of};
ghost use Rattle.reql_operand.specs.Seen.{meant, shown, slice as slice_of, left_of, documents_at};
ghost use Rattle.reql_operand.specs.Tables.{seen};
ghost use Rattle.reql_value_spec.specs.Sequenced.{alike};
ghost use Rattle.reql_value_spec.specs.World.{World as Seen};
ghost use Rattle.reql_apply_seq.specs.Sources.{elements, IsOf, HasRowsOf};

use reql_datum::{Fault, Items, Memory};
use reql_operand::{
    Arg, Slice, Value, World, as_sequence, count_rest, read_part, read_rest, table_at, to_sequence,
    whole_range,
};
use reql_seq::cut;
use reql_term::{Range, TableView};
use std::alloc::Global;

/// A sequence: its elements, where they have been read, or the range of the table in a slot whose
/// documents they are but so many of the first, which are passed over.
#[derive(Drop)]
pub(crate) enum Source {
    Read(Items),
    Ranged {
        slot: u32,
        range: Range,
        passed: usize,
    },
}

/// The sequence that an argument is. No table is read for it.
pub(crate) fn source_of<V: TableView>(
    alloc: Global,
    arg: &Arg,
    world: &World<V>,
) -> Result<Source, Fault>
    ensures elements { let w = seen V.documents V.indexes V.entries world.now in
        Gives (elements w) result (as_sequence_of w (shown w arg.now)) }
    ensures rows { let w = seen V.documents V.indexes V.entries world.now in
        IfOk result (λ s. HasRowsOf (meant_of (shown w arg.now)) s) }
{
    match arg {
        Arg::Value(value) => source_in(alloc, value, world),
        _ => Ok(Source::Read(as_sequence(alloc, arg, world)?)),
    }
}

/// The same of a value.
pub(crate) fn source_in<V: TableView>(
    alloc: Global,
    value: &Value,
    world: &World<V>,
) -> Result<Source, Fault>
    ensures elements { let w = seen V.documents V.indexes V.entries world.now in
        Gives (elements w) result (to_sequence_of w (meant w value.now)) }
    ensures rows { let w = seen V.documents V.indexes V.entries world.now in
        IfOk result (λ s. HasRowsOf (meant w value.now) s) }
{
    match value {
        Value::Unread { slot, slice, range } => sliced(*slot, slice, range, world),
        Value::Table(slot) => whole_table(alloc, *slot, world),
        _ => Ok(Source::Read(to_sequence(alloc, value, world)?)),
    }
}

fn sliced<V: TableView>(
    slot: u32,
    slice: &Slice,
    range: &Range,
    world: &World<V>,
) -> Result<Source, Fault>
    ensures elements { let w = seen V.documents V.indexes V.entries world.now in
        Gives (elements w) result (Ok (left_of slice.now (documents_at w slot range.now))) }
    ensures rows { (ds : List Plain) → IfOk result
        (HasRowsOf (selection slot (slice_of slice.now) ds)) }
{
    match slice {
        Slice::Between(_) => ranged(slot, range, 0, world),
        Slice::InOrder => ranged(slot, range, 0, world),
        Slice::Rest(passed) => ranged(slot, range, *passed, world),
    }
}

fn ranged<V: TableView>(
    slot: u32,
    range: &Range,
    passed: usize,
    _world: &World<V>,
) -> Result<Source, Fault>
    ensures elements { let w = seen V.documents V.indexes V.entries _world.now in
        Gives (elements w) result (Ok (drop passed (documents_at w slot range.now))) }
    ensures rows { IfOk result (IsOf slot) }
{
    let range = range.copy()?;
    Ok(Source::Ranged {
        slot,
        range,
        passed,
    })
}

// A table as the range of all that it has.
#[tactic(auto, using(reql_operand::proofs::Whole::whole_at))]
fn whole_table<V: TableView>(alloc: Global, slot: u32, world: &World<V>) -> Result<Source, Fault>
    ensures elements { let w = seen V.documents V.indexes V.entries world.now in
        Gives (elements w) result (to_sequence_of w (table_of slot)) }
    ensures rows { IfOk result (IsOf slot) }
{
    let _table = table_at(alloc, world, slot)?;
    Ok(Source::Ranged {
        slot,
        range: whole_range(None),
        passed: 0,
    })
}

/// All of its elements.
pub(crate) fn all_of<V: TableView>(
    alloc: Global,
    world: &World<V>,
    source: Source,
) -> Result<Items, Fault>
    ensures { Gives (λ items. items) result
        (Ok (elements (seen V.documents V.indexes V.entries world.now) source)) }
{
    match source {
        Source::Read(items) => Ok(items),
        Source::Ranged {
            slot,
            range,
            passed,
        } => read_rest(alloc, world, slot, &range, passed),
    }
}

/// How many elements it has.
pub(crate) fn size<V: TableView>(
    alloc: Global,
    world: &World<V>,
    source: &Source,
) -> Result<u64, Fault>
    ensures { Gives (λ n. n) result
        (Ok (length (elements (seen V.documents V.indexes V.entries world.now) source.now))) }
{
    match source {
        Source::Read(items) => Ok(items.len() as u64),
        Source::Ranged {
            slot,
            range,
            passed,
        } => count_rest(alloc, world, *slot, range, *passed),
    }
}

/// So many of its elements at most, from the one at a place on.
pub(crate) fn part<V: TableView>(
    alloc: Global,
    world: &World<V>,
    source: &Source,
    from: usize,
    most: usize,
) -> Result<Items, Fault>
    ensures { Gives (λ items. items) result (Ok (take most (drop from
        (elements (seen V.documents V.indexes V.entries world.now) source.now)))) }
{
    match source {
        Source::Read(items) => Ok(part_of_items(alloc, items, from, most)?),
        Source::Ranged {
            slot,
            range,
            passed,
        } => part_of_range(alloc, world, *slot, range, *passed, from, most),
    }
}

/// Its elements from the one at a place on.
#[tactic(auto, using(crate::proofs::Slices::rest_from))]
pub(crate) fn rest<V: TableView>(
    alloc: Global,
    world: &World<V>,
    source: &Source,
    from: usize,
) -> Result<Items, Fault>
    ensures { Gives (λ items. items) result (Ok (drop from
        (elements (seen V.documents V.indexes V.entries world.now) source.now))) }
{
    let size = size(alloc, world, source)?;
    part(alloc, world, source, from, size as usize)
}

#[tactic(auto, using(crate::proofs::Slices::part_cut))]
fn part_of_items(alloc: Global, items: &Items, from: usize, most: usize) -> Result<Items, Memory>
    ensures { IfOk result (λ part. part ≡ take most (drop from items.now)) }
{
    let start = items.len().min(from);
    let room = (items.len() - start).min(most);
    cut(alloc, items, start, start + room)
}

#[tactic(auto, using(crate::proofs::Slices::part_of_rest))]
fn part_of_range<V: TableView>(
    alloc: Global,
    world: &World<V>,
    slot: u32,
    range: &Range,
    passed: usize,
    from: usize,
    most: usize,
) -> Result<Items, Fault>
    ensures { let w = seen V.documents V.indexes V.entries world.now in
        Gives (λ items. items) result
        (Ok (take most (drop from (drop passed (documents_at w slot range.now))))) }
{
    match passed.checked_add(from) {
        Some(at) => read_part(alloc, world, slot, range, at, most),
        None => {
            let rest = read_rest(alloc, world, slot, range, passed)?;
            Ok(part_of_items(alloc, &rest, from, most)?)
        }
    }
}

/// All of its elements but so many of the first, as rows that aren't read, where it is a range.
#[tactic(auto, using(crate::proofs::Slices::passed_both))]
pub(crate) fn unread_rest(all: &Source, count: usize) -> Result<Option<Value>, Memory>
    ensures { (w : Seen) (m : Meant) → HasRowsOf m all.now → IfOk result (λ found. IfSome found
        (λ v. meant w v ≡ alike m (drop count (elements w all.now)))) }
{
    match all {
        Source::Read(_) => Ok(None),
        Source::Ranged {
            slot,
            range,
            passed,
        } => match passed.checked_add(count) {
            Some(both) => Ok(Some(Value::Unread {
                slot: *slot,
                slice: Slice::Rest(both),
                range: range.copy()?,
            })),
            None => Ok(None),
        },
    }
}
