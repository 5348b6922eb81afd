// SKIP, LIMIT and IS_EMPTY.
ghost use Rattle.std.specs.Prelude.{take, drop, length, nat_eq, Ok};
ghost use Rattle.reql_datum.specs.Outcome.{Gives};
ghost use Rattle.reql_datum.specs.View.{plain};
ghost use Rattle.reql_value_spec.specs.Meant.{Calls, Options, meant_of};
ghost use Rattle.reql_value_spec.specs.Sequenced.{alike as alike_of, alike_first};
ghost use Rattle.reql_value_spec.specs.Sequences.{counted_part, is_empty as is_empty_of};
ghost use Rattle.reql_operand.specs.Seen.{meant, shown, all_shown};
ghost use Rattle.reql_operand.specs.Tables.{seen};
ghost use Rattle.reql_apply_seq.specs.Sources.{elements, HasRowsOf, is_none};

use crate::places::as_count;
use crate::source::{Source, part, rest, source_of, unread_rest};
use reql_datum::{Datum, Fault};
use reql_operand::{Arg, Value, World, alike, as_number, misplaced};
use reql_term::TableView;
use std::alloc::Global;

/// LIMIT: so many elements from the first on.
pub fn limit<V: TableView>(alloc: Global, args: &[Arg], world: &World<V>) -> Result<Value, Fault>
    ensures { (calls : Calls) (opts : Options)
        → Gives (meant (seen V.documents V.indexes V.entries world.now)) result
        (alike_first (counted_part take) (seen V.documents V.indexes V.entries world.now) calls
        (all_shown (seen V.documents V.indexes V.entries world.now) args.now) opts) }
{
    match args {
        [source, n] => {
            let all = source_of(alloc, source, world)?;
            let count = as_count(alloc, as_number(alloc, n)?)?;
            let taken = part(alloc, world, &all, 0, count)?;
            Ok(alike(source, taken))
        }
        _ => Err(Fault::QueryLogic(misplaced(alloc)?)),
    }
}

/// SKIP: all elements but so many, which are passed over.
pub fn skip<V: TableView>(alloc: Global, args: &[Arg], world: &World<V>) -> Result<Value, Fault>
    ensures { (calls : Calls) (opts : Options)
        → Gives (meant (seen V.documents V.indexes V.entries world.now)) result
        (alike_first (counted_part drop) (seen V.documents V.indexes V.entries world.now) calls
        (all_shown (seen V.documents V.indexes V.entries world.now) args.now) opts) }
{
    match args {
        [source, n] => {
            let all = source_of(alloc, source, world)?;
            let count = as_count(alloc, as_number(alloc, n)?)?;
            all_but(alloc, source, &all, count, world)
        }
        _ => Err(Fault::QueryLogic(misplaced(alloc)?)),
    }
}

// The elements of a sequence but so many of the first. Where they are a range they aren't read.
fn all_but<V: TableView>(
    alloc: Global,
    source: &Arg,
    all: &Source,
    count: usize,
    world: &World<V>,
) -> Result<Value, Fault>
    requires { let w = seen V.documents V.indexes V.entries world.now in
        HasRowsOf (meant_of (shown w source.now)) all.now }
    ensures { let w = seen V.documents V.indexes V.entries world.now in Gives (meant w) result
        (Ok (alike_of (meant_of (shown w source.now)) (drop count (elements w all.now)))) }
{
    match unread_rest(all, count)? {
        Some(value) => Ok(value),
        None => {
            let left = rest(alloc, world, all, count)?;
            Ok(alike(source, left))
        }
    }
}

/// IS_EMPTY: whether there is no element. No more than one is read for it.
pub fn is_empty<V: TableView>(alloc: Global, args: &[Arg], world: &World<V>) -> Result<Datum, Fault>
    ensures { (calls : Calls) (opts : Options) → Gives plain result
        (is_empty_of (seen V.documents V.indexes V.entries world.now) calls
        (all_shown (seen V.documents V.indexes V.entries world.now) args.now) opts) }
{
    match args {
        [source] => Ok(Datum::Bool(lacks_all(alloc, source, world)?)),
        _ => Err(Fault::QueryLogic(misplaced(alloc)?)),
    }
}

fn lacks_all<V: TableView>(alloc: Global, source: &Arg, world: &World<V>) -> Result<bool, Fault>
    ensures { let w = seen V.documents V.indexes V.entries world.now in
        Gives (λ b. b) result (is_none w (shown w source.now)) }
{
    let all = source_of(alloc, source, world)?;
    has_none(alloc, world, &all)
}

#[tactic(auto, using(crate::proofs::Slices::first_is_missing))]
fn has_none<V: TableView>(alloc: Global, world: &World<V>, all: &Source) -> Result<bool, Fault>
    ensures { let w = seen V.documents V.indexes V.entries world.now in
        Gives (λ b. b) result (Ok (nat_eq (length (elements w all.now)) 0)) }
{
    let first = part(alloc, world, all, 0, 1)?;
    Ok(first.is_empty())
}
