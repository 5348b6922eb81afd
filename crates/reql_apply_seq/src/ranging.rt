// RANGE.
ghost use Rattle.std.specs.Prelude.{◌≡◌, pos, ◌+ℤ◌, int_lt, true, Ok};
ghost use Rattle.reql_datum.specs.Outcome.{Gives};
ghost use Rattle.reql_rules.specs.Sizes.{range as range_of, numbers as numbers_of, distance as distance_of};
ghost use Rattle.reql_value_spec.specs.Meant.{Calls, Options};
ghost use Rattle.reql_value_spec.specs.Sequences.{range_rule};
ghost use Rattle.reql_value_spec.specs.World.{World as Seen};
ghost use Rattle.reql_operand.specs.Seen.{all_shown};

use reql_datum::{Datum, Fault, Items, Whole};
use reql_operand::{Arg, as_number, misplaced, over_range};
use std::alloc::Global;

/// RANGE: the numbers from one, or from 0, up to another, which is left out. They are a stream.
pub fn range(alloc: Global, args: &[Arg]) -> Result<Items, Fault>
    ensures { (w : Seen) (calls : Calls) (opts : Options) → Gives (λ items. items) result
        (range_rule w calls (all_shown w args.now) opts) }
{
    match args {
        [end] => {
            let to = as_number(alloc, end)?;
            numbers_between(alloc, zero(), to)
        }
        [start, end] => {
            let from = as_number(alloc, start)?;
            let to = as_number(alloc, end)?;
            numbers_between(alloc, from, to)
        }
        _ => Err(Fault::QueryLogic(misplaced(alloc)?)),
    }
}

fn zero() -> Whole
    ensures { result ≡ pos 0 }
{
    match Whole::new(0) {
        Some(n) => n,
        None => unreachable!(),
    }
}

fn numbers_between(alloc: Global, from: Whole, to: Whole) -> Result<Items, Fault>
    ensures { Gives (λ items. items) result (range_of from to) }
{
    if distance(from, to) > 1000000 {
        return Err(Fault::ResourceLimit(over_range(alloc)?));
    }
    numbers(alloc, from, to)
}

// How far it is up to a number; none where it lies below.
fn distance(from: Whole, to: Whole) -> u64
    ensures { result ≡ distance_of from to }
{
    let (from, to) = (from.get(), to.get());
    if to <= from {
        return 0;
    }
    (to - from) as u64
}

#[tactic(auto, using(crate::proofs::Ranges::numbers_step, crate::proofs::Ranges::distance_step))]
fn numbers(alloc: Global, from: Whole, to: Whole) -> Result<Items, Fault>
    ensures { Gives (λ items. items) result (Ok (numbers_of from (distance_of from to))) }
{
    let mut items = Items::new(alloc);
    let mut n = from;
    while n.get() < to.get() {
        items.push(Datum::Num(n))?;
        n = next(n, to);
    }
    Ok(items)
}

// The number after one that is below another.
fn next(n: Whole, above: Whole) -> Whole
    requires { int_lt n above ≡ true }
    ensures { result ≡ n +ℤ pos 1 }
{
    let _above = above.get();
    match Whole::new(n.get() + 1) {
        Some(next) => next,
        None => unreachable!(),
    }
}
