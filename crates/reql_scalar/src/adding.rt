// ADD, SUB, MUL, DIV and MOD.
ghost use Rattle.std.specs.Prelude.{◌≡◌, drop, true, Ok};
ghost use Rattle.reql_datum.specs.Outcome.{Gives};
ghost use Rattle.reql_datum.specs.View.{plain};
ghost use Rattle.reql_rules.specs.Numbers.{arith, time_or_number};
ghost use Rattle.reql_scalar.specs.Adding.{numbers_of, added_texts, added_items, added_seconds, seconds_in, less_on, taken_off, added, less};

use crate::numbers::{exact, misplaced, onward, run_from};
use crate::parts::append_from;
use crate::wanted::{as_items, as_number, as_text};
use reql_datum::{Datum, Fault, Items, Moment, Name, Whole};
use reql_rules::Arith;
use std::alloc::Global;

fn numbers(alloc: Global, op: Arith, first: &Datum, args: &Items) -> Result<Datum, Fault>
    ensures { Gives plain result (numbers_of op (plain first.now) (drop 1 args.now)) }
{
    let start = as_number(alloc, first)?;
    let n = run_from(alloc, op, start, args, 1)?;
    Ok(Datum::Num(n))
}

fn texts(alloc: Global, first: &Name, args: &Items) -> Result<Datum, Fault>
    ensures { Gives plain result (added_texts first.now (drop 1 args.now)) }
{
    let mut joined = String::from_str(alloc, first.as_str())?;
    let mut place = 1;
    while let Some(item) = args.at(place) {
        let text = as_text(alloc, item)?;
        joined.push_str(text.as_str())?;
        place += 1;
    }
    Ok(Datum::Text(Name::of(alloc, joined.as_str())?))
}

fn arrays(alloc: Global, first: &Items, args: &Items) -> Result<Datum, Fault>
    ensures { Gives plain result (added_items first.now (drop 1 args.now)) }
{
    let mut joined = first.copy()?;
    let mut place = 1;
    while let Some(item) = args.at(place) {
        let items = as_items(alloc, item)?;
        append_from(&mut joined, items, 0)?;
        place += 1;
    }
    Ok(Datum::List(joined))
}

fn moment(at: Whole, like: Moment) -> Datum
    ensures { plain result ≡ time_or_number true at like.1 }
{
    let Some(moment) = Moment::of(at, like.zone()) else {
        unreachable!()
    };
    Datum::Time(moment)
}

fn later(alloc: Global, first: Moment, args: &Items) -> Result<Datum, Fault>
    ensures { Gives plain result (added_seconds first (drop 1 args.now)) }
{
    let at = run_from(alloc, Arith::Add, first.at(), args, 1)?;
    Ok(moment(at, first))
}

#[tactic(auto, using(reql_datum::proofs::Back::back))]
fn add(alloc: Global, first: &Datum, args: &Items) -> Result<Datum, Fault>
    ensures { Gives plain result (added (plain first.now) (drop 1 args.now)) }
{
    match first {
        Datum::Text(text) => texts(alloc, text, args),
        Datum::List(items) => arrays(alloc, items, args),
        Datum::Time(moment) => later(alloc, *moment, args),
        _ => numbers(alloc, Arith::Add, first, args),
    }
}

// The seconds that are taken off, and whether what is left still is a time.
fn seconds_in(alloc: Global, still: bool, item: &Datum) -> Result<(bool, Whole), Fault>
    ensures { Gives (λ s. s) result (seconds_in still (plain item.now)) }
{
    match (still, item) {
        (true, Datum::Time(moment)) => Ok((false, moment.at())),
        _ => {
            let n = as_number(alloc, item)?;
            Ok((still, n))
        }
    }
}

fn less_from(alloc: Global, start: Whole, args: &Items) -> Result<(bool, Whole), Fault>
    ensures { Gives (λ s. s) result (less_on true (Ok start) (drop 1 args.now)) }
{
    let mut still = true;
    let mut so_far = Ok(start);
    let mut place = 1;
    while let Some(item) = args.at(place) {
        let (left, seconds) = seconds_in(alloc, still, item)?;
        still = left;
        so_far = onward(Arith::Sub, so_far, seconds);
        place += 1;
    }
    let n = exact(alloc, so_far)?;
    Ok((still, n))
}

fn taken_off(alloc: Global, first: Moment, args: &Items) -> Result<Datum, Fault>
    ensures { Gives plain result (taken_off first (drop 1 args.now)) }
{
    let (still, n) = less_from(alloc, first.at(), args)?;
    if still {
        return Ok(moment(n, first));
    }
    Ok(Datum::Num(n))
}

fn subtract(alloc: Global, first: &Datum, args: &Items) -> Result<Datum, Fault>
    ensures { Gives plain result (less (plain first.now) (drop 1 args.now)) }
{
    match first {
        Datum::Time(moment) => taken_off(alloc, *moment, args),
        _ => numbers(alloc, Arith::Sub, first, args),
    }
}

/// Arithmetic of all the documents in order, exact or refused: ADD also joins texts and arrays and
/// moves times, and SUB moves times and tells the seconds between two. A document of another type
/// is told before a result that leaves the range.
pub fn arith(alloc: Global, op: Arith, args: &Items) -> Result<Datum, Fault>
    ensures { Gives plain result (arith op args.now) }
{
    let Some(first) = args.at(0) else {
        return Err(misplaced(alloc));
    };
    match op {
        Arith::Add => add(alloc, first, args),
        Arith::Sub => subtract(alloc, first, args),
        Arith::Mul | Arith::Div | Arith::Mod => numbers(alloc, op, first, args),
    }
}
