// SUM, AVG, MIN and MAX.
ghost use Rattle.std.specs.Prelude.{◌≡◌, ◌+◌, ◌<◌, ◌≤◌, ◌^◌, length, pos, IfOk, Some, Ok};
ghost use Rattle.reql_datum.specs.Answer.{Answer};
ghost use Rattle.reql_datum.specs.Arithmetic.{quotient};
ghost use Rattle.reql_datum.specs.Called.{Means};
ghost use Rattle.reql_datum.specs.Outcome.{Gives};
ghost use Rattle.reql_datum.specs.Plain.{Plain};
ghost use Rattle.reql_datum.specs.View.{plain};
ghost use Rattle.reql_rules.specs.Totals.{with_value, summed, sum_all, mean, best, better, element_of, total};
ghost use Rattle.reql_seq.specs.Seen.{key_seen, sum_seen, best_seen, beats};

use crate::faults::{exact, if_any, nothing_text, number_in};
use reql_datum::{Datum, Fault, Items, Memory, NumFault, Whole, compare};
use reql_rules::Total;
use std::alloc::Global;

/// The sum of what the function answers of the elements, its mean, or the element on which its
/// answer is least or greatest, the first of them.
///
/// Elements on which the answer is NON_EXISTENCE are passed over, and for Sum and Avg those on which
/// it is null. The sum of nothing is 0; the others are then NON_EXISTENCE. A sum or a mean that
/// leaves the range of whole numbers, a mean that is not whole, and a summand that is no number are
/// QUERY_LOGIC.
pub fn total<F: Fn(&Datum) -> Result<Datum, Fault>>(
    alloc: Global,
    op: Total,
    list: &Items,
    f: &F,
) -> Result<Datum, Fault>
    requires { F.IsAlwaysCallable f.now }
    ensures { (m : Plain → Answer Plain) → Means F.Fn f.now m
        → Gives plain result (total op m list.now) }
{
    match op {
        Total::Sum => Ok(Datum::Num(sum(alloc, list, f)?.total)),
        Total::Avg => mean(alloc, sum(alloc, list, f)?),
        Total::Min => best(alloc, list, f, End::Least),
        Total::Max => best(alloc, list, f, End::Greatest),
    }
}

/// A sum, and how many numbers it is of.
#[derive(Clone, Copy)]
struct Tally {
    total: Whole,
    count: u64,
}

/// The element whose value is best so far, with that value.
#[derive(Drop)]
struct Leader {
    value: Datum,
    element: Datum,
}

/// Which end of the order is wanted.
#[derive(Clone, Copy)]
enum End {
    Least,
    Greatest,
}

// A list has fewer items than 2^63.
fn list_fits(list: &Items)
    ensures { length list.now < 2 ^ 63 }
{
    let _room = list.as_slice().len();
}

fn sum<F: Fn(&Datum) -> Result<Datum, Fault>>(
    alloc: Global,
    list: &Items,
    f: &F,
) -> Result<Tally, Fault>
    requires { F.IsAlwaysCallable f.now }
    ensures sum { (m : Plain → Answer Plain) → Means F.Fn f.now m
        → Gives sum_seen result (sum_all m list.now) }
    ensures count { IfOk result (λ s. s.count < 2 ^ 63) }
{
    list_fits(list);
    let mut sum = nothing();
    let mut place = 0;
    while let Some(item) = list.at(place) {
        let value = if_any(f(item))?;
        sum = with_value(alloc, sum, value)?;
        place += 1;
    }
    Ok(sum)
}

// The sum of nothing.
fn nothing() -> Tally
    ensures { sum_seen result ≡ (pos 0, 0) }
{
    match Whole::new(0) {
        Some(total) => Tally { total, count: 0 },
        None => unreachable!(),
    }
}

// The sum with one value more, where it is there and not null.
fn with_value(alloc: Global, sum: Tally, value: Option<Datum>) -> Result<Tally, Fault>
    requires room { sum.count < 2 ^ 63 }
    ensures sum { (v : Plain)
        → Gives sum_seen result (with_value summed (sum_seen sum) v (key_seen value)) }
    ensures count { IfOk result (λ s. s.count ≤ sum.count + 1) }
{
    match value {
        None => Ok(sum),
        Some(d) => summed(alloc, sum, &d),
    }
}

fn summed(alloc: Global, sum: Tally, d: &Datum) -> Result<Tally, Fault>
    requires room { sum.count < 2 ^ 63 }
    ensures sum { (v : Plain) → Gives sum_seen result (summed (sum_seen sum) (plain d.now) v) }
    ensures count { IfOk result (λ s. s.count ≤ sum.count + 1) }
{
    match d {
        Datum::Null => Ok(sum),
        _ => {
            let n = number_in(alloc, d)?;
            let total = exact(alloc, sum.total.add(n))?;
            Ok(Tally {
                total,
                count: sum.count + 1,
            })
        }
    }
}

// The quotient, where it is exact and in the range.
fn quotient(total: Whole, count: u64) -> Result<Whole, NumFault>
    requires { count < 2 ^ 63 }
    ensures { result ≡ quotient total (pos count) }
{
    let (total, count) = (total.get(), count as i64);
    if count == 0 {
        return Err(NumFault::ZeroDivisor);
    }
    if total % count != 0 {
        return Err(NumFault::NotWhole);
    }
    match Whole::new(total / count) {
        Some(n) => Ok(n),
        None => Err(NumFault::OverRange),
    }
}

// The mean, which is a whole number.
fn mean(alloc: Global, sum: Tally) -> Result<Datum, Fault>
    requires count { sum.count < 2 ^ 63 }
    ensures { Gives plain result (mean (sum_seen sum)) }
{
    if sum.count == 0 {
        return Err(Fault::NonExistence(nothing_text(alloc)?));
    }
    let n = exact(alloc, quotient(sum.total, sum.count))?;
    Ok(Datum::Num(n))
}

fn best<F: Fn(&Datum) -> Result<Datum, Fault>>(
    alloc: Global,
    list: &Items,
    f: &F,
    end: End,
) -> Result<Datum, Fault>
    requires { F.IsAlwaysCallable f.now }
    ensures { (m : Plain → Answer Plain) → Means F.Fn f.now m
        → Gives plain result (best (beats end) m list.now) }
{
    let mut best = None;
    let mut place = 0;
    while let Some(item) = list.at(place) {
        let value = if_any(f(item))?;
        best = or_value(end, best, value, item)?;
        place += 1;
    }
    element_of(alloc, best)
}

// The best so far, or an element whose value is there and beats it.
fn or_value(
    end: End,
    best: Option<Leader>,
    value: Option<Datum>,
    item: &Datum,
) -> Result<Option<Leader>, Memory>
    ensures { IfOk result (λ b. with_value (λ s k v. Ok (better (beats end) s k v)) (best_seen best)
        (plain item.now) (key_seen value) ≡ Ok (best_seen b)) }
{
    match value {
        None => Ok(best),
        Some(value) => better(end, best, value, item),
    }
}

fn better(
    end: End,
    best: Option<Leader>,
    value: Datum,
    item: &Datum,
) -> Result<Option<Leader>, Memory>
    ensures { IfOk result (λ b.
        best_seen b ≡ better (beats end) (best_seen best) (plain value) (plain item.now)) }
{
    match best {
        None => first_of(value, item),
        Some(held) => better_than(end, held, value, item),
    }
}

fn first_of(value: Datum, item: &Datum) -> Result<Option<Leader>, Memory>
    ensures { IfOk result (λ b. best_seen b ≡ Some (plain value, plain item.now)) }
{
    let element = item.copy()?;
    Ok(Some(Leader { value, element }))
}

fn better_than(end: End, held: Leader, value: Datum, item: &Datum) -> Result<Option<Leader>, Memory>
    ensures { IfOk result (λ b. best_seen b
        ≡ better (beats end) (best_seen (Some held)) (plain value) (plain item.now)) }
{
    if beats(end, &value, &held.value) {
        first_of(value, item)
    } else {
        Ok(Some(held))
    }
}

// Whether one value is nearer to that end of the order than another.
fn beats(end: End, value: &Datum, other: &Datum) -> bool
    ensures { result ≡ beats end (plain value.now) (plain other.now) }
{
    match end {
        End::Least => compare(value, other).is_lt(),
        End::Greatest => compare(value, other).is_gt(),
    }
}

fn element_of(alloc: Global, best: Option<Leader>) -> Result<Datum, Fault>
    ensures { Gives plain result (element_of (best_seen best)) }
{
    match best {
        None => Err(Fault::NonExistence(nothing_text(alloc)?)),
        Some(best) => Ok(best.element),
    }
}
