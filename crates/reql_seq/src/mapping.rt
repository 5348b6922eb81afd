// MAP, FILTER, CONCAT_MAP and REDUCE.
ghost use Rattle.std.specs.Prelude.{◌≡◌, [], ◌∷◌, ◌++◌, IfOk, drop, if◌then◌else◌};
ghost use Rattle.reql_datum.specs.Answer.{Answer, non_existence};
ghost use Rattle.reql_datum.specs.Called.{Means, MeansTwo};
ghost use Rattle.reql_datum.specs.Outcome.{Gives};
ghost use Rattle.reql_datum.specs.Plain.{Plain};
ghost use Rattle.reql_datum.specs.View.{plain};
ghost use Rattle.reql_rules.specs.Lists.{each};
ghost use Rattle.reql_rules.specs.Mapping.{missed, tested, filter_all, concat_all, reduce_from, reduce_all};

use crate::faults::{is_true, items_in, nothing_text};
use reql_datum::{Datum, Fault, Items, Memory, Name};
use reql_rules::Missing;
use std::alloc::Global;

/// What the function answers of each element, in order. The first fault counts.
pub fn map<F: Fn(&Datum) -> Result<Datum, Fault>>(
    alloc: Global,
    list: &Items,
    f: &F,
) -> Result<Items, Fault>
    requires { F.IsAlwaysCallable f.now }
    ensures { (m : Plain → Answer Plain) → Means F.Fn f.now m
        → Gives (λ items. items) result (each m list.now) }
{
    let mut answers = Items::with_room(alloc, list.len())?;
    let mut place = 0;
    while let Some(item) = list.at(place) {
        let answer = f(item)?;
        answers.push(answer)?;
        place += 1;
    }
    Ok(answers)
}

/// The elements on which the function answers something true, in order. Where its answer is
/// NON_EXISTENCE, `missing` says whether the element goes, stays, or that fault is raised.
pub fn filter<F: Fn(&Datum) -> Result<Datum, Fault>>(
    alloc: Global,
    list: &Items,
    f: &F,
    missing: Missing,
) -> Result<Items, Fault>
    requires { F.IsAlwaysCallable f.now }
    ensures { (m : Plain → Answer Plain) → Means F.Fn f.now m
        → Gives (λ items. items) result (filter_all missing m list.now) }
{
    let mut kept = Items::new(alloc);
    let mut place = 0;
    while let Some(item) = list.at(place) {
        let passes = test(missing, f(item))?;
        keep(&mut kept, passes, item)?;
        place += 1;
    }
    Ok(kept)
}

// Whether an answer lets an element pass.
fn test(missing: Missing, answer: Result<Datum, Fault>) -> Result<bool, Fault>
    ensures { (a : Answer Plain) → Gives plain answer a
        → Gives (λ b. b) result (tested missing a) }
{
    match answer {
        Ok(value) => Ok(is_true(&value)),
        Err(Fault::NonExistence(text)) => on_missing(missing, text),
        Err(fault) => Err(fault),
    }
}

fn on_missing(missing: Missing, text: Name) -> Result<bool, Fault>
    ensures { Gives (λ b. b) result (missed missing (non_existence text)) }
{
    match missing {
        Missing::Drop => Ok(false),
        Missing::Keep => Ok(true),
        Missing::Raise => Err(Fault::NonExistence(text)),
    }
}

// The element at the end of those that are kept, where it passes.
fn keep(kept: &mut Items, passes: bool, item: &Datum) -> Result<(), Memory>
    ensures { IfOk result (λ _.
        kept.new ≡ (if passes then kept.old ++ plain item.now ∷ [] else kept.old)) }
{
    if passes {
        let copied = item.copy()?;
        kept.push(copied)?;
    }
    Ok(())
}

/// The lists that the function answers of each element, joined. An answer that is no list is a
/// fault, NON_EXISTENCE where it is null and QUERY_LOGIC otherwise.
pub fn concat_map<F: Fn(&Datum) -> Result<Datum, Fault>>(
    alloc: Global,
    list: &Items,
    f: &F,
) -> Result<Items, Fault>
    requires { F.IsAlwaysCallable f.now }
    ensures { (m : Plain → Answer Plain) → Means F.Fn f.now m
        → Gives (λ items. items) result (concat_all m list.now) }
{
    let mut all = Items::new(alloc);
    let mut place = 0;
    while let Some(item) = list.at(place) {
        let answer = f(item)?;
        append(&mut all, items_in(alloc, &answer)?)?;
        place += 1;
    }
    Ok(all)
}

// The items of another list at the end of one.
fn append(all: &mut Items, items: &Items) -> Result<(), Memory>
    ensures { IfOk result (λ _. all.new ≡ all.old ++ items.now) }
{
    let mut place = 0;
    while let Some(item) = items.at(place) {
        let copied = item.copy()?;
        all.push(copied)?;
        place += 1;
    }
    Ok(())
}

/// The function of two applied from the left, to what it answered so far and the next element. One
/// element is itself, and of none it is NON_EXISTENCE.
pub fn reduce<G: Fn(&Datum, &Datum) -> Result<Datum, Fault>>(
    alloc: Global,
    list: &Items,
    f: &G,
) -> Result<Datum, Fault>
    requires { G.IsAlwaysCallable f.now }
    ensures { (m : Plain → Plain → Answer Plain) → MeansTwo G.Fn f.now m
        → Gives plain result (reduce_all m list.now) }
{
    match list.at(0) {
        None => Err(Fault::NonExistence(nothing_text(alloc)?)),
        Some(first) => reduce_from(first.copy()?, list, f),
    }
}

// The reduction of all elements after the first.
fn reduce_from<G: Fn(&Datum, &Datum) -> Result<Datum, Fault>>(
    first: Datum,
    list: &Items,
    f: &G,
) -> Result<Datum, Fault>
    requires { G.IsAlwaysCallable f.now }
    ensures { (m : Plain → Plain → Answer Plain) → MeansTwo G.Fn f.now m
        → Gives plain result (reduce_from m (plain first) (drop 1 list.now)) }
{
    let mut reduced = first;
    let mut place = 1;
    while let Some(item) = list.at(place) {
        reduced = f(&reduced, item)?;
        place += 1;
    }
    Ok(reduced)
}
