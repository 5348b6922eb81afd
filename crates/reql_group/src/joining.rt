// INNER_JOIN, OUTER_JOIN and EQ_JOIN.
ghost use Rattle.std.specs.Prelude.{◌≡◌, List, Ok, Some, ◌++◌, map, option_map};
ghost use Rattle.reql_datum.specs.Answer.{Answer};
ghost use Rattle.reql_datum.specs.Called.{Means, MeansTwo};
ghost use Rattle.reql_datum.specs.Outcome.{Gives};
ghost use Rattle.reql_datum.specs.Plain.{Plain};
ghost use Rattle.reql_datum.specs.View.{plain};
ghost use Rattle.reql_rules.specs.Joining.{matched as matched_rule, eq_join_all, join_all};
ghost use Rattle.reql_rules.specs.Mapping.{if_any};
ghost use Rattle.reql_rules.specs.Types.{truth};
ghost use Rattle.reql_group.specs.Called.{MeansRows};
ghost use Rattle.reql_group.specs.Joined.{pairs_after, tried_after, joined_after};

use crate::sides::Sides;
use reql_datum::{Datum, Fault, Items};
use std::alloc::Global;

/// INNER_JOIN, or OUTER_JOIN where `outer` is set: the pairs of which `f` is true, in the order of
/// the left elements and then of the right ones. In an outer join a left element of no pair stands
/// alone. Each pair is tried, and the first fault is the answer.
pub fn join<G: Fn(&Datum, &Datum) -> Result<Datum, Fault>>(
    alloc: Global,
    left: &Items,
    right: &Items,
    f: &G,
    outer: bool,
) -> Result<Items, Fault>
    requires { G.IsAlwaysCallable f.now }
    ensures { (m : Plain → Plain → Answer Plain) → MeansTwo G.Fn f.now m
        → Gives (λ items. items) result (join_all outer m left.now right.now) }
{
    join_each(alloc, left.as_slice(), right.as_slice(), f, outer)
}

fn join_each<G: Fn(&Datum, &Datum) -> Result<Datum, Fault>>(
    alloc: Global,
    lefts: &[Datum],
    rights: &[Datum],
    f: &G,
    outer: bool,
) -> Result<Items, Fault>
    requires { G.IsAlwaysCallable f.now }
    ensures { (m : Plain → Plain → Answer Plain) → MeansTwo G.Fn f.now m
        → Gives (λ items. items) result
        (join_all outer m (map plain lefts.now) (map plain rights.now)) }
{
    let sides = Sides::new(alloc)?;
    let mut pairs = Items::new(alloc);
    for left in lefts {
        pairs = joined(&sides, pairs, left, rights, f, outer)?;
    }
    Ok(pairs)
}

// With the pairs of one left element, or with it alone.
#[tactic(auto, using(crate::proofs::Joined::alone_after))]
fn joined<G: Fn(&Datum, &Datum) -> Result<Datum, Fault>>(
    sides: &Sides,
    pairs: Items,
    left: &Datum,
    rights: &[Datum],
    f: &G,
    outer: bool,
) -> Result<Items, Fault>
    requires { G.IsAlwaysCallable f.now }
    ensures { (m : Plain → Plain → Answer Plain) → MeansTwo G.Fn f.now m
        → Gives (λ items. items) result
        (joined_after outer m (plain left.now) (map plain rights.now) pairs) }
{
    let before = pairs.len();
    let mut all = partnered(sides, pairs, left, rights, f)?;
    if outer && all.len() == before {
        all.push(sides.alone(left)?)?;
    }
    Ok(all)
}

// With the pairs of one left element.
#[tactic(auto, using(crate::proofs::Joined::partners_step))]
fn partnered<G: Fn(&Datum, &Datum) -> Result<Datum, Fault>>(
    sides: &Sides,
    pairs: Items,
    left: &Datum,
    rights: &[Datum],
    f: &G,
) -> Result<Items, Fault>
    requires { G.IsAlwaysCallable f.now }
    ensures { (m : Plain → Plain → Answer Plain) → MeansTwo G.Fn f.now m
        → Gives (λ items. items) result
        (pairs_after m (plain left.now) (map plain rights.now) pairs) }
{
    let mut all = pairs;
    for right in rights {
        all = tried(sides, all, left, right, f)?;
    }
    Ok(all)
}

// With the pair of two elements, if they are one.
fn tried<G: Fn(&Datum, &Datum) -> Result<Datum, Fault>>(
    sides: &Sides,
    pairs: Items,
    left: &Datum,
    right: &Datum,
    f: &G,
) -> Result<Items, Fault>
    requires { G.IsAlwaysCallable f.now }
    ensures { (m : Plain → Plain → Answer Plain) → MeansTwo G.Fn f.now m
        → Gives (λ items. items) result (tried_after m (plain left.now) (plain right.now) pairs) }
{
    let answer = f(left, right)?;
    if !is_true(&answer) {
        return Ok(pairs);
    }
    let mut all = pairs;
    all.push(sides.both(left, right)?)?;
    Ok(all)
}

fn is_true(d: &Datum) -> bool
    ensures { result ≡ truth (plain d.now) }
{
    match d {
        Datum::Bool(b) => *b,
        Datum::Null => false,
        _ => true,
    }
}

/// EQ_JOIN: the pairs of each element with the documents that `having` finds for the key that `key`
/// gives of it, in order. An element whose key is missing or null has none.
pub fn eq_join<F: Fn(&Datum) -> Result<Datum, Fault>, G: Fn(&Datum) -> Result<Items, Fault>>(
    alloc: Global,
    list: &Items,
    key: &F,
    having: &G,
) -> Result<Items, Fault>
    requires key { F.IsAlwaysCallable key.now }
    requires having { G.IsAlwaysCallable having.now }
    ensures { (m : Plain → Answer Plain) → Means F.Fn key.now m
        → (h : Plain → List Plain) → MeansRows G.Fn having.now h
        → Gives (λ items. items) result (eq_join_all m h list.now) }
{
    eq_join_each(alloc, list.as_slice(), key, having)
}

fn eq_join_each<F: Fn(&Datum) -> Result<Datum, Fault>, G: Fn(&Datum) -> Result<Items, Fault>>(
    alloc: Global,
    list: &[Datum],
    key: &F,
    having: &G,
) -> Result<Items, Fault>
    requires key { F.IsAlwaysCallable key.now }
    requires having { G.IsAlwaysCallable having.now }
    ensures { (m : Plain → Answer Plain) → Means F.Fn key.now m
        → (h : Plain → List Plain) → MeansRows G.Fn having.now h
        → Gives (λ items. items) result (eq_join_all m h (map plain list.now)) }
{
    let sides = Sides::new(alloc)?;
    let mut pairs = Items::new(alloc);
    for left in list {
        let found = if_any(key(left))?;
        pairs = matched(&sides, pairs, left, found, having)?;
    }
    Ok(pairs)
}

// None where a value is missing.
fn if_any(answer: Result<Datum, Fault>) -> Result<Option<Datum>, Fault>
    ensures { (a : Answer Plain) → Gives plain answer a
        → Gives (option_map plain) result (if_any a) }
{
    match answer {
        Ok(value) => Ok(Some(value)),
        Err(Fault::NonExistence(_)) => Ok(None),
        Err(fault) => Err(fault),
    }
}

// With the pairs of one element.
fn matched<G: Fn(&Datum) -> Result<Items, Fault>>(
    sides: &Sides,
    pairs: Items,
    left: &Datum,
    key: Option<Datum>,
    having: &G,
) -> Result<Items, Fault>
    requires { G.IsAlwaysCallable having.now }
    ensures { (h : Plain → List Plain) → MeansRows G.Fn having.now h → Gives (λ items. items) result
        (Ok (pairs ++ matched_rule h (plain left.now) (option_map plain key))) }
{
    match key {
        None => Ok(pairs),
        Some(value) => matched_by(sides, pairs, left, &value, having),
    }
}

fn matched_by<G: Fn(&Datum) -> Result<Items, Fault>>(
    sides: &Sides,
    pairs: Items,
    left: &Datum,
    key: &Datum,
    having: &G,
) -> Result<Items, Fault>
    requires { G.IsAlwaysCallable having.now }
    ensures { (h : Plain → List Plain) → MeansRows G.Fn having.now h → Gives (λ items. items) result
        (Ok (pairs ++ matched_rule h (plain left.now) (Some (plain key.now)))) }
{
    match key {
        Datum::Null => Ok(pairs),
        _ => {
            let rows = having(key)?;
            Ok(sides.with_each(pairs, left, rows.as_slice())?)
        }
    }
}
