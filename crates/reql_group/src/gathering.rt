// GROUP.
ghost use Rattle.std.specs.Prelude.{◌≡◌, List, ◌∷◌, [], map, IfOk};
ghost use Rattle.std.specs.List.{zip};
ghost use Rattle.reql_datum.specs.Answer.{Answer};
ghost use Rattle.reql_datum.specs.Called.{Means};
ghost use Rattle.reql_datum.specs.Order.{order};
ghost use Rattle.reql_datum.specs.Outcome.{Gives};
ghost use Rattle.reql_datum.specs.Plain.{Plain};
ghost use Rattle.reql_datum.specs.View.{plain};
ghost use Rattle.reql_memory.specs.Sorted.{AllBelowBy};
ghost use Rattle.reql_rules.specs.Grouping.{gather, group_all, or_null, with_group};
ghost use Rattle.reql_rules.specs.Lists.{each};
ghost use Rattle.reql_rules.specs.Sorting.{sorted};
ghost use Rattle.reql_rules.specs.Types.{same};
ghost use Rattle.reql_group.specs.Gathered.{Rises, Gathers, by_group};
ghost use Rattle.reql_group.specs.Seen.{pair_seen};

use crate::grouped::Groups;
use reql_datum::{Datum, Fault, Items, Memory, compare};
use std::alloc::Global;
use std::mem;

// An element with its group.
#[derive(Drop)]
struct Pair {
    group: Datum,
    member: Datum,
}

// A group with the members that are found so far.
#[derive(Drop)]
struct Run {
    group: Datum,
    members: Items,
}

/// GROUP: the elements by what `f` gives of them, each group with the array of its members, in
/// order. An element for which a value is missing is in the group of null. It takes the steps of a
/// sort.
pub fn group<F: Fn(&Datum) -> Result<Datum, Fault>>(
    alloc: Global,
    list: &Items,
    f: &F,
) -> Result<Groups, Fault>
    requires { F.IsAlwaysCallable f.now }
    ensures { (m : Plain → Answer Plain) → Means F.Fn f.now m
        → Gives (λ groups. groups) result (group_all m list.now) }
{
    let pairs = paired(alloc, list.as_slice(), f)?;
    Ok(gathered(alloc, pairs)?)
}

/// GROUP by values that are there, as those of an index: the members by the groups that stand beside
/// them at their places, as far as both lists go.
pub fn group_beside(alloc: Global, groups: &Items, members: &Items) -> Result<Groups, Memory>
    ensures { IfOk result (λ r. r ≡ gather (zip groups.now members.now)) }
{
    let pairs = beside(alloc, groups, members)?;
    gathered(alloc, pairs)
}

// Each element with its group.
fn paired<F: Fn(&Datum) -> Result<Datum, Fault>>(
    alloc: Global,
    list: &[Datum],
    f: &F,
) -> Result<Vec<Pair>, Fault>
    requires { F.IsAlwaysCallable f.now }
    ensures { (m : Plain → Answer Plain) → Means F.Fn f.now m
        → Gives (λ pairs. map pair_seen pairs.items) result
        (each (with_group m) (map plain list.now)) }
{
    let mut pairs = Vec::with_capacity(alloc, list.len())?;
    for item in list {
        let group = or_null(f(item))?;
        let member = item.copy()?;
        pairs.push(Pair { group, member })?;
    }
    Ok(pairs)
}

/// Null where a value is missing, as a group takes it.
pub fn or_null(answer: Result<Datum, Fault>) -> Result<Datum, Fault>
    ensures { (a : Answer Plain) → Gives plain answer a → Gives plain result (or_null a) }
{
    match answer {
        Ok(value) => Ok(value),
        Err(Fault::NonExistence(_)) => Ok(Datum::Null),
        Err(fault) => Err(fault),
    }
}

// Each member with the group beside it.
#[tactic(auto, using(crate::proofs::Beside::beside_none))]
fn beside(alloc: Global, groups: &Items, members: &Items) -> Result<Vec<Pair>, Memory>
    ensures { IfOk result (λ pairs. map pair_seen pairs.items ≡ zip groups.now members.now) }
{
    let mut pairs = Vec::new(alloc);
    let mut place = 0;
    while let (Some(group), Some(member)) = (groups.at(place), members.at(place)) {
        let pair = Pair {
            group: group.copy()?,
            member: member.copy()?,
        };
        pairs.push(pair)?;
        place += 1;
    }
    Ok(pairs)
}

// The groups of the pairs.
#[tactic(auto, using(crate::proofs::Sorting::sorted_rises, crate::proofs::Sorting::gather_sorted))]
fn gathered(alloc: Global, pairs: Vec<Pair>) -> Result<Groups, Memory>
    ensures { IfOk result (λ groups. groups ≡ gather (map pair_seen pairs.items)) }
{
    let rising = in_order(pairs)?;
    runs(alloc, &rising)
}

// The pairs by their groups, those of one group as they stood.
fn in_order(pairs: Vec<Pair>) -> Result<Vec<Pair>, Memory>
    ensures { IfOk result (λ rising. map pair_seen rising.items
        ≡ sorted by_group (map pair_seen pairs.items)) }
{
    let mut rising = pairs;
    rising.sort_by(|a, b| compare(&a.group, &b.group))?;
    Ok(rising)
}

// The groups of pairs that rise by their groups, by one walk.
fn runs(alloc: Global, pairs: &[Pair]) -> Result<Groups, Memory>
    requires rising { Rises (map pair_seen pairs.now) }
    ensures { IfOk result (λ groups. groups ≡ gather (map pair_seen pairs.now)) }
{
    let mut groups = Groups::new(alloc);
    let [first, ..] = pairs else {
        return Ok(groups);
    };
    let mut run = Run {
        group: first.group.copy()?,
        members: Items::new(alloc),
    };
    for pair in pairs {
        add(alloc, &mut groups, &mut run, pair)?;
    }
    groups.push(run.group, Datum::List(run.members))?;
    Ok(groups)
}

// One more pair: it is of the group at hand, or begins the next one.
fn add(alloc: Global, groups: &mut Groups, run: &mut Run, pair: &Pair) -> Result<(), Memory>
    requires above { AllBelowBy order (plain run.old.group) groups.old }
    ensures { (rest all : List (Plain × Plain))
        → Gathers groups.old (plain run.old.group) run.old.members (pair_seen pair.now ∷ rest) all
        → IfOk result (λ _. Gathers groups.new (plain run.new.group) run.new.members rest all) }
{
    if is_of(pair, run) {
        run.members.push(pair.member.copy()?)?;
        return Ok(());
    }
    let done = mem::replace(run, begun(alloc, pair)?);
    groups.push(done.group, Datum::List(done.members))?;
    Ok(())
}

fn begun(alloc: Global, pair: &Pair) -> Result<Run, Memory>
    ensures group { IfOk result (λ run. run.group ≡ pair.now.group) }
    ensures members { IfOk result (λ run. run.members ≡ plain pair.now.member ∷ []) }
{
    let group = pair.group.copy()?;
    let mut members = Items::new(alloc);
    members.push(pair.member.copy()?)?;
    Ok(Run { group, members })
}

fn is_of(pair: &Pair, run: &Run) -> bool
    ensures { result ≡ same (plain pair.now.group) (plain run.now.group) }
{
    compare(&pair.group, &run.group).is_eq()
}
