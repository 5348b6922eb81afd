// AND, OR and BRANCH.
ghost use Rattle.std.specs.Prelude.{◌≡◌, List, drop};
ghost use Rattle.reql_datum.specs.Outcome.{Gives};
ghost use Rattle.reql_value_spec.specs.Lazy.{chain as chain_of, branches as branches_of, branch_on as branch_on_of};
ghost use Rattle.reql_value_spec.specs.Sense.{Sense};
ghost use Rattle.reql_value_spec.specs.Sequenced.{on_groups as on_groups_of};
ghost use Rattle.reql_value_spec.specs.World.{World as Seen, Vars as Frames};
ghost use Rattle.reql_operand.specs.Seen.{meant};
ghost use Rattle.reql_term_analysis.specs.Ways.{lazy, tail_by};
ghost use Rattle.reql_argument_order.specs.Kept.{others};
ghost use Rattle.reql_argument_order.specs.Lent.{Evaluates};

use crate::groups::on_groups;
use reql_datum::Fault;
use reql_operand::{Value, misplaced, sized};
use reql_term::Way;
use reql_term_analysis::{is_true_value, of_nothing, stops_at};
use std::alloc::Global;

/// AND, OR and BRANCH of so many terms, of which only those are evaluated that are needed: from left
/// to right, group by group where the first is grouped.
pub fn lazily<F: Fn(usize) -> Result<Value, Fault>>(
    alloc: Global,
    limit: u64,
    way: Way,
    count: usize,
    eval: &F,
) -> Result<Value, Fault>
    requires { F.IsAlwaysCallable eval.now }
    ensures { (w : Seen) (ss : List Sense) (vars : Frames) → w.array_limit ≡ limit
        → Evaluates w F.Fn eval.now count ss vars
        → Gives (meant w) result (lazy way ss w vars) }
{
    if count == 0 {
        return of_nothing(alloc, way);
    }
    let first = eval(0)?;
    on_others(alloc, limit, way, first, count, eval)
}

// What the others give by what the first gave, group by group.
fn on_others<F: Fn(usize) -> Result<Value, Fault>>(
    alloc: Global,
    limit: u64,
    way: Way,
    first: Value,
    count: usize,
    eval: &F,
) -> Result<Value, Fault>
    requires { F.IsAlwaysCallable eval.now }
    ensures { (w : Seen) (ss : List Sense) (vars : Frames) → w.array_limit ≡ limit
        → Evaluates w F.Fn eval.now count ss vars
        → Gives (meant w) result (on_groups_of (others way ss w vars) (meant w first)) }
{
    on_groups(
        alloc,
        first,
        &|found: Value|
            requires { F.IsAlwaysCallable eval.now }
            ensures { (w : Seen) (ss : List Sense) (vars : Frames) → w.array_limit ≡ limit
                → Evaluates w F.Fn eval.entry.now count ss vars
                → Gives (meant w) result (others way ss w vars (meant w found)) }
        { by_others(alloc, limit, way, found, count, eval) },
    )
}

// The same of a value that is not grouped, within the limits.
#[tactic(auto, unfolding(crate::specs::Kept::others, reql_term_analysis::specs::Ways::tail))]
fn by_others<F: Fn(usize) -> Result<Value, Fault>>(
    alloc: Global,
    limit: u64,
    way: Way,
    found: Value,
    count: usize,
    eval: &F,
) -> Result<Value, Fault>
    requires { F.IsAlwaysCallable eval.now }
    ensures { (w : Seen) (ss : List Sense) (vars : Frames) → w.array_limit ≡ limit
        → Evaluates w F.Fn eval.now count ss vars
        → Gives (meant w) result (others way ss w vars (meant w found)) }
{
    let last = last_of(alloc, way, found, count, eval)?;
    sized(alloc, limit, last)
}

// What the others give by what the first gave.
fn last_of<F: Fn(usize) -> Result<Value, Fault>>(
    alloc: Global,
    way: Way,
    found: Value,
    count: usize,
    eval: &F,
) -> Result<Value, Fault>
    requires { F.IsAlwaysCallable eval.now }
    ensures { (w : Seen) (ss : List Sense) (vars : Frames)
        → Evaluates w F.Fn eval.now count ss vars
        → Gives (meant w) result (tail_by way (drop 1 ss) w vars (meant w found)) }
{
    match way {
        Way::UntilTrue => chain(alloc, true, found, count, eval),
        Way::UntilFalse => chain(alloc, false, found, count, eval),
        Way::Branching => branch_on(alloc, found, count, eval),
        _ => {
            drop(found);
            Err(Fault::QueryLogic(misplaced(alloc)?))
        }
    }
}

// AND and OR, from what the first gave on.
fn chain<F: Fn(usize) -> Result<Value, Fault>>(
    alloc: Global,
    at: bool,
    found: Value,
    count: usize,
    eval: &F,
) -> Result<Value, Fault>
    requires { F.IsAlwaysCallable eval.now }
    ensures { (w : Seen) (ss : List Sense) (vars : Frames)
        → Evaluates w F.Fn eval.now count ss vars
        → Gives (meant w) result (chain_of at (drop 1 ss) w vars (meant w found)) }
{
    let mut value = found;
    let mut place = 1;
    while place < count {
        match stops_at(alloc, at, &value) {
            Ok(true) => return Ok(value),
            Ok(false) => drop(value),
            Err(fault) => {
                drop(value);
                return Err(fault);
            }
        }
        value = eval(place)?;
        place += 1;
    }
    Ok(value)
}

// BRANCH, from what its first test gave on.
fn branch_on<F: Fn(usize) -> Result<Value, Fault>>(
    alloc: Global,
    found: Value,
    count: usize,
    eval: &F,
) -> Result<Value, Fault>
    requires { F.IsAlwaysCallable eval.now }
    ensures { (w : Seen) (ss : List Sense) (vars : Frames)
        → Evaluates w F.Fn eval.now count ss vars
        → Gives (meant w) result (branch_on_of (drop 1 ss) w vars (meant w found)) }
{
    if count < 2 {
        drop(found);
        return Err(Fault::QueryLogic(misplaced(alloc)?));
    }
    let passed = is_true_value(alloc, found)?;
    if passed {
        return eval(1);
    }
    branches(alloc, count, eval)
}

// The arm of the first test from the third term on that is true, else the last.
fn branches<F: Fn(usize) -> Result<Value, Fault>>(
    alloc: Global,
    count: usize,
    eval: &F,
) -> Result<Value, Fault>
    requires { F.IsAlwaysCallable eval.now }
    ensures { (w : Seen) (ss : List Sense) (vars : Frames)
        → Evaluates w F.Fn eval.now count ss vars
        → Gives (meant w) result (branches_of (drop 2 ss) w vars) }
{
    let mut place = 2;
    while place < count {
        if place + 1 == count {
            return eval(place);
        }
        let test = eval(place)?;
        let passed = is_true_value(alloc, test)?;
        if passed {
            return eval(place + 1);
        }
        place += 2;
    }
    Err(Fault::QueryLogic(misplaced(alloc)?))
}
