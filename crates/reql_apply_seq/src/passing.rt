// CONTAINS, and the COUNT of elements that pass.
ghost use Rattle.std.specs.Prelude.{◌≡◌, ◌<◌, ◌+◌, ◌^◌, if◌then◌else◌};
ghost use Rattle.reql_datum.specs.Outcome.{Gives};
ghost use Rattle.reql_datum.specs.View.{plain};
ghost use Rattle.reql_rules.specs.Mapping.{passing as passing_of, some_pass as some_pass_of};
ghost use Rattle.reql_value_spec.specs.Called.{passes as passes_of};
ghost use Rattle.reql_value_spec.specs.Meant.{Calls, Options};
ghost use Rattle.reql_value_spec.specs.Sequences.{contains as contains_rule, all_contained as all_contained_of};
ghost use Rattle.reql_value_spec.specs.World.{World as Seen};
ghost use Rattle.reql_operand.specs.Called.{Answers};
ghost use Rattle.reql_operand.specs.Seen.{shown, all_shown};
ghost use Rattle.reql_operand.specs.Tables.{seen};
ghost use Rattle.reql_apply_seq.specs.Passing.{counting};

use crate::places::counted_as;
use reql_datum::{Datum, Fault, Items};
use reql_operand::{Arg, Value, World, as_sequence, misplaced, passes};
use reql_term::TableView;
use std::alloc::Global;

/// How many elements pass.
#[tactic(auto, using(crate::proofs::Steps::count_step, crate::proofs::Steps::count_none))]
pub(crate) fn count_passing<F: Fn(usize, &[Datum]) -> Result<Value, Fault>>(
    alloc: Global,
    items: &Items,
    f: &Arg,
    call: &F,
) -> Result<Datum, Fault>
    requires { F.IsAlwaysCallable call.now }
    ensures { (w : Seen) (calls : Calls) → Answers w F.Fn call.now calls → Gives plain result
        (counting (passing_of (passes_of calls (shown w f.now)) items.now)) }
{
    let mut passed = 0;
    let mut place = 0;
    while let Some(item) = items.at(place) {
        let held = passes(alloc, f, item, call)?;
        passed = one_more(passed, held);
        place += 1;
    }
    Ok(counted_as(passed))
}

fn one_more(count: u64, held: bool) -> u64
    requires { count < 2 ^ 63 }
    ensures { result ≡ (if held then count + 1 else count) }
{
    if held { count + 1 } else { count }
}

/// CONTAINS: whether each argument equals an element, or as a function is true on one. Each is tried
/// on each element.
pub fn contains<V: TableView, F: Fn(usize, &[Datum]) -> Result<Value, Fault>>(
    alloc: Global,
    args: &[Arg],
    world: &World<V>,
    call: &F,
) -> Result<Datum, Fault>
    requires { F.IsAlwaysCallable call.now }
    ensures { let w = seen V.documents V.indexes V.entries world.now in
        (calls : Calls) → Answers w F.Fn call.now calls → (opts : Options)
        → Gives plain result (contains_rule w calls (all_shown w args.now) opts) }
{
    match args {
        [source, tests @ ..] => {
            let all = as_sequence(alloc, source, world)?;
            let held = all_contained(alloc, &all, tests, call)?;
            Ok(Datum::Bool(held))
        }
        [] => Err(Fault::QueryLogic(misplaced(alloc)?)),
    }
}

#[tactic(auto, using(crate::proofs::Steps::and_step))]
fn all_contained<F: Fn(usize, &[Datum]) -> Result<Value, Fault>>(
    alloc: Global,
    items: &Items,
    tests: &[Arg],
    call: &F,
) -> Result<bool, Fault>
    requires { F.IsAlwaysCallable call.now }
    ensures { (w : Seen) (calls : Calls) → Answers w F.Fn call.now calls → Gives (λ b. b) result
        (all_contained_of calls items.now (all_shown w tests.now)) }
{
    let mut all = true;
    for test in tests {
        let held = some_pass(alloc, items, test, call)?;
        all = all && held;
    }
    Ok(all)
}

#[tactic(auto, using(crate::proofs::Steps::or_step))]
fn some_pass<F: Fn(usize, &[Datum]) -> Result<Value, Fault>>(
    alloc: Global,
    items: &Items,
    f: &Arg,
    call: &F,
) -> Result<bool, Fault>
    requires { F.IsAlwaysCallable call.now }
    ensures { (w : Seen) (calls : Calls) → Answers w F.Fn call.now calls → Gives (λ b. b) result
        (some_pass_of (passes_of calls (shown w f.now)) items.now) }
{
    let mut some = false;
    let mut place = 0;
    while let Some(item) = items.at(place) {
        let held = passes(alloc, f, item, call)?;
        some = some || held;
        place += 1;
    }
    Ok(some)
}
