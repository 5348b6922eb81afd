// The options of writes.
ghost use Rattle.std.specs.Prelude.{◌≡◌, Ok, Some, false, map, option_map, MatchOption};
ghost use Rattle.reql_datum.specs.Outcome.{Gives};
ghost use Rattle.reql_datum.specs.Plain.{boolean};
ghost use Rattle.reql_operand.specs.Seen.{choice, meant, shown};
ghost use Rattle.reql_value_spec.specs.Wanted.{seen as seen_of, value_in as value_in_of};
ghost use Rattle.reql_value_spec.specs.World.{World as Seen};
ghost use Rattle.reql_plan_spec.specs.Writes.{conflict_by as conflict_by_of, conflict_option as conflict_option_of, returns_by as returns_by_of, returns_named as returns_named_of, returns_given as returns_given_of, returns_option as returns_option_of, is_truth as is_truth_of, hard_by as hard_by_of, hard_option as hard_option_of};

use reql_datum::{Datum, Fault, Name};
use reql_operand::{Arg, Choice, Value, bad_option, find_choice, same_text, text_option, value_of};
use reql_write_spec::{Conflict, Returns};
use std::alloc::Global;

fn conflict_by(alloc: Global, given: Option<&Name>) -> Result<Conflict, Fault>
    ensures { Gives (λ c. c) result (conflict_by_of (option_map (λ n. n.now) given.entry)) }
{
    let Some(name) = given else {
        return Ok(Conflict::Error);
    };
    if same_text(name.as_str(), "error") {
        return Ok(Conflict::Error);
    }
    if same_text(name.as_str(), "replace") {
        return Ok(Conflict::Replace);
    }
    if same_text(name.as_str(), "update") {
        return Ok(Conflict::Update);
    }
    Err(Fault::QueryLogic(bad_option(alloc, "conflict")?))
}

/// What an insert does with a document whose key is there.
pub(crate) fn conflict_option(alloc: Global, opts: &[Choice]) -> Result<Conflict, Fault>
    ensures { (w : Seen) → Gives (λ c. c) result (conflict_option_of (map (choice w) opts.now)) }
{
    let given = text_option(alloc, "conflict", opts)?;
    conflict_by(alloc, given)
}

fn returns_named(alloc: Global, given: Option<&Name>) -> Result<Returns, Fault>
    ensures { Gives (λ r. r) result (returns_named_of (option_map (λ n. n.now) given.entry)) }
{
    let Some(name) = given else {
        return Ok(Returns::No);
    };
    if same_text(name.as_str(), "always") {
        return Ok(Returns::Always);
    }
    Err(Fault::QueryLogic(bad_option(alloc, "return_changes")?))
}

// The truth value that an argument is.
fn truth_of(value: &Value) -> Option<bool>
    ensures { (w : Seen) → MatchOption result
        (is_truth_of (value_in_of (meant w value.now)) ≡ false)
        (λ b. value_in_of (meant w value.now) ≡ Some (boolean b)) }
{
    match value {
        Value::One(d) => match d {
            Datum::Bool(truth) => Some(*truth),
            _ => None,
        },
        _ => None,
    }
}

fn truth_in(arg: &Arg) -> Option<bool>
    ensures { (w : Seen) → MatchOption result (is_truth_of (seen_of (shown w arg.now)) ≡ false)
        (λ b. seen_of (shown w arg.now) ≡ Some (boolean b)) }
{
    match value_of(arg) {
        Some(value) => truth_of(value),
        None => None,
    }
}

fn returns_by(truth: bool) -> Returns
    ensures { returns_by_of (Some (boolean truth)) ≡ Ok result }
{
    if truth {
        return Returns::Changed;
    }
    Returns::No
}

/// What a write lists of its changes.
pub(crate) fn returns_option(alloc: Global, opts: &[Choice]) -> Result<Returns, Fault>
    ensures { (w : Seen) → Gives (λ r. r) result (returns_option_of (map (choice w) opts.now)) }
{
    match find_choice(opts, "return_changes") {
        None => Ok(Returns::No),
        Some(arg) => returns_given(alloc, opts, arg),
    }
}

fn returns_given(alloc: Global, opts: &[Choice], arg: &Arg) -> Result<Returns, Fault>
    ensures { (w : Seen) → Gives (λ r. r) result (returns_given_of (map (choice w) opts.now)
        (Some (shown w arg.now))) }
{
    if let Some(truth) = truth_in(arg) {
        return Ok(returns_by(truth));
    }
    let given = text_option(alloc, "return_changes", opts)?;
    returns_named(alloc, given)
}

fn hard_by(alloc: Global, given: Option<&Name>) -> Result<bool, Fault>
    ensures { Gives (λ b. b) result (hard_by_of (option_map (λ n. n.now) given.entry)) }
{
    let Some(name) = given else {
        return Ok(true);
    };
    if same_text(name.as_str(), "hard") {
        return Ok(true);
    }
    if same_text(name.as_str(), "soft") {
        return Ok(false);
    }
    Err(Fault::QueryLogic(bad_option(alloc, "durability")?))
}

/// Whether a write is to be kept on disk before it is answered.
pub(crate) fn hard_option(alloc: Global, opts: &[Choice]) -> Result<bool, Fault>
    ensures { (w : Seen) → Gives (λ b. b) result (hard_option_of (map (choice w) opts.now)) }
{
    let given = text_option(alloc, "durability", opts)?;
    hard_by(alloc, given)
}
