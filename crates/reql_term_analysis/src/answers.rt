// What is made of the answers of terms.
ghost use Rattle.std.specs.Prelude.{◌≡◌, true, false, Ok, MatchOption};
ghost use Rattle.reql_datum.specs.Answer.{Answer};
ghost use Rattle.reql_datum.specs.Outcome.{Gives};
ghost use Rattle.reql_datum.specs.View.{plain};
ghost use Rattle.reql_value_spec.specs.Lazy.{stops as stops_of, or_caught as or_caught_of};
ghost use Rattle.reql_value_spec.specs.Meaning.{settled as settled_of};
ghost use Rattle.reql_value_spec.specs.Meant.{Meant, is_nothing as is_nothing_of, late as late_of};
ghost use Rattle.reql_value_spec.specs.World.{World as Seen};
ghost use Rattle.reql_operand.specs.Seen.{meant, shown, key};
ghost use Rattle.reql_term_analysis.specs.Ways.{takes_key as takes_key_of, is_whole as is_whole_of, of_nothing as of_nothing_of, stop_of, truth_of};

use reql_datum::{Datum, Fault, Name};
use reql_operand::{Arg, Key, Value, datum_of, into_datum, is_nothing, is_true, misplaced};
use reql_term::Way;
use std::alloc::Global;

/// Whether the argument at a place may be a key with its direction.
pub fn takes_key(way: Way, at: usize) -> bool
    ensures { result ≡ takes_key_of way at }
{
    match way {
        Way::Sorting => at != 0,
        _ => false,
    }
}

/// Whether an operator takes groups as they are.
pub fn is_whole(way: Way) -> bool
    ensures { result ≡ is_whole_of way }
{
    match way {
        Way::Whole => true,
        _ => false,
    }
}

/// What AND, OR and BRANCH give without arguments.
pub fn of_nothing(alloc: Global, way: Way) -> Result<Value, Fault>
    ensures { (w : Seen) → Gives (meant w) result (of_nothing_of way) }
{
    match way {
        Way::UntilTrue => Ok(Value::One(Datum::Bool(false))),
        Way::UntilFalse => Ok(Value::One(Datum::Bool(true))),
        _ => Err(Fault::QueryLogic(misplaced(alloc)?)),
    }
}

/// The argument that is what a key is without a direction.
pub fn arg_of(found: Key) -> Arg
    ensures { (w : Seen) → shown w result ≡ key w found }
{
    match found {
        Key::Value(value) => Arg::Value(value),
        Key::Function(at) => Arg::Function(at),
    }
}

/// The ERROR that is raised only where it is needed.
pub fn late(texted: bool, outcome: Result<Value, Fault>) -> Result<Arg, Fault>
    ensures { (w : Seen) (a : Answer Meant) → Gives (meant w) outcome a
        → Gives (shown w) result (Ok (late_of texted a)) }
{
    match outcome {
        Ok(value) => Ok(Arg::Late {
            texted,
            outcome: Ok(value),
        }),
        Err(fault) => late_fault(texted, fault),
    }
}

fn late_fault(texted: bool, fault: Fault) -> Result<Arg, Fault>
    ensures { (w : Seen) (a : Answer Meant) → Gives (meant w) (Err fault) a
        → Gives (shown w) result (Ok (late_of texted a)) }
{
    match fault {
        Fault::Memory => Err(Fault::Memory),
        other => Ok(Arg::Late {
            texted,
            outcome: Err(other),
        }),
    }
}

// Whether AND or OR ends with a document.
fn stops(at: bool, d: &Datum) -> bool
    ensures { result ≡ stops_of at (plain d.now) }
{
    if at { is_true(d) } else { !is_true(d) }
}

/// Whether AND or OR ends with a value: OR, where `at` is true, with one that is true, AND with
/// one that is not. A value that is no document is a fault.
pub fn stops_at(alloc: Global, at: bool, value: &Value) -> Result<bool, Fault>
    ensures { (w : Seen) → Gives (λ b. b) result
        (stop_of at (meant w value.now)) }
{
    let d = datum_of(alloc, value)?;
    Ok(stops(at, &d))
}

/// Whether a value is true. One that is no document is a fault.
pub fn is_true_value(alloc: Global, value: Value) -> Result<bool, Fault>
    ensures { (w : Seen) → Gives (λ b. b) result (truth_of (meant w value)) }
{
    let d = into_datum(alloc, value)?;
    Ok(is_true(&d))
}

/// The value, where it is there and isn't null.
pub fn something(value: Value) -> Option<Value>
    ensures { (w : Seen) → MatchOption result (is_nothing_of (meant w value) ≡ true)
        (λ v. (v ≡ value) × (is_nothing_of (meant w value) ≡ false)) }
{
    if is_nothing(&value) {
        return None;
    }
    Some(value)
}

/// What DEFAULT gives: what it caught, where an ERROR without text ends it.
pub fn or_caught(caught: Result<Value, Fault>, found: Result<Value, Fault>) -> Result<Value, Fault>
    ensures { (w : Seen) (a b : Answer Meant) → Gives (meant w) caught a → Gives (meant w) found b
        → Gives (meant w) result (or_caught_of a b) }
{
    match found {
        Err(Fault::Empty) => caught,
        other => other,
    }
}

/// What an answer is where no DEFAULT is around it.
pub fn settled(alloc: Global, found: Result<Value, Fault>) -> Result<Value, Fault>
    ensures { (w : Seen) (a : Answer Meant) → Gives (meant w) found a
        → Gives (meant w) result (settled_of a) }
{
    match found {
        Err(Fault::Empty) => Err(Fault::QueryLogic(Name::of(
            alloc,
            "Empty ERROR term outside a default block.",
        )?)),
        other => other,
    }
}
