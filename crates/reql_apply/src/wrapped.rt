// What a rule gives, as a value.
ghost use Rattle.std.specs.Prelude.{List, map};
ghost use Rattle.reql_datum.specs.Answer.{Answer};
ghost use Rattle.reql_datum.specs.Outcome.{Gives};
ghost use Rattle.reql_datum.specs.Plain.{Plain};
ghost use Rattle.reql_datum.specs.View.{plain};
ghost use Rattle.reql_value_spec.specs.World.{World as Seen};
ghost use Rattle.reql_operand.specs.Seen.{meant, shown, group};
ghost use Rattle.reql_apply.specs.Wrapped.{of_datum, of_array, of_stream, of_groups, of_like};

use reql_datum::{Datum, Fault, Items};
use reql_operand::{Arg, Group, Value, like};

/// A document.
#[tactic(auto, using(reql_operand::proofs::Steps::fails_on))]
pub(crate) fn one(found: Result<Datum, Fault>) -> Result<Value, Fault>
    ensures { (w : Seen) (a : Answer Plain) → Gives plain found a
        → Gives (meant w) result (of_datum a) }
{
    match found {
        Ok(d) => Ok(Value::One(d)),
        Err(fault) => Err(fault),
    }
}

/// An array.
#[tactic(auto, using(reql_operand::proofs::Steps::fails_on))]
pub(crate) fn array(found: Result<Items, Fault>) -> Result<Value, Fault>
    ensures { (w : Seen) (a : Answer (List Plain)) → Gives (λ items. items) found a
        → Gives (meant w) result (of_array a) }
{
    match found {
        Ok(items) => Ok(Value::One(Datum::List(items))),
        Err(fault) => Err(fault),
    }
}

/// A stream.
#[tactic(auto, using(reql_operand::proofs::Steps::fails_on))]
pub(crate) fn stream(found: Result<Items, Fault>) -> Result<Value, Fault>
    ensures { (w : Seen) (a : Answer (List Plain)) → Gives (λ items. items) found a
        → Gives (meant w) result (of_stream a) }
{
    match found {
        Ok(items) => Ok(Value::Stream(items)),
        Err(fault) => Err(fault),
    }
}

/// Groups, as a value.
#[tactic(auto, using(reql_operand::proofs::Steps::fails_on))]
pub fn grouped_value(found: Result<Vec<Group>, Fault>) -> Result<Value, Fault>
    ensures { (w : Seen) (a : Answer (List (Plain × Plain)))
        → Gives (λ gs. map group gs.items) found a → Gives (meant w) result (of_groups a) }
{
    match found {
        Ok(groups) => Ok(Value::Grouped(groups)),
        Err(fault) => Err(fault),
    }
}

/// A sequence of the kind of an argument.
#[tactic(auto, using(reql_operand::proofs::Steps::fails_on))]
pub(crate) fn like_source(source: &Arg, found: Result<Items, Fault>) -> Result<Value, Fault>
    ensures { (w : Seen) (a : Answer (List Plain)) → Gives (λ items. items) found a
        → Gives (meant w) result (of_like (shown w source.now) a) }
{
    match found {
        Ok(items) => Ok(like(source, items)),
        Err(fault) => Err(fault),
    }
}
