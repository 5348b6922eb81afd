// ERROR, TYPE_OF and NOT.
ghost use Rattle.std.specs.Prelude.{◌≡◌};
ghost use Rattle.reql_datum.specs.Outcome.{Gives};
ghost use Rattle.reql_datum.specs.View.{plain};
ghost use Rattle.reql_rules.specs.Types.{truth};
ghost use Rattle.reql_value_spec.specs.Meant.{Calls, Options, name_of, meant_of};
ghost use Rattle.reql_value_spec.specs.Scalars.{raise as raise_of, type_of as type_of_of, negation as negation_of};
ghost use Rattle.reql_value_spec.specs.World.{World as Seen};
ghost use Rattle.reql_operand.specs.Seen.{shown, all_shown};

use crate::texts::misplaced;
use crate::value::Arg;
use crate::wanted::{as_datum, as_text, type_name};
use reql_datum::{Datum, Fault, Name};
use std::alloc::Global;

/// ERROR: raises its text; without one, the fault that the DEFAULT around caught.
pub fn raise(alloc: Global, args: &[Arg]) -> Result<Datum, Fault>
    ensures { (w : Seen) (calls : Calls) (opts : Options) → Gives plain result
        (raise_of w calls (all_shown w args.now) opts) }
{
    match args {
        [] => Err(Fault::Empty),
        [arg] => {
            let text = as_text(alloc, arg)?;
            Err(Fault::User(text.copy()?))
        }
        [_, _, ..] => Err(Fault::QueryLogic(misplaced(alloc)?)),
    }
}

fn arg_type(arg: &Arg) -> &'static str
    ensures { (w : Seen) → result.now ≡ name_of (meant_of (shown w arg.now)) }
{
    match arg {
        Arg::Value(value) => type_name(value),
        _ => "FUNCTION",
    }
}

/// TYPE_OF: the name of the argument's type.
pub fn type_of(alloc: Global, args: &[Arg]) -> Result<Datum, Fault>
    ensures { (w : Seen) (calls : Calls) (opts : Options) → Gives plain result
        (type_of_of w calls (all_shown w args.now) opts) }
{
    match args {
        [] => Err(Fault::QueryLogic(misplaced(alloc)?)),
        [arg] => Ok(Datum::Text(Name::of(alloc, arg_type(arg))?)),
        [_, _, ..] => Err(Fault::QueryLogic(misplaced(alloc)?)),
    }
}

/// Whether a document is true: only false and null aren't.
pub fn is_true(d: &Datum) -> bool
    ensures { result ≡ truth (plain d.now) }
{
    match d {
        Datum::Null => false,
        Datum::Bool(b) => *b,
        _ => true,
    }
}

/// NOT.
pub fn negation(alloc: Global, args: &[Arg]) -> Result<Datum, Fault>
    ensures { (w : Seen) (calls : Calls) (opts : Options) → Gives plain result
        (negation_of w calls (all_shown w args.now) opts) }
{
    match args {
        [] => Err(Fault::QueryLogic(misplaced(alloc)?)),
        [arg] => {
            let d = as_datum(alloc, arg)?;
            Ok(Datum::Bool(!is_true(&d)))
        }
        [_, _, ..] => Err(Fault::QueryLogic(misplaced(alloc)?)),
    }
}
