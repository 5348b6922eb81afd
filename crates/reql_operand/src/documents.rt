// Arguments wanted as documents, objects and times.
ghost use Rattle.std.specs.Prelude.{◌≡◌, Err, is_ok, false, option_map, option_and_then, codes};
ghost use Rattle.reql_datum.specs.Outcome.{Gives};
ghost use Rattle.reql_datum.specs.View.{plain};
ghost use Rattle.reql_rules.specs.Types.{object_in};
ghost use Rattle.reql_value_spec.specs.Scalars.{time_in};
ghost use Rattle.reql_value_spec.specs.Wanted.{seen as seen_of, wrong as wrong_of, datum_in, to_object as to_object_of, as_data as as_data_of, as_object as as_object_of, as_one, value_in as value_in_of};
ghost use Rattle.reql_value_spec.specs.World.{World as Seen};
ghost use Rattle.reql_operand.specs.Seen.{meant, shown, all_shown};

use crate::value::{Arg, Value};
use crate::wanted::{as_datum, no_value, value_of, wrong, wrong_arg};
use reql_datum::{Datum, Fault, Fields, Items, Moment};
use std::alloc::Global;

/// The documents of all the arguments.
pub fn as_data(alloc: Global, args: &[Arg]) -> Result<Items, Fault>
    ensures { (w : Seen) → Gives (λ items. items) result (as_data_of (all_shown w args.now)) }
{
    let mut items = Items::new(alloc);
    for arg in args {
        let d = as_datum(alloc, arg)?;
        items.push(d)?;
    }
    Ok(items)
}

fn document_in(value: &Value) -> Option<&Datum>
    ensures { (w : Seen) → option_and_then object_in (option_map (λ d. plain d.now) result)
        ≡ option_and_then object_in (datum_in (meant w value.now)) }
{
    match value {
        Value::One(d) => Some(d),
        Value::Row {
            slot: _,
            key: _,
            document,
        } => match document {
            Some(d) => Some(d),
            None => None,
        },
        _ => None,
    }
}

#[tactic(auto, using(reql_datum::proofs::Back::back))]
fn fields_in(d: Option<&Datum>) -> Option<&Fields>
    ensures { option_map (λ fields. fields.now) result
        ≡ option_and_then object_in (option_map (λ d. plain d.now) d.entry) }
{
    match d {
        Some(Datum::Obj(fields)) => {
            if fields.is_literal() {
                return None;
            }
            Some(fields)
        }
        _ => None,
    }
}

fn no_object(alloc: Global, value: &Value) -> Result<Fields, Fault>
    ensures fault { is_ok result ≡ false }
    ensures which { (w : Seen) → Gives (λ fields. fields) result
        (Err (wrong_of (codes "OBJECT") (meant w value.now))) }
{
    match wrong(alloc, "OBJECT", value) {
        Err(fault) => Err(fault),
        Ok(_) => unreachable!(),
    }
}

/// The object, where one is wanted: a LITERAL is none.
pub fn to_object(alloc: Global, value: &Value) -> Result<Fields, Fault>
    ensures { (w : Seen) → Gives (λ fields. fields) result (to_object_of (meant w value.now)) }
{
    match fields_in(document_in(value)) {
        Some(fields) => Ok(fields.copy()?),
        None => no_object(alloc, value),
    }
}

/// The object, as an argument.
pub fn as_object(alloc: Global, arg: &Arg) -> Result<Fields, Fault>
    ensures { (w : Seen) → Gives (λ fields. fields) result (as_object_of (shown w arg.now)) }
{
    match arg {
        Arg::Value(value) => to_object(alloc, value),
        Arg::Function(_) => Err(Fault::QueryLogic(no_value(alloc, "OBJECT")?)),
        Arg::Directed { down: _, key: _ } => Err(Fault::QueryLogic(no_value(alloc, "OBJECT")?)),
        Arg::Late {
            texted: _,
            outcome: _,
        } => Err(Fault::QueryLogic(no_value(alloc, "OBJECT")?)),
    }
}

fn time_of(value: &Value) -> Option<Moment>
    ensures { (w : Seen) → result ≡ option_and_then time_in (value_in_of (meant w value.now)) }
{
    match value {
        Value::One(d) => match d {
            Datum::Time(moment) => Some(*moment),
            _ => None,
        },
        _ => None,
    }
}

/// The time that an argument is.
pub fn time_in_arg(arg: &Arg) -> Option<Moment>
    ensures { (w : Seen) → result ≡ option_and_then time_in (seen_of (shown w arg.now)) }
{
    match value_of(arg) {
        Some(value) => time_of(value),
        None => None,
    }
}

/// The time, as an argument.
pub fn as_time(alloc: Global, arg: &Arg) -> Result<Moment, Fault>
    ensures { (w : Seen) → Gives (λ t. t) result
        (as_one (codes "PTYPE<TIME>") time_in (shown w arg.now)) }
{
    match time_in_arg(arg) {
        Some(found) => Ok(found),
        None => match wrong_arg(alloc, "PTYPE<TIME>", arg) {
            Err(fault) => Err(fault),
            Ok(_) => unreachable!(),
        },
    }
}
