// Values and arguments wanted as one type.
ghost use Rattle.std.specs.Prelude.{◌≡◌, IfOk, Err, is_ok, false, option_map, option_and_then, codes};
ghost use Rattle.std.specs.Option.{unwrap_or};
ghost use Rattle.reql_datum.specs.Answer.{query_logic};
ghost use Rattle.reql_datum.specs.Outcome.{Gives};
ghost use Rattle.reql_datum.specs.Plain.{null};
ghost use Rattle.reql_datum.specs.View.{plain};
ghost use Rattle.reql_rules.specs.Types.{number_in, text_in, items_in};
ghost use Rattle.reql_value_spec.specs.Meant.{callable, name_of as name_of_value, is_nothing as is_nothing_of, meant_of};
ghost use Rattle.reql_value_spec.specs.Wanted.{seen as seen_of, wrong as wrong_of, to_datum as to_datum_of, as_datum as as_datum_of, as_number as as_number_of, as_text as as_text_of, as_array as as_array_of, value_in as value_in_of};
ghost use Rattle.reql_value_spec.specs.World.{World as Seen};
ghost use Rattle.reql_operand.specs.Seen.{meant, shown};

use crate::texts::type_text;
use crate::value::{Arg, Rows, Slice, Value};
use reql_datum::{Datum, Fault, Items, Memory, Name, Whole};
use std::alloc::Global;

/// The name of the type of a value, as TYPE_OF gives it.
pub fn type_name(value: &Value) -> &'static str
    ensures { (w : Seen) → result.now ≡ name_of_value (meant w value.now) }
{
    match value {
        Value::One(d) => d.type_name(),
        Value::Stream(_) => "STREAM",
        Value::Selection {
            slot: _,
            rows,
            list: _,
        } => match rows {
            Rows::InSequence => "SELECTION<STREAM>",
            Rows::InArray => "SELECTION<ARRAY>",
        },
        Value::Unread {
            slot: _,
            slice,
            range: _,
        } => match slice {
            Slice::Between(_) => "TABLE_SLICE",
            Slice::InOrder => "TABLE_SLICE",
            Slice::Rest(_) => "SELECTION<STREAM>",
        },
        Value::Row {
            slot: _,
            key: _,
            document,
        } => match document {
            None => "NULL",
            Some(_) => "SELECTION<OBJECT>",
        },
        Value::Table(_) => "TABLE",
        Value::Grouped(_) => "GROUPED_DATA",
        Value::Database(_) => "DB",
        Value::Function => "FUNCTION",
    }
}

/// Whether it is null, or a row that isn't there.
pub fn is_nothing(value: &Value) -> bool
    ensures { (w : Seen) → result ≡ is_nothing_of (meant w value.now) }
{
    match value {
        Value::One(d) => match d {
            Datum::Null => true,
            _ => false,
        },
        Value::Row {
            slot: _,
            key: _,
            document,
        } => match document {
            None => true,
            Some(_) => false,
        },
        _ => false,
    }
}

/// The fault that another type was wanted.
pub fn wrong(alloc: Global, want: &str, value: &Value) -> Result<Datum, Fault>
    ensures fault { is_ok result ≡ false }
    ensures which { (w : Seen) → Gives plain result (Err (wrong_of want.now (meant w value.now))) }
{
    if is_nothing(value) {
        return Err(Fault::NonExistence(type_text(alloc, want, "NULL")?));
    }
    let text = type_text(alloc, want, type_name(value))?;
    Err(Fault::QueryLogic(text))
}

/// The value that an argument is, if it is one: a function isn't.
pub fn value_of(arg: &Arg) -> Option<&Value>
    ensures { (w : Seen) → unwrap_or (option_map (λ v. meant w v.now) result) callable
        ≡ meant_of (shown w arg.now) }
{
    match arg {
        Arg::Value(value) => Some(value),
        _ => None,
    }
}

/// The document, where one is wanted: of a row that isn't there null.
pub fn into_datum(alloc: Global, value: Value) -> Result<Datum, Fault>
    ensures { (w : Seen) → Gives plain result (to_datum_of (meant w value)) }
{
    match value {
        Value::One(d) => Ok(d),
        Value::Row {
            slot: _,
            key: _,
            document,
        } => Ok(document_or_null(document)),
        other => wrong(alloc, "DATUM", &other),
    }
}

fn document_or_null(document: Option<Datum>) -> Datum
    ensures { plain result ≡ unwrap_or (option_map plain document) null }
{
    match document {
        Some(d) => d,
        None => Datum::Null,
    }
}

/// The same of a value that is lent.
pub fn datum_of(alloc: Global, value: &Value) -> Result<Datum, Fault>
    ensures { (w : Seen) → Gives plain result (to_datum_of (meant w value.now)) }
{
    match value {
        Value::One(d) => Ok(d.copy()?),
        Value::Row {
            slot: _,
            key: _,
            document,
        } => Ok(copy_or_null(document)?),
        _ => wrong(alloc, "DATUM", value),
    }
}

fn copy_or_null(document: &Option<Datum>) -> Result<Datum, Memory>
    ensures { IfOk result (λ d. plain d ≡ unwrap_or (option_map plain document.now) null) }
{
    match document {
        Some(d) => d.copy(),
        None => Ok(Datum::Null),
    }
}

/// The plain value that a value is, if it is one.
pub fn value_in(value: &Value) -> Option<&Datum>
    ensures { (w : Seen) → option_map (λ d. plain d.now) result ≡ value_in_of (meant w value.now) }
{
    match value {
        Value::One(d) => Some(d),
        _ => None,
    }
}

/// The number that a value is.
pub fn number_of(value: &Value) -> Option<Whole>
    ensures { (w : Seen) → result ≡ option_and_then number_in (value_in_of (meant w value.now)) }
{
    match value {
        Value::One(d) => match d {
            Datum::Num(n) => Some(*n),
            _ => None,
        },
        _ => None,
    }
}

/// The text that a value is.
pub fn text_of(value: &Value) -> Option<&Name>
    ensures { (w : Seen) → option_map (λ n. n.now) result
        ≡ option_and_then text_in (value_in_of (meant w value.now)) }
{
    match value {
        Value::One(d) => match d {
            Datum::Text(text) => Some(text),
            _ => None,
        },
        _ => None,
    }
}

/// The items of the array that a value is.
#[tactic(auto, using(reql_datum::proofs::Back::back))]
pub fn items_of(value: &Value) -> Option<&Items>
    ensures { (w : Seen) → option_map (λ items. items.now) result
        ≡ option_and_then items_in (value_in_of (meant w value.now)) }
{
    match value {
        Value::One(d) => match d {
            Datum::List(items) => Some(items),
            _ => None,
        },
        _ => None,
    }
}

/// That another type than a function was wanted.
pub fn no_value(alloc: Global, want: &str) -> Result<Name, Memory>
    ensures { IfOk result (λ text. query_logic text ≡ wrong_of want.now callable) }
{
    type_text(alloc, want, "FUNCTION")
}

/// The fault that another type was wanted of an argument.
pub fn wrong_arg(alloc: Global, want: &str, arg: &Arg) -> Result<Datum, Fault>
    ensures fault { is_ok result ≡ false }
    ensures which { (w : Seen) → Gives plain result
        (Err (wrong_of want.now (meant_of (shown w arg.now)))) }
{
    match arg {
        Arg::Value(value) => wrong(alloc, want, value),
        Arg::Function(_) => Err(Fault::QueryLogic(no_value(alloc, want)?)),
        Arg::Directed { down: _, key: _ } => Err(Fault::QueryLogic(no_value(alloc, want)?)),
        Arg::Late {
            texted: _,
            outcome: _,
        } => Err(Fault::QueryLogic(no_value(alloc, want)?)),
    }
}

/// The document, as an argument.
pub fn as_datum(alloc: Global, arg: &Arg) -> Result<Datum, Fault>
    ensures { (w : Seen) → Gives plain result (as_datum_of (shown w arg.now)) }
{
    match arg {
        Arg::Value(value) => datum_of(alloc, value),
        Arg::Function(_) => Err(Fault::QueryLogic(no_value(alloc, "DATUM")?)),
        Arg::Directed { down: _, key: _ } => Err(Fault::QueryLogic(no_value(alloc, "DATUM")?)),
        Arg::Late {
            texted: _,
            outcome: _,
        } => Err(Fault::QueryLogic(no_value(alloc, "DATUM")?)),
    }
}

/// The number that an argument is.
pub fn number_in_arg(arg: &Arg) -> Option<Whole>
    ensures { (w : Seen) → result
        ≡ option_and_then number_in (seen_of (shown w arg.now)) }
{
    match value_of(arg) {
        Some(value) => number_of(value),
        None => None,
    }
}

/// The number, as an argument.
pub fn as_number(alloc: Global, arg: &Arg) -> Result<Whole, Fault>
    ensures { (w : Seen) → Gives (λ n. n) result (as_number_of (shown w arg.now)) }
{
    match number_in_arg(arg) {
        Some(found) => Ok(found),
        None => match wrong_arg(alloc, "NUMBER", arg) {
            Err(fault) => Err(fault),
            Ok(_) => unreachable!(),
        },
    }
}

/// The text that an argument is.
pub fn text_in_arg<'a>(arg: &'a Arg) -> Option<&'a Name>
    ensures { (w : Seen) → option_map (λ n. n.now) result
        ≡ option_and_then text_in (seen_of (shown w arg.now)) }
{
    match value_of(arg) {
        Some(value) => text_of(value),
        None => None,
    }
}

/// The text, as an argument.
pub fn as_text<'a>(alloc: Global, arg: &'a Arg) -> Result<&'a Name, Fault>
    ensures { (w : Seen) → Gives (λ n. n.now) result (as_text_of (shown w arg.now)) }
{
    match text_in_arg(arg) {
        Some(found) => Ok(found),
        None => match wrong_arg(alloc, "STRING", arg) {
            Err(fault) => Err(fault),
            Ok(_) => unreachable!(),
        },
    }
}

/// The items of the array that an argument is.
pub fn items_in_arg<'a>(arg: &'a Arg) -> Option<&'a Items>
    ensures { (w : Seen) → option_map (λ items. items.now) result
        ≡ option_and_then items_in (seen_of (shown w arg.now)) }
{
    match value_of(arg) {
        Some(value) => items_of(value),
        None => None,
    }
}

/// The items of an array, as an argument.
pub fn as_array<'a>(alloc: Global, arg: &'a Arg) -> Result<&'a Items, Fault>
    ensures { (w : Seen) → Gives (λ items. items.now) result (as_array_of (shown w arg.now)) }
{
    match items_in_arg(arg) {
        Some(found) => Ok(found),
        None => match wrong_arg(alloc, "ARRAY", arg) {
            Err(fault) => Err(fault),
            Ok(_) => unreachable!(),
        },
    }
}
