// Function positions: a function is called, and anything else is constant.
ghost use Rattle.reql_datum.specs.Outcome.{Gives};
ghost use Rattle.reql_datum.specs.View.{plain};
ghost use Rattle.std.specs.Prelude.{◌≡◌, map};
ghost use Rattle.reql_value_spec.specs.Called.{answer as answer_of, answer_datum as answer_datum_of, answer_one as answer_one_of, answer_two as answer_two_of, answer_items as answer_items_of, answer_key as answer_key_of, passes as passes_of, answer_test as answer_test_of, constant_key as constant_key_of, gives_pattern as gives_pattern_of, judged as judged_of};
ghost use Rattle.reql_value_spec.specs.Meant.{Calls, meant_of};
ghost use Rattle.reql_value_spec.specs.Wanted.{to_sequence as to_sequence_of, as_sequence as as_sequence_of};
ghost use Rattle.reql_value_spec.specs.World.{World as Seen};
ghost use Rattle.reql_operand.specs.Called.{Answers};
ghost use Rattle.reql_operand.specs.Seen.{meant, shown};
ghost use Rattle.reql_operand.specs.Tables.{seen};

use crate::copying::copy_value;
use crate::field::get_field;
use crate::matching::{fits, is_same};
use crate::purse::paid;
use crate::reading::{as_sequence, to_sequence};
use crate::scalars::is_true;
use crate::value::{Arg, Value};
use crate::wanted::{as_datum, into_datum, text_in_arg};
use crate::world::World;
use reql_datum::{Datum, Fault, Items};
use reql_term::TableView;
use std::alloc::Global;
use std::slice;

/// What a function answers on values; anything else is constant.
pub fn answer<F: Fn(usize, &[Datum]) -> Result<Value, Fault>>(
    alloc: Global,
    arg: &Arg,
    values: &[Datum],
    call: &F,
) -> Result<Value, Fault>
    requires { F.IsAlwaysCallable call.now }
    ensures { (w : Seen) (calls : Calls) → Answers w F.Fn call.now calls
        → Gives (meant w) result (answer_of calls (shown w arg.now) (map plain values.now)) }
{
    match arg {
        Arg::Function(function) => call(function.at, values),
        Arg::Value(value) => Ok(copy_value(alloc, value)?),
        Arg::Directed { down: _, key: _ } => Ok(Value::Function),
        Arg::Late {
            texted: _,
            outcome: _,
        } => Ok(Value::Function),
    }
}

/// The document that a function answers on values, or the constant.
pub fn answer_datum<F: Fn(usize, &[Datum]) -> Result<Value, Fault>>(
    alloc: Global,
    arg: &Arg,
    values: &[Datum],
    call: &F,
) -> Result<Datum, Fault>
    requires { F.IsAlwaysCallable call.now }
    ensures { (w : Seen) (calls : Calls) → Answers w F.Fn call.now calls
        → Gives plain result (answer_datum_of calls (shown w arg.now) (map plain values.now)) }
{
    match arg {
        Arg::Function(function) => {
            let value = call(function.at, values)?;
            into_datum(alloc, value)
        }
        _ => as_datum(alloc, arg),
    }
}

/// The same on one value.
pub fn answer_one<F: Fn(usize, &[Datum]) -> Result<Value, Fault>>(
    alloc: Global,
    arg: &Arg,
    d: &Datum,
    call: &F,
) -> Result<Datum, Fault>
    requires { F.IsAlwaysCallable call.now }
    ensures { (w : Seen) (calls : Calls) → Answers w F.Fn call.now calls
        → Gives plain result (answer_one_of calls (shown w arg.now) (plain d.now)) }
{
    answer_datum(alloc, arg, slice::from_ref(d), call)
}

/// The same on two values.
pub fn answer_two<F: Fn(usize, &[Datum]) -> Result<Value, Fault>>(
    alloc: Global,
    arg: &Arg,
    d: &Datum,
    e: &Datum,
    call: &F,
) -> Result<Datum, Fault>
    requires { F.IsAlwaysCallable call.now }
    ensures { (w : Seen) (calls : Calls) → Answers w F.Fn call.now calls
        → Gives plain result (answer_two_of calls (shown w arg.now) (plain d.now) (plain e.now)) }
{
    match arg {
        Arg::Function(_) => answer_datum(alloc, arg, &[d.copy()?, e.copy()?], call),
        _ => as_datum(alloc, arg),
    }
}

// The elements that are to be joined to others, which are paid for.
fn to_joined<V: TableView>(alloc: Global, value: &Value, world: &World<V>) -> Result<Items, Fault>
    ensures { let w = seen V.documents V.indexes V.entries world.now in
        Gives (λ items. items) result (to_sequence_of w (meant w value.now)) }
{
    let items = to_sequence(alloc, value, world)?;
    Ok(paid(&world.purse, items, 3)?)
}

// The same, as an argument.
fn as_joined<V: TableView>(alloc: Global, arg: &Arg, world: &World<V>) -> Result<Items, Fault>
    ensures { let w = seen V.documents V.indexes V.entries world.now in
        Gives (λ items. items) result (as_sequence_of w (shown w arg.now)) }
{
    let items = as_sequence(alloc, arg, world)?;
    Ok(paid(&world.purse, items, 3)?)
}

/// The sequence that a function answers on a value, or the constant, as an array, which is paid for.
pub fn answer_items<V: TableView, F: Fn(usize, &[Datum]) -> Result<Value, Fault>>(
    alloc: Global,
    arg: &Arg,
    d: &Datum,
    world: &World<V>,
    call: &F,
) -> Result<Datum, Fault>
    requires { F.IsAlwaysCallable call.now }
    ensures { let w = seen V.documents V.indexes V.entries world.now in
        (calls : Calls) → Answers w F.Fn call.now calls
        → Gives plain result (answer_items_of w calls (shown w arg.now) (plain d.now)) }
{
    match arg {
        Arg::Function(function) => {
            let value = call(function.at, slice::from_ref(d))?;
            let items = to_joined(alloc, &value, world)?;
            Ok(Datum::List(items))
        }
        _ => Ok(Datum::List(as_joined(alloc, arg, world)?)),
    }
}

fn constant_key(alloc: Global, arg: &Arg, d: &Datum) -> Result<Datum, Fault>
    ensures { (w : Seen) → Gives plain result
        (constant_key_of (meant_of (shown w arg.now)) (plain d.now)) }
{
    match text_in_arg(arg) {
        Some(name) => get_field(alloc, name.as_str(), d),
        None => as_datum(alloc, arg),
    }
}

/// The key of a value: what a function answers, the field of a constant text's name, or another
/// constant.
pub fn answer_key<F: Fn(usize, &[Datum]) -> Result<Value, Fault>>(
    alloc: Global,
    arg: &Arg,
    d: &Datum,
    call: &F,
) -> Result<Datum, Fault>
    requires { F.IsAlwaysCallable call.now }
    ensures { (w : Seen) (calls : Calls) → Answers w F.Fn call.now calls
        → Gives plain result (answer_key_of calls (shown w arg.now) (plain d.now)) }
{
    match arg {
        Arg::Function(_) => answer_one(alloc, arg, d, call),
        _ => constant_key(alloc, arg, d),
    }
}

/// Whether a function is true on a value, or the constant equals it.
pub fn passes<F: Fn(usize, &[Datum]) -> Result<Value, Fault>>(
    alloc: Global,
    arg: &Arg,
    d: &Datum,
    call: &F,
) -> Result<bool, Fault>
    requires { F.IsAlwaysCallable call.now }
    ensures { (w : Seen) (calls : Calls) → Answers w F.Fn call.now calls
        → Gives (λ b. b) result (passes_of calls (shown w arg.now) (plain d.now)) }
{
    match arg {
        Arg::Function(_) => {
            let answered = answer_one(alloc, arg, d, call)?;
            Ok(is_true(&answered))
        }
        _ => {
            let constant = as_datum(alloc, arg)?;
            Ok(is_same(&constant, d))
        }
    }
}

// Whether what is given for an element may be a pattern: a constant, and what a function gives
// whose body is an object.
fn gives_pattern(arg: &Arg) -> bool
    ensures { (w : Seen) → result ≡ gives_pattern_of (shown w arg.now) }
{
    match arg {
        Arg::Function(function) => function.makes_object,
        _ => true,
    }
}

// The test of FILTER on a value, by what is given for it.
fn judged(alloc: Global, patterned: bool, given: Datum, d: &Datum) -> Result<Datum, Fault>
    ensures { Gives plain result (judged_of patterned (plain given) (plain d.now)) }
{
    if !patterned {
        return Ok(given);
    }
    let fitting = fits(alloc, &given, d);
    drop(given);
    Ok(Datum::Bool(fitting?))
}

/// The test of FILTER on a value: whether it fits the constant, or the object that a function gives
/// whose body is one, and what any other function answers.
///
/// NonExistence where a name of the pattern isn't there before another one's value differs.
pub fn answer_test<F: Fn(usize, &[Datum]) -> Result<Value, Fault>>(
    alloc: Global,
    arg: &Arg,
    d: &Datum,
    call: &F,
) -> Result<Datum, Fault>
    requires { F.IsAlwaysCallable call.now }
    ensures { (w : Seen) (calls : Calls) → Answers w F.Fn call.now calls
        → Gives plain result (answer_test_of calls (shown w arg.now) (plain d.now)) }
{
    let given = answer_one(alloc, arg, d, call)?;
    judged(alloc, gives_pattern(arg), given, d)
}
