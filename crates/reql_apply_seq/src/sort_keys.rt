// The keys of ORDER_BY, and their directions.
ghost use Rattle.std.specs.Prelude.{◌≡◌, ◌++◌, ◌∷◌, IfOk, map};
ghost use Rattle.reql_datum.specs.Outcome.{Gives};
ghost use Rattle.reql_datum.specs.View.{plain};
ghost use Rattle.reql_value_spec.specs.Called.{answer_key as answer_key_of, constant_key as constant_key_of};
ghost use Rattle.reql_value_spec.specs.Meant.{Calls};
ghost use Rattle.reql_value_spec.specs.Orders.{is_down, key_in, key_at as key_at_of};
ghost use Rattle.reql_value_spec.specs.World.{World as Seen};
ghost use Rattle.reql_operand.specs.Called.{Answers};
ghost use Rattle.reql_operand.specs.Seen.{meant, shown, key as key_seen, all_shown};
ghost use Rattle.reql_apply_seq.specs.Orders.{is_falling};

use reql_datum::{Datum, Fault, Memory};
use reql_operand::{
    Arg, Key, Value, answer_key, datum_of, get_field, into_datum, misplaced, text_of,
};
use std::alloc::Global;
use std::slice;

/// Whether a key stands under DESC.
pub(crate) fn falls(key: &Arg) -> bool
    ensures direction { result ≡ is_falling key.now }
    ensures shown { (w : Seen) → result ≡ is_down (shown w key.now) }
{
    match key {
        Arg::Directed { down, key: _ } => *down,
        Arg::Value(_) => false,
        Arg::Function(_) => false,
        Arg::Late {
            texted: _,
            outcome: _,
        } => false,
    }
}

/// The directions of keys.
pub(crate) fn directions(alloc: Global, keys: &[Arg]) -> Result<Vec<bool>, Memory>
    ensures { IfOk result (λ down. down.items ≡ map is_falling keys.now) }
{
    let mut down = Vec::new(alloc);
    add_directions(&mut down, keys)?;
    Ok(down)
}

/// A direction, and then those of keys.
pub(crate) fn directions_after(
    alloc: Global,
    first: bool,
    keys: &[Arg],
) -> Result<Vec<bool>, Memory>
    ensures { IfOk result (λ down. down.items ≡ first ∷ map is_falling keys.now) }
{
    let mut down = Vec::new(alloc);
    down.push(first)?;
    add_directions(&mut down, keys)?;
    Ok(down)
}

fn add_directions(down: &mut Vec<bool>, keys: &[Arg]) -> Result<(), Memory>
    ensures { IfOk result (λ _. down.new.items ≡ down.old.items ++ map is_falling keys.now) }
{
    for key in keys {
        down.push(falls(key))?;
    }
    Ok(())
}

/// The key at a place of an element.
#[tactic(auto, using(crate::proofs::Shown::shown_at))]
pub(crate) fn key_at<F: Fn(usize, &[Datum]) -> Result<Value, Fault>>(
    alloc: Global,
    keys: &[Arg],
    place: usize,
    d: &Datum,
    call: &F,
) -> Result<Datum, Fault>
    requires { F.IsAlwaysCallable call.now }
    ensures { (w : Seen) (calls : Calls) → Answers w F.Fn call.now calls → Gives plain result
        (key_at_of calls (all_shown w keys.now) place (plain d.now)) }
{
    match keys.get(place) {
        Some(key) => key_of(alloc, key, d, call),
        None => Err(Fault::QueryLogic(misplaced(alloc)?)),
    }
}

fn key_of<F: Fn(usize, &[Datum]) -> Result<Value, Fault>>(
    alloc: Global,
    key: &Arg,
    d: &Datum,
    call: &F,
) -> Result<Datum, Fault>
    requires { F.IsAlwaysCallable call.now }
    ensures { (w : Seen) (calls : Calls) → Answers w F.Fn call.now calls → Gives plain result
        (answer_key_of calls (key_in (shown w key.now)) (plain d.now)) }
{
    match key {
        Arg::Directed { down: _, key } => directed_key(alloc, key, d, call),
        _ => answer_key(alloc, key, d, call),
    }
}

fn directed_key<F: Fn(usize, &[Datum]) -> Result<Value, Fault>>(
    alloc: Global,
    key: &Key,
    d: &Datum,
    call: &F,
) -> Result<Datum, Fault>
    requires { F.IsAlwaysCallable call.now }
    ensures { (w : Seen) (calls : Calls) → Answers w F.Fn call.now calls → Gives plain result
        (answer_key_of calls (key_seen w key.now) (plain d.now)) }
{
    match key {
        Key::Function(function) => {
            let value = call(function.at, slice::from_ref(d))?;
            into_datum(alloc, value)
        }
        Key::Value(value) => constant_key(alloc, value, d),
    }
}

fn constant_key(alloc: Global, value: &Value, d: &Datum) -> Result<Datum, Fault>
    ensures { (w : Seen) → Gives plain result (constant_key_of (meant w value.now) (plain d.now)) }
{
    match text_of(value) {
        Some(name) => get_field(alloc, name.as_str(), d),
        None => datum_of(alloc, value),
    }
}
