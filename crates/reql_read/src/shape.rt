// The shape of a query, which is tested before any of it is read. BadShape comes from here alone.
ghost use Rattle.std.specs.Prelude.{◌≡◌};
ghost use Rattle.serde_json.specs.View.{view, items_view, members_view};
ghost use Rattle.reql_read.specs.Apart.{is, options_in, parts_after, parts_in, one_fits, two_fit, formed, done, ids_in, ids_by};
ghost use Rattle.reql_read.specs.Outcome.{Understands};
ghost use Rattle.reql_read.specs.Seen.{seen, optional, parts_seen, ids_seen};
ghost use Rattle.reql_read.specs.Shape.{number_in, items_in, members_in, kind_of, shaped, shaped_term, shaped_all, shaped_named};

use crate::fault::ReadFault;
use crate::ids::ids_among;
use reql_term::{Op, Params};
use serde_json::{Map, Value};
use std::alloc::Global;

/// The forms in which terms are written.
#[derive(Clone, Copy)]
pub(crate) enum Kind {
    /// `[2, items]`.
    Array,
    /// `[3, [], members]`.
    Object,
    /// `[10, [id]]`.
    Variable,
    /// `[13]`.
    Row,
    /// `[69, [[2, ids], body]]`.
    Function,
    /// `[number, arguments, optional arguments]`, with any other number.
    Call,
}

/// Whether a number is that of an operator.
pub(crate) fn is(number: u64, op: Op) -> bool
    ensures { result ≡ is number op }
{
    number == u64::from(op.number())
}

/// The form of a term of a number.
#[tactic(auto, unfolding(crate::specs::Shape::kind_of))]
pub(crate) fn kind_of(number: u64) -> Kind
    ensures { result ≡ kind_of number }
{
    if is(number, Op::MakeArray) {
        Kind::Array
    } else if is(number, Op::MakeObj) {
        Kind::Object
    } else if is(number, Op::Var) {
        Kind::Variable
    } else if is(number, Op::ImplicitVar) {
        Kind::Row
    } else if is(number, Op::Func) {
        Kind::Function
    } else {
        Kind::Call
    }
}

/// A whole number from 0.
pub(crate) fn number_in(v: &Value) -> Result<u64, ReadFault>
    ensures { Understands (λ n. n) result (number_in (view v.now)) }
{
    v.as_u64().ok_or(ReadFault::BadShape)
}

pub(crate) fn items_in(v: &Value) -> Result<&[Value], ReadFault>
    ensures { Understands (λ s. items_view s.now) result (items_in (view v.now)) }
{
    match v.as_array() {
        Some(items) => Ok(items.as_slice()),
        None => Err(ReadFault::BadShape),
    }
}

fn members_in(v: &Value) -> Result<&Map<String, Value>, ReadFault>
    ensures { Understands (λ m. members_view m.now.entries) result (members_in (view v.now)) }
{
    match v.as_object() {
        Some(members) => Ok(members),
        None => Err(ReadFault::BadShape),
    }
}

/// The optional arguments that stand after the arguments, if any do.
pub(crate) fn options_in(rest: &[Value]) -> Result<Option<&Map<String, Value>>, ReadFault>
    ensures { Understands optional result (options_in (items_view rest.now)) }
{
    let [options, rest @ ..] = rest else {
        return Ok(None);
    };
    let [] = rest else {
        return Err(ReadFault::BadShape);
    };
    Ok(Some(members_in(options)?))
}

/// The number of a term, its arguments and its optional arguments.
pub(crate) type Parts<'a> = (u64, (&'a [Value], Option<&'a Map<String, Value>>));

fn parts_after(number: u64, rest: &[Value]) -> Result<Parts<'_>, ReadFault>
    ensures { Understands parts_seen result (parts_after number (items_view rest.now)) }
{
    let [args, after @ ..] = rest else {
        return Ok((number, (rest, None)));
    };
    Ok((number, (items_in(args)?, options_in(after)?)))
}

/// The parts of a term.
pub(crate) fn parts_in(term: &[Value]) -> Result<Parts<'_>, ReadFault>
    ensures { Understands parts_seen result (parts_in (items_view term.now)) }
{
    let [number, rest @ ..] = term else {
        return Err(ReadFault::BadShape);
    };
    parts_after(number_in(number)?, rest)
}

fn ids_by<'a>(
    alloc: Global,
    kind: Kind,
    ids: &[Value],
    names: Option<&'a Map<String, Value>>,
) -> Result<(Params, Option<&'a Map<String, Value>>), ReadFault>
    ensures { Understands ids_seen result (ids_by kind (items_view ids.now)
        (optional names.entry)) }
{
    match kind {
        Kind::Array => Ok((ids_among(alloc, ids)?, names)),
        _ => Err(ReadFault::BadShape),
    }
}

/// The ids of a function, with the optional arguments that stand with them.
pub(crate) fn ids_in(
    alloc: Global,
    v: &Value,
) -> Result<(Params, Option<&Map<String, Value>>), ReadFault>
    ensures { Understands ids_seen result (ids_in (view v.now)) }
{
    let (number, (items, options)) = parts_in(items_in(v)?)?;
    ids_by(alloc, kind_of(number), items, options)
}

// One argument is an id.
fn one_fits(args: &[Value]) -> Result<(), ReadFault>
    ensures { Understands (λ t. t) result (one_fits (items_view args.now)) }
{
    let [id, rest @ ..] = args else {
        return Ok(());
    };
    let [] = rest else {
        return Ok(());
    };
    number_in(id)?;
    Ok(())
}

// Of two arguments the first is an array of ids.
fn two_fit(alloc: Global, args: &[Value]) -> Result<(), ReadFault>
    ensures { Understands (λ t. t) result (two_fit (items_view args.now)) }
{
    let [ids, rest @ ..] = args else {
        return Ok(());
    };
    let [_, rest @ ..] = rest else {
        return Ok(());
    };
    let [] = rest else {
        return Ok(());
    };
    drop(ids_in(alloc, ids)?);
    Ok(())
}

fn formed(alloc: Global, kind: Kind, args: &[Value]) -> Result<(), ReadFault>
    ensures { Understands (λ t. t) result (formed kind (items_view args.now)) }
{
    match kind {
        Kind::Variable => one_fits(args),
        Kind::Function => two_fit(alloc, args),
        _ => Ok(()),
    }
}

/// Refuses what has not the shape of a term.
#[cycle(shape)]
pub(crate) fn shaped(alloc: Global, v: &Value) -> Result<(), ReadFault>
    ensures { Understands (λ t. t) result (done (shaped (view v.now))) }
{
    match v {
        Value::Null | Value::Bool(_) | Value::Number(_) | Value::String(_) => Ok(()),
        Value::Array(items) => shaped_term(alloc, items.as_slice()),
        Value::Object(members) => shaped_named(alloc, members),
    }
}

#[cycle(shape)]
fn shaped_term(alloc: Global, term: &[Value]) -> Result<(), ReadFault>
    ensures { Understands (λ t. t) result (done (shaped_term (items_view term.now))) }
{
    let (number, (args, options)) = parts_in(term)?;
    shaped_all(alloc, args)?;
    shaped_options(alloc, options)?;
    formed(alloc, kind_of(number), args)
}

#[cycle(shape)]
fn shaped_options(alloc: Global, options: Option<&Map<String, Value>>) -> Result<(), ReadFault>
    ensures { Understands (λ t. t) result (done (shaped_named (optional options.entry))) }
{
    match options {
        Some(members) => shaped_named(alloc, members),
        None => Ok(()),
    }
}

#[cycle(shape)]
#[tactic(auto, using(crate::proofs::Weights::weights))]
fn shaped_all(alloc: Global, items: &[Value]) -> Result<(), ReadFault>
    ensures { Understands (λ t. t) result (done (shaped_all (items_view items.now))) }
{
    for item in items {
        shaped(alloc, item)?;
    }
    Ok(())
}

#[cycle(shape)]
fn shaped_named(alloc: Global, members: &Map<String, Value>) -> Result<(), ReadFault>
    ensures { Understands (λ t. t) result (done (shaped_named (seen members.now))) }
{
    for (_, member) in members.iter() {
        shaped(alloc, member)?;
    }
    Ok(())
}
