// The term that is written, of what has the shape of a term.
ghost use Rattle.std.specs.Prelude.{◌≡◌, IfOk};
ghost use Rattle.serde_json.specs.Data as json;
ghost use Rattle.serde_json.specs.View.{view, items_view};
ghost use Rattle.reql_json.specs.Reading.{document};
ghost use Rattle.reql_term.specs.View.{form_of};
ghost use Rattle.reql_read.specs.Apart.{ReadsOf, ReadsObject, ReadsTerm, ReadsArray, ReadsMembers, ReadsVariable, ReadsRow, ReadsFunction, ReadsCall};
ghost use Rattle.reql_read.specs.Outcome.{Understands};
ghost use Rattle.reql_read.specs.Reading.{read, read_all, read_named, literal_of};
ghost use Rattle.reql_read.specs.Seen.{seen, optional};
ghost use Rattle.reql_read.specs.Shape.{shaped, shaped_term, shaped_all, shaped_named};

use crate::checks::{all_taken, checked};
use crate::fault::ReadFault;
use crate::shape::{Kind, ids_in, kind_of, number_in, parts_in};
use reql_datum::{Memory, Name};
use reql_json::{JsonFault, from_members, from_value, has_reserved};
use reql_term::{Body, Op, Term, TermFields, Terms};
use serde_json::{Map, Value};
use std::alloc::Global;

fn literal(alloc: Global, v: &Value) -> Result<Term, ReadFault>
    ensures { Understands form_of result (literal_of (document (view v.now))) }
{
    match from_value(alloc, v) {
        Ok(datum) => Ok(Term::Lit(datum)),
        Err(JsonFault::Memory) => Err(ReadFault::Memory),
        Err(fault) => Err(ReadFault::Number(fault)),
    }
}

// A binary or a time, if its object is one.
fn reserved(alloc: Global, members: &Map<String, Value>) -> Result<Term, ReadFault>
    ensures { Understands form_of result (literal_of (document (json.object (seen members.now)))) }
{
    match from_members(alloc, members) {
        Ok(datum) => Ok(Term::Lit(datum)),
        Err(JsonFault::Memory) => Err(ReadFault::Memory),
        Err(fault) => Err(ReadFault::Number(fault)),
    }
}

pub(crate) fn item_like(like: Option<&Term>, place: usize) -> Option<&Term> {
    match like {
        Some(Term::Arr(terms)) => terms.at(place),
        Some(
            Term::Op {
                op: _,
                args,
                opts: _,
            },
        ) => args.at(place),
        _ => None,
    }
}

fn member_like(like: Option<&Term>, place: usize) -> (Option<&Name>, Option<&Term>) {
    if let Some(Term::Obj(fields)) = like {
        if let Some((name, term)) = fields.at(place) {
            return (Some(name), Some(term));
        }
    }
    (None, None)
}

// The name that is known, if it is this one.
fn name_of(alloc: Global, key: &str, known: Option<&Name>) -> Result<Name, Memory>
    ensures { IfOk result (λ n. n ≡ key.now) }
{
    if let Some(name) = known {
        if name.as_str() == key {
            return name.copy();
        }
    }
    Name::of(alloc, key)
}

/// The term that a JSON value is, or the first fault in preorder, where it has the shape of a term.
///
/// `like` is a term that was read before and may have the same names, which are then shared.
#[cycle(read)]
pub(crate) fn read(alloc: Global, v: &Value, like: Option<&Term>) -> Result<Term, ReadFault>
    ensures { ReadsOf form_of result (shaped (view v.now)) read }
{
    match v {
        Value::Null | Value::Bool(_) | Value::Number(_) | Value::String(_) => literal(alloc, v),
        Value::Array(items) => read_term(alloc, items.as_slice(), like),
        Value::Object(members) => read_object(alloc, members, like),
    }
}

#[cycle(read)]
fn read_object(
    alloc: Global,
    members: &Map<String, Value>,
    like: Option<&Term>,
) -> Result<Term, ReadFault>
    ensures { ReadsObject result (seen members.now) }
{
    if has_reserved(members) {
        return reserved(alloc, members);
    }
    Ok(Term::Obj(read_named(alloc, members, like)?))
}

#[cycle(read)]
fn read_term(alloc: Global, term: &[Value], like: Option<&Term>) -> Result<Term, ReadFault>
    ensures { ReadsOf form_of result (shaped_term (items_view term.now)) read }
{
    let (number, (args, options)) = parts_in(term)?;
    read_written(alloc, number, args, options, like)
}

// A term of a number.
#[cycle(read)]
fn read_written(
    alloc: Global,
    number: u64,
    args: &[Value],
    options: Option<&Map<String, Value>>,
    like: Option<&Term>,
) -> Result<Term, ReadFault>
    ensures { ReadsTerm result number (items_view args.now) (optional options.entry) }
{
    match kind_of(number) {
        Kind::Array => read_array(alloc, number, args, options, like),
        Kind::Object => read_members(alloc, number, args, options, like),
        Kind::Variable => read_variable(alloc, number, args, options, like),
        Kind::Row => read_row(alloc, number, args, options, like),
        Kind::Function => read_function(alloc, number, args, options, like),
        Kind::Call => read_call(alloc, number, args, options, like),
    }
}

#[cycle(read)]
fn read_array(
    alloc: Global,
    number: u64,
    args: &[Value],
    options: Option<&Map<String, Value>>,
    like: Option<&Term>,
) -> Result<Term, ReadFault>
    ensures { ReadsArray result number (items_view args.now) (optional options.entry) }
{
    all_taken(alloc, Op::MakeArray, options)?;
    Ok(Term::Arr(read_all(alloc, args, like)?))
}

#[cycle(read)]
fn read_members(
    alloc: Global,
    number: u64,
    args: &[Value],
    options: Option<&Map<String, Value>>,
    like: Option<&Term>,
) -> Result<Term, ReadFault>
    ensures { ReadsMembers result number (items_view args.now) (optional options.entry) }
{
    if args.len() > 0 {
        return read_call(alloc, number, args, options, like);
    }
    match options {
        Some(members) => read_object(alloc, members, like),
        None => Ok(Term::Obj(TermFields::new(alloc))),
    }
}

#[cycle(read)]
fn read_variable(
    alloc: Global,
    number: u64,
    args: &[Value],
    options: Option<&Map<String, Value>>,
    like: Option<&Term>,
) -> Result<Term, ReadFault>
    ensures { ReadsVariable result number (items_view args.now) (optional options.entry) }
{
    let [id, rest @ ..] = args else {
        return read_call(alloc, number, args, options, like);
    };
    let [] = rest else {
        return read_call(alloc, number, args, options, like);
    };
    let id = number_in(id)?;
    all_taken(alloc, Op::Var, options)?;
    Ok(Term::Var(id))
}

#[cycle(read)]
fn read_row(
    alloc: Global,
    number: u64,
    args: &[Value],
    options: Option<&Map<String, Value>>,
    like: Option<&Term>,
) -> Result<Term, ReadFault>
    ensures { ReadsRow result number (items_view args.now) (optional options.entry) }
{
    if args.len() > 0 {
        return read_call(alloc, number, args, options, like);
    }
    all_taken(alloc, Op::ImplicitVar, options)?;
    Ok(Term::Row)
}

#[cycle(read)]
fn read_function(
    alloc: Global,
    number: u64,
    args: &[Value],
    options: Option<&Map<String, Value>>,
    like: Option<&Term>,
) -> Result<Term, ReadFault>
    ensures { ReadsFunction result number (items_view args.now) (optional options.entry) }
{
    let [ids, rest @ ..] = args else {
        return read_call(alloc, number, args, options, like);
    };
    let [body, rest @ ..] = rest else {
        return read_call(alloc, number, args, options, like);
    };
    let [] = rest else {
        return read_call(alloc, number, args, options, like);
    };
    let (params, names) = ids_in(alloc, ids)?;
    all_taken(alloc, Op::Func, options)?;
    all_taken(alloc, Op::MakeArray, names)?;
    let body = read(alloc, body, None)?;
    Ok(Term::Func(params, Body::new(alloc, body)?))
}

// A term of a number that has no form of its own, or not its count of arguments.
#[cycle(read)]
fn read_call(
    alloc: Global,
    number: u64,
    args: &[Value],
    options: Option<&Map<String, Value>>,
    like: Option<&Term>,
) -> Result<Term, ReadFault>
    ensures { ReadsCall result number (items_view args.now) (optional options.entry) }
{
    let op = checked(alloc, number, args.len(), options)?;
    let args = read_all(alloc, args, like)?;
    let opts = read_options(alloc, options)?;
    Ok(Term::Op { op, args, opts })
}

#[cycle(read)]
fn read_options(
    alloc: Global,
    options: Option<&Map<String, Value>>,
) -> Result<TermFields, ReadFault>
    ensures { ReadsOf (λ ms. ms) result (shaped_named (optional options.entry)) read_named }
{
    match options {
        Some(members) => read_named(alloc, members, None),
        None => Ok(TermFields::new(alloc)),
    }
}

#[cycle(read)]
#[tactic(auto, using(crate::proofs::Weights::weights))]
fn read_all(alloc: Global, items: &[Value], like: Option<&Term>) -> Result<Terms, ReadFault>
    ensures { ReadsOf (λ fs. fs) result (shaped_all (items_view items.now)) read_all }
{
    let mut terms = Terms::with_room(alloc, items.len())?;
    for item in items {
        let known = item_like(like, terms.len()).or(terms.as_slice().last());
        let term = read(alloc, item, known)?;
        terms.push(term)?;
    }
    Ok(terms)
}

#[cycle(read)]
fn read_named(
    alloc: Global,
    members: &Map<String, Value>,
    like: Option<&Term>,
) -> Result<TermFields, ReadFault>
    ensures { ReadsOf (λ ms. ms) result (shaped_named (seen members.now)) read_named }
{
    let mut fields = TermFields::with_room(alloc, members.len())?;
    for (key, member) in members.iter() {
        let (known, value) = member_like(like, fields.len());
        let name = name_of(alloc, key.as_str(), known)?;
        let term = read(alloc, member, value)?;
        drop(fields.put(name, term)?);
    }
    Ok(fields)
}
