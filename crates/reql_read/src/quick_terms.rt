// Terms, read from their tokens.
ghost use Rattle.std.specs.Prelude.{◌≡◌, ◌∷◌, ℕ, [], Ok, map, IsTrue, IfSome};
ghost use Rattle.json.specs.Token.{begin_array, begin_object};
ghost use Rattle.reql_term.specs.View.{form_of};
ghost use Rattle.reql_read.specs.Quick.{ReadsForm, ReadsForms, ReadsArgs, ReadsNamed, ReadsOptions, ReadsNumbered};
ghost use Rattle.reql_read.specs.Reading.{all_taken, checked};
ghost use Rattle.reql_read.specs.Shape.{kind_of};
ghost use Rattle.reql_read.specs.declared.shape.Kind.TheVariants as kind;

use crate::checks::{counted, op_named};
use crate::quick_known::known;
use crate::quick_leaves::{number_term, read_row, read_variable, text_term};
use crate::quick_numbers::number;
use crate::quick_params::read_params;
use crate::quick_tokens::{close_array, open_array, open_object};
use crate::read::item_like;
use crate::shape::{Kind, kind_of};
use json::{Reader, Token};
use reql_datum::{Datum, Name};
use reql_term::{Body, Op, Term, TermFields, Terms};
use std::alloc::Global;

// Names of an object may come in any order, so this many are put in their places one by one.
const MOST_NAMES: usize = 256;

/// A term.
///
/// `like` is one that was read before and may have the same names, which are then shared.
#[cycle(quick)]
pub(crate) fn read(
    alloc: Global,
    reader: &mut Reader<'_>,
    depth: usize,
    like: Option<&Term>,
) -> Option<Term>
    ensures { IfSome result (λ t. ReadsForm depth reader.old (form_of t) reader.new) }
{
    let token = reader.next()?;
    match token {
        Token::String(text) => text_term(alloc, text),
        Token::Number(text) => number_term(text),
        Token::Bool(b) => Some(Term::Lit(Datum::Bool(b))),
        Token::Null => Some(Term::Lit(Datum::Null)),
        Token::BeginArray => read_numbered(alloc, reader, depth, like),
        Token::BeginObject => read_object(alloc, reader, depth, like),
        Token::EndObject | Token::EndArray | Token::Key(_) | Token::Bad => None,
    }
}

#[cycle(quick)]
fn read_object(
    alloc: Global,
    reader: &mut Reader<'_>,
    depth: usize,
    like: Option<&Term>,
) -> Option<Term>
    ensures { IfSome result (λ t. ReadsForm depth (begin_object ∷ reader.old) (form_of t)
        reader.new) }
{
    if depth == 0 {
        return None;
    }
    let fields = read_named(alloc, reader, depth - 1, like)?;
    match fields.get("$reql_type$") {
        Some(_) => None,
        None => Some(Term::Obj(fields)),
    }
}

#[cycle(quick)]
fn read_named(
    alloc: Global,
    reader: &mut Reader<'_>,
    depth: usize,
    like: Option<&Term>,
) -> Option<TermFields>
    ensures { IfSome result (λ ms. ReadsNamed depth reader.old [] ms reader.new) }
{
    let mut fields = TermFields::new(alloc);
    'members: while let Some(key) = reader.next_key().ok()? {
        if fields.len() == MOST_NAMES {
            return None;
        }
        let known = known(like, fields.len(), key);
        let (name, term) = read_member(alloc, reader, depth, key, known)?;
        fields.set(name, term).ok()?;
    }
    Some(fields)
}

#[cycle(quick)]
fn read_member(
    alloc: Global,
    reader: &mut Reader<'_>,
    depth: usize,
    key: &str,
    known: Option<(&Name, &Term)>,
) -> Option<(Name, Term)>
    requires { IfSome known (λ m. m.0.now ≡ key.now) }
    ensures { IfSome result (λ m. (m.0 ≡ key.now)
        × ReadsForm depth reader.old (form_of m.1) reader.new) }
{
    match known {
        Some((name, term)) => {
            let name = name.copy().ok()?;
            let term = read(alloc, reader, depth, Some(term))?;
            Some((name, term))
        }
        None => {
            let name = Name::of(alloc, key).ok()?;
            let term = read(alloc, reader, depth, None)?;
            Some((name, term))
        }
    }
}

#[cycle(quick)]
fn read_all(
    alloc: Global,
    reader: &mut Reader<'_>,
    depth: usize,
    like: Option<&Term>,
) -> Option<Terms>
    ensures { IfSome result (λ fs. ReadsForms depth reader.old fs reader.new) }
{
    let mut terms = Terms::with_room(alloc, 2).ok()?;
    'items: while !reader.take_end_array() {
        let known = item_like(like, terms.len()).or(terms.as_slice().last());
        let term = read(alloc, reader, depth, known)?;
        terms.push(term).ok()?;
    }
    Some(terms)
}

#[cycle(quick)]
fn read_numbered(
    alloc: Global,
    reader: &mut Reader<'_>,
    depth: usize,
    like: Option<&Term>,
) -> Option<Term>
    ensures { IfSome result (λ t. ReadsForm depth (begin_array ∷ reader.old) (form_of t)
        reader.new) }
{
    if depth == 0 {
        return None;
    }
    let number = number(reader)?;
    read_kind(alloc, number, reader, depth - 1, like)
}

#[cycle(quick)]
fn read_kind(
    alloc: Global,
    number: u64,
    reader: &mut Reader<'_>,
    depth: usize,
    like: Option<&Term>,
) -> Option<Term>
    ensures { IfSome result (λ t. ReadsNumbered depth number reader.old (form_of t) reader.new) }
{
    match kind_of(number) {
        Kind::Array => read_array(alloc, reader, depth, like),
        Kind::Object => None,
        Kind::Variable => read_variable(reader, depth),
        Kind::Row => read_row(reader, depth),
        Kind::Function => read_function(alloc, reader, depth),
        Kind::Call => read_call(alloc, number, reader, depth, like),
    }
}

#[cycle(quick)]
fn read_args(
    alloc: Global,
    reader: &mut Reader<'_>,
    depth: usize,
    like: Option<&Term>,
) -> Option<Terms>
    ensures { IfSome result (λ fs. ReadsArgs depth reader.old fs reader.new) }
{
    open_array(reader)?;
    if depth == 0 {
        return None;
    }
    read_all(alloc, reader, depth - 1, like)
}

#[cycle(quick)]
fn read_array(
    alloc: Global,
    reader: &mut Reader<'_>,
    depth: usize,
    like: Option<&Term>,
) -> Option<Term>
    ensures { IfSome result (λ t. (n : ℕ) → kind_of n ≡ kind.Array
        → ReadsNumbered depth n reader.old (form_of t) reader.new) }
{
    let terms = read_args(alloc, reader, depth, like)?;
    close_array(reader)?;
    Some(Term::Arr(terms))
}

#[cycle(quick)]
fn read_function(alloc: Global, reader: &mut Reader<'_>, depth: usize) -> Option<Term>
    ensures { IfSome result (λ t. (n : ℕ) → kind_of n ≡ kind.Function
        → ReadsNumbered depth n reader.old (form_of t) reader.new) }
{
    if depth == 0 {
        return None;
    }
    open_array(reader)?;
    let params = read_params(alloc, reader, depth - 1)?;
    let body = read(alloc, reader, depth - 1, None)?;
    close_array(reader)?;
    close_array(reader)?;
    let body = Body::new(alloc, body).ok()?;
    Some(Term::Func(params, body))
}

#[cycle(quick)]
fn read_options(alloc: Global, reader: &mut Reader<'_>, depth: usize) -> Option<TermFields>
    ensures { IfSome result (λ ms. ReadsOptions depth reader.old ms reader.new) }
{
    if reader.take_end_array() {
        return Some(TermFields::new(alloc));
    }
    open_object(reader)?;
    if depth == 0 {
        return None;
    }
    let options = read_named(alloc, reader, depth - 1, None)?;
    close_array(reader)?;
    Some(options)
}

fn takes_all(op: Op, options: &TermFields) -> bool
    ensures { IsTrue result → all_taken op (map (λ m. m.0) options.now) ≡ Ok tt }
{
    let mut place = 0;
    'options: while let Some((name, _)) = options.at(place) {
        if !op.takes(name.as_str()) {
            return false;
        }
        place += 1;
    }
    true
}

fn checked(number: u64, count: usize, options: &TermFields) -> Option<Op>
    ensures { IfSome result (λ op. checked number count (map (λ m. m.0) options.now) ≡ Ok op) }
{
    let Ok(op) = op_named(number) else {
        return None;
    };
    let Ok(()) = counted(op, count) else {
        return None;
    };
    if takes_all(op, options) {
        Some(op)
    } else {
        None
    }
}

#[cycle(quick)]
fn read_call(
    alloc: Global,
    number: u64,
    reader: &mut Reader<'_>,
    depth: usize,
    like: Option<&Term>,
) -> Option<Term>
    ensures { IfSome result (λ t. kind_of number ≡ kind.Call
        → ReadsNumbered depth number reader.old (form_of t) reader.new) }
{
    let args = read_args(alloc, reader, depth, like)?;
    let opts = read_options(alloc, reader, depth)?;
    let op = checked(number, args.len(), &opts)?;
    Some(Term::Op { op, args, opts })
}
