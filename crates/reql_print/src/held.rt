// Whether a body can hold a term.
ghost use Rattle.std.specs.Prelude.{◌≡◌, ◌&&◌, true};
ghost use Rattle.reql_datum.specs.View.{plain};
ghost use Rattle.reql_json.specs.Literal.{are_bytes};
ghost use Rattle.reql_term.specs.Form.{forms_of, named_of};
ghost use Rattle.reql_term.specs.View.{form_of};
ghost use Rattle.reql_read.specs.Spelling.{takes_all as takes_all_of};
ghost use Rattle.reql_print.specs.Printed.{is_literal as is_literal_of, has_form as has_form_of, is_taken as is_taken_of, are_distinct, is_free as is_free_of, is_held as is_held_of, are_held as are_held_of, are_named_held as are_named_held_of};

use reql_datum::Datum;
use reql_term::{Op, Params, Term, TermFields, Terms};

fn bytes_are_bytes(bytes: &[u8])
    ensures { are_bytes bytes.now ≡ true }
{}

// A document that is written as itself.
fn is_literal(datum: &Datum) -> bool
    ensures { result ≡ is_literal_of (plain datum.now) }
{
    match datum {
        Datum::Null | Datum::Bool(_) | Datum::Text(_) => true,
        Datum::Num(n) => {
            let _in_range = n.get();
            true
        }
        Datum::Binary(blob) => {
            bytes_are_bytes(blob.as_bytes());
            true
        }
        Datum::Time(moment) => {
            let _in_range = moment.at().get();
            let _zone = moment.zone();
            true
        }
        Datum::Low | Datum::High | Datum::List(_) | Datum::Obj(_) => false,
    }
}

fn has_form(op: Op) -> bool
    ensures { result ≡ has_form_of op }
{
    match op {
        Op::MakeArray | Op::MakeObj | Op::Var | Op::ImplicitVar | Op::Func => true,
        _ => false,
    }
}

// No two parameters are alike.
fn params_are_distinct(params: &Params)
    ensures { are_distinct params.now ≡ true }
{
    let _distinct = params.as_slice();
}

#[tactic(auto, using(reql_datum::proofs::Walks::walks))]
fn takes_all(op: Op, opts: &TermFields) -> bool
    ensures { result ≡ takes_all_of op (named_of opts.now) }
{
    let mut place = 0;
    while let Some((name, _)) = opts.at(place) {
        if !op.takes(name.as_str()) {
            return false;
        }
        place += 1;
    }
    true
}

#[tactic(auto, using(crate::proofs::Counted::counted))]
fn is_taken(op: Op, args: &Terms, opts: &TermFields) -> bool
    ensures { result ≡ is_taken_of op (forms_of args.now) (named_of opts.now) }
{
    if has_form(op) {
        return false;
    }
    if !op.fits(args.len()) {
        return false;
    }
    takes_all(op, opts)
}

// No name of an object is the reserved one.
#[tactic(auto, using(crate::proofs::Counted::free))]
fn is_free(fields: &TermFields) -> bool
    ensures { result ≡ is_free_of (named_of fields.now) }
{
    match fields.get("$reql_type$") {
        Some(_) => false,
        None => true,
    }
}

/// Whether a body can hold a term.
#[cycle(held)]
pub(crate) fn is_held(term: &Term) -> bool
    ensures { result ≡ is_held_of (form_of term.now) }
{
    match term {
        Term::Lit(datum) => is_literal(datum),
        Term::Arr(terms) => are_held(terms),
        Term::Obj(fields) => {
            if !is_free(fields) {
                return false;
            }
            are_named_held(fields)
        }
        Term::Var(_) | Term::Row => true,
        Term::Func(params, body) => {
            params_are_distinct(params);
            is_held(body.term())
        }
        Term::Slot(_) => false,
        Term::Op { op, args, opts } => {
            if !is_taken(*op, args, opts) {
                return false;
            }
            parts_are_held(args, opts)
        }
    }
}

#[cycle(held)]
fn parts_are_held(args: &Terms, opts: &TermFields) -> bool
    ensures { result ≡ (are_held_of (forms_of args.now) && are_named_held_of (named_of opts.now)) }
{
    if !are_held(args) {
        return false;
    }
    are_named_held(opts)
}

#[cycle(held)]
#[tactic(auto, using(crate::proofs::Below::below, reql_datum::proofs::Walks::walks))]
fn are_held(terms: &Terms) -> bool
    ensures { result ≡ are_held_of (forms_of terms.now) }
{
    let mut place = 0;
    while let Some(term) = terms.at(place) {
        if !is_held(term) {
            return false;
        }
        place += 1;
    }
    true
}

#[cycle(held)]
#[tactic(auto, using(crate::proofs::Below::below, reql_datum::proofs::Walks::walks))]
fn are_named_held(fields: &TermFields) -> bool
    ensures { result ≡ are_named_held_of (named_of fields.now) }
{
    let mut place = 0;
    while let Some(field) = fields.at(place) {
        if !is_held(field.1) {
            return false;
        }
        place += 1;
    }
    true
}
