// What tells a term that is a function, a key with its direction or an ERROR from the rest.
ghost use Rattle.std.specs.Prelude.{◌≡◌, ◌<◌, IfSome, option_map};
ghost use Rattle.reql_datum.specs.View.{plain};
ghost use Rattle.reql_term.specs.Form.{literal, weight};
ghost use Rattle.reql_term.specs.View.{form_of};
ghost use Rattle.reql_value_spec.specs.Meaning.{sense, sense_of, is_fit as is_fit_of, called, makes_object as makes_object_of, ordered};
ghost use Rattle.reql_term_analysis.specs.Bound.{listed, optional, all_weight};
ghost use Rattle.reql_term_analysis.specs.Kinds.{body_of, shape_of, direction_of, callee_of, raising_of, sense_in, all_taken};

use reql_datum::Datum;
use reql_term::{Body, Op, Params, Term, TermFields, Way};

/// Whether an operator has a row with such counts and options.
#[tactic(auto, using(crate::proofs::Terms::length_listed))]
pub fn is_fit(op: Op, terms: &[Term], opts: &TermFields) -> bool
    ensures { result ≡ is_fit_of op (listed terms.now) (optional opts.now) }
{
    op.fits(terms.len()) && are_taken(op, opts)
}

fn are_taken(op: Op, opts: &TermFields) -> bool
    ensures { result ≡ all_taken op (optional opts.now) }
{
    let mut place = 0;
    while let Some((name, _)) = opts.at(place) {
        if !op.takes(name.as_str()) {
            return false;
        }
        place += 1;
    }
    true
}

/// The parameters and the body of a function.
#[tactic(auto, using(crate::proofs::Senses::no_body))]
pub fn function_in(term: &Term) -> Option<(&Params, &Body)>
    ensures which { option_map (λ f. called f.0.now (sense f.1.now)) result
        ≡ body_of (sense (form_of term.now)) }
    ensures below { IfSome result (λ f. weight f.1.now < weight (form_of term.now)) }
{
    match term {
        Term::Func(params, body) => Some((params, body)),
        _ => None,
    }
}

/// Of a function, whether its body is an object: one of terms, or a constant.
#[tactic(auto, using(crate::proofs::Senses::no_shape))]
pub fn shape(term: &Term) -> Option<bool>
    ensures { result ≡ shape_of (sense (form_of term.now)) }
{
    match term {
        Term::Func(_, body) => Some(makes_object(body.term())),
        _ => None,
    }
}

#[tactic(auto, using(reql_datum::proofs::Back::back))]
fn makes_object(body: &Term) -> bool
    ensures { result ≡ makes_object_of (form_of body.now) }
{
    match body {
        Term::Lit(d) => is_object(d),
        Term::Obj(_) => true,
        _ => false,
    }
}

#[tactic(auto, using(reql_datum::proofs::Back::back))]
fn is_object(d: &Datum) -> bool
    ensures { result ≡ makes_object_of (literal (plain d.now)) }
{
    match d {
        Datum::Obj(_) => true,
        _ => false,
    }
}

/// The key under ASC or, where it is down, DESC.
pub fn direction(term: &Term) -> Option<(bool, &Term)>
    ensures which { option_map (λ d. (d.0, sense (form_of d.1.now))) result
        ≡ direction_of (sense (form_of term.now)) }
    ensures below { IfSome result (λ d. weight (form_of d.1.now) < weight (form_of term.now)) }
{
    match term {
        Term::Op { op, args, opts } => fit_direction(*op, args.as_slice(), opts),
        _ => None,
    }
}

fn fit_direction<'a>(op: Op, terms: &'a [Term], opts: &TermFields) -> Option<(bool, &'a Term)>
    ensures which { option_map (λ d. (d.0, sense (form_of d.1.now))) result
        ≡ direction_of (sense_of op (listed terms.now) (optional opts.now)) }
    ensures below { IfSome result (λ d. weight (form_of d.1.now) < all_weight terms.now) }
{
    if is_fit(op, terms, opts) {
        return direction_by(op, op.way(), terms, opts);
    }
    None
}

fn direction_by<'a>(
    op: Op,
    way: Way,
    terms: &'a [Term],
    opts: &TermFields,
) -> Option<(bool, &'a Term)>
    ensures which { option_map (λ d. (d.0, sense (form_of d.1.now))) result
        ≡ direction_of (sense_in way op (listed terms.now) (optional opts.now)) }
    ensures below { IfSome result (λ d. weight (form_of d.1.now) < all_weight terms.now) }
{
    match way {
        Way::Rising => key_in(false, terms),
        Way::Falling => key_in(true, terms),
        _ => None,
    }
}

#[tactic(auto, using(crate::proofs::Terms::term_below))]
fn key_in<'a>(down: bool, terms: &'a [Term]) -> Option<(bool, &'a Term)>
    ensures which { option_map (λ d. (d.0, sense (form_of d.1.now))) result
        ≡ direction_of (ordered down (listed terms.now)) }
    ensures below { IfSome result (λ d. weight (form_of d.1.now) < all_weight terms.now) }
{
    match terms {
        [] => None,
        [first, ..] => Some((down, first)),
    }
}

/// The function that a term is, under any directions.
#[tactic(auto, using(crate::proofs::Senses::callee_under, crate::proofs::Senses::callee_here))]
pub fn callee(term: &Term) -> Option<(&Params, &Body)>
    ensures which { option_map (λ f. called f.0.now (sense f.1.now)) result
        ≡ callee_of (sense (form_of term.now)) }
    ensures below { IfSome result (λ f. weight f.1.now < weight (form_of term.now)) }
{
    match direction(term) {
        Some((_, key)) => callee(key),
        None => function_in(term),
    }
}

/// Of an ERROR, whether it has a text.
pub fn raising(term: &Term) -> Option<bool>
    ensures { result ≡ raising_of (sense (form_of term.now)) }
{
    match term {
        Term::Op { op, args, opts } => fit_raising(*op, args.as_slice(), opts),
        _ => None,
    }
}

fn fit_raising(op: Op, terms: &[Term], opts: &TermFields) -> Option<bool>
    ensures { result ≡ raising_of (sense_of op (listed terms.now) (optional opts.now)) }
{
    if is_fit(op, terms, opts) {
        return raising_by(op, op.way(), terms, opts);
    }
    None
}

#[tactic(auto, using(crate::proofs::Terms::length_listed))]
fn raising_by(op: Op, way: Way, terms: &[Term], opts: &TermFields) -> Option<bool>
    ensures { result ≡ raising_of (sense_in way op (listed terms.now) (optional opts.now)) }
{
    match way {
        Way::Raising => Some(!terms.is_empty()),
        _ => None,
    }
}
