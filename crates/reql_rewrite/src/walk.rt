// The one walk that puts terms in the place of terms.
ghost use Rattle.std.specs.Prelude.{◌≡◌, Ok, IsTrue};
ghost use Rattle.std.specs.Option.{unwrap_or};
ghost use Rattle.reql_datum.specs.Outcome.{Gives};
ghost use Rattle.reql_term.specs.Form.{function, forms_of, named_of};
ghost use Rattle.reql_term.specs.View.{form_of};
ghost use Rattle.reql_rewrite.specs.Rewrite.{rewritten, all_rewritten, named_rewritten};
ghost use Rattle.reql_rewrite.specs.Same.{form_or};

use crate::parts::{with_field, with_parts, with_term};
use crate::rule::Rule;
use reql_datum::Fault;
use reql_term::{Body, Term, TermFields, Terms};
use std::alloc::Global;

/// The term by a rule, a term before its parts, or the first fault in preorder. The parts that stay
/// as they are are shared, and where nothing changes the term is a copy of the old, which is a count.
pub fn rewrite<R: Rule>(alloc: Global, rule: &R, term: &Term) -> Result<Term, Fault>
    ensures { Gives form_of result (rewritten (R.rule rule.now) (form_of term.now)) }
{
    match changed(alloc, rule, term)? {
        Some(other) => Ok(other),
        None => Ok(term.copy()?),
    }
}

// Whether a term without parts stays as it is, which a look tells of most.
fn stays<R: Rule>(rule: &R, term: &Term) -> bool
    ensures { IsTrue result → rewritten (R.rule rule.now) (form_of term.now) ≡ Ok (form_of term.now) }
{
    match term {
        Term::Lit(_) | Term::Var(_) | Term::Row | Term::Slot(_) => rule.passes(term),
        _ => false,
    }
}

// The term by the rule, None where it is the same.
#[cycle(rewrite)]
fn changed<R: Rule>(alloc: Global, rule: &R, term: &Term) -> Result<Option<Term>, Fault>
    ensures { Gives (form_or (form_of term.now)) result
        (rewritten (R.rule rule.now) (form_of term.now)) }
{
    if !rule.passes(term) {
        if let Some(other) = rule.instead(alloc, term)? {
            return Ok(Some(other));
        }
    }
    match term {
        Term::Lit(_) | Term::Var(_) | Term::Row | Term::Slot(_) => Ok(None),
        Term::Arr(terms) => match changed_all(alloc, rule, terms)? {
            Some(terms) => Ok(Some(Term::Arr(terms))),
            None => Ok(None),
        },
        Term::Obj(fields) => match changed_named(alloc, rule, fields)? {
            Some(fields) => Ok(Some(Term::Obj(fields))),
            None => Ok(None),
        },
        Term::Func(params, body) => match changed(alloc, rule, body.term())? {
            Some(inside) => Ok(Some(Term::Func(params.copy()?, Body::new(alloc, inside)?))),
            None => Ok(None),
        },
        Term::Op { op, args, opts } => {
            let new_args = changed_all(alloc, rule, args)?;
            let new_opts = changed_named(alloc, rule, opts)?;
            Ok(with_parts(*op, args, opts, new_args, new_opts)?)
        }
    }
}

#[cycle(rewrite)]
#[tactic(auto, using(crate::proofs::Steps::steps, reql_datum::proofs::Walks::walks))]
fn changed_all<R: Rule>(alloc: Global, rule: &R, terms: &Terms) -> Result<Option<Terms>, Fault>
    ensures { Gives (λ done. unwrap_or done terms.now) result
        (all_rewritten (R.rule rule.now) (forms_of terms.now)) }
{
    let mut done = None;
    let mut place = 0;
    while let Some(term) = terms.at(place) {
        if !stays(rule, term) {
            if let Some(other) = changed(alloc, rule, term)? {
                done = Some(with_term(done, terms, place, other)?);
            }
        }
        place += 1;
    }
    Ok(done)
}

#[cycle(rewrite)]
#[tactic(auto, using(crate::proofs::Steps::steps, reql_datum::proofs::Walks::walks))]
fn changed_named<R: Rule>(
    alloc: Global,
    rule: &R,
    fields: &TermFields,
) -> Result<Option<TermFields>, Fault>
    ensures { Gives (λ done. unwrap_or done fields.now) result
        (named_rewritten (R.rule rule.now) (named_of fields.now)) }
{
    let mut done = None;
    let mut place = 0;
    while let Some((name, term)) = fields.at(place) {
        if !stays(rule, term) {
            if let Some(other) = changed(alloc, rule, term)? {
                done = Some(with_field(done, fields, name, other)?);
            }
        }
        place += 1;
    }
    Ok(done)
}
