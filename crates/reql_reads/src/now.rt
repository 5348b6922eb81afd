// The moment of a request.
ghost use Rattle.std.specs.Prelude.{◌≡◌, ◌||◌, pos, IfOk};
ghost use Rattle.reql_datum.specs.Outcome.{Gives};
ghost use Rattle.reql_datum.specs.Plain.{time};
ghost use Rattle.reql_term.specs.Form.{literal, forms_of, named_of};
ghost use Rattle.reql_term.specs.View.{form_of};
ghost use Rattle.reql_rewrite.specs.Rewrite.{rewritten};
ghost use Rattle.reql_plan_spec.specs.Reads.{is_now as is_now_of, has_now as has_now_of, any_now as any_now_of, named_now as named_now_of, now_rule};

use reql_datum::{Datum, Fault, Memory, Moment, Whole};
use reql_rewrite::{Rule, rewrite};
use reql_term::{Op, Term, TermFields, Terms};
use std::alloc::Global;

/// The rule by which each NOW becomes a moment.
#[derive(Drop)]
struct AtMoment<'a> {
    moment: &'a Whole,
}

impl Rule for AtMoment<'_> {
    ghost rule = { λ s. now_rule s.moment.now };

    fn instead(&self, _alloc: Global, term: &Term) -> Result<Option<Term>, Fault> {
        match term {
            Term::Op { op, .. } => {
                if is_now(*op) {
                    return Ok(Some(moment_of(self.moment)?));
                }
                Ok(None)
            }
            _ => Ok(None),
        }
    }

    fn passes(&self, term: &Term) -> bool {
        match term {
            Term::Op { .. } => false,
            _ => true,
        }
    }
}

/// The term with the moment, in seconds since 1970, in the place of each NOW.
pub fn with_now(alloc: Global, moment: &Whole, term: &Term) -> Result<Term, Fault>
    ensures { Gives form_of result (rewritten (now_rule moment.now) (form_of term.now)) }
{
    rewrite(alloc, &AtMoment { moment }, term)
}

// A moment in UTC as a literal.
fn moment_of(moment: &Whole) -> Result<Term, Memory>
    ensures { IfOk result (λ t. form_of t ≡ literal (time (moment.now, pos 0))) }
{
    match Moment::of(*moment, 0) {
        Some(time) => Ok(Term::Lit(Datum::Time(time))),
        None => Err(Memory),
    }
}

fn is_now(op: Op) -> bool
    ensures { result ≡ is_now_of op }
{
    match op {
        Op::Now => true,
        _ => false,
    }
}

/// Whether NOW stands in a term.
#[cycle(now)]
pub fn has_now(term: &Term) -> bool
    ensures { result ≡ has_now_of (form_of term.now) }
{
    match term {
        Term::Arr(terms) => any_now(terms),
        Term::Obj(fields) => named_now(fields),
        Term::Func(_, body) => has_now(body.term()),
        Term::Op { op, args, opts } => {
            if is_now(*op) {
                return true;
            }
            parts_now(args, opts)
        }
        Term::Lit(_) | Term::Var(_) | Term::Row | Term::Slot(_) => false,
    }
}

#[cycle(now)]
fn parts_now(args: &Terms, opts: &TermFields) -> bool
    ensures { result ≡ (any_now_of (forms_of args.now) || named_now_of (named_of opts.now)) }
{
    if any_now(args) {
        return true;
    }
    named_now(opts)
}

#[cycle(now)]
#[tactic(auto, using(reql_faults::proofs::Below::below, reql_datum::proofs::Walks::walks))]
fn any_now(terms: &Terms) -> bool
    ensures { result ≡ any_now_of (forms_of terms.now) }
{
    let mut place = 0;
    while let Some(term) = terms.at(place) {
        if has_now(term) {
            return true;
        }
        place += 1;
    }
    false
}

#[cycle(now)]
#[tactic(auto, using(reql_faults::proofs::Below::below, reql_datum::proofs::Walks::walks))]
fn named_now(fields: &TermFields) -> bool
    ensures { result ≡ named_now_of (named_of fields.now) }
{
    let mut place = 0;
    while let Some(field) = fields.at(place) {
        if has_now(field.1) {
            return true;
        }
        place += 1;
    }
    false
}
