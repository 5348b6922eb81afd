// An element of a FOR_EACH in the place of its variable.
ghost use Rattle.std.specs.Prelude.{◌≡◌, ◌∷◌, [], IfOk, option_map};
ghost use Rattle.reql_datum.specs.Outcome.{Gives};
ghost use Rattle.reql_datum.specs.View.{plain};
ghost use Rattle.reql_term.specs.Form.{function, variable};
ghost use Rattle.reql_term.specs.View.{form_of};
ghost use Rattle.reql_faults.specs.Faults.{is_bound as is_bound_of, is_one as is_one_of};
ghost use Rattle.reql_plan_spec.specs.Reads.{is_compound as is_compound_of, returned as returned_of, element_term as element_term_of, unless_bound, variable_rule, parameter_rule, with_element as with_element_of};

use reql_datum::{Datum, Fault, Memory};
use reql_rewrite::{Rule, rewrite};
use reql_term::{Body, Op, Params, Term, TermFields, Terms};
use std::alloc::Global;

/// The rule by which a variable becomes an element, up to functions that bind it anew.
#[derive(Drop)]
struct OfVariable<'a> {
    id: u64,
    element: &'a Datum,
}

/// The rule by which the parameter of the nearest function becomes an element, up to functions of one
/// parameter.
#[derive(Drop)]
struct OfParameter<'a> {
    element: &'a Datum,
}

impl Rule for OfVariable<'_> {
    ghost rule = { λ s. variable_rule s.id (plain s.element.now) };

    fn instead(&self, alloc: Global, term: &Term) -> Result<Option<Term>, Fault> {
        match term {
            Term::Var(id) => Ok(element_if(alloc, *id == self.id, self.element)?),
            Term::Func(ids, _) => Ok(same_if(is_bound(self.id, ids.as_slice()), term)?),
            _ => Ok(None),
        }
    }

    fn passes(&self, term: &Term) -> bool {
        match term {
            Term::Var(_) | Term::Func(_, _) => false,
            _ => true,
        }
    }
}

impl Rule for OfParameter<'_> {
    ghost rule = { λ s. parameter_rule (plain s.element.now) };

    fn instead(&self, alloc: Global, term: &Term) -> Result<Option<Term>, Fault> {
        match term {
            Term::Row => Ok(Some(element_term(alloc, self.element)?)),
            Term::Func(ids, _) => Ok(same_if(is_one(ids.as_slice()), term)?),
            _ => Ok(None),
        }
    }

    fn passes(&self, term: &Term) -> bool {
        match term {
            Term::Row | Term::Func(_, _) => false,
            _ => true,
        }
    }
}

/// The term with an element in the place of the variable of this id, and of the parameter of the
/// nearest function of one.
pub fn with_element(alloc: Global, id: u64, element: &Datum, term: &Term) -> Result<Term, Fault>
    ensures { Gives form_of result (with_element_of id (plain element.now) (form_of term.now)) }
{
    let placed = rewrite(alloc, &OfVariable { id, element }, term)?;
    rewrite(alloc, &OfParameter { element }, &placed)
}

// The element as a term, where it takes the place.
fn element_if(alloc: Global, is_it: bool, element: &Datum) -> Result<Option<Term>, Memory>
    ensures { IfOk result (λ o. option_map form_of o
        ≡ unless_bound is_it (element_term_of (plain element.now))) }
{
    if is_it {
        return Ok(Some(element_term(alloc, element)?));
    }
    Ok(None)
}

// The element as a term: an array so that it is held against the array limit, and an object so that
// it is no constant.
fn element_term(alloc: Global, element: &Datum) -> Result<Term, Memory>
    ensures { IfOk result (λ t. form_of t ≡ element_term_of (plain element.now)) }
{
    if is_compound(element) {
        return returned(alloc, element);
    }
    Ok(Term::Lit(element.copy()?))
}

fn is_compound(element: &Datum) -> bool
    ensures { result ≡ is_compound_of (plain element.now) }
{
    match element {
        Datum::List(_) => true,
        Datum::Obj(_) => true,
        _ => false,
    }
}

// A call of the function that gives its parameter.
fn returned(alloc: Global, element: &Datum) -> Result<Term, Memory>
    ensures { IfOk result (λ t. form_of t ≡ returned_of (plain element.now)) }
{
    let mut args = Terms::with_room(alloc, 2)?;
    args.push(same(alloc)?)?;
    args.push(Term::Lit(element.copy()?))?;
    let opts = TermFields::new(alloc);
    Ok(Term::Op {
        op: Op::Funcall,
        args,
        opts,
    })
}

// The function that gives its parameter.
fn same(alloc: Global) -> Result<Term, Memory>
    ensures { IfOk result (λ t. form_of t ≡ function (0 ∷ []) (variable 0)) }
{
    let mut ids = Params::with_room(alloc, 1)?;
    ids.push(0)?;
    Ok(Term::Func(ids, Body::new(alloc, Term::Var(0))?))
}

// The same term, where nothing in it is replaced.
fn same_if(is_bound: bool, term: &Term) -> Result<Option<Term>, Memory>
    ensures { IfOk result (λ o. option_map form_of o ≡ unless_bound is_bound (form_of term.now)) }
{
    if is_bound {
        return Ok(Some(term.copy()?));
    }
    Ok(None)
}

fn is_bound(id: u64, ids: &[u64]) -> bool
    ensures { result ≡ is_bound_of id ids.now }
{
    for known in ids {
        if *known == id {
            return true;
        }
    }
    false
}

fn is_one(ids: &[u64]) -> bool
    ensures { result ≡ is_one_of ids.now }
{
    match ids {
        [_] => true,
        _ => false,
    }
}
