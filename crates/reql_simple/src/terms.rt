// What simple terms stand for.
ghost use Rattle.std.specs.Prelude.{◌≡◌, [], ◌∷◌, IfSome};
ghost use Rattle.reql_term.specs.View.{form_of};
ghost use Rattle.reql_value_spec.specs.Meaning.{sense, sense_of, bound as bound_to};
ghost use Rattle.reql_value_spec.specs.Lazy.{chained};
ghost use Rattle.reql_value_spec.specs.Sense.{Sense, plain};
ghost use Rattle.reql_value_spec.specs.World.{Vars as Frames, variable_at, implicit_at};
ghost use Rattle.reql_term_analysis.specs.Bound.{bound, listed, optional};
ghost use Rattle.reql_simple.specs.Found.{document};
ghost use Rattle.reql_simple.specs.Stands.{Stands, role_sense};

use crate::applied::{by_one, by_two_for, stops};
use crate::lying::{Found, kept, within};
use crate::roles::{Role, role_of};
use reql_operand::Purse;
use reql_term::{Op, Term, TermFields};
use reql_term_analysis::{Vars, is_fit, lookup, lookup_implicit, reach};

/// What a term stands for, where that is found: literals and variables, fields of these, and
/// comparisons, arithmetic, AND, OR and NOT of one or two such terms. Where there is a fault, or
/// anything else, it is None, which says nothing of the term; so it is where the purse is empty.
///
/// It looks at each part of the term once, for which it pays, and takes no memory.
#[cycle(found)]
pub fn found<'a>(term: &'a Term, limit: u64, purse: &Purse, vars: &'a Vars<'a>) -> Option<Found<'a>>
    ensures { IfSome result (λ x.
        Stands limit (sense (form_of term.now)) (bound vars.now) (document x)) }
{
    let Ok(()) = purse.spend(1) else {
        return None;
    };
    match term {
        Term::Lit(d) => Some(Found::Lying(d)),
        Term::Var(id) => variable(*id, limit, purse, vars),
        Term::Row => parameter(limit, purse, vars),
        Term::Op { op, args, opts } => {
            of_operator(*op, args.as_slice(), opts, limit, purse, vars)
        }
        _ => None,
    }
}

fn variable<'a>(id: u64, limit: u64, purse: &Purse, vars: &'a Vars<'a>) -> Option<Found<'a>>
    ensures { IfSome result (λ x.
        Stands limit (plain (bound_to (variable_at id))) (bound vars.now) (document x)) }
{
    let Ok(()) = purse.spend(reach(vars)) else {
        return None;
    };
    match lookup(id, vars) {
        Some(d) => within(limit, d),
        None => None,
    }
}

fn parameter<'a>(limit: u64, purse: &Purse, vars: &'a Vars<'a>) -> Option<Found<'a>>
    ensures { IfSome result (λ x.
        Stands limit (plain (bound_to implicit_at)) (bound vars.now) (document x)) }
{
    let Ok(()) = purse.spend(reach(vars)) else {
        return None;
    };
    match lookup_implicit(vars) {
        Some(d) => within(limit, d),
        None => None,
    }
}

// An operator without options, whose count of arguments is right.
#[cycle(found)]
fn of_operator<'a>(
    op: Op,
    terms: &'a [Term],
    opts: &TermFields,
    limit: u64,
    purse: &Purse,
    vars: &'a Vars<'a>,
) -> Option<Found<'a>>
    ensures { IfSome result (λ x. Stands limit
        (sense_of op (listed terms.now) (optional opts.now)) (bound vars.now) (document x)) }
{
    if !opts.is_empty() || !is_fit(op, terms, opts) {
        return None;
    }
    match role_of(op) {
        Some(role) => by_role(role, terms, limit, purse, vars),
        None => None,
    }
}

#[cycle(found)]
fn by_role<'a>(
    role: Role,
    terms: &'a [Term],
    limit: u64,
    purse: &Purse,
    vars: &'a Vars<'a>,
) -> Option<Found<'a>>
    ensures { IfSome result (λ x. Stands limit
        (role_sense role (listed terms.now)) (bound vars.now) (document x)) }
{
    match terms {
        [only] => of_one(role, only, limit, purse, vars),
        [first, second] => of_two(role, first, second, limit, purse, vars),
        _ => None,
    }
}

#[cycle(found)]
fn of_one<'a>(
    role: Role,
    term: &'a Term,
    limit: u64,
    purse: &Purse,
    vars: &'a Vars<'a>,
) -> Option<Found<'a>>
    ensures { IfSome result (λ x. Stands limit
        (role_sense role (sense (form_of term.now) ∷ [])) (bound vars.now) (document x)) }
{
    match found(term, limit, purse, vars) {
        Some(x) => by_one(role, &x),
        None => None,
    }
}

#[cycle(found)]
fn of_two<'a>(
    role: Role,
    first: &'a Term,
    second: &'a Term,
    limit: u64,
    purse: &Purse,
    vars: &'a Vars<'a>,
) -> Option<Found<'a>>
    ensures { IfSome result (λ x. Stands limit
        (role_sense role (sense (form_of first.now) ∷ sense (form_of second.now) ∷ []))
        (bound vars.now) (document x)) }
{
    let Some(x) = found(first, limit, purse, vars) else {
        return None;
    };
    match role {
        Role::Chain(at) => chain(at, &x, second, limit, purse, vars),
        _ => with_second(role, &x, second, limit, purse, vars),
    }
}

// AND or OR, by what its first term stands for.
#[cycle(found)]
fn chain<'a>(
    at: bool,
    x: &Found<'a>,
    second: &'a Term,
    limit: u64,
    purse: &Purse,
    vars: &'a Vars<'a>,
) -> Option<Found<'a>>
    ensures { IfSome result (λ z. (s : Sense) → Stands limit s (bound vars.now) (document x.now)
        → Stands limit (plain (chained at (s ∷ sense (form_of second.now) ∷ [])))
        (bound vars.now) (document z)) }
{
    if stops(at, x) {
        return kept(limit, x);
    }
    match found(second, limit, purse, vars) {
        Some(y) => kept(limit, &y),
        None => None,
    }
}

// An operator that wants both.
#[cycle(found)]
fn with_second<'a>(
    role: Role,
    x: &Found<'a>,
    second: &'a Term,
    limit: u64,
    purse: &Purse,
    vars: &'a Vars<'a>,
) -> Option<Found<'a>>
    ensures { IfSome result (λ z. (s : Sense) → Stands limit s (bound vars.now) (document x.now)
        → Stands limit (role_sense role (s ∷ sense (form_of second.now) ∷ []))
        (bound vars.now) (document z)) }
{
    match found(second, limit, purse, vars) {
        Some(y) => by_two_for(purse, role, limit, x, &y),
        None => None,
    }
}
