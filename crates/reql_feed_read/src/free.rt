// Terms that read no table and no variable from outside.
ghost use Rattle.std.specs.Prelude.{◌≡◌, ◌∷◌, drop, nat_eq};
ghost use Rattle.std.specs.List.{list_any};
ghost use Rattle.reql_feed_spec.specs.Kept.{is_free as is_free_of, are_free as are_free_of, fields_free as fields_free_of};
ghost use Rattle.reql_feed_read.specs.Scopes.{scope_of};
ghost use Rattle.reql_term.specs.Form.{forms_of, named_of};
ghost use Rattle.reql_term.specs.View.{form_of};
ghost use Rattle.reql_value_spec.specs.Depends.{is_bound as is_bound_of, is_single as is_single_of, has_single as has_single_of};

use reql_term::{Term, TermFields, Terms};

/// The parameters of the functions around a term.
#[derive(Clone, Copy)]
pub(crate) enum Scope<'a> {
    /// No function.
    Outside,
    /// In a function of these parameters, and in those around it.
    Inside {
        ids: &'a [u64],
        around: &'a Scope<'a>,
    },
}

fn is_one_of(ids: &[u64], id: u64) -> bool
    ensures { result ≡ list_any (nat_eq id) ids.now }
{
    for other in ids {
        if id == *other {
            return true;
        }
    }
    false
}

fn is_bound(scope: &Scope, id: u64) -> bool
    ensures { result ≡ is_bound_of (scope_of scope.now) id }
{
    match scope {
        Scope::Outside => false,
        Scope::Inside { ids, around } => is_one_of(ids, id) || is_bound(around, id),
    }
}

fn is_single(ids: &[u64]) -> bool
    ensures { result ≡ is_single_of ids.now }
{
    match ids {
        [_] => true,
        _ => false,
    }
}

fn has_single(scope: &Scope) -> bool
    ensures { result ≡ has_single_of (scope_of scope.now) }
{
    match scope {
        Scope::Outside => false,
        Scope::Inside { ids, around } => is_single(ids) || has_single(around),
    }
}

/// Whether no slot stands in a term, and each variable in it is bound by a function around.
#[cycle(free)]
pub(crate) fn is_free(term: &Term, scope: &Scope) -> bool
    ensures { result ≡ is_free_of (scope_of scope.now) (form_of term.now) }
{
    match term {
        Term::Lit(_) => true,
        Term::Arr(terms) => are_free(terms, 0, scope),
        Term::Obj(fields) => fields_free(fields, scope),
        Term::Var(id) => is_bound(scope, *id),
        Term::Row => has_single(scope),
        Term::Func(params, body) => is_free_inside(params.as_slice(), body.term(), scope),
        Term::Slot(_) => false,
        Term::Op { op: _, args, opts } => are_free(args, 0, scope) && fields_free(opts, scope),
    }
}

// The same of the body of a function.
#[cycle(free)]
fn is_free_inside(ids: &[u64], body: &Term, scope: &Scope) -> bool
    ensures { result ≡ is_free_of (ids.now ∷ scope_of scope.now) (form_of body.now) }
{
    let inside = Scope::Inside {
        ids,
        around: &*scope,
    };
    is_free(body, &inside)
}

/// The same of the terms from a place on.
#[cycle(free)]
#[tactic(auto, using(crate::proofs::Firsts::firsts, reql_datum::proofs::Walks::walks))]
pub(crate) fn are_free(terms: &Terms, from: usize, scope: &Scope) -> bool
    ensures { result ≡ are_free_of (scope_of scope.now) (forms_of (drop from terms.now)) }
{
    let mut place = from;
    while let Some(term) = terms.at(place) {
        if !is_free(term, scope) {
            return false;
        }
        place += 1;
    }
    true
}

/// The same of terms by name.
#[cycle(free)]
#[tactic(auto, using(crate::proofs::Firsts::firsts, reql_datum::proofs::Walks::walks))]
pub(crate) fn fields_free(fields: &TermFields, scope: &Scope) -> bool
    ensures { result ≡ fields_free_of (scope_of scope.now) (named_of fields.now) }
{
    let mut place = 0;
    while let Some((_, term)) = fields.at(place) {
        if !is_free(term, scope) {
            return false;
        }
        place += 1;
    }
    true
}
