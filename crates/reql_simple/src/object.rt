// Objects of simple terms.
ghost use Rattle.std.specs.Prelude.{◌≡◌, List, [], ◌∷◌, ◌++◌, IfOk, IfSome};
ghost use Rattle.std.specs.List.Sorted.{IsStrictlySortedBy};
ghost use Rattle.std.specs.Map.{keys_of};
ghost use Rattle.reql_datum.specs.Members.{text_order};
ghost use Rattle.reql_datum.specs.Outcome.{Gives};
ghost use Rattle.reql_datum.specs.View.{plain};
ghost use Rattle.reql_term.specs.Form.{Form};
ghost use Rattle.reql_term.specs.View.{form_of};
ghost use Rattle.reql_rules.specs.Lists.{Bytes};
ghost use Rattle.reql_value_spec.specs.Meaning.{make_object, sense};
ghost use Rattle.reql_value_spec.specs.World.{World as Seen, Vars as Frames};
ghost use Rattle.reql_operand.specs.Seen.{meant};
ghost use Rattle.reql_term_analysis.specs.Bound.{bound, optional};
ghost use Rattle.reql_simple.specs.Members.{Made};
ghost use Rattle.reql_simple.specs.Stands.{Stands};

use crate::roles::role_of;
use crate::terms::found;
use reql_datum::{Datum, Fault, Fields, Memory, Name};
use reql_operand::{Purse, Value, sized};
use reql_term::{Term, TermFields};
use reql_term_analysis::Vars;
use std::alloc::Global;

/// The object of what terms by name give, where what each stands for is found. Where there is a
/// fault in one, or anything else than a simple term, it is None, which says nothing of the object; so it
/// is where the purse is empty.
///
/// It takes the memory of the object alone, which it gives back where it is None, and none where a
/// term is of a kind that no simple term is of.
pub fn object_found(
    alloc: Global,
    terms: &TermFields,
    limit: u64,
    purse: &Purse,
    vars: &Vars,
) -> Option<Result<Value, Fault>>
    ensures { IfSome result (λ r. (w : Seen) → w.array_limit ≡ limit
        → Gives (meant w) r (make_object (optional terms.now) w (bound vars.now))) }
{
    if !pays(purse, terms.len() as u64 / 16) {
        return None;
    }
    if !all_seem_simple(terms) {
        return None;
    }
    match members_found(alloc, terms, limit, purse, vars) {
        Ok(found) => object_within(alloc, limit, found),
        Err(_) => Some(Err(Fault::Memory)),
    }
}

// Whether so much could be paid, which is gone from the purse then.
fn pays(purse: &Purse, cost: u64) -> bool {
    purse.spend(cost).is_ok()
}

// Whether each term is of a kind that simple terms are of, which decides only what is tried.
fn all_seem_simple(terms: &TermFields) -> bool {
    let mut place = 0;
    while let Some((_, term)) = terms.at(place) {
        if !seems_simple(term) {
            return false;
        }
        place += 1;
    }
    true
}

fn seems_simple(term: &Term) -> bool {
    match term {
        Term::Lit(_) => true,
        Term::Var(_) => true,
        Term::Row => true,
        Term::Op { op, .. } => role_of(*op).is_some(),
        _ => false,
    }
}

// The members, where what each term stands for is found.
fn members_found(
    alloc: Global,
    terms: &TermFields,
    limit: u64,
    purse: &Purse,
    vars: &Vars,
) -> Result<Option<Fields>, Memory>
    ensures { IfOk result (λ o. IfSome o (λ ms. Made limit terms.now (bound vars.now) ms)) }
{
    let mut members = Fields::with_room(alloc, terms.len())?;
    let mut place = 0;
    while let Some((name, term)) = terms.at(place) {
        let Some(d) = datum_found(term, limit, purse, vars)? else {
            return Ok(None);
        };
        put_copy(&mut members, name, d)?;
        place += 1;
    }
    Ok(Some(members))
}

// A copy of what a term stands for, where that is found.
fn datum_found(term: &Term, limit: u64, purse: &Purse, vars: &Vars) -> Result<Option<Datum>, Memory>
    ensures { IfOk result (λ o. IfSome o (λ d.
        Stands limit (sense (form_of term.now)) (bound vars.now) (plain d))) }
{
    match found(term, limit, purse, vars) {
        Some(x) => Ok(Some(x.to_datum()?)),
        None => Ok(None),
    }
}

// A member after all others, under a copy of its name.
#[tactic(auto, using(reql_term_analysis::proofs::Objects::put_last))]
fn put_copy(members: &mut Fields, name: &Name, d: Datum) -> Result<(), Memory>
    ensures { (later : List Bytes) →
        IsStrictlySortedBy text_order (keys_of members.old ++ name.now ∷ later)
        → IfOk result (λ u. members.new ≡ members.old ++ (name.now, plain d) ∷ []) }
{
    members.set(name.copy()?, d)?;
    Ok(())
}

// The object of members that were found, within the limits.
fn object_within(alloc: Global, limit: u64, found: Option<Fields>) -> Option<Result<Value, Fault>>
    ensures { (fs : List (Bytes × Form)) (frames : Frames)
        → IfSome found (λ ms. Made limit fs frames ms)
        → IfSome result (λ r. (w : Seen) → w.array_limit ≡ limit
        → Gives (meant w) r (make_object (optional fs) w frames)) }
{
    match found {
        Some(members) => Some(sized(alloc, limit, Value::One(Datum::Obj(members)))),
        None => None,
    }
}
