// The tests of GET, GET_ALL and BETWEEN.
ghost use Rattle.std.specs.Prelude.{◌≡◌, map};
ghost use Rattle.reql_datum.specs.Keys.{is_key};
ghost use Rattle.reql_datum.specs.Kinds.{is_storable};
ghost use Rattle.reql_datum.specs.Outcome.{Gives};
ghost use Rattle.reql_datum.specs.View.{plain};
ghost use Rattle.reql_term.specs.View.{form_of};
ghost use Rattle.reql_rules.specs.Lists.{each};
ghost use Rattle.reql_value_spec.specs.Tables.{key_if, may_bound as may_bound_of};
ghost use Rattle.reql_plan_spec.specs.Feeding.{get_test as get_test_of, keys_test as keys_test_of, between_test as between_test_of};
ghost use Rattle.reql_plan_changes.specs.Tests.{key_at, bounds_test as bounds_test_of};

use crate::literals::{data_in, datum_in, givens};
use reql_datum::{Datum, Fault};
use reql_operand::{index_text, left_is_open, misplaced, not_a_key, right_is_open};
use reql_term::{Term, TermFields};
use std::alloc::Global;

fn as_key(alloc: Global, datum: &Datum) -> Result<(), Fault>
    ensures { Gives (λ u. plain datum.now) result (key_if is_key (plain datum.now)) }
{
    if datum.is_key() {
        return Ok(());
    }
    Err(Fault::QueryLogic(not_a_key(alloc, datum.type_name())?))
}

// That all may be keys of GET_ALL.
fn all_storable(alloc: Global, keys: &[Datum]) -> Result<(), Fault>
    ensures { Gives (λ u. map plain keys.now) result
        (each (key_if is_storable) (map plain keys.now)) }
{
    for key in keys {
        if !key.is_storable() {
            return Err(Fault::QueryLogic(not_a_key(alloc, key.type_name())?));
        }
    }
    Ok(())
}

fn may_bound(datum: &Datum) -> bool
    ensures { result ≡ may_bound_of (plain datum.now) }
{
    match datum {
        Datum::Null => false,
        _ => true,
    }
}

fn as_bound(alloc: Global, datum: &Datum) -> Result<(), Fault>
    ensures { Gives (λ u. plain datum.now) result (key_if may_bound_of (plain datum.now)) }
{
    if may_bound(datum) {
        return Ok(());
    }
    Err(Fault::QueryLogic(not_a_key(alloc, datum.type_name())?))
}

fn key_tested(alloc: Global, term: &Term) -> Result<(), Fault>
    ensures { Gives (λ u. u) result (key_at (form_of term.now)) }
{
    let datum = datum_in(alloc, term)?;
    as_key(alloc, &datum)?;
    Ok(())
}

/// The test of GET.
pub(crate) fn get_test(alloc: Global, terms: &[Term]) -> Result<(), Fault>
    ensures { Gives (λ u. u) result (get_test_of (map form_of terms.now)) }
{
    match terms {
        [] => Err(Fault::QueryLogic(misplaced(alloc)?)),
        [_] => Err(Fault::QueryLogic(misplaced(alloc)?)),
        [_, key] => key_tested(alloc, key),
        [_, _, _, ..] => Err(Fault::QueryLogic(misplaced(alloc)?)),
    }
}

/// The test of GET_ALL.
pub(crate) fn keys_test(alloc: Global, terms: &[Term], fields: &TermFields) -> Result<(), Fault>
    ensures { Gives (λ u. u) result (keys_test_of (map form_of terms.now) fields.now) }
{
    if terms.is_empty() {
        return Err(Fault::QueryLogic(misplaced(alloc)?));
    }
    let keys = data_in(alloc, &terms[1..])?;
    all_storable(alloc, keys.as_slice())?;
    let given = givens(alloc, fields)?;
    let _index = index_text(alloc, &given)?;
    Ok(())
}

// The test of BETWEEN's bounds and options.
fn bounds_test(alloc: Global, low: &Term, high: &Term, fields: &TermFields) -> Result<(), Fault>
    ensures { Gives (λ u. u) result
        (bounds_test_of (form_of low.now) (form_of high.now) fields.now) }
{
    let low = datum_in(alloc, low)?;
    let high = datum_in(alloc, high)?;
    as_bound(alloc, &low)?;
    as_bound(alloc, &high)?;
    let given = givens(alloc, fields)?;
    let _index = index_text(alloc, &given)?;
    let _low_open = left_is_open(alloc, &given)?;
    let _high_open = right_is_open(alloc, &given)?;
    Ok(())
}

/// The test of BETWEEN.
pub(crate) fn between_test(alloc: Global, terms: &[Term], fields: &TermFields) -> Result<(), Fault>
    ensures { Gives (λ u. u) result (between_test_of (map form_of terms.now) fields.now) }
{
    match terms {
        [] => Err(Fault::QueryLogic(misplaced(alloc)?)),
        [_] => Err(Fault::QueryLogic(misplaced(alloc)?)),
        [_, _] => Err(Fault::QueryLogic(misplaced(alloc)?)),
        [_, low, high] => bounds_test(alloc, low, high, fields),
        [_, _, _, _, ..] => Err(Fault::QueryLogic(misplaced(alloc)?)),
    }
}
