// Whether a document fits a pattern, as FILTER takes it.
ghost use Rattle.std.specs.Prelude.{◌≡◌, option_map};
ghost use Rattle.reql_datum.specs.Outcome.{Gives};
ghost use Rattle.reql_datum.specs.Plain.{pairs_of};
ghost use Rattle.reql_datum.specs.View.{plain};
ghost use Rattle.reql_rules.specs.Types.{object_in, same};
ghost use Rattle.reql_value_spec.specs.Matching.{fits as fits_of, inside, matches as matches_of, match_all as match_all_of};
ghost use Rattle.reql_operand.specs.Matching.{found_matches as found_matches_of};

use crate::field::no_attribute;
use crate::scalars::is_true;
use reql_datum::{Datum, Fault, Fields, compare};
use std::alloc::Global;

/// Whether two documents are equal, as EQ tells.
pub fn is_same(a: &Datum, b: &Datum) -> bool
    ensures { result ≡ same (plain a.now) (plain b.now) }
{
    compare(a, b).is_eq()
}

/// Whether a document fits a pattern: an object's names are there with values that fit, and another
/// value is true.
///
/// NonExistence where a name isn't there, and the names before it are there with values that fit.
#[tactic(auto, using(reql_datum::proofs::Back::back))]
pub fn fits(alloc: Global, pattern: &Datum, d: &Datum) -> Result<bool, Fault>
    ensures { Gives (λ b. b) result (fits_of (plain pattern.now) (plain d.now)) }
{
    match pattern {
        Datum::Obj(fields) => {
            if fields.is_literal() {
                return Ok(true);
            }
            all_inside(alloc, fields, d)
        }
        _ => Ok(is_true(pattern)),
    }
}

#[cycle(matching)]
#[tactic(auto, using(reql_datum::proofs::Walks::walks, reql_datum::proofs::Back::back))]
fn matches(alloc: Global, pattern: &Datum, d: &Datum) -> Result<bool, Fault>
    ensures { Gives (λ b. b) result (matches_of (plain pattern.now) (plain d.now)) }
{
    match pattern {
        Datum::Obj(fields) => {
            if fields.is_literal() {
                return Ok(is_same(pattern, d));
            }
            all_inside(alloc, fields, d)
        }
        _ => Ok(is_same(pattern, d)),
    }
}

// Whether it is an object that has all that a pattern names.
#[cycle(matching)]
#[tactic(auto, using(reql_datum::proofs::Walks::walks, reql_datum::proofs::Back::back))]
fn all_inside(alloc: Global, named: &Fields, d: &Datum) -> Result<bool, Fault>
    ensures { Gives (λ b. b) result
        (inside (match_all_of (pairs_of named.now)) (object_in (plain d.now))) }
{
    match d {
        Datum::Obj(object) => {
            if object.is_literal() {
                return Ok(false);
            }
            match_all(alloc, named, object)
        }
        _ => Ok(false),
    }
}

#[cycle(matching)]
#[tactic(auto, using(reql_datum::proofs::Walks::walks, reql_datum::proofs::Back::back))]
fn match_all(alloc: Global, named: &Fields, object: &Fields) -> Result<bool, Fault>
    ensures { Gives (λ b. b) result (match_all_of (pairs_of named.now) object.now) }
{
    let mut place = 0;
    while let Some((name, pattern)) = named.at(place) {
        let found = object.get(name.as_str());
        if !found_matches(alloc, name.as_str(), pattern, found)? {
            return Ok(false);
        }
        place += 1;
    }
    Ok(true)
}

// Whether what is found under a name fits.
#[cycle(matching)]
#[tactic(auto, using(reql_datum::proofs::Walks::walks, reql_datum::proofs::Back::back))]
fn found_matches(
    alloc: Global,
    name: &str,
    pattern: &Datum,
    found: Option<&Datum>,
) -> Result<bool, Fault>
    ensures { Gives (λ b. b) result
        (found_matches_of name.now (plain pattern.now)
        (option_map (λ d. plain d.now) found.entry)) }
{
    match found {
        Some(d) => matches(alloc, pattern, d),
        None => Err(Fault::NonExistence(no_attribute(alloc, name)?)),
    }
}
