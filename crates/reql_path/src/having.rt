// Whether an object has all that a pattern names.
ghost use Rattle.std.specs.Prelude.{◌≡◌};
ghost use Rattle.reql_datum.specs.Plain.{items_of, pairs_of};
ghost use Rattle.reql_datum.specs.View.{plain};
ghost use Rattle.reql_path.specs.Normal.{seen, IfArray};
ghost use Rattle.reql_rules.specs.Patterns.{is_true, is_there, holds_inside, has, has_all, has_each, has_fields};

use crate::pattern::Pattern;
use reql_datum::{Datum, Fields, Items};

/// Whether an object has all that a pattern names (ReQL API reference, hasFields): each name is
/// there and isn't null, and what is named inside a field is there in an object.
///
/// Each name is looked up.
pub fn has(o: &Fields, p: &Pattern) -> bool
    ensures one { result ≡ has p.now o.now }
    ensures several { IfArray p.now (λ ps. result ≡ has_fields ps o.now) }
{
    has_in(&p.document, o)
}

pub(crate) fn is_true(d: &Datum) -> bool
    ensures { result ≡ is_true (plain d.now) }
{
    match d {
        Datum::Bool(b) => *b,
        _ => false,
    }
}

fn is_there(found: Option<&Datum>) -> bool
    ensures { result ≡ is_there (seen found.entry) }
{
    match found {
        None => false,
        Some(Datum::Null) => false,
        Some(_) => true,
    }
}

#[cycle(has)]
#[tactic(auto, using(reql_datum::proofs::Walks::walks, reql_datum::proofs::Back::back))]
fn has_in(pattern: &Datum, object: &Fields) -> bool
    ensures { result ≡ has (plain pattern.now) object.now }
{
    match pattern {
        Datum::Text(name) => is_there(object.get(name.as_str())),
        Datum::List(patterns) => has_all(patterns, object),
        Datum::Obj(named) => has_each(named, object),
        _ => false,
    }
}

#[cycle(has)]
#[tactic(auto, using(reql_datum::proofs::Walks::walks, reql_datum::proofs::Back::back))]
fn has_all(patterns: &Items, object: &Fields) -> bool
    ensures { result ≡ has_all (items_of patterns.now) object.now }
{
    let mut place = 0;
    while let Some(pattern) = patterns.at(place) {
        if !has_in(pattern, object) {
            return false;
        }
        place += 1;
    }
    true
}

#[cycle(has)]
#[tactic(auto, using(reql_datum::proofs::Walks::walks, reql_datum::proofs::Back::back))]
fn has_each(named: &Fields, object: &Fields) -> bool
    ensures { result ≡ has_each (pairs_of named.now) object.now }
{
    let mut place = 0;
    while let Some((name, pattern)) = named.at(place) {
        let found = object.get(name.as_str());
        let here = if is_true(pattern) {
            is_there(found)
        } else {
            has_inside(pattern, found)
        };
        if !here {
            return false;
        }
        place += 1;
    }
    true
}

// Whether an object is there that has all that a pattern names.
#[cycle(has)]
#[tactic(auto, using(reql_datum::proofs::Walks::walks, reql_datum::proofs::Back::back))]
fn has_inside(pattern: &Datum, found: Option<&Datum>) -> bool
    ensures { result ≡ holds_inside (has (plain pattern.now)) (seen found.entry) }
{
    match found {
        Some(Datum::Obj(object)) => !object.is_literal() && has_in(pattern, object),
        _ => false,
    }
}
