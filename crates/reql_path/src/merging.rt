// The merging of documents.
ghost use Rattle.std.specs.Prelude.{◌≡◌, IfOk, option_map, Some, false};
ghost use Rattle.reql_datum.specs.Plain.{pairs_of};
ghost use Rattle.reql_datum.specs.View.{plain};
ghost use Rattle.reql_path.specs.Normal.{seen};
ghost use Rattle.reql_datum.specs.Kinds.{is_literal};
ghost use Rattle.reql_rules.specs.Lists.{object_of};
ghost use Rattle.reql_rules.specs.Merging.{merge, merged, merged_pairs, resolved, resolved_pairs, literal_value};

use crate::building::{put_also, put_copy};
use reql_datum::{Datum, Fields, Memory};
use std::alloc::Global;
use std::cmp::Ordering;

/// A new document merged into an old one (ReQL API reference, merge): where both are objects, a
/// name in one alone is kept and the values at a name in both are merged, else the new one stands.
/// A LITERAL of a value stands for that value unmerged, and one of nothing takes its name away; in
/// place of the whole it gives null.
///
/// It walks the objects that it merges once, and shares whatever it keeps whole.
pub fn merge(alloc: Global, old: &Datum, new: &Datum) -> Result<Datum, Memory>
    ensures { IfOk result (λ d. plain d ≡ merge (plain old.now) (plain new.now)) }
{
    match merged(alloc, Some(old), new)? {
        Some(d) => Ok(d),
        None => Ok(Datum::Null),
    }
}

// What a LITERAL holds.
#[tactic(auto, using(reql_datum::proofs::Back::back))]
fn literal_value(literal: &Fields) -> Result<Option<Datum>, Memory>
    ensures { IfOk result (λ r. option_map plain r ≡ literal_value (pairs_of literal.now)) }
{
    match literal.get("value") {
        Some(d) => Ok(Some(d.copy()?)),
        None => Ok(None),
    }
}

// A new value that stands, with the LITERALs of its fields taken. One without any is shared.
#[cycle(resolve)]
#[tactic(auto, using(reql_datum::proofs::Walks::walks, crate::proofs::Resolved::resolves))]
fn resolved(alloc: Global, value: &Datum) -> Result<Option<Datum>, Memory>
    ensures { IfOk result (λ r. option_map plain r ≡ resolved (plain value.now)) }
{
    match value {
        Datum::Obj(object) => resolved_object(alloc, object),
        _ => Ok(Some(value.copy()?)),
    }
}

#[cycle(resolve)]
#[tactic(auto, using(reql_datum::proofs::Walks::walks, crate::proofs::Resolved::resolves))]
fn resolved_object(alloc: Global, object: &Fields) -> Result<Option<Datum>, Memory>
    ensures { IfOk result (λ r. option_map plain r ≡ resolved (object_of object.now)) }
{
    if object.is_storable() {
        return Ok(Some(Datum::Obj(object.copy()?)));
    }
    if object.is_literal() {
        return literal_value(object);
    }
    let fields = resolved_fields(alloc, object)?;
    Ok(Some(Datum::Obj(fields)))
}

#[cycle(resolve)]
#[tactic(auto, using(reql_datum::proofs::Walks::walks, crate::proofs::Resolved::resolves))]
fn resolved_fields(alloc: Global, members: &Fields) -> Result<Fields, Memory>
    ensures { IfOk result (λ r. pairs_of r ≡ resolved_pairs (pairs_of members.now)) }
{
    let mut fields = Fields::with_room(alloc, members.len())?;
    let mut place = 0;
    while let Some((name, value)) = members.at(place) {
        let stands = resolved(alloc, value)?;
        put_also(&mut fields, name, stands)?;
        place += 1;
    }
    Ok(fields)
}

// A new value merged into an old one, where there is one.
#[cycle(merge)]
#[tactic(auto, using(reql_datum::proofs::Walks::walks, reql_datum::proofs::Back::back))]
fn merged(alloc: Global, old: Option<&Datum>, new: &Datum) -> Result<Option<Datum>, Memory>
    ensures { IfOk result (λ r. option_map plain r ≡ merged (plain new.now) (seen old.entry)) }
{
    match new {
        Datum::Obj(fields) => merged_object(alloc, old, fields),
        _ => Ok(Some(new.copy()?)),
    }
}

#[cycle(merge)]
#[tactic(auto, using(reql_datum::proofs::Walks::walks, reql_datum::proofs::Back::back))]
fn merged_object(alloc: Global, old: Option<&Datum>, new: &Fields) -> Result<Option<Datum>, Memory>
    ensures { IfOk result (λ r. option_map plain r ≡ merged (object_of new.now) (seen old.entry)) }
{
    if new.is_literal() {
        return literal_value(new);
    }
    match old {
        Some(Datum::Obj(fields)) => merged_onto(alloc, fields, new),
        _ => resolved_object(alloc, new),
    }
}

// A new object that is no LITERAL merged into an old one, which is none where it is a LITERAL.
#[cycle(merge)]
#[tactic(auto, using(reql_datum::proofs::Walks::walks, reql_datum::proofs::Back::back))]
fn merged_onto(alloc: Global, old: &Fields, new: &Fields) -> Result<Option<Datum>, Memory>
    requires { is_literal (pairs_of new.now) ≡ false }
    ensures { IfOk result (λ r. option_map plain r
        ≡ merged (object_of new.now) (Some (object_of old.now))) }
{
    if old.is_literal() {
        return resolved_object(alloc, new);
    }
    let fields = merged_fields(alloc, old, new)?;
    Ok(Some(Datum::Obj(fields)))
}

// Both rise by name, so that one walk meets each name of either.
#[cycle(merge)]
#[tactic(auto, using(reql_datum::proofs::Walks::walks))]
fn merged_fields(alloc: Global, old: &Fields, new: &Fields) -> Result<Fields, Memory>
    ensures { IfOk result (λ r. r ≡ merged_pairs (pairs_of new.now) old.now) }
{
    let mut fields = Fields::with_room(alloc, old.len())?;
    let mut from = 0;
    let mut to = 0;
    loop {
        match (old.at(from), new.at(to)) {
            (Some((name, kept)), Some((added, value))) => match name.order(added.as_str()) {
                Ordering::Less => {
                    put_copy(&mut fields, name, kept)?;
                    from += 1;
                }
                Ordering::Equal => {
                    let both = merged(alloc, Some(kept), value)?;
                    put_also(&mut fields, added, both)?;
                    from += 1;
                    to += 1;
                }
                Ordering::Greater => {
                    let alone = merged(alloc, None, value)?;
                    put_also(&mut fields, added, alone)?;
                    to += 1;
                }
            },
            (Some((name, kept)), None) => {
                put_copy(&mut fields, name, kept)?;
                from += 1;
            }
            (None, Some((added, value))) => {
                let alone = merged(alloc, None, value)?;
                put_also(&mut fields, added, alone)?;
                to += 1;
            }
            (None, None) => return Ok(fields),
        }
    }
}
