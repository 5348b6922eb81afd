// Primary keys for documents without one.
ghost use Rattle.std.specs.Prelude.{◌≡◌, IfOk, drop, option_map};
ghost use Rattle.reql_datum.specs.Members.{put};
ghost use Rattle.reql_datum.specs.View.{plain};
ghost use Rattle.reql_rules.specs.Lists.{object_of};
ghost use Rattle.reql_rules.specs.Types.{object_in};
ghost use Rattle.reql_write_spec.specs.Treating.{keyed as keyed_of, keyed_in};
ghost use Rattle.reql_write.specs.Keyed.{Lacks};

use crate::members::members_in;
use reql_datum::{Datum, Fields, Items, Memory, Name};
use std::alloc::Global;

// The members of an object that lacks a field.
#[tactic(auto, using(crate::proofs::Keys::no_object, crate::proofs::Keys::has_field, crate::proofs::Keys::lacks_field))]
fn lacking<'a>(field: &Name, document: &'a Datum) -> Option<&'a Fields>
    ensures { Lacks field.now (plain document.now) (option_map (λ f. f.now) result) }
{
    match members_in(document) {
        Some(fields) => match fields.get(field.as_str()) {
            Some(_) => None,
            None => Some(fields),
        },
        None => None,
    }
}

// The object with a field more.
fn with_key(fields: &Fields, field: &Name, key: &Datum) -> Result<Datum, Memory>
    ensures { IfOk result (λ d. plain d
        ≡ object_of (put field.now (plain key.now) fields.now)) }
{
    let mut more = fields.copy()?;
    drop(more.put(field.copy()?, key.copy()?)?);
    Ok(Datum::Obj(more))
}

/// The documents, each that is an object without a primary key with the next of the keys that were
/// made.
#[tactic(auto, using(reql_datum::proofs::Walks::walks))]
pub(crate) fn keyed(
    alloc: Global,
    field: &Name,
    documents: &Items,
    made: &Items,
) -> Result<Items, Memory>
    ensures { IfOk result (λ items. items ≡ keyed_of field.now made.now documents.now) }
{
    let mut all = Items::with_room(alloc, documents.len())?;
    let mut place = 0;
    let mut next = 0;
    while let Some(document) = documents.at(place) {
        let (one, after) = keyed_one(field, document, made, next)?;
        all.push(one)?;
        next = after;
        place += 1;
    }
    Ok(all)
}

// A document with its key, and the place of the next key.
#[tactic(auto, using(crate::proofs::Keys::no_key, crate::proofs::Keys::takes_key))]
fn keyed_one(
    field: &Name,
    document: &Datum,
    made: &Items,
    next: usize,
) -> Result<(Datum, usize), Memory>
    ensures { IfOk result (λ r. (plain r.0, drop r.1 made.now)
        ≡ keyed_in field.now (plain document.now) (object_in (plain document.now))
        (drop next made.now)) }
{
    match lacking(field, document) {
        None => Ok((document.copy()?, next)),
        Some(fields) => match made.at(next) {
            None => Ok((document.copy()?, next)),
            Some(key) => Ok((with_key(fields, field, key)?, next + 1)),
        },
    }
}
