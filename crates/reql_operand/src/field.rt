// A field of a document, as GET_FIELD takes it.
ghost use Rattle.std.specs.Prelude.{◌≡◌, ◌++◌, [], IfOk, Ok, is_ok, false, Err, option_map, codes};
ghost use Rattle.reql_datum.specs.Answer.{non_existence};
ghost use Rattle.reql_datum.specs.Outcome.{Gives};
ghost use Rattle.reql_datum.specs.Plain.{object, items_of, pairs_of};
ghost use Rattle.reql_datum.specs.View.{plain};
ghost use Rattle.reql_rules.specs.Faults.{no_attribute as no_attribute_of};
ghost use Rattle.reql_rules.specs.Fields.{field_in as field_in_of, fields_in as fields_in_of, get_field as get_field_of, get_fields as get_fields_of};
ghost use Rattle.reql_rules.specs.Lists.{also};
ghost use Rattle.reql_rules.specs.Types.{mismatch};

use crate::texts::{field_of_null, type_text};
use reql_datum::{Datum, Fault, Fields, Items, Memory, Name};
use std::alloc::Global;

/// A field of a document; of an array, those of its elements that have it.
///
/// Faults where the document is null, no object, or an object without the field.
#[tactic(auto, using(reql_datum::proofs::Back::back))]
pub fn get_field(alloc: Global, name: &str, d: &Datum) -> Result<Datum, Fault>
    ensures { Gives plain result (get_field_of name.now (plain d.now)) }
{
    match d {
        Datum::Null => Err(Fault::NonExistence(field_of_null(alloc)?)),
        Datum::Obj(fields) => field_of_object(alloc, name, fields),
        Datum::List(items) => Ok(Datum::List(get_fields(alloc, name, items)?)),
        _ => no_object(alloc, d),
    }
}

#[tactic(auto, using(reql_datum::proofs::Back::back))]
fn field_of_object(alloc: Global, name: &str, fields: &Fields) -> Result<Datum, Fault>
    ensures { Gives plain result (get_field_of name.now (object (pairs_of fields.now))) }
{
    if fields.is_literal() {
        return Err(Fault::QueryLogic(type_text(alloc, "OBJECT", "PTYPE<LITERAL>")?));
    }
    match fields.get(name) {
        Some(value) => Ok(value.copy()?),
        None => Err(Fault::NonExistence(no_attribute(alloc, name)?)),
    }
}

// That an object lacks a field.
pub(crate) fn no_attribute(alloc: Global, name: &str) -> Result<Name, Memory>
    ensures { IfOk result (λ text. non_existence text ≡ no_attribute_of name.now) }
{
    match format!(in alloc; "No attribute `{}` in object.", name) {
        Ok(text) => Name::of(alloc, text.as_str()),
        Err(_) => Err(Memory),
    }
}

// The fault that an object was wanted.
fn no_object(alloc: Global, d: &Datum) -> Result<Datum, Fault>
    ensures fault { is_ok result ≡ false }
    ensures which { Gives plain result (Err (mismatch (codes "OBJECT") (plain d.now))) }
{
    match d {
        Datum::Null => Err(Fault::NonExistence(type_text(alloc, "OBJECT", "NULL")?)),
        _ => Err(Fault::QueryLogic(type_text(alloc, "OBJECT", d.type_name())?)),
    }
}

fn no_field(alloc: Global, d: &Datum) -> Result<Option<Datum>, Fault>
    ensures fault { is_ok result ≡ false }
    ensures which { Gives (option_map plain) result
        (Err (mismatch (codes "OBJECT") (plain d.now))) }
{
    match no_object(alloc, d) {
        Err(fault) => Err(fault),
        Ok(_) => unreachable!(),
    }
}

// A field of one element of a sequence, where it has it.
#[cycle(field)]
#[tactic(auto, using(reql_datum::proofs::Walks::walks, reql_datum::proofs::Back::back))]
fn field_in(alloc: Global, name: &str, d: &Datum) -> Result<Option<Datum>, Fault>
    ensures { Gives (option_map plain) result (field_in_of name.now (plain d.now)) }
{
    match d {
        Datum::Null => Ok(None),
        Datum::Obj(fields) => optional_field(alloc, name, fields),
        Datum::List(items) => Ok(Some(Datum::List(fields_in(alloc, name, items)?))),
        _ => no_field(alloc, d),
    }
}

#[tactic(auto, using(reql_datum::proofs::Back::back))]
fn optional_field(alloc: Global, name: &str, fields: &Fields) -> Result<Option<Datum>, Fault>
    ensures { Gives (option_map plain) result (field_in_of name.now (object (pairs_of fields.now))) }
{
    if fields.is_literal() {
        return Err(Fault::QueryLogic(type_text(alloc, "OBJECT", "PTYPE<LITERAL>")?));
    }
    match fields.get(name) {
        Some(value) => Ok(Some(value.copy()?)),
        None => Ok(None),
    }
}

#[cycle(field)]
#[tactic(auto, using(reql_datum::proofs::Walks::walks))]
fn fields_in(alloc: Global, name: &str, items: &Items) -> Result<Items, Fault>
    ensures { Gives (λ found. found) result (fields_in_of name.now (items_of items.now)) }
{
    let mut found = Items::new(alloc);
    let mut place = 0;
    while let Some(d) = items.at(place) {
        let field = field_in(alloc, name, d)?;
        found = with_one(found, field)?;
        place += 1;
    }
    Ok(found)
}

fn with_one(found: Items, field: Option<Datum>) -> Result<Items, Fault>
    ensures { Gives (λ items. items) result (Ok (found ++ also (option_map plain field) [])) }
{
    match field {
        None => Ok(found),
        Some(value) => {
            let mut all = found;
            all.push(value)?;
            Ok(all)
        }
    }
}

/// A field of each element that has it: null has none, and an array gives those of its elements.
///
/// Faults where an element is no object.
pub fn get_fields(alloc: Global, name: &str, items: &Items) -> Result<Items, Fault>
    ensures { Gives (λ found. found) result (get_fields_of name.now items.now) }
{
    fields_in(alloc, name, items)
}
