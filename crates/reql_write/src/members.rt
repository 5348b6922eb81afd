// The members of a document that is an object.
ghost use Rattle.std.specs.Prelude.{◌≡◌, option_map};
ghost use Rattle.reql_datum.specs.Outcome.{Gives};
ghost use Rattle.reql_datum.specs.View.{plain};
ghost use Rattle.reql_rules.specs.Types.{object_in, is_null as is_null_of, as_object as as_object_of};
ghost use Rattle.reql_write_spec.specs.Treating.{field_in as field_in_of};

use crate::texts::type_text;
use reql_datum::{Datum, Fault, Fields};
use std::alloc::Global;

/// The members of an object; a LITERAL is none.
#[tactic(auto, using(reql_datum::proofs::Back::back))]
pub(crate) fn members_in(document: &Datum) -> Option<&Fields>
    ensures { option_map (λ fields. fields.now) result ≡ object_in (plain document.now) }
{
    match document {
        Datum::Obj(fields) => {
            if fields.is_literal() {
                return None;
            }
            Some(fields)
        }
        _ => None,
    }
}

/// The value of a field of an object.
pub(crate) fn field_in<'a>(field: &str, document: &'a Datum) -> Option<&'a Datum>
    ensures { option_map (λ d. plain d.now) result ≡ field_in_of field.now (plain document.now) }
{
    match members_in(document) {
        Some(fields) => fields.get(field),
        None => None,
    }
}

/// Whether a document is null.
pub(crate) fn is_null(document: &Datum) -> bool
    ensures { result ≡ is_null_of (plain document.now) }
{
    match document {
        Datum::Null => true,
        _ => false,
    }
}

/// The members, where an object is wanted.
pub(crate) fn as_object(alloc: Global, document: &Datum) -> Result<&Fields, Fault>
    ensures { Gives (λ fields. fields.now) result (as_object_of (plain document.now)) }
{
    match members_in(document) {
        Some(fields) => Ok(fields),
        None => {
            if is_null(document) {
                return Err(Fault::NonExistence(type_text(alloc, "OBJECT", "NULL")?));
            }
            Err(Fault::QueryLogic(type_text(alloc, "OBJECT", document.type_name())?))
        }
    }
}
