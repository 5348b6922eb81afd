// UPDATE, REPLACE and DELETE of the document at a key.
ghost use Rattle.std.specs.Prelude.{◌≡◌, IfOk, option_map};
ghost use Rattle.reql_datum.specs.Outcome.{Gives};
ghost use Rattle.reql_datum.specs.View.{plain};
ghost use Rattle.reql_write_spec.specs.Treating.{given_by as given_by_of, updating as updating_of, without_doc as without_doc_of, replaced_by as replaced_by_of, replacing as replacing_of};
ghost use Rattle.reql_write.specs.Seen.{seen};
ghost use Rattle.reql_write.specs.Changing.{update_of, replace_of};

use crate::members::{as_object, is_null};
use crate::storing::keeping_stored;
use crate::treated::{Treated, or_failed};
use reql_datum::{Datum, Fault, Memory, Name};
use reql_eval::function_datum;
use reql_operand::{Purse, size_of};
use reql_path::merge;
use reql_table::Table;
use reql_term::Body;
use std::alloc::Global;
use std::slice;

// What a change gives of a document, or of null.
fn given_by(
    alloc: Global,
    change: &Body,
    old: Option<&Datum>,
    purse: &Purse,
) -> Result<Datum, Fault>
    ensures { Gives plain result (given_by_of change.now
        (option_map (λ d. plain d.now) old.entry)) }
{
    match old {
        Some(document) => {
            function_datum::<Table>(alloc, change.term(), slice::from_ref(document), purse)
        }
        None => function_datum::<Table>(alloc, change.term(), &[Datum::Null], purse),
    }
}

// The same, with what it costs to store it.
fn given_to_store(
    alloc: Global,
    change: &Body,
    old: Option<&Datum>,
    purse: &Purse,
) -> Result<Datum, Fault>
    ensures { Gives plain result (given_by_of change.now
        (option_map (λ d. plain d.now) old.entry)) }
{
    let given = given_by(alloc, change, old, purse)?;
    purse.spend(size_of(&given))?;
    Ok(given)
}

// A document merged with what a change gives of it.
fn updated(
    alloc: Global,
    field: &Name,
    change: &Body,
    key: &Datum,
    old: &Datum,
    purse: &Purse,
) -> Result<Treated, Fault>
    ensures { Gives seen result (update_of field.now change.now (plain key.now) (plain old.now)) }
{
    let given = given_to_store(alloc, change, Some(old), purse)?;
    let _members = as_object(alloc, &given)?;
    let new = merge(alloc, old, &given)?;
    keeping_stored(alloc, field, key, new, Some(old))
}

/// What an update makes of the document at a key.
pub(crate) fn update(
    alloc: Global,
    field: &Name,
    change: &Body,
    key: &Datum,
    old: Option<&Datum>,
    purse: &Purse,
) -> Result<Treated, Memory>
    ensures { IfOk result (λ t. seen t ≡ updating_of field.now change.now (plain key.now)
        (option_map (λ d. plain d.now) old.entry)) }
{
    match old {
        None => Ok(Treated::Skipped),
        Some(there) => {
            let found = updated(alloc, field, change, key, there, purse);
            or_failed(alloc, found, Some(there))
        }
    }
}

/// What a delete makes of the document at a key.
pub(crate) fn delete(key: &Datum, old: Option<&Datum>) -> Result<Treated, Memory>
    ensures { IfOk result (λ t. seen t ≡ without_doc_of (plain key.now)
        (option_map (λ d. plain d.now) old.entry)) }
{
    match old {
        None => Ok(Treated::Skipped),
        Some(there) => Ok(Treated::Deleted {
            key: key.copy()?,
            old: there.copy()?,
        }),
    }
}

// What stands in the place of a document, which null takes away.
#[tactic(auto, using(crate::proofs::Objects::replaced_object))]
fn replaced_by(
    alloc: Global,
    field: &Name,
    given: Datum,
    key: &Datum,
    old: Option<&Datum>,
) -> Result<Treated, Fault>
    ensures { Gives seen result (replaced_by_of field.now (plain key.now)
        (option_map (λ d. plain d.now) old.entry) (plain given)) }
{
    if is_null(&given) {
        return Ok(delete(key, old)?);
    }
    let _members = as_object(alloc, &given)?;
    keeping_stored(alloc, field, key, given, old)
}

// What a change puts in the place of a document.
fn replaced(
    alloc: Global,
    field: &Name,
    change: &Body,
    key: &Datum,
    old: Option<&Datum>,
    purse: &Purse,
) -> Result<Treated, Fault>
    ensures { Gives seen result (replace_of field.now change.now (plain key.now)
        (option_map (λ d. plain d.now) old.entry)) }
{
    let given = given_to_store(alloc, change, old, purse)?;
    replaced_by(alloc, field, given, key, old)
}

/// What a replace makes of the document at a key, or of none.
pub(crate) fn replace(
    alloc: Global,
    field: &Name,
    change: &Body,
    key: &Datum,
    old: Option<&Datum>,
    purse: &Purse,
) -> Result<Treated, Memory>
    ensures { IfOk result (λ t. seen t ≡ replacing_of field.now change.now (plain key.now)
        (option_map (λ d. plain d.now) old.entry)) }
{
    let found = replaced(alloc, field, change, key, old, purse);
    or_failed(alloc, found, old)
}
