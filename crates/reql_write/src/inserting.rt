// INSERT of a document.
ghost use Rattle.std.specs.Prelude.{◌≡◌, IfOk, option_map};
ghost use Rattle.reql_datum.specs.Outcome.{Gives};
ghost use Rattle.reql_datum.specs.View.{plain};
ghost use Rattle.reql_write_spec.specs.Treating.{meeting as meeting_of, met as met_of, key_of as key_of_of, inserting as inserting_of};
ghost use Rattle.reql_write.specs.Seen.{seen};

use crate::members::field_in;
use crate::storing::keeping_stored;
use crate::texts::duplicate;
use crate::treated::{Treated, failed, or_failed};
use reql_datum::{Datum, Fault, Memory, Name};
use reql_operand::{Purse, misplaced, not_a_key, size_of};
use reql_path::merge;
use reql_ptree::{Steps, Tree};
use reql_write_spec::Conflict;
use std::alloc::Global;

// The primary key of a document.
fn key_of<'a>(alloc: Global, field: &Name, document: &'a Datum) -> Result<&'a Datum, Fault>
    ensures { Gives (λ d. plain d.now) result (key_of_of field.now (plain document.now)) }
{
    match field_in(field.as_str(), document) {
        None => Err(Fault::QueryLogic(misplaced(alloc)?)),
        Some(key) => {
            if key.is_key() {
                return Ok(key);
            }
            Err(Fault::QueryLogic(not_a_key(alloc, key.type_name())?))
        }
    }
}

// A document where its key is absent, or meets another.
fn meeting(
    alloc: Global,
    field: &Name,
    conflict: Conflict,
    key: &Datum,
    document: &Datum,
    old: Option<&Datum>,
) -> Result<Treated, Fault>
    ensures { Gives seen result (meeting_of field.now conflict (plain key.now) (plain document.now)
        (option_map (λ d. plain d.now) old.entry)) }
{
    match old {
        None => keeping_stored(alloc, field, key, document.copy()?, None),
        Some(there) => match conflict {
            Conflict::Error => Err(Fault::QueryLogic(duplicate(alloc, field.as_str())?)),
            Conflict::Replace => {
                keeping_stored(alloc, field, key, document.copy()?, Some(there))
            }
            Conflict::Update => {
                let new = merge(alloc, there, document)?;
                keeping_stored(alloc, field, key, new, Some(there))
            }
        },
    }
}

// The same at its key.
fn met(
    alloc: Global,
    field: &Name,
    conflict: Conflict,
    key: &Datum,
    document: &Datum,
    old: Option<&Datum>,
) -> Result<Treated, Memory>
    ensures { IfOk result (λ t. seen t ≡ met_of field.now conflict (plain document.now)
        (plain key.now) (option_map (λ d. plain d.now) old.entry)) }
{
    let found = meeting(alloc, field, conflict, key, document, old);
    or_failed(alloc, found, old)
}

/// What becomes of a document that is inserted among documents.
#[tactic(auto, using(crate::proofs::Told::told_insert))]
pub(crate) fn insert(
    alloc: Global,
    field: &Name,
    conflict: Conflict,
    document: &Datum,
    documents: &Tree,
    purse: &Purse,
) -> Result<Treated, Memory>
    ensures { IfOk result (λ t. seen t ≡ inserting_of field.now conflict documents.now
        (plain document.now)) }
{
    purse.spend(size_of(document))?;
    match key_of(alloc, field, document) {
        Ok(key) => {
            let mut steps = Steps::start();
            let old = documents.get(key, &mut steps);
            met(alloc, field, conflict, key, document, old)
        }
        Err(fault) => failed(alloc, fault, None),
    }
}
