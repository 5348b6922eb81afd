// What became of a document that a write treated.
ghost use Rattle.std.specs.Prelude.{◌≡◌, IfOk, option_map};
ghost use Rattle.reql_datum.specs.Answer.{Answer};
ghost use Rattle.reql_datum.specs.Outcome.{Gives, Fails};
ghost use Rattle.reql_datum.specs.View.{plain};
ghost use Rattle.reql_write_spec.specs.Treated.{Treated as Meant, changes_of};
ghost use Rattle.reql_write_spec.specs.Treating.{or_failed as or_failed_of};
ghost use Rattle.reql_write_spec.specs.Write.{error_in};
ghost use Rattle.reql_table.specs.Edits.{told};
ghost use Rattle.reql_write.specs.Seen.{seen, change_list};
ghost use Rattle.reql_write.specs.Told.{Tells, Falls};

use reql_datum::{Datum, Fault, Memory, Name};
use reql_write_spec::Change;
use std::alloc::Global;

/// What became of a document that a write treated.
#[derive(Drop)]
pub(crate) enum Treated {
    Inserted { key: Datum, new: Datum },
    Replaced { key: Datum, old: Datum, new: Datum },
    Deleted { key: Datum, old: Datum },
    /// It is as it was.
    Unchanged(Datum),
    /// Nothing was there to treat.
    Skipped,
    /// It counts in errors with a text, beside the document that stays, if one is there.
    Failed { why: Name, old: Option<Datum> },
}

// A document that may be there, copied.
fn copy_of(document: Option<&Datum>) -> Result<Option<Datum>, Memory>
    ensures { IfOk result (λ d. option_map plain d ≡ option_map (λ d. plain d.now) document.entry) }
{
    match document {
        Some(document) => Ok(Some(document.copy()?)),
        None => Ok(None),
    }
}

/// The text of a fault. Want of memory has none.
pub(crate) fn text_of(alloc: Global, fault: Fault) -> Result<Name, Memory>
    ensures { IfOk result (Tells fault) }
{
    match fault {
        Fault::QueryLogic(text) => Ok(text),
        Fault::NonExistence(text) => Ok(text),
        Fault::ResourceLimit(text) => Ok(text),
        Fault::OpFailed(text) => Ok(text),
        Fault::User(text) => Ok(text),
        Fault::Empty => Name::of(alloc, ""),
        Fault::Memory => Err(Memory),
    }
}

/// An error by a fault, beside the document that stays.
pub(crate) fn failed(alloc: Global, fault: Fault, old: Option<&Datum>) -> Result<Treated, Memory>
    ensures { IfOk result (λ t. Falls fault (option_map (λ d. plain d.now) old.entry) (seen t)) }
{
    let old = copy_of(old)?;
    let why = text_of(alloc, fault)?;
    Ok(Treated::Failed { why, old })
}

/// What became of a document, or its error beside the document that stays.
#[tactic(auto, using(crate::proofs::Told::told_fails))]
pub(crate) fn or_failed(
    alloc: Global,
    found: Result<Treated, Fault>,
    old: Option<&Datum>,
) -> Result<Treated, Memory>
    ensures { (a : Answer Meant) → Gives seen found a → IfOk result (λ t. seen t
        ≡ or_failed_of (option_map (λ d. plain d.now) old.entry) a) }
{
    match found {
        Ok(treated) => Ok(treated),
        Err(fault) => failed(alloc, fault, old),
    }
}

impl Treated {
    /// The change of the table that it is, if it is one.
    pub(crate) fn change(&self) -> Result<Option<Change>, Memory>
        ensures { IfOk result (λ c. change_list (option_map told c) ≡ changes_of (seen self.now)) }
    {
        match self {
            Treated::Inserted { key, new } => Ok(Some(Change {
                key: key.copy()?,
                old: None,
                new: Some(new.copy()?),
            })),
            Treated::Replaced { key, old, new } => Ok(Some(Change {
                key: key.copy()?,
                old: Some(old.copy()?),
                new: Some(new.copy()?),
            })),
            Treated::Deleted { key, old } => Ok(Some(Change {
                key: key.copy()?,
                old: Some(old.copy()?),
                new: None,
            })),
            Treated::Unchanged(_) => Ok(None),
            Treated::Skipped => Ok(None),
            Treated::Failed { why: _, old: _ } => Ok(None),
        }
    }

    /// The text of an error.
    pub(crate) fn error(&self) -> Option<&Name>
        ensures { option_map (λ n. n.now) result ≡ error_in (seen self.now) }
    {
        match self {
            Treated::Failed { why, old: _ } => Some(why),
            _ => None,
        }
    }
}
