// A new document beside the one that is there at its key.
ghost use Rattle.std.specs.Prelude.{◌≡◌, IfOk, option_map};
ghost use Rattle.reql_datum.specs.Outcome.{Gives};
ghost use Rattle.reql_datum.specs.View.{plain};
ghost use Rattle.reql_rules.specs.Patterns.{holds};
ghost use Rattle.reql_rules.specs.Types.{same};
ghost use Rattle.reql_write_spec.specs.Treating.{field_in as field_in_of, standing as standing_of, storing as storing_of, keeping_stored as keeping_stored_of};
ghost use Rattle.reql_write.specs.Seen.{seen};

use crate::members::field_in;
use crate::texts::{key_changed, unshowable};
use crate::treated::Treated;
use reql_datum::{Datum, Fault, Memory, Name};
use reql_operand::is_same;
use std::alloc::Global;

// A new document is inserted, takes the place of another, or is the one that is there.
fn standing(key: &Datum, new: Datum, old: Option<&Datum>) -> Result<Treated, Memory>
    ensures { IfOk result (λ t. seen t ≡ standing_of (plain key.now) (plain new)
        (option_map (λ d. plain d.now) old.entry)) }
{
    let key = key.copy()?;
    match old {
        None => Ok(Treated::Inserted { key, new }),
        Some(old) => {
            let old = old.copy()?;
            if is_same(&old, &new) {
                return Ok(Treated::Unchanged(old));
            }
            Ok(Treated::Replaced { key, old, new })
        }
    }
}

// The same where the new document may be stored.
fn storing(alloc: Global, key: &Datum, new: Datum, old: Option<&Datum>) -> Result<Treated, Fault>
    ensures { Gives seen result (storing_of (plain key.now)
        (option_map (λ d. plain d.now) old.entry) (plain new)) }
{
    if new.is_storable() {
        return Ok(standing(key, new, old)?);
    }
    Err(Fault::QueryLogic(unshowable(alloc)?))
}

// Whether a document has this key.
fn has_key(field: &str, key: &Datum, document: &Datum) -> bool
    ensures { result ≡ holds (same (plain key.now)) (field_in_of field.now (plain document.now)) }
{
    match field_in(field, document) {
        Some(held) => is_same(key, held),
        None => false,
    }
}

/// A new document at a key, beside the one that is there. It has to have this key and may have to be
/// stored: an error that counts else.
pub(crate) fn keeping_stored(
    alloc: Global,
    field: &Name,
    key: &Datum,
    new: Datum,
    old: Option<&Datum>,
) -> Result<Treated, Fault>
    ensures { Gives seen result (keeping_stored_of field.now (plain key.now)
        (option_map (λ d. plain d.now) old.entry) (plain new)) }
{
    if has_key(field.as_str(), key, &new) {
        return storing(alloc, key, new, old);
    }
    Err(Fault::QueryLogic(key_changed(alloc, field.as_str())?))
}
