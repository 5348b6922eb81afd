// ZIP.
ghost use Rattle.std.specs.Prelude.{◌≡◌, Ok, Err, IfOk, map, codes, option_map};
ghost use Rattle.reql_datum.specs.Outcome.{Gives};
ghost use Rattle.reql_datum.specs.View.{plain};
ghost use Rattle.reql_rules.specs.Faults.{type_text};
ghost use Rattle.reql_rules.specs.Joining.{zip_all, zip_one};
ghost use Rattle.reql_rules.specs.Types.{mismatch, object_in};
ghost use Rattle.reql_group.specs.Zipped.{zip_members};

use reql_datum::{Datum, Fault, Fields, Items, Memory, Name};
use reql_path::merge;
use std::alloc::Global;

/// ZIP: the left side of each element merged with its right side, or alone where it has none. It
/// undoes a join. The fault where an element is no object or has no left side.
pub fn zip(alloc: Global, list: &Items) -> Result<Items, Fault>
    ensures { Gives (λ items. items) result (zip_all list.now) }
{
    zip_each(alloc, list.as_slice())
}

fn zip_each(alloc: Global, list: &[Datum]) -> Result<Items, Fault>
    ensures { Gives (λ items. items) result (zip_all (map plain list.now)) }
{
    let mut zipped = Items::with_room(alloc, list.len())?;
    for item in list {
        zipped.push(zip_one(alloc, item)?)?;
    }
    Ok(zipped)
}

fn zip_one(alloc: Global, item: &Datum) -> Result<Datum, Fault>
    ensures { Gives plain result (zip_one (plain item.now)) }
{
    match object_in(item) {
        Some(fields) => zip_fields(alloc, fields),
        None => no_object(alloc, item),
    }
}

fn zip_fields(alloc: Global, fields: &Fields) -> Result<Datum, Fault>
    ensures { Gives plain result (zip_members fields.now) }
{
    let Some(left) = fields.get("left") else {
        let text = Name::of(alloc, "No attribute `left` in object.")?;
        return Err(Fault::NonExistence(text));
    };
    match fields.get("right") {
        Some(right) => Ok(merge(alloc, left, right)?),
        None => Ok(left.copy()?),
    }
}

// An object that is no LITERAL.
#[tactic(auto, using(reql_datum::proofs::Back::back))]
fn object_in(item: &Datum) -> Option<&Fields>
    ensures { option_map (λ fields. fields.now) result ≡ object_in (plain item.now) }
{
    let Datum::Obj(fields) = item else {
        return None;
    };
    if fields.is_literal() {
        return None;
    }
    Some(fields)
}

fn no_object(alloc: Global, item: &Datum) -> Result<Datum, Fault>
    ensures { Gives plain result (Err (mismatch (codes "OBJECT") (plain item.now))) }
{
    let text = type_text(alloc, item.type_name())?;
    match item {
        Datum::Null => Err(Fault::NonExistence(text)),
        _ => Err(Fault::QueryLogic(text)),
    }
}

fn type_text(alloc: Global, found: &str) -> Result<Name, Memory>
    ensures { IfOk result (λ r. r ≡ type_text (codes "OBJECT") found.now) }
{
    let text = format!(in alloc; "Expected type OBJECT but found {}.", found)?;
    Name::of(alloc, text.as_str())
}
