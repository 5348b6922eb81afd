// From a JSON value to a document.
ghost use Rattle.std.specs.Prelude.{◌≡◌, is_some, IfOk};
ghost use Rattle.serde_json.specs.Data as json;
ghost use Rattle.serde_json.specs.Find.{get_member};
ghost use Rattle.serde_json.specs.View.{view, items_view, members_view};
ghost use Rattle.reql_datum.specs.View.{plain};
ghost use Rattle.reql_json.specs.Reading.{Reads, document, documents, reserved, members};

use crate::fault::JsonFault;
use crate::literal::{literal, whole};
use reql_datum::{Datum, Fields, Items, Memory, Name};
use serde_json::{Map, Value};
use std::alloc::Global;

/// The document that a JSON value stands for.
///
/// An object with the name `$reql_type$` is a binary, `{"$reql_type$":"BINARY","data":D}` with D in
/// base64 (RFC 4648, section 4; line ends in it are passed over), or a time,
/// `{"$reql_type$":"TIME","epoch_time":N,"timezone":Z}` with Z as `+HH:MM`, `-HH:MM` or `Z` (RFC
/// 3339, section 5.6), or it is refused.
///
/// The fault is the first in the order of reading: members by name, items in order. Documents that
/// follow one another in a list share the names and texts that are equal at like places.
pub fn from_value(alloc: Global, v: &Value) -> Result<Datum, JsonFault>
    ensures { Reads plain result (document (view v.now)) }
{
    read(alloc, v, None)
}

/// The document that an object with these members stands for, as `from_value` reads it.
pub fn from_members(alloc: Global, members: &Map<String, Value>) -> Result<Datum, JsonFault>
    ensures { Reads plain result (document (json.object (members_view members.now.entries))) }
{
    keyed(alloc, members, None)
}

/// Whether an object has the name `$reql_type$`, found in one look-up.
pub fn has_reserved(held: &Map<String, Value>) -> bool
    ensures { result ≡ is_some (get_member reserved (members_view held.now.entries)) }
{
    held.contains_key("$reql_type$")
}

// `like` is a document that was read before and may have the same names and texts.
#[cycle(document)]
fn read(alloc: Global, v: &Value, like: Option<&Datum>) -> Result<Datum, JsonFault>
    ensures { Reads plain result (document (view v.now)) }
{
    match v {
        Value::Null => Ok(Datum::Null),
        Value::Bool(b) => Ok(Datum::Bool(*b)),
        Value::Number(n) => Ok(Datum::Num(whole(n)?)),
        Value::String(text) => Ok(Datum::Text(name_of(alloc, text.as_str(), text_like(like))?)),
        Value::Array(items) => Ok(Datum::List(list(alloc, items, like)?)),
        Value::Object(members) => keyed(alloc, members, like),
    }
}

#[cycle(document)]
fn keyed(alloc: Global, held: &Map<String, Value>, like: Option<&Datum>) -> Result<Datum, JsonFault>
    ensures { Reads plain result (document (json.object (members_view held.now.entries))) }
{
    if has_reserved(held) {
        return literal(alloc, held);
    }
    Ok(Datum::Obj(object(alloc, held, like)?))
}

fn text_like(like: Option<&Datum>) -> Option<&Name> {
    match like {
        Some(Datum::Text(text)) => Some(text),
        _ => None,
    }
}

fn item_like(like: Option<&Datum>, place: usize) -> Option<&Datum> {
    match like {
        Some(Datum::List(items)) => items.at(place),
        _ => None,
    }
}

#[cycle(document)]
fn list(alloc: Global, items: &Vec<Value>, like: Option<&Datum>) -> Result<Items, JsonFault>
    ensures { Reads (λ vs. vs) result (documents (items_view items.now.items)) }
{
    let mut out = Items::with_room(alloc, items.len())?;
    for item in items {
        let known = item_like(like, out.len()).or(out.as_slice().last());
        let datum = read(alloc, item, known)?;
        out.push(datum)?;
    }
    Ok(out)
}

fn member_like(like: Option<&Datum>, place: usize) -> (Option<&Name>, Option<&Datum>) {
    if let Some(Datum::Obj(fields)) = like {
        if let Some((name, value)) = fields.at(place) {
            return (Some(name), Some(value));
        }
    }
    (None, None)
}

// The text that is known, if it is this one.
fn name_of(alloc: Global, key: &str, known: Option<&Name>) -> Result<Name, Memory>
    ensures { IfOk result (λ n. n ≡ key.now) }
{
    if let Some(name) = known {
        if name.as_str() == key {
            return name.copy();
        }
    }
    Name::of(alloc, key)
}

#[cycle(document)]
fn object(
    alloc: Global,
    held: &Map<String, Value>,
    like: Option<&Datum>,
) -> Result<Fields, JsonFault>
    ensures { Reads (λ ms. ms) result (members (members_view held.now.entries)) }
{
    let mut out = Fields::with_room(alloc, held.len())?;
    for (key, member) in held.iter() {
        let (known, value) = member_like(like, out.len());
        let name = name_of(alloc, key.as_str(), known)?;
        let datum = read(alloc, member, value)?;
        drop(out.put(name, datum)?);
    }
    Ok(out)
}
