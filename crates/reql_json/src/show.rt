// From a document to a JSON value, and to text.
ghost use Rattle.std.specs.Prelude.{◌≡◌, ◌≤◌, ◌&&◌, Some, Ok, true, false, IfOk, IsUtf8};
ghost use Rattle.json.specs.Print.{print};
ghost use Rattle.json.specs.Lex.{tokens};
ghost use Rattle.serde_json.specs.Data.{depth};
ghost use Rattle.serde_json.specs.Read.{read, max_depth};
ghost use Rattle.serde_json.specs.View.{view, items_view, members_view};
ghost use Rattle.serde_json.specs.Written.{has_float, compact_text, IsInOrder};
ghost use Rattle.reql_datum.specs.Kinds.{is_storable, are_storable, are_members_storable};
ghost use Rattle.reql_datum.specs.Plain.{items_of, pairs_of};
ghost use Rattle.reql_datum.specs.View.{plain};
ghost use Rattle.reql_datum.specs.Whole.{is_in};
ghost use Rattle.reql_datum.specs.Zone.{is_zone};
ghost use Rattle.reql_json.specs.Inverse.{in_range, all_in_range, pairs_in_range};
ghost use Rattle.reql_json.specs.Literal.{are_bytes, binary_shown, time_shown};
ghost use Rattle.reql_json.specs.Reading.{document};
ghost use Rattle.reql_json.specs.Showing.{Shows, value, shown, items_shown, members_shown};

use crate::fault::ShowFault;
use crate::zone::ZoneText;
use base64::engine::general_purpose::STANDARD;
use reql_datum::{Datum, Fields, Items, Memory, Moment};
use serde_json::{Map, Value, json};
use std::alloc::{AllocError, Global};

/// The JSON value of a document, which is Unshowable exactly where MINVAL, MAXVAL or a LITERAL
/// stands in it.
///
/// It holds no float, so its text is known, and it reads back as the document.
#[tactic(auto, using(crate::proofs::Back::shown_back))]
pub fn to_value(alloc: Global, d: &Datum) -> Result<Value, ShowFault>
    ensures value { Shows view result (value (plain d.now)) }
    ensures no_float { IfOk result (λ v. has_float (view v) ≡ false) }
    ensures reads_back { IfOk result (λ v. document (view v) ≡ Ok (plain d.now)) }
{
    if !d.is_storable() {
        return Err(ShowFault::Unshowable);
    }
    Ok(value_of(alloc, d)?)
}

#[cycle(value)]
fn value_of(alloc: Global, d: &Datum) -> Result<Value, AllocError>
    requires { is_storable (plain d.now) ≡ true }
    ensures value { IfOk result (λ v. view v ≡ shown (plain d.now)) }
    ensures in_range { IfOk result (λ _. in_range (plain d.now) ≡ true) }
{
    match d {
        Datum::Null => Ok(Value::Null),
        Datum::Bool(b) => Ok(Value::Bool(*b)),
        Datum::Num(n) => Ok(Value::from(n.get())),
        Datum::Text(text) => Ok(Value::String(String::from_str(alloc, text.as_str())?)),
        Datum::Binary(blob) => binary_value(alloc, blob.as_bytes()),
        Datum::Time(moment) => time_value(alloc, *moment),
        Datum::List(items) => Ok(Value::Array(array(alloc, items)?)),
        Datum::Obj(fields) => Ok(Value::Object(map(alloc, fields)?)),
        Datum::Low | Datum::High => unreachable!(),
    }
}

fn binary_value(alloc: Global, bytes: &[u8]) -> Result<Value, AllocError>
    ensures value { IfOk result (λ v. view v ≡ binary_shown bytes.now) }
    ensures in_range { IfOk result (λ _. are_bytes bytes.now ≡ true) }
{
    let data = Value::String(STANDARD.encode(alloc, bytes)?);
    json!(in alloc; {"$reql_type$": "BINARY", "data": data})
}

fn time_value(alloc: Global, moment: Moment) -> Result<Value, AllocError>
    ensures value { IfOk result (λ v. view v ≡ time_shown moment) }
    ensures in_range { IfOk result (λ _. (is_in moment.0 && is_zone moment.1) ≡ true) }
{
    let zone = ZoneText::of(moment.zone());
    json!(in alloc; {
        "$reql_type$": "TIME",
        "epoch_time": moment.at().get(),
        "timezone": zone.as_str(),
    })
}

#[cycle(value)]
#[tactic(auto, using(reql_datum::proofs::Walks::walks))]
fn array(alloc: Global, items: &Items) -> Result<Vec<Value>, AllocError>
    requires { are_storable (items_of items.now) ≡ true }
    ensures value { IfOk result (λ vs. items_view vs.items ≡ items_shown (items_of items.now)) }
    ensures in_range { IfOk result (λ _. all_in_range (items_of items.now) ≡ true) }
{
    let mut out = Vec::new(alloc);
    let mut place = 0;
    while let Some(item) = items.at(place) {
        let value = value_of(alloc, item)?;
        out.push(value)?;
        place += 1;
    }
    Ok(out)
}

#[cycle(value)]
#[tactic(auto, using(reql_datum::proofs::Walks::walks))]
fn map(alloc: Global, fields: &Fields) -> Result<Map<String, Value>, AllocError>
    requires { are_members_storable (pairs_of fields.now) ≡ true }
    ensures value { IfOk result
        (λ m. members_view m.entries ≡ members_shown (pairs_of fields.now)) }
    ensures in_range { IfOk result (λ _. pairs_in_range (pairs_of fields.now) ≡ true) }
{
    let mut out = Map::new(alloc);
    let mut place = 0;
    while let Some((name, datum)) = fields.at(place) {
        let key = String::from_str(alloc, name.as_str())?;
        let value = value_of(alloc, datum)?;
        drop(out.insert(key, value)?);
        place += 1;
    }
    Ok(out)
}

/// The text of a JSON value with no space in it, its names in the order of their bytes.
pub fn text(alloc: Global, v: &Value) -> Result<Vec<u8>, Memory>
    ensures text { IfOk result
        (λ b. has_float (view v.now) ≡ false → b.items ≡ compact_text (view v.now)) }
    ensures compact { IfOk result (λ b. b.items ≡ print (tokens b.items)) }
    ensures utf8 { IfOk result (λ b. IsUtf8 b.items) }
    ensures in_order { IfOk result (λ b. IsInOrder b.items (view v.now)) }
    ensures reads_back { IfOk result
        (λ b. depth (view v.now) ≤ max_depth → read b.items ≡ Some (view v.now)) }
{
    Ok(v.to_vec(alloc)?)
}
