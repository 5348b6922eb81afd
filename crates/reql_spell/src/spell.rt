// A document appended as its JSON value, with no value made for it.
ghost use Rattle.std.specs.Prelude.{◌≡◌, ◌++◌, option_map, OnOk, false};
ghost use Rattle.serde_json.specs.Data.{boolean};
ghost use Rattle.serde_json.specs.Written.{compact_text, items_text, members_text};
ghost use Rattle.base64.specs.Engines.{standard};
ghost use Rattle.base64.specs.GeneralPurpose.{encode_of};
ghost use Rattle.reql_datum.specs.Plain.{items_of, pairs_of};
ghost use Rattle.reql_datum.specs.View.{plain};
ghost use Rattle.reql_json.specs.Literal.{binary_shown, time_shown};
ghost use Rattle.reql_json.specs.Showing.{Shows, value, shown, items_shown, members_shown};

use crate::numbers::write_integer;
use crate::texts::{write_comma, write_name, write_text};
use base64::encoded_len;
use base64::engine::general_purpose::STANDARD;
use reql_datum::{Datum, Fields, Items, Moment};
use reql_json::{ShowFault, ZoneText};
use std::alloc::{AllocError, Global};

// The bytes that are taken for a document at first.
const FIRST_BYTES: usize = 128;

/// The text of a document's JSON value, as `text` of `to_value` gives it, in one walk and with no
/// value made for it. Unshowable exactly where MINVAL, MAXVAL or a LITERAL stands in it.
pub fn document_text(alloc: Global, d: &Datum) -> Result<Vec<u8>, ShowFault>
    ensures { Shows (λ b. b.items) result (option_map compact_text (value (plain d.now))) }
{
    if !d.is_storable() {
        return Err(ShowFault::Unshowable);
    }
    let mut out = Vec::with_capacity(alloc, FIRST_BYTES)?;
    write_document(&mut out, d)?;
    Ok(out)
}

/// Appends the text of a document as it is shown, whatever stands in it: null stands for MINVAL and
/// MAXVAL, and a LITERAL is the object that it is.
#[cycle(write)]
pub fn write_document(out: &mut Vec<u8>, d: &Datum) -> Result<(), AllocError>
    ensures { OnOk result (out.new.items ≡ out.old.items ++ compact_text (shown (plain d.now))) }
{
    match d {
        Datum::Low => Ok(out.extend_from_slice(b"null")?),
        Datum::High => Ok(out.extend_from_slice(b"null")?),
        Datum::Null => Ok(out.extend_from_slice(b"null")?),
        Datum::Bool(b) => Ok(write_bool(out, *b)?),
        Datum::Num(n) => Ok(write_integer(out, n.get())?),
        Datum::Text(text) => Ok(write_text(out, text.as_str())?),
        Datum::Binary(blob) => Ok(write_binary(out, blob.as_bytes())?),
        Datum::Time(moment) => Ok(write_time(out, *moment)?),
        Datum::List(items) => {
            out.push(b'[')?;
            Ok(write_items(out, items)?)
        }
        Datum::Obj(fields) => {
            out.push(b'{')?;
            Ok(write_members(out, fields)?)
        }
    }
}

// The items of a list, and its closing bracket.
#[cycle(write)]
#[tactic(auto, using(reql_datum::proofs::Walks::walks))]
fn write_items(out: &mut Vec<u8>, items: &Items) -> Result<(), AllocError>
    ensures { OnOk result (out.new.items
        ≡ out.old.items ++ items_text false (items_shown (items_of items.now))) }
{
    let mut place = 0;
    while let Some(item) = items.at(place) {
        write_comma(out, place > 0)?;
        write_document(out, item)?;
        place += 1;
    }
    Ok(out.push(b']')?)
}

// The members of an object, and its closing bracket.
#[cycle(write)]
#[tactic(auto, using(reql_datum::proofs::Walks::walks))]
fn write_members(out: &mut Vec<u8>, fields: &Fields) -> Result<(), AllocError>
    ensures { OnOk result (out.new.items
        ≡ out.old.items ++ members_text false (members_shown (pairs_of fields.now))) }
{
    let mut place = 0;
    while let Some((name, value)) = fields.at(place) {
        write_name(out, place > 0, name.as_str())?;
        write_document(out, value)?;
        place += 1;
    }
    Ok(out.push(b'}')?)
}

fn write_bool(out: &mut Vec<u8>, b: bool) -> Result<(), AllocError>
    ensures { OnOk result (out.new.items ≡ out.old.items ++ compact_text (boolean b)) }
{
    if b {
        return Ok(out.extend_from_slice(b"true")?);
    }
    Ok(out.extend_from_slice(b"false")?)
}

fn write_time(out: &mut Vec<u8>, moment: Moment) -> Result<(), AllocError>
    ensures { OnOk result (out.new.items ≡ out.old.items ++ compact_text (time_shown moment)) }
{
    out.extend_from_slice(b"{\"$reql_type$\":\"TIME\",\"epoch_time\":")?;
    write_integer(out, moment.at().get())?;
    out.extend_from_slice(b",\"timezone\":")?;
    write_text(out, ZoneText::of(moment.zone()).as_str())?;
    Ok(out.push(b'}')?)
}

fn write_binary(out: &mut Vec<u8>, bytes: &[u8]) -> Result<(), AllocError>
    ensures { OnOk result (out.new.items ≡ out.old.items ++ compact_text (binary_shown bytes.now)) }
{
    out.extend_from_slice(b"{\"$reql_type$\":\"BINARY\",\"data\":\"")?;
    append_encoded(out, bytes)?;
    Ok(out.extend_from_slice(b"\"}")?)
}

// Bytes in base64, which are encoded where they stand.
fn append_encoded(out: &mut Vec<u8>, bytes: &[u8]) -> Result<(), AllocError>
    ensures { OnOk result (out.new.items ≡ out.old.items ++ encode_of standard bytes.now) }
{
    let size = encoded_len(bytes.len(), true).ok_or(AllocError)?;
    let start = out.len();
    let end = start.checked_add(size).ok_or(AllocError)?;
    out.resize(end, 0)?;
    match STANDARD.encode_slice(bytes, &mut out.as_mut_slice()[start..]) {
        Ok(_) => Ok(()),
        Err(_) => unreachable!(),
    }
}
