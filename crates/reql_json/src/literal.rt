// The objects with the reserved name that stand for bytes and times.
ghost use Rattle.std.specs.Prelude.{◌≡◌, ◌<◌, map, option_map, IfSome, Ok, false};
ghost use Rattle.serde_json.specs.Find.{as_integer, get_member};
ghost use Rattle.serde_json.specs.View.{view, number_view, members_view};
ghost use Rattle.reql_datum.specs.Kinds.{reserved};
ghost use Rattle.reql_datum.specs.View.{plain};
ghost use Rattle.reql_datum.specs.Zone.{IsZone};
ghost use Rattle.reql_json.specs.Literal.{whole, is_line_end, without_line_ends, decoded, bytes_in, two_digits, offset, zone_in, has_names, has_form, text_at, is_text, or_reserved, binary_in, time_in, literal};
ghost use Rattle.reql_json.specs.Reading.{Reads};

use crate::fault::JsonFault;
use base64::DecodeAllocError;
use base64::engine::general_purpose::STANDARD;
use reql_datum::{Blob, Datum, Moment, Whole};
use serde_json::{Map, Number, Value};
use std::alloc::Global;

/// The binary or the time that an object with the reserved name is.
///
/// Its names and its type are tested first, then the seconds of a time as any number, then the
/// rest.
pub(crate) fn literal(alloc: Global, members: &Map<String, Value>) -> Result<Datum, JsonFault>
    ensures { Reads plain result (literal (members_view members.now.entries)) }
{
    if has_form(members, "BINARY", &["$reql_type$", "data"]) {
        return binary_in(alloc, members);
    }
    if has_form(members, "TIME", &["$reql_type$", "epoch_time", "timezone"]) {
        return time_in(members);
    }
    Err(JsonFault::Reserved)
}

// ---- the parts of an object

fn member<'a>(members: &'a Map<String, Value>, name: &str) -> Option<&'a Value>
    ensures { option_map (λ v. view v.now) result
        ≡ get_member name.now (members_view members.now.entries) }
{
    members.get(name)
}

fn text_at<'a>(members: &'a Map<String, Value>, name: &str) -> Option<&'a str>
    ensures { option_map (λ s. s.now) result
        ≡ text_at name.now (members_view members.now.entries) }
{
    member(members, name)?.as_str()
}

fn has_form(members: &Map<String, Value>, name: &str, names: &[&str]) -> bool
    ensures { result
        ≡ has_form name.now (map (λ n. n.now) names.now) (members_view members.now.entries) }
{
    has_names(members, names) && has_type(members, name)
}

fn has_type(members: &Map<String, Value>, name: &str) -> bool
    ensures { result
        ≡ is_text name.now (text_at reserved (members_view members.now.entries)) }
{
    match text_at(members, "$reql_type$") {
        Some(text) => name == text,
        None => false,
    }
}

// Whether its names are these, in order.
fn has_names(members: &Map<String, Value>, names: &[&str]) -> bool
    ensures { result
        ≡ has_names (map (λ n. n.now) names.now) (members_view members.now.entries) }
{
    let mut entries = members.iter();
    for name in names {
        let Some((key, _)) = entries.next() else {
            return false;
        };
        if *name != key.as_str() {
            return false;
        }
    }
    entries.next().is_none()
}

// ---- a binary

fn binary_in(alloc: Global, members: &Map<String, Value>) -> Result<Datum, JsonFault>
    ensures { Reads plain result (binary_in (members_view members.now.entries)) }
{
    let text = text_at(members, "data").ok_or(JsonFault::Reserved)?;
    Ok(Datum::Binary(bytes_in(alloc, text.as_bytes())?))
}

// Most texts have no line end, and are decoded where they lie.
fn bytes_in(alloc: Global, text: &[u8]) -> Result<Blob, JsonFault>
    ensures { Reads (λ b. b) result (or_reserved (bytes_in text.now)) }
{
    if has_line_end(text) {
        let kept = without_line_ends(alloc, text)?;
        return decoded(alloc, kept.as_slice());
    }
    decoded(alloc, text)
}

fn decoded(alloc: Global, text: &[u8]) -> Result<Blob, JsonFault>
    ensures { Reads (λ b. b) result (or_reserved (decoded text.now)) }
{
    match STANDARD.decode(alloc, text) {
        Ok(bytes) => Ok(Blob::of(alloc, bytes.as_slice())?),
        Err(DecodeAllocError::DecodeError(_)) => Err(JsonFault::Reserved),
        Err(DecodeAllocError::OutOfMemory) => Err(JsonFault::Memory),
    }
}

fn is_line_end(byte: u8) -> bool
    ensures { result ≡ is_line_end byte }
{
    byte == b'\n' || byte == b'\r'
}

fn has_line_end(text: &[u8]) -> bool
    ensures { result ≡ false → without_line_ends text.now ≡ text.now }
{
    for byte in text {
        if is_line_end(*byte) {
            return true;
        }
    }
    false
}

fn without_line_ends(alloc: Global, text: &[u8]) -> Result<Vec<u8>, JsonFault>
    ensures { Reads (λ kept. kept.items) result (Ok (without_line_ends text.now)) }
{
    let mut kept = Vec::with_capacity(alloc, text.len())?;
    for byte in text {
        if !is_line_end(*byte) {
            kept.push(*byte)?;
        }
    }
    Ok(kept)
}

// ---- a time

fn time_in(members: &Map<String, Value>) -> Result<Datum, JsonFault>
    ensures { Reads plain result (time_in (members_view members.now.entries)) }
{
    let number = member(members, "epoch_time").ok_or(JsonFault::Reserved)?;
    let number = number.as_number().ok_or(JsonFault::Reserved)?;
    let at = whole(number)?;
    let zone = text_at(members, "timezone").ok_or(JsonFault::Reserved)?;
    let zone = zone_in(zone).ok_or(JsonFault::Reserved)?;
    let time = Moment::of(at, zone).ok_or(JsonFault::Reserved)?;
    Ok(Datum::Time(time))
}

/// A number of a document, if it is held as a whole number and is in the range.
pub(crate) fn whole(n: &Number) -> Result<Whole, JsonFault>
    ensures { Reads (λ z. z) result (whole (as_integer (number_view n.now))) }
{
    let z = n.as_i128().ok_or(JsonFault::Fraction)?;
    let Ok(z) = i64::try_from(z) else {
        return Err(JsonFault::OverRange);
    };
    Whole::new(z).ok_or(JsonFault::OverRange)
}

// The minutes of a zone, as `+05:30`.
fn zone_in(text: &str) -> Option<i16>
    ensures value { result ≡ zone_in text.now }
    ensures in_range { IfSome result (λ z. IsZone z) }
{
    if text == "Z" {
        return Some(0);
    }
    offset(text.as_bytes())
}

fn offset(text: &[u8]) -> Option<i16>
    ensures value { result ≡ offset text.now }
    ensures in_range { IfSome result (λ z. IsZone z) }
{
    let [sign, a, b, b':', c, d] = text else {
        return None;
    };
    let hours = two_digits(24, *a, *b)?;
    let minutes = hours * 60 + two_digits(60, *c, *d)?;
    match *sign {
        b'+' => Some(minutes as i16),
        b'-' => Some(-(minutes as i16)),
        _ => None,
    }
}

fn two_digits(limit: u16, tens: u8, ones: u8) -> Option<u16>
    ensures value { result ≡ two_digits limit tens ones }
    ensures below { IfSome result (λ n. n < limit) }
{
    if !tens.is_ascii_digit() || !ones.is_ascii_digit() {
        return None;
    }
    let number = u16::from(tens - b'0') * 10 + u16::from(ones - b'0');
    if number < limit { Some(number) } else { None }
}
