// Names, numbers and texts of chained text, as JSON has them.
ghost use Rattle.std.specs.Prelude.{◌≡◌, ◌≤◌, ◌++◌, length, OnOk};
ghost use Rattle.reql_chain.specs.Spelling.{option_byte, option_name};

use crate::fault::{Fault, What};
use crate::token::Token;
use std::alloc::AllocError;

fn put_option_byte(out: &mut Vec<u8>, byte: u8) -> Result<(), AllocError>
    ensures { OnOk result (out.new.items ≡ out.old.items ++ option_byte byte) }
{
    if byte.is_ascii_uppercase() {
        out.push(b'_')?;
        out.push(byte.to_ascii_lowercase())?;
    } else {
        out.push(byte.to_ascii_lowercase())?;
    }
    Ok(())
}

/// A name in the words of options: `returnChanges` is `return_changes`.
pub(crate) fn put_option_name(out: &mut Vec<u8>, name: &[u8]) -> Result<(), AllocError>
    ensures { OnOk result (out.new.items ≡ out.old.items ++ option_name name.now) }
{
    for byte in name {
        put_option_byte(out, *byte)?;
    }
    Ok(())
}

fn digits_len(bytes: &[u8]) -> usize
    ensures { result ≤ length bytes.now }
{
    bytes
        .iter()
        .take_while(|byte| byte.is_ascii_digit())
        .count()
}

fn without_sign(bytes: &[u8]) -> &[u8] {
    match bytes.split_first() {
        Some((b'-', rest)) => rest,
        _ => bytes,
    }
}

// What follows the digits before the point of a number, where there are such.
fn behind_whole(bytes: &[u8]) -> Option<&[u8]> {
    let len = digits_len(bytes);
    if len == 0 || len > 1 && bytes.starts_with(b"0") {
        return None;
    }
    Some(&bytes[len..])
}

// What follows a fraction, where there is none or a right one.
fn behind_fraction(bytes: &[u8]) -> Option<&[u8]> {
    let Some((b'.', rest)) = bytes.split_first() else {
        return Some(bytes);
    };
    let len = digits_len(rest);
    if len == 0 {
        return None;
    }
    Some(&rest[len..])
}

fn without_any_sign(bytes: &[u8]) -> &[u8] {
    match bytes.split_first() {
        Some((b'+' | b'-', rest)) => rest,
        _ => bytes,
    }
}

// Whether this is an exponent, or nothing.
fn is_exponent(bytes: &[u8]) -> bool {
    let Some((first, rest)) = bytes.split_first() else {
        return true;
    };
    let digits = without_any_sign(rest);
    (*first == b'e' || *first == b'E') && !digits.is_empty() && digits_len(digits) == digits.len()
}

fn is_number(bytes: &[u8]) -> bool {
    let Some(rest) = behind_whole(without_sign(bytes)) else {
        return false;
    };
    match behind_fraction(rest) {
        Some(rest) => is_exponent(rest),
        None => false,
    }
}

/// A number, as it is written.
pub(crate) fn put_number(out: &mut Vec<u8>, number: Token<'_>) -> Result<(), Fault> {
    if !is_number(number.text) {
        return Err(number.wrong(What::Number));
    }
    out.extend_from_slice(number.text)?;
    Ok(())
}

// Where a walk through a text stands.
#[derive(Clone, Copy, PartialEq, Eq)]
enum Place {
    Plain,
    /// Behind a backslash.
    Escape,
    /// Within the digits of `\u`, of which so many are left.
    Hex(u8),
}

// What a character of a text that stands there makes of the place, or none where it can't stand there.
fn behind(place: Place, byte: u8) -> Option<Place> {
    match place {
        Place::Plain => behind_plain(byte),
        Place::Escape => behind_escape(byte),
        Place::Hex(left) => behind_hex(left, byte),
    }
}

fn behind_plain(byte: u8) -> Option<Place> {
    if byte == b'\\' {
        return Some(Place::Escape);
    }
    if byte < 0x20 {
        None
    } else {
        Some(Place::Plain)
    }
}

fn behind_escape(byte: u8) -> Option<Place> {
    match byte {
        b'u' => Some(Place::Hex(4)),
        b'\'' | b'"' | b'\\' | b'/' | b'b' | b'f' | b'n' | b'r' | b't' => Some(Place::Plain),
        _ => None,
    }
}

fn behind_hex(left: u8, byte: u8) -> Option<Place> {
    if !byte.is_ascii_hexdigit() {
        return None;
    }
    if left > 1 {
        Some(Place::Hex(left - 1))
    } else {
        Some(Place::Plain)
    }
}

// A character of a text that stands there, as JSON has it.
fn put_character(out: &mut Vec<u8>, place: Place, byte: u8) -> Result<(), AllocError> {
    match (place, byte) {
        // (it is written with what it escapes)
        (Place::Plain, b'\\') => Ok(()),
        (Place::Plain, b'"') => put_both(out, b'"'),
        (Place::Escape, b'\'') => put_one(out, b'\''),
        (Place::Escape, byte) => put_both(out, byte),
        (_, byte) => put_one(out, byte),
    }
}

fn put_one(out: &mut Vec<u8>, byte: u8) -> Result<(), AllocError> {
    out.push(byte)?;
    Ok(())
}

fn put_both(out: &mut Vec<u8>, byte: u8) -> Result<(), AllocError> {
    out.push(b'\\')?;
    out.push(byte)?;
    Ok(())
}

/// A text, which stands in quotes of either kind.
pub(crate) fn put_text(out: &mut Vec<u8>, text: Token<'_>) -> Result<(), Fault> {
    out.push(b'"')?;
    let mut place = Place::Plain;
    for byte in inside(text.text) {
        let Some(next) = behind(place, *byte) else {
            return Err(text.wrong(What::Text));
        };
        put_character(out, place, *byte)?;
        place = next;
    }
    if place != Place::Plain {
        return Err(text.wrong(What::Text));
    }
    out.push(b'"')?;
    Ok(())
}

// What stands between the quotes.
fn inside(text: &[u8]) -> &[u8] {
    match text {
        [_, inside @ .., _] => inside,
        _ => text,
    }
}

/// A name as a text.
pub(crate) fn put_name(out: &mut Vec<u8>, name: &[u8]) -> Result<(), AllocError> {
    out.push(b'"')?;
    out.extend_from_slice(name)?;
    out.push(b'"')?;
    Ok(())
}
