// Texts in quotes.
ghost use Rattle.std.specs.Prelude.{◌≡◌, ◌+◌, ◌<◌, ◌≤◌, ◌∷◌, [], ◌++◌, length, vec_len, vec_capacity, IfOk, OnOk};
ghost use Rattle.json.specs.Print.{quoted, escape};
ghost use Rattle.serde_json.specs.Written.{comma_if};

use crate::plain::is_plain;
use json::Writer;
use std::alloc::AllocError;
use std::mem;

// How many bytes are put one by one.
const FEW: usize = 6;

// Bytes put into room that was taken before, with one call.
fn put_long(out: &mut Vec<u8>, bytes: &[u8])
    requires { vec_len out.old + length bytes.now ≤ vec_capacity out.old }
    ensures items { out.new.items ≡ out.old.items ++ bytes.now }
    ensures len { vec_len out.new ≡ vec_len out.old + length bytes.now }
    ensures room { vec_capacity out.old ≤ vec_capacity out.new }
{
    let Ok(()) = out.extend_from_slice(bytes) else {
        unreachable!()
    };
}

// A few bytes put one by one into room that was taken before, which costs less than a call.
fn put_few(out: &mut Vec<u8>, bytes: &[u8])
    requires { vec_len out.old + length bytes.now ≤ vec_capacity out.old }
    ensures items { out.new.items ≡ out.old.items ++ bytes.now }
    ensures len { vec_len out.new ≡ vec_len out.old + length bytes.now }
    ensures room { vec_capacity out.old ≤ vec_capacity out.new }
{
    for &byte in bytes {
        out.push_reserved(byte);
    }
}

fn put_bytes(out: &mut Vec<u8>, bytes: &[u8])
    requires { vec_len out.old + length bytes.now ≤ vec_capacity out.old }
    ensures items { out.new.items ≡ out.old.items ++ bytes.now }
    ensures len { vec_len out.new ≡ vec_len out.old + length bytes.now }
    ensures room { vec_capacity out.old ≤ vec_capacity out.new }
{
    if bytes.len() > FEW {
        put_long(out, bytes);
    } else {
        put_few(out, bytes);
    }
}

// A text that is its own spelling, in quotes, put into room that was taken before.
fn put_plain(out: &mut Vec<u8>, text: &[u8])
    requires plain { escape text.now ≡ text.now }
    requires room { vec_len out.old + length text.now + 2 ≤ vec_capacity out.old }
    ensures items { out.new.items ≡ out.old.items ++ quoted text.now }
    ensures len { vec_len out.new ≡ vec_len out.old + length text.now + 2 }
    ensures room { vec_capacity out.old ≤ vec_capacity out.new }
{
    out.push_reserved(b'"');
    put_bytes(out, text);
    out.push_reserved(b'"');
}

// A text after some bytes, by the kit's writer.
fn escaped(bytes: Vec<u8>, text: &str) -> Result<Vec<u8>, AllocError>
    ensures { IfOk result (λ b. b.items ≡ bytes.items ++ quoted text.now) }
{
    let mut out = Writer::new(bytes);
    out.string(text)?;
    Ok(out.into_inner())
}

fn write_escaped(out: &mut Vec<u8>, text: &str) -> Result<(), AllocError>
    ensures { OnOk result (out.new.items ≡ out.old.items ++ quoted text.now) }
{
    let alloc = *out.allocator();
    let held = mem::replace(out, Vec::new(alloc));
    *out = escaped(held, text)?;
    Ok(())
}

/// Appends a text in quotes.
pub fn write_text(out: &mut Vec<u8>, text: &str) -> Result<(), AllocError>
    ensures { OnOk result (out.new.items ≡ out.old.items ++ quoted text.now) }
{
    if !is_plain(text.as_bytes()) {
        return Ok(write_escaped(out, text)?);
    }
    out.reserve(text.len() + 2)?;
    put_plain(out, text.as_bytes());
    Ok(())
}

/// Appends a comma, where a value stands before.
pub fn write_comma(out: &mut Vec<u8>, later: bool) -> Result<(), AllocError>
    ensures { OnOk result (out.new.items ≡ out.old.items ++ comma_if later) }
{
    if !later {
        return Ok(());
    }
    Ok(out.push(b',')?)
}

// A comma put into room that was taken before, where a value stands before it.
fn put_comma(out: &mut Vec<u8>, later: bool)
    requires { vec_len out.old < vec_capacity out.old }
    ensures items { out.new.items ≡ out.old.items ++ comma_if later }
    ensures len { vec_len out.new ≤ vec_len out.old + 1 }
    ensures room { vec_capacity out.old ≤ vec_capacity out.new }
{
    if later {
        out.push_reserved(b',');
    }
}

fn escaped_name(out: &mut Vec<u8>, later: bool, name: &str) -> Result<(), AllocError>
    ensures { OnOk result (out.new.items
        ≡ out.old.items ++ (comma_if later ++ (quoted name.now ++ 58 ∷ []))) }
{
    write_comma(out, later)?;
    write_escaped(out, name)?;
    Ok(out.push(b':')?)
}

// The name of a member with its colon, and a comma before it where another stands there.
pub(crate) fn write_name(out: &mut Vec<u8>, later: bool, name: &str) -> Result<(), AllocError>
    ensures { OnOk result (out.new.items
        ≡ out.old.items ++ (comma_if later ++ (quoted name.now ++ 58 ∷ []))) }
{
    if !is_plain(name.as_bytes()) {
        return Ok(escaped_name(out, later, name)?);
    }
    out.reserve(name.len() + 4)?;
    put_comma(out, later);
    put_plain(out, name.as_bytes());
    out.push_reserved(b':');
    Ok(())
}
