// Numbers, and what is written from the end of some room, as their digits are.
ghost use Rattle.std.specs.Prelude.{◌≡◌, ◌+◌, ◌≤◌, ◌∷◌, ◌++◌, length, drop, decimal, OnOk};
ghost use Rattle.std.specs.Fmt.{signed_decimal};
ghost use Rattle.serde_json.specs.Written.{comma_if};

use itoa::{Buffer, write_digits};
use std::alloc::AllocError;

// The bytes of the longest number and a comma, and more.
const NUMBER_BYTES: usize = 24;

/// Puts a byte before what stands from `end` on, and returns its place.
pub fn put_byte(text: &mut [u8], end: usize, byte: u8) -> usize
    requires { (1 ≤ end) × (end ≤ length text.old) }
    ensures start { result + 1 ≡ end }
    ensures written { drop result text.new ≡ byte ∷ drop end text.old }
{
    text[end - 1] = byte;
    end - 1
}

/// Appends what stands from `start` on.
pub fn append_from(out: &mut Vec<u8>, text: &[u8], start: usize) -> Result<(), AllocError>
    requires { start ≤ length text.now }
    ensures { OnOk result (out.new.items ≡ out.old.items ++ drop start text.now) }
{
    Ok(out.extend_from_slice(&text[start..])?)
}

/// Appends what stands from `start` on, with a comma before it where a value stands there.
pub fn append_item(
    out: &mut Vec<u8>,
    later: bool,
    text: &mut [u8],
    start: usize,
) -> Result<(), AllocError>
    requires { (1 ≤ start) × (start ≤ length text.old) }
    ensures { OnOk result (out.new.items ≡ out.old.items ++ (comma_if later ++ drop start text.old)) }
{
    if !later {
        return Ok(append_from(out, text, start)?);
    }
    let comma = put_byte(text, start, b',');
    Ok(append_from(out, text, comma)?)
}

/// Appends a number, with a comma before it where a value stands there.
pub fn write_number(out: &mut Vec<u8>, later: bool, n: u64) -> Result<(), AllocError>
    ensures { OnOk result (out.new.items ≡ out.old.items ++ (comma_if later ++ decimal n)) }
{
    let mut text = [0; NUMBER_BYTES];
    let start = write_digits(n, &mut text, NUMBER_BYTES);
    Ok(append_item(out, later, &mut text, start)?)
}

fn write_wide(out: &mut Vec<u8>, n: i64) -> Result<(), AllocError>
    ensures { OnOk result (out.new.items ≡ out.old.items ++ signed_decimal n) }
{
    let mut buffer = Buffer::new();
    Ok(out.extend_from_slice(buffer.format(n).as_bytes())?)
}

// A number that may be below 0.
#[tactic(auto, using(std::proofs::lemmas::Fmt::decimal_digit))]
pub(crate) fn write_integer(out: &mut Vec<u8>, n: i64) -> Result<(), AllocError>
    ensures { OnOk result (out.new.items ≡ out.old.items ++ signed_decimal n) }
{
    if n < 0 || n > 9 {
        return Ok(write_wide(out, n)?);
    }
    Ok(out.push(b'0' + n as u8)?)
}
