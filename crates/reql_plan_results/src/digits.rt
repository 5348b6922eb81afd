// Numbers as the text of a UUID.
ghost use Rattle.std.specs.Prelude.{◌≡◌, ◌<◌, ◌%◌, ◌++◌, IfOk};
ghost use Rattle.std.specs.String.{string_bytes};
ghost use Rattle.reql_datum.specs.View.{plain};
ghost use Rattle.reql_rules.specs.Admin.{digit, hex, uuid as uuid_of};

use reql_datum::{Datum, Memory, Name};
use std::alloc::Global;

// The last hexadecimal digit of a number.
fn last_digit(n: u128) -> char
    ensures digit { result ≡ digit (n % 16) }
    ensures ascii { result < 128 }
{
    let last = (n % 16) as u8;
    if last < 10 {
        return (b'0' + last) as char;
    }
    (87 + last) as char
}

// A text with so many of the last digits of a number after it.
#[tactic(auto, using(std::proofs::lemmas::Str::encode_ascii))]
fn write_digits(text: String, places: u32, n: u128) -> Result<String, Memory>
    ensures { IfOk result (λ t. string_bytes t ≡ string_bytes text ++ hex places n) }
{
    if places == 0 {
        return Ok(text);
    }
    let mut written = write_digits(text, places - 1, n / 16)?;
    written.push(last_digit(n))?;
    Ok(written)
}

fn digits(alloc: Global, places: u32, n: u128) -> Result<String, Memory>
    ensures { IfOk result (λ t. string_bytes t ≡ hex places n) }
{
    write_digits(String::new(alloc), places, n)
}

/// A number as a UUID: its 32 hexadecimal digits in five parts.
#[tactic(auto, using(crate::proofs::Hex::in_parts))]
pub(crate) fn uuid(alloc: Global, n: u128) -> Result<Datum, Memory>
    ensures { IfOk result (λ d. plain d ≡ uuid_of n) }
{
    let first = digits(alloc, 8, n >> 96)?;
    let second = digits(alloc, 4, n >> 80)?;
    let third = digits(alloc, 4, n >> 64)?;
    let fourth = digits(alloc, 4, n >> 48)?;
    let last = digits(alloc, 12, n)?;
    let text = format!(in alloc; "{}-{}-{}-{}-{}", first, second, third, fourth, last)?;
    Ok(Datum::Text(Name::of(alloc, text.as_str())?))
}
