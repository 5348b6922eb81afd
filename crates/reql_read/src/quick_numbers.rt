// Numbers of a body, read from their texts.
ghost use Rattle.std.specs.Prelude.{◌≡◌, ◌<◌, ◌==◌, Some, length, slice_index, IsTrue, IfSome};
ghost use Rattle.serde_json.specs.Data.{unsigned};
ghost use Rattle.serde_json.specs.Data as json;
ghost use Rattle.serde_json.specs.Read.{number_of};
ghost use Rattle.reql_read.specs.Quick.{IsWhole, ReadsNumber};

use fast_float::Numeral;
use json::{Reader, Token};

// A number above it takes no further digit here.
const MOST: u64 = 100_000_000_000_000;

fn has_minus(bytes: &[u8]) -> bool
    ensures value { result ≡ (slice_index bytes.now 0 == 45) }
    ensures len { IsTrue result → 0 < length bytes.now }
{
    !bytes.is_empty() && bytes[0] == b'-'
}

// The number of a text of digits alone, where it is not large.
fn digits(bytes: &[u8]) -> Option<u64>
    ensures { IfSome result (λ n. number_of bytes.now ≡ Some (unsigned n)) }
{
    if bytes.is_empty() {
        return None;
    }
    let mut n = 0;
    'digits: for byte in bytes {
        let digit = *byte;
        if digit < b'0' || b'9' < digit || MOST < n {
            return None;
        }
        n = n * 10 + (digit - b'0') as u64;
    }
    Some(n)
}

// The number of any text that is one.
fn scanned(bytes: &[u8]) -> Option<u64>
    ensures { IfSome result (λ n. number_of bytes.now ≡ Some (unsigned n)) }
{
    if has_minus(bytes) {
        return None;
    }
    Numeral::scan(bytes).to_u64()
}

fn unsigned(text: &str) -> Option<u64>
    ensures { IfSome result (λ n. number_of text.now ≡ Some (unsigned n)) }
{
    let bytes = text.as_bytes();
    match digits(bytes) {
        Some(n) => Some(n),
        None => scanned(bytes),
    }
}

fn negative(text: &str) -> Option<i64>
    ensures { IfSome result (λ n. number_of text.now ≡ Some (json.negative n)) }
{
    let bytes = text.as_bytes();
    if !has_minus(bytes) {
        return None;
    }
    match Numeral::scan(&bytes[1..]).to_i64(true) {
        Some(n) if n < 0 => Some(n),
        _ => None,
    }
}

fn positive(text: &str) -> Option<i64>
    ensures { IfSome result (λ z. IsWhole text.now z) }
{
    match i64::try_from(unsigned(text)?) {
        Ok(n) => Some(n),
        Err(_) => None,
    }
}

/// The whole number that a text writes.
pub(crate) fn integer(text: &str) -> Option<i64>
    ensures { IfSome result (λ z. IsWhole text.now z) }
{
    match positive(text) {
        Some(n) => Some(n),
        None => negative(text),
    }
}

/// Takes a whole number from 0.
pub(crate) fn number(reader: &mut Reader<'_>) -> Option<u64>
    ensures { IfSome result (λ n. ReadsNumber reader.old n reader.new) }
{
    match reader.next() {
        Some(Token::Number(text)) => unsigned(text),
        _ => None,
    }
}
