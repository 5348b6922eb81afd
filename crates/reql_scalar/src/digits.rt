// Whole numbers written in texts.
ghost use Rattle.std.specs.Prelude.{◌≡◌, ◌≤ℤ◌, pos, option_map, IfSome};
ghost use Rattle.reql_scalar.specs.Digits.{small_on, small_in, positive, negative, number_of};

use reql_datum::Whole;

const MOST: u64 = 9007199254740992;

// The number of some digits, None above 2^53.
fn small_from(bytes: &[u8]) -> Option<u64>
    ensures { result ≡ small_on 0 bytes.now }
{
    let mut n = 0;
    for byte in bytes {
        let digit = *byte;
        if digit < b'0' || b'9' < digit {
            return None;
        }
        n = n * 10 + (digit - b'0') as u64;
        if MOST < n {
            return None;
        }
    }
    Some(n)
}

fn small_in(bytes: &[u8]) -> Option<u64>
    ensures { result ≡ small_in bytes.now }
{
    match bytes {
        [] => None,
        [_, ..] => small_from(bytes),
    }
}

fn small_within(bytes: &[u8]) -> Option<i64>
    ensures value { option_map pos (small_in bytes.now) ≡ result }
    ensures within { IfSome result (λ n. (pos 0 ≤ℤ n) × (n ≤ℤ pos 9007199254740992)) }
{
    match small_in(bytes) {
        Some(n) if n <= MOST => Some(n as i64),
        _ => None,
    }
}

#[tactic(auto, using(crate::proofs::Written::positive_is))]
fn positive(bytes: &[u8]) -> Option<Whole>
    ensures { result ≡ positive bytes.now }
{
    match small_within(bytes) {
        Some(n) => Whole::new(n),
        None => None,
    }
}

#[tactic(auto, using(crate::proofs::Written::negative_is))]
fn negative(bytes: &[u8]) -> Option<Whole>
    ensures { result ≡ negative bytes.now }
{
    match small_within(bytes) {
        Some(n) => Whole::new(-n),
        None => None,
    }
}

/// The whole number that a text writes, by an optional minus and digits; None for other texts and
/// beyond the range.
pub(crate) fn number_of(text: &str) -> Option<Whole>
    ensures { result ≡ number_of text.now }
{
    let bytes = text.as_bytes();
    let [first, rest @ ..] = bytes else {
        return None;
    };
    if *first == b'-' {
        return negative(rest);
    }
    positive(bytes)
}
