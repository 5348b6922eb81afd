// Primary keys that are made.
ghost use Rattle.std.specs.Prelude.{◌≡◌, ◌<◌, ◌+◌, ◌*◌, ◌^◌, IfOk};
ghost use Rattle.reql_datum.specs.View.{plain};
ghost use Rattle.reql_plan_spec.specs.Keys.{key_of as key_of_bytes, versioned as versioned_of, number_from};

use crate::digits::uuid;
use reql_datum::{Datum, Memory};
use std::alloc::Global;

/// The key that is made of 16 random bytes: the text of a version 4 UUID (RFC 9562, 5.4).
pub fn key_of(alloc: Global, bytes: [u8; 16]) -> Result<Datum, Memory>
    ensures { IfOk result (λ d. plain d ≡ key_of_bytes bytes) }
{
    let marked = versioned(bytes);
    uuid(alloc, number_of(&marked))
}

// The bytes with the version and the variant in their places.
#[tactic(auto, using(crate::proofs::Bytes::bytes))]
fn versioned(bytes: [u8; 16]) -> [u8; 16]
    ensures { result ≡ versioned_of bytes }
{
    let mut marked = bytes;
    marked[6] = 64 + bytes[6] % 16;
    marked[8] = 128 + bytes[8] % 64;
    marked
}

// The number that bytes write, the highest first.
#[tactic(auto, using(crate::proofs::Bytes::bytes))]
fn number_of(bytes: &[u8; 16]) -> u128
    ensures { result ≡ number_from 0 bytes.now }
{
    let mut number = 0;
    let mut place = 0;
    while place < 16 {
        number = with_byte(number, bytes[place], place);
        place += 1;
    }
    number
}

// The number of so many bytes with one byte more.
#[tactic(auto, using(crate::proofs::Bytes::bytes))]
fn with_byte(number: u128, byte: u8, place: usize) -> u128
    requires fits { number < 256 ^ place }
    requires below { place < 16 }
    ensures value { result ≡ number * 256 + byte }
    ensures grown { result < 256 ^ (place + 1) }
{
    number * 256 + byte as u128
}
