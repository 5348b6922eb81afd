// What stands between the commas of a server-first-message (RFC 5802, 7).
ghost use Rattle.std.specs.Prelude.{◌≡◌, ◌≤◌, length, option_and_then, option_map, vec_items, IfOk, IfSome};
ghost use Rattle.std.specs.List.{list_all, prefix_len};
ghost use Rattle.std.specs.Char.{is_ascii_graphic};
ghost use Rattle.base64.specs.Engines.{standard};
ghost use Rattle.base64.specs.GeneralPurpose.{decoded_of};
ghost use Rattle.serde_json.specs.Find.{as_number, as_u64};
ghost use Rattle.serde_json.specs.View.{view};
ghost use Rattle.reql_scram.specs.Texts.{before_comma, from_comma, no_comma};
ghost use Rattle.reql_client.specs.Proving.{fitting, is_joined, rounds_in};

use crate::reading::value_of;
use base64::DecodeAllocError;
use base64::engine::general_purpose::STANDARD;
use reql_memory::Memory;
use serde_json::Value;
use std::alloc::Global;

/// The fewest rounds that a client takes, and the most.
const FEWEST_ROUNDS: u64 = 4096;

const MOST_ROUNDS: u64 = 1_000_000;

fn front_len(text: &[u8]) -> usize
    ensures told { result ≡ prefix_len no_comma text.now }
    ensures within { result ≤ length text.now }
{
    text.iter().take_while(|byte| **byte != b',').count()
}

/// What stands in front of the first comma, and what is left then, which begins with that comma.
#[tactic(auto, unfolding(reql_scram::specs::Texts::before_comma, reql_scram::specs::Texts::from_comma))]
pub(crate) fn split_at_comma(text: &[u8]) -> (&[u8], &[u8])
    ensures before { result.0.now ≡ before_comma text.now }
    ensures from { result.1.now ≡ from_comma text.now }
{
    let len = front_len(text);
    (&text[..len], &text[len..])
}

fn are_graphic(text: &[u8]) -> bool
    ensures { result ≡ list_all is_ascii_graphic text.now }
{
    text.iter().all(|byte| byte.is_ascii_graphic())
}

/// Whether a nonce is the client's own with more behind it, in printable ASCII.
#[tactic(auto, unfolding(crate::specs::Proving::is_joined))]
pub(crate) fn is_joined(own: &[u8], nonce: &[u8]) -> bool
    ensures { result ≡ is_joined own.now nonce.now }
{
    nonce.starts_with(own) && own.len() < nonce.len() && are_graphic(nonce)
}

/// The bytes of a text in base64 (RFC 4648, 4), where it is one.
#[tactic(auto, unfolding(base64::specs::GeneralPurpose::decoded_of))]
pub(crate) fn decoded(alloc: Global, text: &[u8]) -> Result<Option<Vec<u8>>, Memory>
    ensures { IfOk result (λ found. option_map vec_items found ≡ decoded_of standard text.now) }
{
    match STANDARD.decode(alloc, text) {
        Ok(bytes) => Ok(Some(bytes)),
        Err(DecodeAllocError::DecodeError(_)) => Ok(None),
        Err(DecodeAllocError::OutOfMemory) => Err(Memory),
    }
}

#[tactic(auto, unfolding(crate::specs::Proving::fitting))]
fn fitting(rounds: u64) -> Option<u32>
    ensures told { result ≡ fitting rounds }
    ensures some { IfSome result (λ r. 1 ≤ r) }
{
    if rounds < FEWEST_ROUNDS {
        return None;
    }
    if MOST_ROUNDS < rounds {
        return None;
    }
    Some(rounds as u32)
}

// The iteration count that a value is.
fn rounds_of(value: &Value) -> Option<u32>
    ensures told { result ≡ option_and_then fitting (option_and_then as_u64 (as_number (view value.now))) }
    ensures some { IfSome result (λ r. 1 ≤ r) }
{
    match value.as_u64() {
        Some(rounds) => fitting(rounds),
        None => None,
    }
}

/// The iteration count that a text is, where a client takes it.
#[tactic(auto, unfolding(crate::specs::Proving::rounds_in))]
pub(crate) fn rounds_in(alloc: Global, text: &[u8]) -> Result<Option<u32>, Memory>
    ensures told { IfOk result (λ rounds. rounds ≡ rounds_in text.now) }
    ensures some { IfOk result (λ rounds. IfSome rounds (λ r. 1 ≤ r)) }
{
    match value_of(alloc, text)? {
        Some(value) => Ok(rounds_of(&value)),
        None => Ok(None),
    }
}
