// What is read of a server-first-message (RFC 5802, 7), one field after another.
ghost use Rattle.std.specs.Prelude.{◌≡◌, ◌≤◌, drop, option_map, IfOk, IfSome};
ghost use Rattle.reql_client.specs.Proving.{count_read, salt_read, server_first_of};
ghost use Rattle.reql_client.specs.Program.{shown};

use crate::fields::{decoded, is_joined, rounds_in, split_at_comma};
use reql_memory::Memory;
use std::alloc::Global;

/// A server-first-message.
#[derive(Drop)]
pub(crate) struct ServerFirst<'a> {
    /// The client's nonce and the server's.
    pub(crate) nonce: &'a [u8],
    pub(crate) salt: Vec<u8>,
    /// The iteration count.
    pub(crate) rounds: u32,
}

#[tactic(auto, unfolding(crate::specs::Proving::count_read))]
fn count_read<'a>(
    alloc: Global,
    nonce: &'a [u8],
    salt: Vec<u8>,
    rest: &[u8],
) -> Result<Option<ServerFirst<'a>>, Memory>
    ensures told { IfOk result (λ first. option_map shown first ≡ count_read nonce.now salt.items rest.now) }
    ensures rounds { IfOk result (λ first. IfSome first (λ f. 1 ≤ f.rounds)) }
{
    if !rest.starts_with(b",i=") {
        return Ok(None);
    }
    let (count, _extensions) = split_at_comma(&rest[3..]);
    match rounds_in(alloc, count)? {
        Some(rounds) => Ok(Some(ServerFirst {
            nonce,
            salt,
            rounds,
        })),
        None => Ok(None),
    }
}

#[tactic(auto, unfolding(crate::specs::Proving::salt_read))]
fn salt_read<'a>(
    alloc: Global,
    nonce: &'a [u8],
    rest: &[u8],
) -> Result<Option<ServerFirst<'a>>, Memory>
    ensures told { IfOk result (λ first. option_map shown first ≡ salt_read nonce.now rest.now) }
    ensures rounds { IfOk result (λ first. IfSome first (λ f. 1 ≤ f.rounds)) }
{
    if !rest.starts_with(b",s=") {
        return Ok(None);
    }
    let (salt, rest) = split_at_comma(&rest[3..]);
    match decoded(alloc, salt)? {
        Some(salt) => count_read(alloc, nonce, salt, rest),
        None => Ok(None),
    }
}

/// What is read of a server-first-message, where it is one for a client with this nonce.
#[tactic(auto, unfolding(crate::specs::Proving::server_first_of))]
pub(crate) fn server_first_of<'a>(
    alloc: Global,
    own: &[u8],
    text: &'a [u8],
) -> Result<Option<ServerFirst<'a>>, Memory>
    ensures told { IfOk result (λ first. option_map shown first ≡ server_first_of own.now text.now) }
    ensures rounds { IfOk result (λ first. IfSome first (λ f. 1 ≤ f.rounds)) }
{
    if !text.starts_with(b"r=") {
        return Ok(None);
    }
    let (field, rest) = split_at_comma(text);
    let nonce = behind_name(field);
    if !is_joined(own, nonce) {
        return Ok(None);
    }
    salt_read(alloc, nonce, rest)
}

// What stands behind a letter and an equals sign.
fn behind_name(field: &[u8]) -> &[u8]
    ensures { result.now ≡ drop 2 field.now }
{
    &field[field.len().min(2)..]
}
