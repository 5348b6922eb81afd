// What a client answers a server-first-message (RFC 5802, 3 and 7).
ghost use Rattle.std.specs.Prelude.{◌≡◌, ◌++◌, ◌≤◌, length, codes, IfOk};
ghost use Rattle.base64.specs.Engines.{standard};
ghost use Rattle.base64.specs.GeneralPurpose.{encode_of};
ghost use Rattle.reql_scram.specs.Hash.{xored};
ghost use Rattle.reql_scram.specs.Scram.{client_key, client_proof, server_key, server_signature, stored_key};
ghost use Rattle.reql_client.specs.Program.{proof_shown, shown};
ghost use Rattle.reql_client.specs.Proving.{auth_by, first_bare, front_by, proof_by, proof_of, said_by, wanted_by};

use crate::server_first::ServerFirst;
use base64::engine::general_purpose::STANDARD;
use reql_memory::Memory;
use reql_scram::{hmac, salted};
use sha2::{Digest, Sha256};
use std::alloc::Global;

/// What is said of a proof, and what is wanted for it.
#[derive(Drop)]
pub(crate) struct Proof {
    /// The client-final-message.
    pub(crate) said: Vec<u8>,
    /// The server-final-message that has to follow.
    pub(crate) wanted: Vec<u8>,
}

// Makes of each bit whether it differs from that of the other list.
fn xor_into(all: &mut [u8], other: &[u8])
    requires { length all.old ≡ length other.now }
    ensures { all.new ≡ xored all.old other.now }
{
    for i in 0..other.len() {
        all[i] ^= other[i];
    }
}

#[tactic(auto, unfolding(reql_scram::specs::Scram::client_proof))]
fn client_proof(salted: &[u8], auth: &[u8]) -> [u8; 32]
    ensures { result ≡ client_proof salted.now auth.now }
{
    let mut proof = hmac(salted, b"Client Key");
    let stored_key = Sha256::digest(&proof);
    let client_signature = hmac(&stored_key, auth);
    xor_into(&mut proof, &client_signature);
    proof
}

#[tactic(auto, unfolding(reql_scram::specs::Scram::server_signature))]
fn server_signature(salted: &[u8], auth: &[u8]) -> [u8; 32]
    ensures { result ≡ server_signature salted.now auth.now }
{
    let server_key = hmac(salted, b"Server Key");
    hmac(&server_key, auth)
}

/// The client-first-message-bare.
#[tactic(auto, unfolding(crate::specs::Proving::first_bare))]
pub(crate) fn first_bare(alloc: Global, nonce: &[u8]) -> Result<Vec<u8>, Memory>
    ensures { IfOk result (λ text. text.items ≡ first_bare nonce.now) }
{
    let mut text = Vec::new(alloc);
    text.extend_from_slice(b"n=admin,r=")?;
    text.extend_from_slice(nonce)?;
    Ok(text)
}

#[tactic(auto, unfolding(crate::specs::Proving::front_by))]
fn front_by(alloc: Global, nonce: &[u8]) -> Result<Vec<u8>, Memory>
    ensures { IfOk result (λ text. text.items ≡ front_by nonce.now) }
{
    let mut text = Vec::new(alloc);
    text.extend_from_slice(b"c=biws,r=")?;
    text.extend_from_slice(nonce)?;
    Ok(text)
}

#[tactic(auto, unfolding(crate::specs::Proving::auth_by))]
fn auth_by(alloc: Global, own: &[u8], text: &[u8], front: &[u8]) -> Result<Vec<u8>, Memory>
    ensures { IfOk result (λ auth. auth.items ≡ auth_by own.now text.now front.now) }
{
    let mut auth = first_bare(alloc, own)?;
    auth.extend_from_slice(b",")?;
    auth.extend_from_slice(text)?;
    auth.extend_from_slice(b",")?;
    auth.extend_from_slice(front)?;
    Ok(auth)
}

#[tactic(auto, unfolding(crate::specs::Proving::said_by))]
fn said_by(alloc: Global, salted: &[u8], auth: &[u8], front: &[u8]) -> Result<Vec<u8>, Memory>
    ensures { IfOk result (λ text. text.items ≡ said_by salted.now auth.now front.now) }
{
    let proof = STANDARD.encode(alloc, &client_proof(salted, auth))?;
    let mut text = front.to_vec(alloc)?;
    text.extend_from_slice(b",p=")?;
    text.extend_from_slice(proof.as_bytes())?;
    Ok(text)
}

#[tactic(auto, unfolding(crate::specs::Proving::wanted_by))]
fn wanted_by(alloc: Global, salted: &[u8], auth: &[u8]) -> Result<Vec<u8>, Memory>
    ensures { IfOk result (λ text. text.items ≡ wanted_by salted.now auth.now) }
{
    let signature = STANDARD.encode(alloc, &server_signature(salted, auth))?;
    let mut text = Vec::new(alloc);
    text.extend_from_slice(b"v=")?;
    text.extend_from_slice(signature.as_bytes())?;
    Ok(text)
}

fn proof_by(alloc: Global, salted: &[u8], auth: &[u8], front: &[u8]) -> Result<Proof, Memory>
    ensures { IfOk result (λ proof. proof_shown proof ≡ proof_by salted.now auth.now front.now) }
{
    let said = said_by(alloc, salted, auth, front)?;
    let wanted = wanted_by(alloc, salted, auth)?;
    Ok(Proof { said, wanted })
}

/// What a client with this password and this nonce answers a server-first-message, of which `first` was read.
#[tactic(auto, unfolding(crate::specs::Proving::proof_of))]
pub(crate) fn proof_of(
    alloc: Global,
    password: &[u8],
    own: &[u8],
    text: &[u8],
    first: &ServerFirst<'_>,
) -> Result<Proof, Memory>
    requires { 1 ≤ first.now.rounds }
    ensures { IfOk result (λ proof. proof_shown proof ≡ proof_of password.now own.now text.now (shown first.now)) }
{
    let front = front_by(alloc, first.nonce)?;
    let auth = auth_by(alloc, own, text, &front)?;
    let salted = salted(password, &first.salt, first.rounds);
    proof_by(alloc, &salted, &auth, &front)
}
