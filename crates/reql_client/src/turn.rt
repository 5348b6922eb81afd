// What a client does next in a login.
ghost use Rattle.std.specs.Prelude.{◌≡◌, ◌≤◌, option_map, vec_items, Some};
ghost use Rattle.reql_client.specs.Login.{Called, Enters, Named, Says, admits, answers, call, called_turn, first_message, named_turn, proved_turn, proves, says_proof, turn_of, word_of};
ghost use Rattle.reql_client.specs.Program.{Takes, proof_shown, shown, stage_of};

use crate::proof::{Proof, proof_of};
use crate::saying::{call, first_message, last_message};
use crate::server_first::{ServerFirst, server_first_of};
use crate::word::{Word, word_of};
use reql_datum::Name;
use reql_memory::Memory;
use std::alloc::Global;

/// What a client knows that logs in.
#[derive(Clone, Copy)]
pub(crate) struct Entrant<'a> {
    pub(crate) password: &'a [u8],
    /// Its nonce, which is printable ASCII.
    pub(crate) nonce: &'a [u8],
}

/// Where a login stands.
#[derive(Drop)]
pub(crate) enum Stage {
    /// Nothing is said yet.
    Begun,
    /// The version is said.
    Called,
    /// The first message is said.
    Named,
    /// The last message is said, and the server's last one has to carry this text.
    Proved(Vec<u8>),
}

/// What comes next.
#[derive(Drop)]
pub(crate) enum Turn {
    /// More bytes are wanted.
    Waits,
    /// These bytes are said, those are held, and then it stands there.
    Says {
        bytes: Vec<u8>,
        held: Vec<u8>,
        next: Stage,
    },
    /// It is let in, with these bytes behind the last message.
    Enters(Vec<u8>),
    /// It is refused, by this text.
    Refused(Name),
    /// What came is no message of a login.
    Lost,
    /// There was no memory for it.
    Memory,
}

// It says these bytes, and holds those.
fn said(alloc: Global, bytes: Vec<u8>, held: &[u8], next: Stage) -> Turn
    ensures { Takes result (Says bytes.items held.now (stage_of next)) }
{
    match held.to_vec(alloc) {
        Ok(held) => Turn::Says { bytes, held, next },
        Err(_) => Turn::Memory,
    }
}

fn calls(alloc: Global, held: &[u8]) -> Turn
    ensures { Takes result (Says call held.now Called) }
{
    match call(alloc) {
        Ok(bytes) => said(alloc, bytes, held, Stage::Called),
        Err(_) => Turn::Memory,
    }
}

fn names(alloc: Global, nonce: &[u8], rest: &[u8]) -> Turn
    ensures { Takes result (Says (first_message nonce.now) rest.now Named) }
{
    match first_message(alloc, nonce) {
        Ok(bytes) => said(alloc, bytes, rest, Stage::Named),
        Err(_) => Turn::Memory,
    }
}

// The turn after the version.
fn called_turn(alloc: Global, nonce: &[u8], held: &[u8]) -> Turn
    ensures { Takes result (called_turn nonce.now (word_of held.now)) }
{
    match word_of(alloc, held) {
        Word::Partial => Turn::Waits,
        Word::Grants { text: _, used } => names(alloc, nonce, &held[used..]),
        Word::Refuses(why) => Turn::Refused(why),
        Word::Strange => Turn::Lost,
        Word::Memory => Turn::Memory,
    }
}

fn says_proof(alloc: Global, proof: Proof, rest: &[u8]) -> Turn
    ensures { Takes result (says_proof rest.now (proof_shown proof)) }
{
    let Proof { said: text, wanted } = proof;
    match last_message(alloc, &text) {
        Ok(bytes) => said(alloc, bytes, rest, Stage::Proved(wanted)),
        Err(_) => Turn::Memory,
    }
}

fn proves_by(
    alloc: Global,
    entrant: Entrant<'_>,
    text: &[u8],
    rest: &[u8],
    first: &ServerFirst<'_>,
) -> Turn
    requires { 1 ≤ first.now.rounds }
    ensures { Takes result (proves entrant.entry.password.now entrant.entry.nonce.now text.now rest.now
        (Some (shown first.now))) }
{
    match proof_of(alloc, entrant.password, entrant.nonce, text, first) {
        Ok(proof) => says_proof(alloc, proof, rest),
        Err(_) => Turn::Memory,
    }
}

fn proves(alloc: Global, entrant: Entrant<'_>, text: &[u8], rest: &[u8]) -> Turn
    ensures { Takes result (answers entrant.entry.password.now entrant.entry.nonce.now rest.now (Some text.now)) }
{
    match server_first_of(alloc, entrant.nonce, text) {
        Ok(Some(first)) => proves_by(alloc, entrant, text, rest, &first),
        Ok(None) => Turn::Lost,
        Err(_) => Turn::Memory,
    }
}

fn answers(alloc: Global, entrant: Entrant<'_>, text: Option<Vec<u8>>, rest: &[u8]) -> Turn
    ensures { Takes result (answers entrant.entry.password.now entrant.entry.nonce.now rest.now
        (option_map vec_items text)) }
{
    match text {
        Some(text) => proves(alloc, entrant, &text, rest),
        None => Turn::Lost,
    }
}

// The turn after the first message.
fn named_turn(alloc: Global, entrant: Entrant<'_>, held: &[u8]) -> Turn
    ensures { Takes result (named_turn entrant.entry.password.now entrant.entry.nonce.now (word_of held.now)) }
{
    match word_of(alloc, held) {
        Word::Partial => Turn::Waits,
        Word::Grants { text, used } => answers(alloc, entrant, text, &held[used..]),
        Word::Refuses(why) => Turn::Refused(why),
        Word::Strange => Turn::Lost,
        Word::Memory => Turn::Memory,
    }
}

fn enters(alloc: Global, rest: &[u8]) -> Turn
    ensures { Takes result (Enters rest.now) }
{
    match rest.to_vec(alloc) {
        Ok(held) => Turn::Enters(held),
        Err(_) => Turn::Memory,
    }
}

fn admits(alloc: Global, wanted: &[u8], text: Option<Vec<u8>>, rest: &[u8]) -> Turn
    ensures { Takes result (admits wanted.now rest.now (option_map vec_items text)) }
{
    let Some(text) = text else {
        return Turn::Lost;
    };
    if text.as_slice() == wanted {
        return enters(alloc, rest);
    }
    Turn::Lost
}

// The turn after the last message, for which this text is wanted.
fn proved_turn(alloc: Global, wanted: &[u8], held: &[u8]) -> Turn
    ensures { Takes result (proved_turn wanted.now (word_of held.now)) }
{
    match word_of(alloc, held) {
        Word::Partial => Turn::Waits,
        Word::Grants { text, used } => admits(alloc, wanted, text, &held[used..]),
        Word::Refuses(why) => Turn::Refused(why),
        Word::Strange => Turn::Lost,
        Word::Memory => Turn::Memory,
    }
}

/// What comes next, by where a login stands and the bytes that are held.
#[tactic(auto, unfolding(crate::specs::Login::turn_of))]
pub(crate) fn turn_of(alloc: Global, entrant: Entrant<'_>, stage: &Stage, held: &[u8]) -> Turn
    ensures { Takes result (turn_of entrant.entry.password.now entrant.entry.nonce.now (stage_of stage.now) held.now) }
{
    match stage {
        Stage::Begun => calls(alloc, held),
        Stage::Called => called_turn(alloc, entrant.nonce, held),
        Stage::Named => named_turn(alloc, entrant, held),
        Stage::Proved(wanted) => proved_turn(alloc, wanted.as_slice(), held),
    }
}
