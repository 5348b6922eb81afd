// Answers to what a client may not ask for, and of requests that fail.
ghost use Rattle.std.specs.Prelude.{◌≡◌, None, option_map, IfOk, string_bytes};
ghost use Rattle.reql_answer.specs.Body.{stamped_by};
ghost use Rattle.reql_answer.specs.declared.error.ErrorType.TheVariants as errors;
ghost use Rattle.reql_session_spec.specs.Requests.{Client, Compile, Failed};
ghost use Rattle.reql_session_spec.specs.Bodies.{body};
ghost use Rattle.reql_session_spec.specs.Bodies as texts;

use reql_answer::{ErrorType, Stamp, fault, refusal};
use reql_datum::Memory;
use std::alloc::{AllocError, Global};

/// The answer to what a client may not ask for.
#[tactic(auto, unfolding(reql_session_spec::specs::Bodies::body))]
pub fn client(alloc: Global, why: &str) -> Result<Vec<u8>, Memory>
    ensures { IfOk result (λ b. b.items ≡ body (Client why.now)) }
{
    refusal(alloc, 16, why)
}

/// The answer to what can't be compiled.
#[tactic(auto, unfolding(reql_session_spec::specs::Bodies::body))]
pub fn compile(alloc: Global, why: &str) -> Result<Vec<u8>, Memory>
    ensures { IfOk result (λ b. b.items ≡ body (Compile why.now)) }
{
    refusal(alloc, 17, why)
}

/// The answer of a request that fails when it runs, with the points that it names.
#[tactic(auto, unfolding(reql_session_spec::specs::Bodies::body))]
pub fn failed(
    alloc: Global,
    error: ErrorType,
    why: &str,
    stamp: Option<Stamp<'_>>,
) -> Result<Vec<u8>, Memory>
    ensures { IfOk result (λ b. b.items
        ≡ body (Failed error why.now (option_map stamped_by stamp.entry))) }
{
    fault(alloc, error, why, stamp)
}

fn in_use_text(alloc: Global, token: u64) -> Result<String, AllocError>
    ensures { IfOk result (λ s. string_bytes s ≡ texts.in_use token) }
{
    format!(in alloc; "Token {} is in use.", token)
}

fn not_open_text(alloc: Global, token: u64) -> Result<String, AllocError>
    ensures { IfOk result (λ s. string_bytes s ≡ texts.not_open token) }
{
    format!(in alloc; "Token {} has no open cursor.", token)
}

fn at_wait_text(alloc: Global, token: u64) -> Result<String, AllocError>
    ensures { IfOk result (λ s. string_bytes s ≡ texts.at_wait token) }
{
    format!(in alloc; "Token {} is already waiting.", token)
}

/// The answer to a START where the token has something open.
pub fn in_use(alloc: Global, token: u64) -> Result<Vec<u8>, Memory>
    ensures { IfOk result (λ b. b.items ≡ body (Client (texts.in_use token))) }
{
    let why = in_use_text(alloc, token)?;
    client(alloc, why.as_str())
}

/// The answer to a CONTINUE where the token has nothing open.
pub fn not_open(alloc: Global, token: u64) -> Result<Vec<u8>, Memory>
    ensures { IfOk result (λ b. b.items ≡ body (Client (texts.not_open token))) }
{
    let why = not_open_text(alloc, token)?;
    client(alloc, why.as_str())
}

/// The answer to a CONTINUE where the token has one that waits.
pub fn at_wait(alloc: Global, token: u64) -> Result<Vec<u8>, Memory>
    ensures { IfOk result (λ b. b.items ≡ body (Client (texts.at_wait token))) }
{
    let why = at_wait_text(alloc, token)?;
    client(alloc, why.as_str())
}

/// The answer of a feed whose table's history is full.
pub fn full(alloc: Global) -> Result<Vec<u8>, Memory>
    ensures { IfOk result (λ b. b.items ≡ body (Failed errors.ResourceLimit texts.full None)) }
{
    failed(alloc, ErrorType::ResourceLimit, "History is full.", None)
}
