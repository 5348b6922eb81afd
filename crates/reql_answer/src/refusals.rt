// Answers of requests that fail.
ghost use Rattle.std.specs.Prelude.{◌≡◌, ◌++◌, codes, decimal, option_map, IfOk};
ghost use Rattle.json.specs.Print.{quoted};
ghost use Rattle.reql_answer.specs.Body.{body, code_of, stamped_by};
ghost use Rattle.reql_answer.specs.Body.{refusal as refusal_answer, fault as fault_answer};
ghost use Rattle.reql_answer.specs.Ending.{end_text};

use crate::ends::{DIGITS, write_end};
use crate::error::ErrorType;
use crate::stamp::Stamp;
use itoa::write_digits;
use reql_datum::Memory;
use reql_spell::{append_from, write_text};
use std::alloc::{AllocError, Global};

// The bytes that are taken for a short answer at first.
const SHORT_BYTES: usize = 160;

// What stands before the text of a refusal.
fn begin_refusal(alloc: Global) -> Result<Vec<u8>, AllocError>
    ensures { IfOk result (λ b. b.items ≡ codes "{\"b\":[],\"r\":[") }
{
    let mut bytes = Vec::with_capacity(alloc, SHORT_BYTES)?;
    bytes.extend_from_slice(b"{\"b\":[],\"r\":[")?;
    Ok(bytes)
}

// What stands before the text of a fault of running.
fn begin_fault(alloc: Global, error: ErrorType) -> Result<Vec<u8>, AllocError>
    ensures { IfOk result (λ b. b.items
        ≡ codes "{\"b\":[],\"e\":" ++ decimal (code_of error) ++ codes ",\"r\":[") }
{
    let mut text = *b"00000000000000000000,\"r\":[";
    let start = write_digits(u64::from(error.code()), &mut text, DIGITS);
    let mut bytes = Vec::with_capacity(alloc, SHORT_BYTES)?;
    bytes.extend_from_slice(b"{\"b\":[],\"e\":")?;
    append_from(&mut bytes, &text, start)?;
    Ok(bytes)
}

// The text of a fault, and what stands after it.
fn because(
    bytes: Vec<u8>,
    why: &str,
    kind: u8,
    stamp: Option<Stamp<'_>>,
) -> Result<Vec<u8>, AllocError>
    ensures { IfOk result (λ b. b.items ≡ bytes.items ++ quoted why.now ++ codes "]"
        ++ end_text kind (option_map stamped_by stamp.entry)) }
{
    let mut told = bytes;
    write_text(&mut told, why)?;
    told.extend_from_slice(b"]")?;
    write_end(&mut told, kind, stamp)?;
    Ok(told)
}

/// The answer to a request that a client may not make, type 16, or that can't be compiled, type 17.
pub fn refusal(alloc: Global, kind: u8, why: &str) -> Result<Vec<u8>, Memory>
    ensures { IfOk result (λ b. b.items ≡ body (refusal_answer kind why.now)) }
{
    let bytes = begin_refusal(alloc)?;
    Ok(because(bytes, why, kind, None)?)
}

/// The answer to a request that fails when it runs, type 18.
pub fn fault(
    alloc: Global,
    error: ErrorType,
    why: &str,
    stamp: Option<Stamp<'_>>,
) -> Result<Vec<u8>, Memory>
    ensures { IfOk result (λ b. b.items ≡ body (fault_answer error why.now
        (option_map stamped_by stamp.entry))) }
{
    let bytes = begin_fault(alloc, error)?;
    Ok(because(bytes, why, 18, stamp)?)
}
