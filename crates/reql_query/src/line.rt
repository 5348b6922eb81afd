// A line, as a body.
ghost use Rattle.std.specs.Prelude.{◌<◌, ◌^◌, length, IfOk, IfSome};

use reql_chain::{ChainFault, What, body_of};
use serde_json::Value;
use std::alloc::Global;

// The longest body that a server takes.
const LONGEST: usize = 67_108_864;

/// What a line asks for.
#[derive(Clone, Copy, PartialEq, Eq)]
pub enum Asks {
    /// Nothing: it is empty, or begins with `#`.
    Nothing,
    /// It is a body.
    Body,
    /// It is chained text.
    Chain,
    /// It is neither.
    Other,
}

/// Why a line is no body.
#[derive(Clone, Copy, PartialEq, Eq)]
pub enum Unasked {
    /// It begins with neither `[` nor `r`.
    Other,
    /// Chained text has this fault at this column.
    Chain { column: usize, what: What },
    /// It has more bytes than a server takes.
    TooLong,
    /// It wants no answer.
    Silent,
    Memory,
}

/// What a line asks for, by how it begins.
pub fn begins_as(line: &str) -> Asks {
    match line.as_bytes().trim_ascii_start().first() {
        None | Some(b'#') => Asks::Nothing,
        Some(b'[') => Asks::Body,
        Some(b'r') => Asks::Chain,
        Some(_) => Asks::Other,
    }
}

// Whether a body says that it wants no answer.
fn is_silent(alloc: Global, body: &str) -> bool {
    let Ok(body) = Value::from_str(alloc, body) else {
        return false;
    };
    let options = body.get(2usize);
    let noreply = options.and_then(|options| options.get("noreply"));
    noreply.and_then(Value::as_bool) == Some(true)
}

fn plain_body(alloc: Global, line: &str) -> Result<Vec<u8>, Unasked> {
    if is_silent(alloc, line) {
        return Err(Unasked::Silent);
    }
    match line.as_bytes().to_vec(alloc) {
        Ok(body) => Ok(body),
        Err(_) => Err(Unasked::Memory),
    }
}

fn chained_body(alloc: Global, line: &str) -> Result<Vec<u8>, Unasked> {
    match body_of(alloc, line) {
        Ok(body) => Ok(body),
        Err(ChainFault::At { column, what }) => Err(Unasked::Chain { column, what }),
        Err(ChainFault::Memory) => Err(Unasked::Memory),
    }
}

/// The body that a line asks by, or none where it asks for nothing.
pub fn body_in(alloc: Global, line: &str) -> Result<Option<Vec<u8>>, Unasked>
    ensures { IfOk result (λ found. IfSome found (λ body. length body.items < 2 ^ 32)) }
{
    let body = match begins_as(line) {
        Asks::Nothing => return Ok(None),
        Asks::Body => plain_body(alloc, line)?,
        Asks::Chain => chained_body(alloc, line)?,
        Asks::Other => return Err(Unasked::Other),
    };
    if body.len() > LONGEST {
        return Err(Unasked::TooLong);
    }
    Ok(Some(body))
}
