// A body that is too long gives way to a fault.
ghost use Rattle.std.specs.Prelude.{◌≡◌, nat_lt, length, option_map, IfOk, string_bytes};
ghost use Rattle.reql_answer.specs.Body.{stamped_by};
ghost use Rattle.reql_answer.specs.declared.error.ErrorType.TheVariants as errors;
ghost use Rattle.reql_session_spec.specs.Requests.{Answer, Failed};
ghost use Rattle.reql_session_spec.specs.Bodies.{body};
ghost use Rattle.reql_session_spec.specs.Bodies as texts;
ghost use Rattle.reql_session_spec.specs.Tasks.{Talk, seen_in};
ghost use Rattle.reql_session_spec.specs.Tasks as tasks;

use crate::refusals::failed;
use reql_answer::{ErrorType, Stamp};
use reql_datum::Memory;
use reql_session_spec::Planning;
use reql_table_spec::Limits;
use std::alloc::{AllocError, Global};

/// Whether a body is longer than a body of an answer may be.
pub fn is_long<P: Planning>(limits: &Limits, written: &[u8]) -> bool
    ensures { (k : Talk P.Plan) (a : Answer) → k.limits ≡ limits.now → written.now ≡ body a
        → result ≡ tasks.is_long k a }
{
    written.len() > limits.answer as usize
}

fn too_long_text(alloc: Global, most: u32) -> Result<String, AllocError>
    ensures { IfOk result (λ s. string_bytes s ≡ texts.too_long most) }
{
    format!(in alloc; "Answer over size limit `{}`.", most)
}

/// The fault that an answer gives way to which would be too long, with the points that it names.
pub fn cut_to<P: Planning>(
    alloc: Global,
    limits: &Limits,
    stamp: Option<Stamp<'_>>,
) -> Result<Vec<u8>, Memory>
    ensures { (k : Talk P.Plan) (a : Answer) → k.limits ≡ limits.now
        → seen_in a ≡ option_map stamped_by stamp.entry
        → IfOk result (λ b. b.items ≡ body (tasks.cut_to k a)) }
{
    let why = too_long_text(alloc, limits.answer)?;
    failed(alloc, ErrorType::ResourceLimit, why.as_str(), stamp)
}

/// A body, or that of the fault in its place where it is too long. The points are those that the answer names.
pub fn fitted<P: Planning>(
    alloc: Global,
    limits: &Limits,
    written: Vec<u8>,
    stamp: Option<Stamp<'_>>,
) -> Result<Vec<u8>, Memory>
    ensures { (k : Talk P.Plan) (a : Answer) → k.limits ≡ limits.now → written.items ≡ body a
        → seen_in a ≡ option_map stamped_by stamp.entry
        → IfOk result (λ b. b.items ≡ body (tasks.fitted k a)) }
{
    if is_long::<P>(limits, written.as_slice()) {
        return cut_to::<P>(alloc, limits, stamp);
    }
    Ok(written)
}
