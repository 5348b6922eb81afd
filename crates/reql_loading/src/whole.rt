// Whether the sessions of a load were served whole.
ghost use Rattle.std.specs.Prelude.{◌≡◌, ◌<◌, ℕ, true, map, slice_index_or, IfOk};
ghost use Rattle.reql_load.specs.Script.{script_of};
ghost use Rattle.reql_session_spec.specs.declared.end.End.TheVariants as ends;
ghost use Rattle.reql_loading.specs.Loading.{has_part, has_any, refusals, IsWhole, ServedWhole};

use crate::posts::SESSIONS;
use reql_answer::internal;
use reql_load::script;
use reql_memory::Memory;
use reql_net::MemDoor;
use reql_outside::MemRecord;
use reql_serve::{Left, Member};
use reql_session_spec::End;
use std::alloc::Global;

// Whether these bytes stand somewhere among others.
fn has_part(bytes: &[u8], part: &[u8]) -> bool
    ensures { result ≡ has_part part.now bytes.now }
{
    let mut rest = bytes;
    while let Some((_first, after)) = rest.split_first() {
        if rest.starts_with(part) {
            return true;
        }
        rest = after;
    }
    false
}

fn is_closed(end: End) -> bool
    ensures { (result ≡ true) → end ≡ ends.Closed }
{
    match end {
        End::Closed => true,
        _ => false,
    }
}

// Whether one of the ends of answers that refuse a request stands among these bytes.
fn has_refusal(bytes: &[u8]) -> bool
    ensures { result ≡ has_any refusals bytes.now }
{
    has_part(bytes, b"\"t\":16}") || has_part(bytes, b"\"t\":17}") || has_part(bytes, b"\"t\":18}")
}

// Whether a session was given these bytes and closed, and none of its requests was refused.
fn is_whole(member: &Member<MemRecord>, script: &[u8]) -> bool
    ensures { (result ≡ true) → IsWhole script.now member.now }
{
    let tape = &member.served.tape;
    is_closed(member.served.end)
        && tape.given.as_slice() == script
        && !has_part(&tape.sent, internal())
        && !has_refusal(&tape.sent)
}

// Whether a worker served one session, which was whole.
fn served_whole(members: &[Member<MemRecord>], script: &[u8]) -> bool
    ensures { (result ≡ true) → ServedWhole script.now members.now }
{
    match members {
        [member] => is_whole(member, script),
        _ => false,
    }
}

/// Whether each worker served the session of its number, which was whole.
pub(crate) fn are_whole(
    alloc: Global,
    seed: u32,
    size: u32,
    workers: &[Left<MemDoor>],
) -> Result<bool, Memory>
    ensures { IfOk result (λ whole. (whole ≡ true) → (session : ℕ) (ms : _) → session < 5
        → ServedWhole (script_of seed size session)
        (slice_index_or (map (λ w. w.ended.items) workers.now) session ms)) }
{
    for session in 0..SESSIONS {
        let Some(worker) = workers.get(session as usize) else {
            return Ok(false);
        };
        let sent = script(alloc, seed, size, session)?;
        if !served_whole(&worker.ended, &sent) {
            return Ok(false);
        }
    }
    Ok(true)
}
