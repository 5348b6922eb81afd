// Answers, and how a session goes on after them.
ghost use Rattle.std.specs.Prelude.{◌≡◌, Bool, None, IfOk, length, ◌+◌, ◌≤◌};
ghost use Rattle.reql_session_spec.specs.Requests.{Answer, Internal};
ghost use Rattle.reql_session_spec.specs.Bodies.{body};
ghost use Rattle.reql_session_spec.specs.Tasks.{Talk, only_tell, tell_now, seen_in};
ghost use Rattle.reql_session_api.specs.World.{AtWork};
ghost use Rattle.reql_session.specs.Settling.{Settles, ended_by};

use crate::voice::Voice;
use reql_bodies::{fitted, internal};
use reql_memory::Memory;
use reql_outside::Link;
use reql_session_spec::{End, Planning};
use reql_table_spec::Limits;
use std::alloc::Global;

/// How a session goes on after an answer was sent whole or not.
pub(crate) fn after(whole: bool) -> Option<End>
    ensures { result ≡ ended_by whole }
{
    if whole { None } else { Some(End::WriteFault) }
}

/// Tells that memory is wanted, for which there is always room.
pub(crate) fn tell_internal<P: Planning, L: Link>(
    voice: &mut Voice,
    link: &mut L,
    token: u64,
) -> Option<End>
    ensures { (k : Talk P.Plan) (w : AtWork) → Settles k (L.tape link.old) (L.tape link.new) w w
        (only_tell w.books token Internal) result }
{
    match voice.say(link, token, internal()) {
        Ok(whole) => after(whole),
        Err(_) => None,
    }
}

/// Tells an answer that leaves what is open as it is.
pub(crate) fn tell<P: Planning, L: Link>(
    voice: &mut Voice,
    link: &mut L,
    token: u64,
    written: Result<Vec<u8>, Memory>,
) -> Option<End>
    ensures { (k : Talk P.Plan) (w : AtWork) (a : Answer) → IfOk written (λ b. b.items ≡ body a)
        → Settles k (L.tape link.old) (L.tape link.new) w w (only_tell w.books token a) result }
{
    let Ok(body) = written else {
        return tell_internal::<P, L>(voice, link, token);
    };
    match voice.say(link, token, body.as_slice()) {
        Ok(whole) => after(whole),
        Err(_) => tell_internal::<P, L>(voice, link, token),
    }
}

/// Tells an answer that is of no plan, cursor or feed, as a refusal is, or the fault in its place where it is too long.
pub(crate) fn tell_now<P: Planning, L: Link>(
    alloc: Global,
    voice: &mut Voice,
    link: &mut L,
    limits: &Limits,
    token: u64,
    written: Result<Vec<u8>, Memory>,
) -> Option<End>
    ensures { (k : Talk P.Plan) (w : AtWork) (a : Answer) → k.limits ≡ limits.now → seen_in a ≡ None
        → IfOk written (λ b. b.items ≡ body a)
        → Settles k (L.tape link.old) (L.tape link.new) w w (tell_now k w.books token a) result }
{
    let Ok(body) = written else {
        return tell_internal::<P, L>(voice, link, token);
    };
    let fitting = fitted::<P>(alloc, limits, body, None);
    tell::<P, L>(voice, link, token, fitting)
}
