// What a body asks for.
ghost use Rattle.std.specs.Prelude.{◌≡◌, IfErr};
ghost use Rattle.serde_json.specs.View.{view, items_view};
ghost use Rattle.reql_read.specs.Apart.{started, started_by, asked_kind, asked_parts, asked_of};
ghost use Rattle.reql_read.specs.Outcome.{Understands};
ghost use Rattle.reql_read.specs.Query.{query, query_text, is_true, third_is_quiet, second_is_quiet, first_is_quiet, is_quiet, text_is_quiet};
ghost use Rattle.reql_read.specs.Seen.{optional};
ghost use Rattle.reql_read.specs.View.{asked, UnderstandsBody, IsTold};

use crate::fault::ReadFault;
use crate::globals::{Settings, is_number, settings_of};
use crate::quick::quick;
use crate::read::read;
use crate::shape::{items_in, number_in, options_in, shaped};
use reql_datum::Name;
use reql_term::Term;
use serde_json::{Map, Value};
use std::alloc::Global;

/// What a body asks for.
#[derive(Drop)]
pub enum Query {
    /// The value of a term, with no answer where `noreply` is true.
    Start {
        term: Term,
        globals: Globals,
        noreply: bool,
    },
    /// More of an answer.
    Continue,
    /// The end of an answer.
    Stop,
    /// That the queries without an answer are done.
    NoreplyWait,
    /// What the server is.
    ServerInfo,
}

/// Why a body is no query, and whether it says that it wants no answer: whether it is a JSON array
/// that begins with 1 and whose third member is an object with the member `noreply` true.
///
/// Where memory ran out, `noreply` may be false in place of true.
#[derive(Drop)]
pub struct Unread {
    pub fault: ReadFault,
    pub noreply: bool,
}

/// The options of a query: the default database, how many items an array may have, and how many an
/// answer holds at most.
#[derive(Drop)]
pub struct Globals {
    pub db: Name,
    pub array_limit: u64,
    pub batch: u32,
}

fn started(
    alloc: Global,
    term: &Value,
    options: Option<&Map<String, Value>>,
) -> Result<Query, ReadFault>
    ensures { Understands asked result (started (view term.now) (optional options.entry)) }
{
    shaped(alloc, term)?;
    let term = read(alloc, term, None)?;
    let Settings {
        db,
        array_limit,
        batch,
        noreply,
    } = settings_of(alloc, options)?;
    let globals = Globals {
        db,
        array_limit,
        batch,
    };
    Ok(Query::Start {
        term,
        globals,
        noreply,
    })
}

fn start_parts(alloc: Global, parts: &[Value]) -> Result<Query, ReadFault>
    ensures { Understands asked result (started_by (items_view parts.now)) }
{
    let [term, rest @ ..] = parts else {
        return Err(ReadFault::BadShape);
    };
    started(alloc, term, options_in(rest)?)
}

fn of_kind(alloc: Global, kind: u64, parts: &[Value]) -> Result<Query, ReadFault>
    ensures { Understands asked result (asked_kind kind (items_view parts.now)) }
{
    match kind {
        1 => start_parts(alloc, parts),
        2 => Ok(Query::Continue),
        3 => Ok(Query::Stop),
        4 => Ok(Query::NoreplyWait),
        5 => Ok(Query::ServerInfo),
        _ => Err(ReadFault::BadShape),
    }
}

fn query_parts(alloc: Global, parts: &[Value]) -> Result<Query, ReadFault>
    ensures { Understands asked result (asked_parts (items_view parts.now)) }
{
    let [kind, rest @ ..] = parts else {
        return Err(ReadFault::BadShape);
    };
    of_kind(alloc, number_in(kind)?, rest)
}

fn taken(alloc: Global, v: &Value) -> Result<Query, ReadFault>
    ensures { Understands asked result (asked_of (view v.now)) }
{
    query_parts(alloc, items_in(v)?)
}

fn query_of(alloc: Global, v: &Value) -> Result<Query, ReadFault>
    ensures { Understands asked result (query (view v.now)) }
{
    taken(alloc, v)
}

fn is_true(found: Option<bool>) -> bool
    ensures { result ≡ is_true found }
{
    match found {
        Some(is) => is,
        None => false,
    }
}

fn third_is_quiet(parts: &[Value]) -> bool
    ensures { result ≡ third_is_quiet (items_view parts.now) }
{
    let [options, ..] = parts else {
        return false;
    };
    is_true(options.get("noreply").and_then(Value::as_bool))
}

fn second_is_quiet(parts: &[Value]) -> bool
    ensures { result ≡ second_is_quiet (items_view parts.now) }
{
    let [_, rest @ ..] = parts else {
        return false;
    };
    third_is_quiet(rest)
}

fn first_is_quiet(parts: &[Value]) -> bool
    ensures { result ≡ first_is_quiet (items_view parts.now) }
{
    let [kind, rest @ ..] = parts else {
        return false;
    };
    is_number(1, kind.as_u64()) && second_is_quiet(rest)
}

// Whether a query says that it wants no answer.
fn is_quiet(v: &Value) -> bool
    ensures { result ≡ is_quiet (view v.now) }
{
    match v.as_array() {
        Some(parts) => first_is_quiet(parts.as_slice()),
        None => false,
    }
}

/// The query that a body is, or why it is none.
///
/// The fault is the first: NotJson where the body is no JSON text in UTF-8, BadShape where it has
/// not the shape of a query, then those of the term in preorder, then those of the options by name.
/// Terms that follow one another in a list share the names that are equal at like places.
pub fn read_query(alloc: Global, body: &[u8]) -> Result<Query, Unread>
    ensures query { UnderstandsBody result (query_text body.now) }
    ensures noreply { IfErr result (IsTold (text_is_quiet body.now)) }
{
    if let Some(query) = quick(alloc, body) {
        return Ok(query);
    }
    match Value::from_slice(alloc, body) {
        Err(e) if e.is_memory() => Err(Unread {
            fault: ReadFault::Memory,
            noreply: false,
        }),
        Err(_) => Err(Unread {
            fault: ReadFault::NotJson,
            noreply: false,
        }),
        Ok(value) => match query_of(alloc, &value) {
            Ok(query) => Ok(query),
            Err(fault) => Err(Unread {
                fault,
                noreply: is_quiet(&value),
            }),
        },
    }
}
