// The query of a body without fault, read in one pass over its tokens.
ghost use Rattle.std.specs.Prelude.{◌≡◌, Ok, IfSome};
ghost use Rattle.reql_read.specs.Query.{query_text};
ghost use Rattle.reql_read.specs.Quick.{ReadsQuery, ReadsParts};
ghost use Rattle.reql_read.specs.View.{asked};

use crate::globals::Settings;
use crate::query::{Globals, Query};
use crate::quick_numbers::number;
use crate::quick_options::read_settings;
use crate::quick_terms::read;
use crate::quick_tokens::{close_array, open_array};
use json::{Reader, Scratch};
use std::alloc::Global;

// Arrays and objects nest so deep in a body that is read.
const MAX_DEPTH: usize = 127;

fn read_start(alloc: Global, reader: &mut Reader<'_>) -> Option<Query>
    ensures { IfSome result (λ q. ReadsParts 1 reader.old q reader.new) }
{
    let term = read(alloc, reader, MAX_DEPTH - 1, None)?;
    let Settings {
        db,
        array_limit,
        batch,
        noreply,
    } = read_settings(alloc, reader)?;
    let globals = Globals {
        db,
        array_limit,
        batch,
    };
    Some(Query::Start {
        term,
        globals,
        noreply,
    })
}

// A query without a term.
fn short(kind: u64, reader: &mut Reader<'_>) -> Option<Query>
    ensures { IfSome result (λ q. ReadsParts kind reader.old q reader.new) }
{
    close_array(reader)?;
    match kind {
        2 => Some(Query::Continue),
        3 => Some(Query::Stop),
        4 => Some(Query::NoreplyWait),
        5 => Some(Query::ServerInfo),
        _ => None,
    }
}

fn read_query(alloc: Global, reader: &mut Reader<'_>) -> Option<Query>
    ensures { IfSome result (λ q. ReadsQuery reader.old q reader.new) }
{
    open_array(reader)?;
    let kind = number(reader)?;
    if kind == 1 {
        read_start(alloc, reader)
    } else {
        short(kind, reader)
    }
}

/// The query of a body that has no fault, in one pass over its tokens.
///
/// None where it has a fault or memory ran out, and also for what few bodies have: a binary or a
/// time, an object written as a term, an array, a variable or a function with optional arguments,
/// many parameters or names, an option of the query other than `db` and `noreply`.
pub(crate) fn quick(alloc: Global, body: &[u8]) -> Option<Query>
    ensures { IfSome result (λ q. query_text body.now ≡ Ok (asked q)) }
{
    let text = simdutf8::compat::from_utf8(body).ok()?;
    let mut scratch = Scratch::new(alloc);
    let mut reader = Reader::new(text, &mut scratch).ok()?;
    let query = read_query(alloc, &mut reader)?;
    match reader.next() {
        Some(_) => None,
        None => Some(query),
    }
}
