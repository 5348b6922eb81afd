// Documents, as they are inserted.
ghost use Rattle.std.specs.Prelude.{◌<◌, ◌^◌, length};

use crate::answer::{Told, telling_of};
use crate::printing::{Shown, show_fault};
use crate::requests::insert_body;
use crate::status::Loss;
use crate::tally::{Tally, tally_of};
use crate::words::Table;
use reql_client::{Asked, Client};
use reql_outside::Link;
use serde_json::Value;
use std::alloc::Global;

// The longest body that a server takes.
const LONGEST: usize = 67_108_864;

/// How an insertion ended.
#[derive(Drop)]
pub enum Inserted<L: Link> {
    /// The client is there for the next, and this is what came of it.
    Told(Client<L>, Tally),
    /// It was refused by a fault, which this line tells.
    Faulted(String),
    /// Its request would be longer than a server takes.
    TooLong,
    /// There is no client any more.
    Lost(Loss),
}

// What a line is.
#[derive(Clone, Copy, Debug, PartialEq, Eq)]
pub enum Document {
    /// A document.
    Whole,
    /// Nothing: it is empty.
    Nothing,
    /// It is no object of JSON.
    Other,
    Memory,
}

/// What a line is, of those that hold a document each.
pub fn document_in(alloc: Global, line: &str) -> Document {
    if line.as_bytes().trim_ascii().is_empty() {
        return Document::Nothing;
    }
    match Value::from_str(alloc, line) {
        Ok(value) if value.is_object() => Document::Whole,
        Ok(_) => Document::Other,
        Err(error) if error.is_memory() => Document::Memory,
        Err(_) => Document::Other,
    }
}

// What came of an insertion by the results of its answer.
fn counted<L: Link + Drop>(alloc: Global, client: Client<L>, results: &[Value]) -> Inserted<L> {
    match tally_of(alloc, results) {
        Ok(Some(tally)) => Inserted::Told(client, tally),
        Ok(None) => Inserted::Lost(Loss::Strange),
        Err(_) => Inserted::Lost(Loss::Memory),
    }
}

// What came of an insertion by its answer.
fn answered<L: Link + Drop>(alloc: Global, client: Client<L>, answer: &Value) -> Inserted<L> {
    match telling_of(answer) {
        Told::Results { results, more: _ } => counted(alloc, client, results),
        Told::Fault { kind, text, path } => match show_fault(alloc, kind, text, path) {
            Shown::Fault(line) => Inserted::Faulted(line),
            _ => Inserted::Lost(Loss::Memory),
        },
        Told::Strange => Inserted::Lost(Loss::Strange),
    }
}

fn ask<L: Link + Drop>(alloc: Global, client: Client<L>, token: u64, body: &[u8]) -> Inserted<L>
    requires { length body.now < 2 ^ 32 }
{
    match client.ask(token, body) {
        Asked::Answer(client, answer) => answered(alloc, client, &answer),
        Asked::Lost(_link, fault) => Inserted::Lost(Loss::Client(fault)),
    }
}

/// Inserts documents, of which these are the texts, into a table.
pub fn insert<L: Link + Drop>(
    alloc: Global,
    client: Client<L>,
    token: u64,
    table: Table<'_>,
    documents: &[String],
) -> Inserted<L> {
    let Ok(body) = insert_body(alloc, table, documents) else {
        return Inserted::Lost(Loss::Memory);
    };
    if body.len() > LONGEST {
        return Inserted::TooLong;
    }
    ask(alloc, client, token, body.as_slice())
}
