// JSON read to documents, and documents shown.
use reql_datum::Datum;
use reql_json::{JsonFault, ShowFault, from_value, text, to_value};
use reql_spell::{document_text, write_document};
use rows_reader::{number, word};
use serde_json::Value;
use std::alloc::{AllocError, Global};

fn unread(fault: JsonFault) -> &'static str {
    match fault {
        JsonFault::Fraction => "Fraction",
        JsonFault::OverRange => "OverRange",
        JsonFault::Reserved => "Reserved",
        JsonFault::Memory => "Memory",
    }
}

fn unshown(fault: ShowFault) -> &'static str {
    match fault {
        ShowFault::Unshowable => "Unshowable",
        ShowFault::Memory => "Memory",
    }
}

fn by_value(alloc: Global, document: &Datum) -> Option<String> {
    match to_value(alloc, document) {
        Ok(value) => String::from_utf8(text(alloc, &value).ok()?).ok(),
        Err(fault) => word(alloc, unshown(fault)),
    }
}

fn by_document(alloc: Global, document: &Datum) -> Option<String> {
    match document_text(alloc, document) {
        Ok(bytes) => String::from_utf8(bytes).ok(),
        Err(fault) => word(alloc, unshown(fault)),
    }
}

/// A document as it is shown, by a JSON value and without one: both, where they differ.
pub(crate) fn shown_twice(alloc: Global, document: &Datum) -> Option<String> {
    let made = by_value(alloc, document)?;
    let spelled = by_document(alloc, document)?;
    if made.as_str() == spelled.as_str() {
        return Some(spelled);
    }
    format!(in alloc; "{made} by a value, {spelled} without").ok()
}

fn document_of(alloc: Global, value: &Value) -> Option<String> {
    match from_value(alloc, value) {
        Ok(document) => shown_twice(alloc, &document),
        Err(fault) => word(alloc, unread(fault)),
    }
}

fn read(alloc: Global, source: &str) -> Option<String> {
    match Value::from_str(alloc, source) {
        Ok(value) => document_of(alloc, &value),
        Err(_) => word(alloc, "no JSON"),
    }
}

fn document(alloc: Global, source: &str) -> Option<Datum> {
    let value = Value::from_str(alloc, source).ok()?;
    from_value(alloc, &value).ok()
}

fn answer(alloc: Global, document: &Datum) -> Result<Vec<u8>, AllocError> {
    let mut out = Vec::new(alloc);
    out.extend_from_slice(b"{\"r\":")?;
    write_document(&mut out, document)?;
    out.extend_from_slice(b",\"t\":2}")?;
    Ok(out)
}

fn answered(alloc: Global, source: &str) -> Option<String> {
    let bytes = answer(alloc, &document(alloc, source)?).ok()?;
    String::from_utf8(bytes).ok()
}

fn whole_number(alloc: Global, source: &str) -> Option<String> {
    let n = number(&document(alloc, source)?)?;
    format!(in alloc; "{n}").ok()
}

/// Of a text: `read`, the document as it is shown by a JSON value and without one, or why it is none;
/// `number`, the number that it is; `answered`, the object that holds it at `r`, and 2 at `t`.
pub(crate) fn reading_call(alloc: Global, call: &str, source: &str) -> Option<String> {
    match call {
        "read" => read(alloc, source),
        "number" => whole_number(alloc, source),
        "answered" => answered(alloc, source),
        _ => None,
    }
}
