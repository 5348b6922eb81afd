// Documents as rows write them.
use crate::marked::marked;
use reql_datum::{Datum, Fields, Items};
use reql_json::from_value;
use reql_spell::document_text;
use serde_json::Value;
use std::alloc::Global;

/// The arguments of a row as documents.
pub fn arguments(alloc: Global, source: &str) -> Option<Items> {
    let value = Value::from_str(alloc, source).ok()?;
    let document = from_value(alloc, &value).ok()?;
    match marked(alloc, &document).ok()? {
        Datum::List(items) => Some(items),
        _ => None,
    }
}

/// A document as rows write it, if it may be shown.
pub fn shown(alloc: Global, document: &Datum) -> Option<String> {
    let bytes = document_text(alloc, document).ok()?;
    String::from_utf8(bytes).ok()
}

/// A document as rows write it, or `none`.
pub fn shown_or_none(alloc: Global, document: Option<&Datum>) -> Option<String> {
    match document {
        Some(document) => shown(alloc, document),
        None => word(alloc, "none"),
    }
}

/// A word.
pub fn word(alloc: Global, text: &str) -> Option<String> {
    String::from_str(alloc, text).ok()
}

/// The items of a list.
pub fn list(document: &Datum) -> Option<&Items> {
    match document {
        Datum::List(items) => Some(items),
        _ => None,
    }
}

/// A number.
pub fn number(document: &Datum) -> Option<i64> {
    match document {
        Datum::Num(n) => Some(n.get()),
        _ => None,
    }
}

/// A text.
pub fn text(document: &Datum) -> Option<&str> {
    match document {
        Datum::Text(name) => Some(name.as_str()),
        _ => None,
    }
}

/// The members of an object.
pub fn object(document: &Datum) -> Option<&Fields> {
    match document {
        Datum::Obj(fields) => Some(fields),
        _ => None,
    }
}
