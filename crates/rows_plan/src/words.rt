// Texts that are written one after another.
use reql_datum::{Datum, Items, Name};
use rows_reader::shown;
use std::alloc::Global;

/// Adds a text.
pub(crate) fn put(out: &mut String, text: &str) -> Option<()> {
    out.push_str(text).ok()
}

/// Adds one text or another.
pub(crate) fn put_if(out: &mut String, is: bool, text: &str) -> Option<()> {
    if is {
        return put(out, text);
    }
    Some(())
}

/// Adds a number after a word.
pub(crate) fn put_number(alloc: Global, out: &mut String, word: &str, n: u64) -> Option<()> {
    let text = format!(in alloc; "{word}{n}").ok()?;
    put(out, text.as_str())
}

/// Adds a name after a word.
pub(crate) fn put_name(out: &mut String, word: &str, name: &Name) -> Option<()> {
    put(out, word)?;
    put(out, name.as_str())
}

/// Adds a document.
pub(crate) fn put_document(alloc: Global, out: &mut String, document: &Datum) -> Option<()> {
    let text = shown(alloc, document)?;
    put(out, text.as_str())
}

/// Adds documents as a list, after a word.
pub(crate) fn put_items(alloc: Global, out: &mut String, word: &str, items: &Items) -> Option<()> {
    put(out, word)?;
    let list = Datum::List(items.copy().ok()?);
    let text = shown(alloc, &list);
    drop(list);
    put(out, text?.as_str())
}
