// Documents: their order, their types, their depth, and what may be shown, stored and be a key.
use crate::order::are_equal;
use crate::reading::shown_twice;
use reql_datum::{Datum, Items, Memory};
use rows_reader::{shown, word};
use std::alloc::Global;

fn sorted(alloc: Global, list: &Items) -> Result<Items, Memory> {
    let mut held = Vec::new(alloc);
    for item in list.as_slice() {
        held.push(item.copy()?)?;
    }
    held.sort()?;
    let mut items = Items::with_room(alloc, held.len())?;
    for item in held {
        items.push(item)?;
    }
    Ok(items)
}

fn in_order(alloc: Global, args: &Items) -> Option<String> {
    shown(alloc, &Datum::List(sorted(alloc, args).ok()?))
}

fn answer(alloc: Global, holds: bool) -> Option<String> {
    word(alloc, if holds { "true" } else { "false" })
}

fn is_less(left: &Datum, right: &Datum) -> bool {
    *left < *right
}

fn equals_its_copy(document: &Datum) -> Option<bool> {
    let copy = document.copy().ok()?;
    Some(are_equal(document, &copy))
}

/// The type of a document, its depth, and whether it may be stored.
pub(crate) fn kind(alloc: Global, document: &Datum) -> Option<String> {
    let stored = if document.is_storable() {
        "stored"
    } else {
        "not stored"
    };
    let (name, depth) = (document.type_name(), document.depth());
    format!(in alloc; "{name}, depth {depth}, {stored}").ok()
}

/// `sorted`, the documents in order; `less`, whether the first is below the second. Of one document:
/// `copied`, whether it equals its copy; `is_key`; `kind`, its type, its depth and whether it may be
/// stored; `shown`, as it is shown, or why not.
pub(crate) fn document_call(alloc: Global, call: &str, args: &Items) -> Option<String> {
    match call {
        "sorted" => in_order(alloc, args),
        "less" => answer(alloc, is_less(args.at(0)?, args.at(1)?)),
        "copied" => answer(alloc, equals_its_copy(args.at(0)?)?),
        "is_key" => answer(alloc, args.at(0)?.is_key()),
        "kind" => kind(alloc, args.at(0)?),
        "shown" => shown_twice(alloc, args.at(0)?),
        _ => None,
    }
}
