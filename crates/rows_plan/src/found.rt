// What a move of a request is answered.
use crate::catalog::{change_of, names_of};
use crate::replies::reply_of;
use crate::tables::look_of;
use reql_datum::Datum;
use reql_plan::Found;
use reql_table::Table;
use rows_reader::{list, number, object};
use std::alloc::Global;

/// What a move is answered: an object of one name.
pub(crate) fn found_of(alloc: Global, answer: &Datum) -> Option<Found<Table>> {
    let (kind, described) = object(answer)?.at(0)?;
    match kind.as_str() {
        "names" => Some(Found::Names(names_of(alloc, list(described)?)?)),
        "told" => Some(Found::Told(told_of(described)?)),
        "look" => Some(Found::Look(look_of(alloc, described)?)),
        "changed" => Some(Found::Changed(change_of(alloc, described)?)),
        "rolled" => Some(Found::Rolled(rolled_of(described)?)),
        kind => Some(Found::Ran(reply_of(alloc, kind, described)?)),
    }
}

// A number, or none where it is null.
fn told_of(told: &Datum) -> Option<Option<i64>> {
    match told {
        Datum::Null => Some(None),
        _ => Some(Some(number(told)?)),
    }
}

// 16 bytes, or none where the first is null.
fn rolled_of(first: &Datum) -> Option<Option<[u8; 16]>> {
    match first {
        Datum::Null => Some(None),
        _ => Some(Some(rising(first)?)),
    }
}

// 16 bytes that rise from a first one.
fn rising(first: &Datum) -> Option<[u8; 16]> {
    let mut next = u8::try_from(number(first)?).ok()?;
    let mut bytes = [0; 16];
    for byte in &mut bytes {
        *byte = next;
        next = next.wrapping_add(1);
    }
    Some(bytes)
}
