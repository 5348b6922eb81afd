// The records of a block's body, as they are read.
ghost use Rattle.std.specs.Prelude.{◌≡◌, map, option_map, IfOk};
ghost use Rattle.serde_json.specs.View.{view, items_view};
ghost use Rattle.reql_datum.specs.View.{plain};
ghost use Rattle.reql_table_spec.specs.Engines.{kept_of};
ghost use Rattle.reql_rules.specs.Types.{same_text};
ghost use Rattle.reql_table_records.specs.Records.{record_of, dropped};
ghost use Rattle.reql_table_records.specs.Reading.{document_in, new_in, change_parts, change_in, changes_in, only, two, three, wrote_of, wrote_in, created_of, created_in, dropped_in, renamed_of, renamed_in, shut_in, tagged_in, record_parts, record_in, all_in, body_value, body_records};

use crate::record::TableRecord;
use reql_datum::{Datum, Memory, Name};
use reql_json::{JsonFault, from_value};
use reql_table_spec::Kept;
use serde_json::Value;
use std::alloc::Global;

fn document_in(alloc: Global, v: &Value) -> Result<Option<Datum>, Memory>
    ensures { IfOk result (λ o. option_map plain o ≡ document_in (view v.now)) }
{
    match from_value(alloc, v) {
        Ok(document) => Ok(Some(document)),
        Err(JsonFault::Memory) => Err(Memory),
        Err(JsonFault::Fraction) => Ok(None),
        Err(JsonFault::OverRange) => Ok(None),
        Err(JsonFault::Reserved) => Ok(None),
    }
}

// What a change leaves at its key.
fn new_in(alloc: Global, parts: &[Value]) -> Result<Option<Option<Datum>>, Memory>
    ensures { IfOk result (λ o. option_map (option_map plain) o ≡ new_in (items_view parts.now)) }
{
    let [document, rest @ ..] = parts else {
        return Ok(Some(None));
    };
    let [] = rest else {
        return Ok(None);
    };
    match document_in(alloc, document)? {
        Some(document) => Ok(Some(Some(document))),
        None => Ok(None),
    }
}

fn change_parts(alloc: Global, parts: &[Value]) -> Result<Option<Kept>, Memory>
    ensures { IfOk result (λ o. option_map kept_of o ≡ change_parts (items_view parts.now)) }
{
    let [key, rest @ ..] = parts else {
        return Ok(None);
    };
    let Some(key) = document_in(alloc, key)? else {
        return Ok(None);
    };
    match new_in(alloc, rest)? {
        Some(new) => Ok(Some(Kept { key, new })),
        None => Ok(None),
    }
}

fn change_in(alloc: Global, v: &Value) -> Result<Option<Kept>, Memory>
    ensures { IfOk result (λ o. option_map kept_of o ≡ change_in (view v.now)) }
{
    match v.as_array() {
        Some(parts) => change_parts(alloc, parts.as_slice()),
        None => Ok(None),
    }
}

fn changes_in(alloc: Global, items: &[Value]) -> Result<Option<Vec<Kept>>, Memory>
    ensures { IfOk result (λ o. option_map (λ ks. map kept_of ks.items) o
        ≡ changes_in (items_view items.now)) }
{
    let mut changes = Vec::new(alloc);
    for item in items {
        match change_in(alloc, item)? {
            Some(change) => changes.push(change)?,
            None => return Ok(None),
        }
    }
    Ok(Some(changes))
}

// The one value that is there, if it is one.
fn only(parts: &[Value]) -> Option<&Value>
    ensures { option_map (λ v. view v.now) result ≡ only (items_view parts.now) }
{
    let [first, rest @ ..] = parts else {
        return None;
    };
    let [_, ..] = rest else {
        return Some(first);
    };
    None
}

fn two(parts: &[Value]) -> Option<(&Value, &Value)>
    ensures { option_map (λ p. (view p.0.now, view p.1.now)) result ≡ two (items_view parts.now) }
{
    let [first, rest @ ..] = parts else {
        return None;
    };
    match only(rest) {
        Some(second) => Some((first, second)),
        None => None,
    }
}

fn three(parts: &[Value]) -> Option<(&Value, (&Value, &Value))>
    ensures { option_map (λ p. (view p.0.now, (view p.1.0.now, view p.1.1.now))) result
        ≡ three (items_view parts.now) }
{
    let [first, rest @ ..] = parts else {
        return None;
    };
    match two(rest) {
        Some(others) => Some((first, others)),
        None => None,
    }
}

fn wrote_of(alloc: Global, changes: &Value) -> Result<Option<TableRecord>, Memory>
    ensures { IfOk result (λ o. option_map record_of o ≡ wrote_of (view changes.now)) }
{
    let Some(items) = changes.as_array() else {
        return Ok(None);
    };
    match changes_in(alloc, items.as_slice())? {
        Some(changes) => Ok(Some(TableRecord::Write(changes))),
        None => Ok(None),
    }
}

fn wrote_in(alloc: Global, parts: &[Value]) -> Result<Option<TableRecord>, Memory>
    ensures { IfOk result (λ o. option_map record_of o ≡ wrote_in (items_view parts.now)) }
{
    match only(parts) {
        Some(changes) => wrote_of(alloc, changes),
        None => Ok(None),
    }
}

fn created_of(
    alloc: Global,
    name: Option<&str>,
    multi: Option<bool>,
    text: Option<&str>,
) -> Result<Option<TableRecord>, Memory>
    ensures { IfOk result (λ o. option_map record_of o ≡ created_of
        (option_map (λ s. s.now) name.entry) multi (option_map (λ s. s.now) text.entry)) }
{
    let (Some(name), Some(multi), Some(text)) = (name, multi, text) else {
        return Ok(None);
    };
    Ok(Some(TableRecord::IndexCreate {
        name: Name::of(alloc, name)?,
        multi,
        text: Name::of(alloc, text)?,
    }))
}

fn created_in(alloc: Global, parts: &[Value]) -> Result<Option<TableRecord>, Memory>
    ensures { IfOk result (λ o. option_map record_of o ≡ created_in (items_view parts.now)) }
{
    match three(parts) {
        Some((name, (multi, text))) => {
            created_of(alloc, name.as_str(), multi.as_bool(), text.as_str())
        }
        None => Ok(None),
    }
}

fn dropped_of(alloc: Global, name: Option<&str>) -> Result<Option<TableRecord>, Memory>
    ensures { IfOk result (λ o. option_map record_of o
        ≡ option_map dropped (option_map (λ s. s.now) name.entry)) }
{
    match name {
        Some(name) => Ok(Some(TableRecord::IndexDrop(Name::of(alloc, name)?))),
        None => Ok(None),
    }
}

fn dropped_in(alloc: Global, parts: &[Value]) -> Result<Option<TableRecord>, Memory>
    ensures { IfOk result (λ o. option_map record_of o ≡ dropped_in (items_view parts.now)) }
{
    match only(parts) {
        Some(name) => dropped_of(alloc, name.as_str()),
        None => Ok(None),
    }
}

fn renamed_of(
    alloc: Global,
    old: Option<&str>,
    new: Option<&str>,
) -> Result<Option<TableRecord>, Memory>
    ensures { IfOk result (λ o. option_map record_of o ≡ renamed_of
        (option_map (λ s. s.now) old.entry) (option_map (λ s. s.now) new.entry)) }
{
    let (Some(old), Some(new)) = (old, new) else {
        return Ok(None);
    };
    Ok(Some(TableRecord::IndexRename {
        old: Name::of(alloc, old)?,
        new: Name::of(alloc, new)?,
    }))
}

fn renamed_in(alloc: Global, parts: &[Value]) -> Result<Option<TableRecord>, Memory>
    ensures { IfOk result (λ o. option_map record_of o ≡ renamed_in (items_view parts.now)) }
{
    match two(parts) {
        Some((old, new)) => renamed_of(alloc, old.as_str(), new.as_str()),
        None => Ok(None),
    }
}

fn shut_in(parts: &[Value]) -> Option<TableRecord>
    ensures { option_map record_of result ≡ shut_in (items_view parts.now) }
{
    let [_first, _rest @ ..] = parts else {
        return Some(TableRecord::Shut);
    };
    None
}

fn is(letter: &str, kind: &str) -> bool
    ensures { result ≡ same_text letter.now kind.now }
{
    letter.cmp(kind).is_eq()
}

// What follows the letter of a kind.
fn tagged_in(alloc: Global, letter: &str, parts: &[Value]) -> Result<Option<TableRecord>, Memory>
    ensures { IfOk result (λ o. option_map record_of o
        ≡ tagged_in letter.now (items_view parts.now)) }
{
    if is(letter, "w") {
        return wrote_in(alloc, parts);
    }
    if is(letter, "c") {
        return created_in(alloc, parts);
    }
    if is(letter, "d") {
        return dropped_in(alloc, parts);
    }
    if is(letter, "r") {
        return renamed_in(alloc, parts);
    }
    if is(letter, "x") {
        return Ok(shut_in(parts));
    }
    Ok(None)
}

fn record_parts(alloc: Global, parts: &[Value]) -> Result<Option<TableRecord>, Memory>
    ensures { IfOk result (λ o. option_map record_of o ≡ record_parts (items_view parts.now)) }
{
    let [letter, rest @ ..] = parts else {
        return Ok(None);
    };
    match letter.as_str() {
        Some(letter) => tagged_in(alloc, letter, rest),
        None => Ok(None),
    }
}

fn record_in(alloc: Global, v: &Value) -> Result<Option<TableRecord>, Memory>
    ensures { IfOk result (λ o. option_map record_of o ≡ record_in (view v.now)) }
{
    match v.as_array() {
        Some(parts) => record_parts(alloc, parts.as_slice()),
        None => Ok(None),
    }
}

fn all_in(alloc: Global, items: &[Value]) -> Result<Option<Vec<TableRecord>>, Memory>
    ensures { IfOk result (λ o. option_map (λ rs. map record_of rs.items) o
        ≡ all_in (items_view items.now)) }
{
    let mut records = Vec::new(alloc);
    for item in items {
        match record_in(alloc, item)? {
            Some(record) => records.push(record)?,
            None => return Ok(None),
        }
    }
    Ok(Some(records))
}

// The value of a JSON text, if it is one.
fn value_in(alloc: Global, body: &[u8]) -> Result<Option<Value>, Memory>
    ensures { IfOk result (λ o. option_map view o ≡ body_value body.now) }
{
    match Value::from_slice(alloc, body) {
        Ok(value) => Ok(Some(value)),
        Err(e) if e.is_memory() => Err(Memory),
        Err(_) => Ok(None),
    }
}

/// The records of a block's body, a JSON array of them in their order. None where it isn't of the
/// format.
///
/// A value is read where it nests no deeper than 127 levels of arrays and objects, so a document of a
/// write where it nests no deeper than 123.
pub fn records_in(alloc: Global, body: &[u8]) -> Result<Option<Vec<TableRecord>>, Memory>
    ensures { IfOk result (λ o. option_map (λ rs. map record_of rs.items) o ≡ body_records body.now) }
{
    let Some(value) = value_in(alloc, body)? else {
        return Ok(None);
    };
    match value.as_array() {
        Some(items) => all_in(alloc, items.as_slice()),
        None => Ok(None),
    }
}
