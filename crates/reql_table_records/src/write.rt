// The text of a record, appended with no value made for it.
ghost use Rattle.std.specs.Prelude.{◌≡◌, ◌++◌, map, option_map, OnOk, true, false};
ghost use Rattle.serde_json.specs.Data.{string};
ghost use Rattle.serde_json.specs.Written.{compact_text, items_text};
ghost use Rattle.reql_datum.specs.View.{plain};
ghost use Rattle.reql_table_spec.specs.Engines.{kept_of};
ghost use Rattle.reql_table_records.specs.Records.{record_of, text_of, change_data, new_items, changes_items};
ghost use Rattle.reql_table_records.specs.Records as spec;

use crate::record::TableRecord;
use reql_datum::{Datum, Name};
use reql_records::Record;
use reql_spell::{write_comma, write_document, write_text};
use reql_table_spec::Kept;
use std::alloc::AllocError;

impl Record for TableRecord {
    ghost text = { λ r. text_of (record_of r) };

    fn write(&self, out: &mut Vec<u8>) -> Result<(), AllocError> {
        match self {
            TableRecord::Write(changes) => Ok(write_changes(out, changes)?),
            TableRecord::IndexCreate { name, multi, text } => {
                Ok(write_create(out, name, *multi, text)?)
            }
            TableRecord::IndexDrop(name) => Ok(write_drop(out, name)?),
            TableRecord::IndexRename { old, new } => Ok(write_rename(out, old, new)?),
            TableRecord::Shut => Ok(write_shut(out)?),
        }
    }
}

fn write_name(out: &mut Vec<u8>, name: &Name) -> Result<(), AllocError>
    ensures { OnOk result (out.new.items ≡ out.old.items ++ compact_text (string name.now)) }
{
    Ok(write_text(out, name.as_str())?)
}

// The document that a change leaves, if it leaves one, and the closing bracket.
fn write_new(out: &mut Vec<u8>, new: &Option<Datum>) -> Result<(), AllocError>
    ensures { OnOk result (out.new.items ≡ out.old.items
        ++ items_text true (new_items (option_map plain new.now))) }
{
    if let Some(document) = new {
        out.push(b',')?;
        write_document(out, document)?;
    }
    Ok(out.push(b']')?)
}

fn write_change(out: &mut Vec<u8>, change: &Kept) -> Result<(), AllocError>
    ensures { OnOk result (out.new.items ≡ out.old.items
        ++ compact_text (change_data (kept_of change.now))) }
{
    out.push(b'[')?;
    write_document(out, &change.key)?;
    Ok(write_new(out, &change.new)?)
}

// The changes of a write, and the closing bracket of their array.
fn write_all(out: &mut Vec<u8>, changes: &[Kept]) -> Result<(), AllocError>
    ensures { OnOk result (out.new.items ≡ out.old.items
        ++ items_text false (changes_items (map kept_of changes.now))) }
{
    let mut later = false;
    for change in changes {
        write_comma(out, later)?;
        write_change(out, change)?;
        later = true;
    }
    Ok(out.push(b']')?)
}

fn write_changes(out: &mut Vec<u8>, changes: &[Kept]) -> Result<(), AllocError>
    ensures { OnOk result (out.new.items ≡ out.old.items
        ++ text_of (spec.wrote (map kept_of changes.now))) }
{
    out.extend_from_slice(b"[\"w\",[")?;
    write_all(out, changes)?;
    Ok(out.push(b']')?)
}

fn write_bool(out: &mut Vec<u8>, b: bool) -> Result<(), AllocError>
    ensures { OnOk result (out.new.items ≡ out.old.items ++ compact_text (spec.flag b)) }
{
    if b {
        return Ok(out.extend_from_slice(b"true")?);
    }
    Ok(out.extend_from_slice(b"false")?)
}

fn write_create(out: &mut Vec<u8>, name: &Name, multi: bool, text: &Name) -> Result<(), AllocError>
    ensures { OnOk result (out.new.items ≡ out.old.items
        ++ text_of (spec.created name.now multi text.now)) }
{
    out.extend_from_slice(b"[\"c\",")?;
    write_name(out, name)?;
    out.push(b',')?;
    write_bool(out, multi)?;
    out.push(b',')?;
    write_name(out, text)?;
    Ok(out.push(b']')?)
}

fn write_drop(out: &mut Vec<u8>, name: &Name) -> Result<(), AllocError>
    ensures { OnOk result (out.new.items ≡ out.old.items ++ text_of (spec.dropped name.now)) }
{
    out.extend_from_slice(b"[\"d\",")?;
    write_name(out, name)?;
    Ok(out.push(b']')?)
}

fn write_rename(out: &mut Vec<u8>, old: &Name, new: &Name) -> Result<(), AllocError>
    ensures { OnOk result (out.new.items ≡ out.old.items
        ++ text_of (spec.renamed old.now new.now)) }
{
    out.extend_from_slice(b"[\"r\",")?;
    write_name(out, old)?;
    out.push(b',')?;
    write_name(out, new)?;
    Ok(out.push(b']')?)
}

fn write_shut(out: &mut Vec<u8>) -> Result<(), AllocError>
    ensures { OnOk result (out.new.items ≡ out.old.items ++ text_of spec.shut) }
{
    Ok(out.extend_from_slice(b"[\"x\"]")?)
}
