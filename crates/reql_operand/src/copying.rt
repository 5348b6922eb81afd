// Copies of values, by counts of sharers.
ghost use Rattle.std.specs.Prelude.{◌≡◌, List, IfOk, map, option_map};
ghost use Rattle.reql_datum.specs.Plain.{Plain};
ghost use Rattle.reql_datum.specs.View.{plain};
ghost use Rattle.reql_value_spec.specs.World.{World as Seen};
ghost use Rattle.reql_operand.specs.Seen.{meant, slice as slice_of, left_of, group};

use crate::value::{Bounds, Group, Slice, Value};
use reql_datum::{Datum, Memory};
use std::alloc::Global;

fn copy_slice(slice: &Slice) -> Result<Slice, Memory>
    ensures kind { IfOk result (λ s. slice_of s ≡ slice_of slice.now) }
    ensures left { (ds : List Plain) → IfOk result (λ s. left_of s ds ≡ left_of slice.now ds) }
{
    match slice {
        Slice::Between(bounds) => Ok(Slice::Between(Bounds {
            index: bounds.index.copy()?,
            low: bounds.low.copy()?,
            high: bounds.high.copy()?,
        })),
        Slice::InOrder => Ok(Slice::InOrder),
        Slice::Rest(passed) => Ok(Slice::Rest(*passed)),
    }
}

fn copy_document(document: &Option<Datum>) -> Result<Option<Datum>, Memory>
    ensures { IfOk result (λ d. option_map plain d ≡ option_map plain document.now) }
{
    match document {
        Some(d) => Ok(Some(d.copy()?)),
        None => Ok(None),
    }
}

fn copy_groups(alloc: Global, groups: &[Group]) -> Result<Vec<Group>, Memory>
    ensures { IfOk result (λ gs. map group gs.items ≡ map group groups.now) }
{
    let mut copies = Vec::new(alloc);
    for g in groups {
        let group = g.group.copy()?;
        let value = g.value.copy()?;
        copies.push(Group { group, value })?;
    }
    Ok(copies)
}

/// An equal value that shares what it holds. Memory where a count of sharers is full, or where
/// there is no room for its groups.
pub fn copy_value(alloc: Global, value: &Value) -> Result<Value, Memory>
    ensures { (w : Seen) → IfOk result (λ v. meant w v ≡ meant w value.now) }
{
    match value {
        Value::One(d) => Ok(Value::One(d.copy()?)),
        Value::Stream(items) => Ok(Value::Stream(items.copy()?)),
        Value::Selection { slot, rows, list } => Ok(Value::Selection {
            slot: *slot,
            rows: *rows,
            list: list.copy()?,
        }),
        Value::Unread { slot, slice, range } => Ok(Value::Unread {
            slot: *slot,
            slice: copy_slice(slice)?,
            range: range.copy()?,
        }),
        Value::Row {
            slot,
            key,
            document,
        } => Ok(Value::Row {
            slot: *slot,
            key: key.copy()?,
            document: copy_document(document)?,
        }),
        Value::Table(slot) => Ok(Value::Table(*slot)),
        Value::Grouped(groups) => Ok(Value::Grouped(copy_groups(alloc, groups)?)),
        Value::Database(name) => Ok(Value::Database(name.copy()?)),
        Value::Function => Ok(Value::Function),
    }
}
