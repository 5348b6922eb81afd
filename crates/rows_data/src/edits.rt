// Objects and lists that are edited, and their copies, which stay.
use crate::documents::kind;
use crate::reading::shown_twice;
use reql_datum::{Datum, Fields, Items, Memory, Name};
use rows_reader::{list, shown, shown_or_none, text};
use std::alloc::Global;

fn put(alloc: Global, fields: &mut Fields, name: &str, value: &Datum) -> Result<(), Memory> {
    let key = Name::of(alloc, name)?;
    let value = value.copy()?;
    drop(fields.put(key, value)?);
    Ok(())
}

fn remove(fields: &mut Fields, name: &str) -> Result<(), Memory> {
    drop(fields.remove(name)?);
    Ok(())
}

// An edit [name, value] puts, an edit [name] removes.
fn edit(alloc: Global, fields: &mut Fields, edit: &Items) -> Option<()> {
    let name = text(edit.at(0)?)?;
    match edit.at(1) {
        Some(value) => put(alloc, fields, name, value).ok(),
        None => remove(fields, name).ok(),
    }
}

fn edited(alloc: Global, args: &Items) -> Option<Fields> {
    let mut fields = Fields::new(alloc);
    for step in list(args.at(0)?)?.as_slice() {
        edit(alloc, &mut fields, list(step)?)?;
    }
    Some(fields)
}

fn object(alloc: Global, args: &Items) -> Option<Datum> {
    Some(Datum::Obj(edited(alloc, args)?))
}

// How many names, and the members by rising names.
fn members(alloc: Global, fields: &Fields) -> Option<String> {
    let told = shown(alloc, &Datum::Obj(fields.copy().ok()?))?;
    format!(in alloc; "{} names {told}", fields.len()).ok()
}

fn member(alloc: Global, args: &Items) -> Option<String> {
    let fields = edited(alloc, args)?;
    shown_or_none(alloc, fields.get(text(args.at(1)?)?))
}

fn first_name(alloc: Global, args: &Items) -> Option<String> {
    let fields = edited(alloc, args)?;
    let (name, _) = fields.at(0)?;
    String::from_str(alloc, name.as_str()).ok()
}

fn removed(alloc: Global, args: &Items) -> Option<String> {
    let mut fields = edited(alloc, args)?;
    let shared = fields.copy().ok()?;
    let was = fields.remove(text(args.at(1)?)?).ok()?;
    let was = shown_or_none(alloc, was.as_ref())?;
    let after = members(alloc, &fields)?;
    let copy = members(alloc, &shared)?;
    format!(in alloc; "{was}, left {after}, copy {copy}").ok()
}

// Puts a value at a name of an object that is shared.
fn replaced(alloc: Global, args: &Items) -> Option<String> {
    let mut fields = edited(alloc, args)?;
    let shared = fields.copy().ok()?;
    let key = Name::of(alloc, text(args.at(1)?)?).ok()?;
    let was = fields.put(key, args.at(2)?.copy().ok()?).ok()?;
    let was = shown_or_none(alloc, was.as_ref())?;
    let after = members(alloc, &fields)?;
    let copy = members(alloc, &shared)?;
    format!(in alloc; "{was}, now {after}, copy {copy}").ok()
}

fn push_all(items: &mut Items, more: &Items) -> Result<(), Memory> {
    for item in more.as_slice() {
        items.push(item.copy()?)?;
    }
    Ok(())
}

fn pushed(alloc: Global, args: &Items) -> Option<String> {
    let mut items = Items::new(alloc);
    push_all(&mut items, list(args.at(0)?)?).ok()?;
    let shared = items.copy().ok()?;
    push_all(&mut items, list(args.at(1)?)?).ok()?;
    let (copy, now) = (shared.len(), items.len());
    let first = items.at(0)?.type_name();
    format!(in alloc; "{now} items, {first} first, copy {copy}").ok()
}

/// Of an object that is made by edits, where [name, value] puts and [name] removes: `edited`, its
/// type, its depth and whether it may be stored; `edited_shown`, as it is shown, or why not; `member`
/// at a name; `first_name`; `removed`, what was at a name, what is left, and a copy made before;
/// `replaced`, the same where a value is put at it.
/// `pushed` of two lists: one and then the other pushed to a list, with a copy made between.
pub(crate) fn edit_call(alloc: Global, call: &str, args: &Items) -> Option<String> {
    match call {
        "edited" => kind(alloc, &object(alloc, args)?),
        "edited_shown" => shown_twice(alloc, &object(alloc, args)?),
        "member" => member(alloc, args),
        "first_name" => first_name(alloc, args),
        "removed" => removed(alloc, args),
        "replaced" => replaced(alloc, args),
        "pushed" => pushed(alloc, args),
        _ => None,
    }
}
