// Documents that are large, deep or wide, made by numbers.
use crate::order::are_equal;
use reql_datum::{Datum, Fields, Items, Memory, Name};
use rows_reader::{number, text, word};
use std::alloc::Global;

/// The number at a place.
pub(crate) fn count_at(args: &Items, place: usize) -> Option<u32> {
    u32::try_from(number(args.at(place)?)?).ok()
}

fn around(alloc: Global, item: Datum) -> Result<Datum, Memory> {
    let mut items = Items::new(alloc);
    items.push(item)?;
    Ok(Datum::List(items))
}

fn nest(alloc: Global, deep: u32) -> Result<Datum, Memory> {
    let mut nest = Datum::Null;
    for _ in 0..deep {
        nest = around(alloc, nest)?;
    }
    Ok(nest)
}

fn nested(alloc: Global, args: &Items) -> Option<String> {
    let deep = nest(alloc, count_at(args, 0)?).ok()?;
    let copy = deep.copy().ok()?;
    if !are_equal(&deep, &copy) {
        return word(alloc, "another");
    }
    format!(in alloc; "depth {}", copy.depth()).ok()
}

fn repeated(alloc: Global, item: &Datum, times: u32) -> Result<Datum, Memory> {
    let mut items = Items::new(alloc);
    for _ in 0..times {
        items.push(item.copy()?)?;
    }
    Ok(Datum::List(items))
}

fn is_list(document: &Datum) -> bool {
    matches!(document, Datum::List(_))
}

fn copy_often(document: &Datum, times: u32) -> Result<u32, Memory> {
    let mut lists = 0u32;
    for _ in 0..times {
        let copy = document.copy()?;
        if is_list(&copy) {
            lists = lists.wrapping_add(1);
        }
    }
    Ok(lists)
}

fn copies(alloc: Global, args: &Items) -> Option<String> {
    let row = repeated(alloc, &Datum::Bool(true), count_at(args, 1)?).ok()?;
    let many = repeated(alloc, &row, count_at(args, 0)?).ok()?;
    let lists = copy_often(&many, count_at(args, 2)?).ok()?;
    format!(in alloc; "{lists} copies").ok()
}

fn put_null(alloc: Global, fields: &mut Fields, number: u32) -> Option<()> {
    let digits = format!(in alloc; "{number:06}").ok()?;
    let name = Name::of(alloc, digits.as_str()).ok()?;
    drop(fields.put(name, Datum::Null).ok()?);
    Some(())
}

fn wide(alloc: Global, names: u32) -> Option<Fields> {
    let mut fields = Fields::new(alloc);
    for number in 0..names {
        put_null(alloc, &mut fields, number)?;
    }
    Some(fields)
}

fn found(fields: &Fields, name: &str, times: u32) -> u32 {
    let mut hits = 0u32;
    for _ in 0..times {
        if fields.get(name).is_some() {
            hits = hits.wrapping_add(1);
        }
    }
    hits
}

fn names(alloc: Global, args: &Items) -> Option<String> {
    let fields = wide(alloc, count_at(args, 0)?)?;
    let hits = found(&fields, text(args.at(1)?)?, count_at(args, 2)?);
    format!(in alloc; "{} names, {hits} found", fields.len()).ok()
}

/// `nested`, the depth of a list in a list and so on, so often, which equals its copy; `copies` of a
/// list of so many lists of so many documents, made so often; `names`, how many an object has that is
/// made of so many rising ones, the numbers from 0 on in six digits, and how many looks at one find it.
pub(crate) fn size_call(alloc: Global, call: &str, args: &Items) -> Option<String> {
    match call {
        "nested" => nested(alloc, args),
        "copies" => copies(alloc, args),
        "names" => names(alloc, args),
        _ => None,
    }
}
