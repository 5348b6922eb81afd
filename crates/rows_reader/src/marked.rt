// Documents with MINVAL, MAXVAL and LITERALs, which have no JSON.
use reql_datum::{Datum, Fields, Items, Memory, Name};
use std::alloc::Global;

// A LITERAL of a value, or of nothing in the place of null.
fn literal(alloc: Global, value: Datum) -> Result<Datum, Memory> {
    let mut fields = Fields::new(alloc);
    let mark = Datum::Text(Name::of(alloc, "LITERAL")?);
    drop(fields.put(Name::of(alloc, "$reql_type$")?, mark)?);
    match value {
        Datum::Null => {}
        _ => drop(fields.put(Name::of(alloc, "value")?, value)?),
    }
    Ok(Datum::Obj(fields))
}

// What an object of one name stands for.
fn unveiled(alloc: Global, fields: Fields) -> Result<Datum, Memory> {
    if fields.len() != 1 {
        return Ok(Datum::Obj(fields));
    }
    if fields.get("minval").is_some() {
        return Ok(Datum::Low);
    }
    if fields.get("maxval").is_some() {
        return Ok(Datum::High);
    }
    match fields.get("literal") {
        Some(value) => literal(alloc, value.copy()?),
        None => Ok(Datum::Obj(fields)),
    }
}

/// A document in which each object that stands for what JSON has not has become that.
#[cycle(marked)]
#[tactic(auto, using(reql_datum::proofs::Walks::walks))]
pub(crate) fn marked(alloc: Global, document: &Datum) -> Result<Datum, Memory> {
    match document {
        Datum::List(items) => Ok(Datum::List(marked_items(alloc, items)?)),
        Datum::Obj(fields) => unveiled(alloc, marked_fields(alloc, fields)?),
        _ => document.copy(),
    }
}

#[cycle(marked)]
#[tactic(auto, using(reql_datum::proofs::Walks::walks))]
fn marked_items(alloc: Global, items: &Items) -> Result<Items, Memory> {
    let mut done = Items::new(alloc);
    let mut place = 0;
    while let Some(item) = items.at(place) {
        done.push(marked(alloc, item)?)?;
        place += 1;
    }
    Ok(done)
}

#[cycle(marked)]
#[tactic(auto, using(reql_datum::proofs::Walks::walks))]
fn marked_fields(alloc: Global, fields: &Fields) -> Result<Fields, Memory> {
    let mut done = Fields::new(alloc);
    let mut place = 0;
    while let Some((name, value)) = fields.at(place) {
        let name = name.copy()?;
        drop(done.put(name, marked(alloc, value)?)?);
        place += 1;
    }
    Ok(done)
}
