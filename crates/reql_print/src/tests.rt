use crate::{print, print_index};
use reql_datum::{Datum, Items, Memory, Name};
use reql_read::{Query, read_query};
use reql_term::{Body, Term};
use std::alloc::Global;
use std::test::Fail;

// Bodies as drivers write them, of terms of each form, without options of the query.
const BODIES: [&str; 6] = [
    "[1,[69,[[2,[0]],[31,[[10,[0]],\"n\"]]]]]",
    "[1,[69,[[2],[69,[[2,[7,18446744073709551615]],[24,[[13],-9007199254740991,null,true]]]]]]]",
    "[1,[182,[[15,[\"docs\"]],[180],[181]],{\"index\":\"n\",\"left_bound\":\"open\"}]]",
    "[1,{\"\":[2],\"a\":{},\"b\":[2,[1,\"\\u0000\\\"\\\\/é\"]]}]",
    "[1,[59]]",
    "[1,[2,[{\"$reql_type$\":\"BINARY\",\"data\":\"AAECAw==\"},\
{\"$reql_type$\":\"TIME\",\"epoch_time\":1700000000,\"timezone\":\"-05:30\"}]]]",
];

// Bodies that are written otherwise, and how their terms are printed.
const SPELLED: [(&str, &str); 3] = [
    ("[1,[59,[],{}],{\"noreply\":true}]", "[1,[59]]"),
    (
        "[1,[3,[],{\"b\":[3],\"a\":[10,[1],{}]}]]",
        "[1,{\"a\":[10,[1]],\"b\":{}}]",
    ),
    (" [1, [2 , [ 1 , \"\\u00e9\" ]] ] ", "[1,[2,[1,\"é\"]]]"),
];

// Whether the term of a body is printed as this text.
fn is_printed_as(alloc: Global, body: &str, text: &str) -> Result<bool, Fail> {
    match read_query(alloc, body.as_bytes()) {
        Ok(Query::Start { term, .. }) => match print(alloc, &term)? {
            Some(printed) => Ok(printed.as_slice() == text.as_bytes()),
            None => Ok(false),
        },
        _ => Ok(false),
    }
}

// Whether each of the bodies is printed so.
fn are_printed(alloc: Global) -> Result<bool, Fail> {
    for &body in &BODIES {
        if !is_printed_as(alloc, body, body)? {
            return Ok(false);
        }
    }
    for &(body, text) in &SPELLED {
        if !is_printed_as(alloc, body, text)? {
            return Ok(false);
        }
    }
    Ok(true)
}

#[test]
fn bodies_are_printed_as_drivers_write_them(rt: HostRuntime) -> Result<(), Fail> {
    let alloc = rt.alloc();
    let printed = are_printed(alloc)?;
    assert!(rt; printed);
    Ok(())
}

// An array of a key and null, in the place of an index's function.
fn constant(alloc: Global) -> Result<Body, Memory> {
    let mut items = Items::new(alloc);
    items.push(Datum::Text(Name::of(alloc, "a")?))?;
    items.push(Datum::Null)?;
    Ok(Body::new(alloc, Term::Lit(Datum::List(items)))?)
}

// Whether it is printed with its key alone in a multi index, and as null in another.
fn is_printed_by_entries(alloc: Global, multi: bool) -> Result<bool, Fail> {
    let func = constant(alloc)?;
    let wanted = if multi { "[1,[2,[\"a\"]]]" } else { "[1,null]" };
    match print_index(alloc, &func, multi)? {
        Some(printed) => Ok(printed.as_slice() == wanted.as_bytes()),
        None => Ok(false),
    }
}

#[test]
fn constants_of_indexes_are_printed_by_their_entries(rt: HostRuntime) -> Result<(), Fail> {
    let alloc = rt.alloc();
    let single = is_printed_by_entries(alloc, false)?;
    let multi = is_printed_by_entries(alloc, true)?;
    let slot = print(alloc, &Term::Slot(3))?.is_none();
    assert_eq!(rt; (single, multi, slot), (true, true, true));
    Ok(())
}
