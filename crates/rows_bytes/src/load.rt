use reql_datum::{Datum, Fields, Items, Memory, Name, Whole};
use reql_load::{fold_check, script};
use std::alloc::Global;
use std::test::Fail;

// What session 0 sends of 5 documents with the seed 7, made by another program.
const FIVE: &[u8] = b" -\x0c@\0\0\0\0\xc7pi~\
\x01\0\0\0\0\0\0\0M\0\0\0\
[1,[152,[[182,[[15,[\"load\"]],0,25],{\"index\":\"n\"}]],{\"include_initial\":true}]]\
\x02\0\0\0\0\0\0\0h\0\0\0\
[1,[152,[[71,[[41,[[15,[\"load\"]]],{\"index\":\"n\"}],10]]],{\"include_initial\":true,\"include_offsets\":true}]]\
\x03\0\0\0\0\0\0\0=\0\0\0\
[1,[56,[[15,[\"load\"]],[2,[{\"id\":0,\"n\":7},{\"id\":4,\"n\":11}]]]]]\
\x04\0\0\0\0\0\0\0T\0\0\0\
[1,[53,[[16,[[15,[\"load\"]],0]],[69,[[2,[1]],{\"n\":[24,[[170,[[10,[1]],\"n\"]],1]]}]]]]]\
\x05\0\0\0\0\0\0\0!\0\0\0\
[1,[54,[[16,[[15,[\"load\"]],4]]]]]\
\x01\0\0\0\0\0\0\0\x03\0\0\0\
[2]\
\x02\0\0\0\0\0\0\0\x03\0\0\0\
[2]\
\x01\0\0\0\0\0\0\0\x03\0\0\0\
[3]\
\x02\0\0\0\0\0\0\0\x03\0\0\0\
[3]";

const INDEX: &[u8] =
    b" -\x0c@\0\0\0\0\xc7pi~\x01\0\0\0\0\0\0\0\x1c\0\0\0[1,[75,[[15,[\"load\"]],\"n\"]]]";

// Members of an item, each with a number.
type Members = &'static [(&'static str, i64)];

// An opening value, the items over it, what is wanted, and whether they fold to it.
const FOLDS: [(&[i64], &[Members], &[i64], bool); 13] = [
    (&[], &[], &[], true),
    (&[1], &[], &[], false),
    (&[2, 1], &[], &[2, 1], true),
    (
        &[2, 1, 1],
        &[&[("old_val", 1), ("new_val", 3)], &[("state", 0)]],
        &[1, 2, 3],
        true,
    ),
    (&[2, 1], &[&[("new_val", 0)]], &[0, 2, 1], false),
    (&[2, 1], &[&[("old_val", 3)]], &[1, 2], false),
    (
        &[2, 1],
        &[&[("error", 0)], &[("old_offset", 0)]],
        &[1],
        false,
    ),
    (&[2, 1], &[&[("old_offset", 0), ("old_val", 2)]], &[1], true),
    (
        &[2, 1],
        &[&[("old_offset", 0), ("new_offset", 1), ("new_val", 2)]],
        &[1, 2],
        true,
    ),
    (
        &[2, 1],
        &[&[("old_offset", 0), ("new_offset", 2), ("new_val", 2)]],
        &[1, 2],
        false,
    ),
    (&[2, 1], &[&[("old_offset", 2)]], &[2, 1], false),
    (
        &[2, 1],
        &[&[("new_offset", -1), ("new_val", 2)]],
        &[2, 1],
        false,
    ),
    (
        &[2, 1],
        &[&[("new_offset", 0), ("new_val", 3)], &[("old_val", 2)]],
        &[1, 3],
        true,
    ),
];

fn number(n: i64) -> Datum {
    match Whole::new(n) {
        Some(whole) => Datum::Num(whole),
        None => Datum::Null,
    }
}

fn list(alloc: Global, numbers: &[i64]) -> Result<Items, Memory> {
    let mut list = Items::new(alloc);
    for n in numbers {
        list.push(number(*n))?;
    }
    Ok(list)
}

fn item(alloc: Global, members: Members) -> Result<Datum, Memory> {
    let mut fields = Fields::new(alloc);
    for (name, n) in members {
        drop(fields.put(Name::of(alloc, name)?, number(*n))?);
    }
    Ok(Datum::Obj(fields))
}

fn items(alloc: Global, told: &[Members]) -> Result<Vec<(u64, Datum)>, Memory> {
    let mut items = Vec::new(alloc);
    for members in told {
        items.push((1, item(alloc, members)?))?;
    }
    Ok(items)
}

#[test]
fn sessions_send_the_stated_bytes(rt: HostRuntime) -> Result<(), Fail> {
    let alloc = rt.alloc();
    for (size, session, sent) in [(5, 0, FIVE), (1, 1, &FIVE[..12]), (5, 4, INDEX)] {
        assert_eq!(rt; script(alloc, 7, size, session)?.as_slice(), sent);
    }
    Ok(())
}

#[test]
fn items_fold_to_what_follows_from_them(rt: HostRuntime) -> Result<(), Fail> {
    let alloc = rt.alloc();
    for (opening, told, wanted, folds) in FOLDS {
        let items = items(alloc, told)?;
        let (opening, wanted) = (list(alloc, opening)?, list(alloc, wanted)?);
        assert_eq!(rt; fold_check(alloc, &opening, &items, &wanted)?, folds);
    }
    Ok(())
}
