// An object without the parts that a pattern names.
ghost use Rattle.std.specs.Prelude.{◌≡◌, ◌∷◌, [], ◌||◌, IfOk, option_map, true};
ghost use Rattle.reql_datum.specs.Plain.{items_of, pairs_of};
ghost use Rattle.reql_datum.specs.View.{plain};
ghost use Rattle.reql_rules.specs.Patterns.{is_true, left, without_in, without_items, without_pairs, literal_or};
ghost use Rattle.reql_path.specs.Normal.{is_normal, are_normal, member_part, item_left, one_of, IfArray, IsWithout};

use crate::building::{put_also, put_copy};
use crate::pattern::Pattern;
use reql_datum::{Datum, Fields, Items, Memory};
use std::alloc::Global;
use std::cmp::Ordering;

/// An object without what a pattern names (ReQL API reference, without). Inside a field what is
/// named is taken out of an object, or out of each object in an array; all else stays.
///
/// It walks the object and what the pattern names once, and shares whatever it keeps whole.
pub fn without(alloc: Global, o: &Fields, p: &Pattern) -> Result<Fields, Memory>
    ensures one { IfOk result (IsWithout (p.now ∷ []) o.now) }
    ensures several { IfArray p.now (λ ps. IfOk result (IsWithout ps o.now)) }
{
    left(alloc, o, &p.parts)
}

// Both rise by name, so that one walk meets each name that is in both.
#[cycle(exclude)]
fn left(alloc: Global, o: &Fields, parts: &Fields) -> Result<Fields, Memory>
    requires { are_normal (pairs_of parts.now) ≡ true }
    ensures { IfOk result (λ r. pairs_of r ≡ without_pairs (pairs_of o.now) (one_of parts.now)) }
{
    let mut fields = Fields::with_room(alloc, o.len())?;
    let mut from = 0;
    let mut to = 0;
    loop {
        let named = parts.at(to);
        let Some((name, value)) = o.at(from) else {
            return Ok(fields);
        };
        let Some((wanted, part)) = named else {
            put_copy(&mut fields, name, value)?;
            from += 1;
            continue;
        };
        match name.order(wanted.as_str()) {
            Ordering::Less => {
                put_copy(&mut fields, name, value)?;
                from += 1;
            }
            Ordering::Equal => {
                let rest = left_of_field(alloc, value, part)?;
                put_also(&mut fields, name, rest)?;
                from += 1;
                to += 1;
            }
            Ordering::Greater => to += 1,
        }
    }
}

// What is left of a field that is named.
#[cycle(exclude)]
#[tactic(auto, using(crate::proofs::Parts::named_parts))]
fn left_of_field(alloc: Global, value: &Datum, part: &Datum) -> Result<Option<Datum>, Memory>
    requires { (is_true (plain part.now) || is_normal (plain part.now)) ≡ true }
    ensures { IfOk result (λ r. option_map plain r
        ≡ left (plain value.now) (without_in (plain value.now)) (member_part (plain part.now))) }
{
    match part {
        Datum::Obj(parts) => {
            let rest = left_inside(alloc, value, parts)?;
            Ok(Some(rest))
        }
        _ => Ok(None),
    }
}

#[cycle(exclude)]
fn left_inside(alloc: Global, value: &Datum, parts: &Fields) -> Result<Datum, Memory>
    requires { are_normal (pairs_of parts.now) ≡ true }
    ensures { IfOk result (λ r. plain r ≡ without_in (plain value.now) (one_of parts.now)) }
{
    match value {
        Datum::Obj(fields) => left_of_object(alloc, fields, parts),
        Datum::List(items) => {
            let rest = left_of_items(alloc, items, parts)?;
            Ok(Datum::List(rest))
        }
        _ => value.copy(),
    }
}

// A LITERAL is no object.
#[cycle(exclude)]
fn left_of_object(alloc: Global, o: &Fields, parts: &Fields) -> Result<Datum, Memory>
    requires { are_normal (pairs_of parts.now) ≡ true }
    ensures { IfOk result (λ r. plain r ≡ literal_or (pairs_of o.now)
        (without_pairs (pairs_of o.now) (one_of parts.now))) }
{
    if o.is_literal() {
        let literal = o.copy()?;
        return Ok(Datum::Obj(literal));
    }
    let fields = left(alloc, o, parts)?;
    Ok(Datum::Obj(fields))
}

#[cycle(exclude)]
#[tactic(auto, using(reql_datum::proofs::Walks::walks))]
fn left_of_items(alloc: Global, items: &Items, parts: &Fields) -> Result<Items, Memory>
    requires { are_normal (pairs_of parts.now) ≡ true }
    ensures { IfOk result (λ r. items_of r ≡ without_items (items_of items.now)
        (one_of parts.now)) }
{
    let mut rest = Items::with_room(alloc, items.len())?;
    let mut place = 0;
    while let Some(item) = items.at(place) {
        let left = left_of_item(alloc, item, parts)?;
        rest.push(left)?;
        place += 1;
    }
    Ok(rest)
}

#[cycle(exclude)]
fn left_of_item(alloc: Global, item: &Datum, parts: &Fields) -> Result<Datum, Memory>
    requires { are_normal (pairs_of parts.now) ≡ true }
    ensures { IfOk result (λ r. plain r ≡ item_left (plain item.now) (one_of parts.now)) }
{
    match item {
        Datum::Obj(fields) => left_of_object(alloc, fields, parts),
        _ => item.copy(),
    }
}
