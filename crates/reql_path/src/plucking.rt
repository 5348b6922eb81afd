// The parts of an object that a pattern names.
ghost use Rattle.std.specs.Prelude.{◌≡◌, ◌∷◌, [], ◌||◌, IfOk, option_map, true};
ghost use Rattle.reql_datum.specs.Plain.{items_of, pairs_of, object};
ghost use Rattle.reql_datum.specs.View.{plain};
ghost use Rattle.reql_rules.specs.Patterns.{is_true, kept, pluck_in, pluck_items, pluck_pairs, unless_literal};
ghost use Rattle.reql_path.specs.Normal.{is_normal, are_normal, member_part, item_kept, one_of, IfArray, IsPlucked};

use crate::building::{push_also, put_also};
use crate::pattern::Pattern;
use reql_datum::{Datum, Fields, Items, Memory};
use std::alloc::Global;
use std::cmp::Ordering;

/// What a pattern names of an object (ReQL API reference, pluck). Inside a field it is what is
/// named of an object, or of each object in an array; of a field that is neither nothing is kept.
///
/// It walks the object and what the pattern names once, and shares whatever it keeps whole.
pub fn pluck(alloc: Global, o: &Fields, p: &Pattern) -> Result<Fields, Memory>
    ensures one { IfOk result (IsPlucked (p.now ∷ []) o.now) }
    ensures several { IfArray p.now (λ ps. IfOk result (IsPlucked ps o.now)) }
{
    plucked(alloc, o, &p.parts)
}

// Both rise by name, so that one walk meets each name that is in both.
#[cycle(pluck)]
fn plucked(alloc: Global, o: &Fields, parts: &Fields) -> Result<Fields, Memory>
    requires { are_normal (pairs_of parts.now) ≡ true }
    ensures { IfOk result (λ r. pairs_of r ≡ pluck_pairs (pairs_of o.now) (one_of parts.now)) }
{
    let mut fields = Fields::new(alloc);
    let mut from = 0;
    let mut to = 0;
    loop {
        let named = parts.at(to);
        let Some((name, value)) = o.at(from) else {
            return Ok(fields);
        };
        let Some((wanted, part)) = named else {
            return Ok(fields);
        };
        match name.order(wanted.as_str()) {
            Ordering::Less => from += 1,
            Ordering::Equal => {
                let kept = plucked_field(alloc, value, part)?;
                put_also(&mut fields, name, kept)?;
                from += 1;
                to += 1;
            }
            Ordering::Greater => to += 1,
        }
    }
}

// What is kept of a field that is named.
#[cycle(pluck)]
#[tactic(auto, using(crate::proofs::Parts::named_parts))]
fn plucked_field(alloc: Global, value: &Datum, part: &Datum) -> Result<Option<Datum>, Memory>
    requires { (is_true (plain part.now) || is_normal (plain part.now)) ≡ true }
    ensures { IfOk result (λ r. option_map plain r
        ≡ kept (plain value.now) (pluck_in (plain value.now)) (member_part (plain part.now))) }
{
    match part {
        Datum::Obj(parts) => plucked_in(alloc, value, parts),
        _ => Ok(Some(value.copy()?)),
    }
}

#[cycle(pluck)]
fn plucked_in(alloc: Global, value: &Datum, parts: &Fields) -> Result<Option<Datum>, Memory>
    requires { are_normal (pairs_of parts.now) ≡ true }
    ensures { IfOk result (λ r. option_map plain r
        ≡ pluck_in (plain value.now) (one_of parts.now)) }
{
    match value {
        Datum::Obj(fields) => plucked_object(alloc, fields, parts),
        Datum::List(items) => {
            let kept = plucked_items(alloc, items, parts)?;
            Ok(Some(Datum::List(kept)))
        }
        _ => Ok(None),
    }
}

// A LITERAL is no object.
#[cycle(pluck)]
fn plucked_object(alloc: Global, o: &Fields, parts: &Fields) -> Result<Option<Datum>, Memory>
    requires { are_normal (pairs_of parts.now) ≡ true }
    ensures { IfOk result (λ r. option_map plain r
        ≡ unless_literal (pairs_of o.now) (pluck_pairs (pairs_of o.now) (one_of parts.now))) }
{
    if o.is_literal() {
        return Ok(None);
    }
    let fields = plucked(alloc, o, parts)?;
    Ok(Some(Datum::Obj(fields)))
}

#[cycle(pluck)]
#[tactic(auto, using(reql_datum::proofs::Walks::walks))]
fn plucked_items(alloc: Global, items: &Items, parts: &Fields) -> Result<Items, Memory>
    requires { are_normal (pairs_of parts.now) ≡ true }
    ensures { IfOk result (λ r. items_of r ≡ pluck_items (items_of items.now) (one_of parts.now)) }
{
    let mut kept = Items::new(alloc);
    let mut place = 0;
    while let Some(item) = items.at(place) {
        let found = plucked_item(alloc, item, parts)?;
        push_also(&mut kept, found)?;
        place += 1;
    }
    Ok(kept)
}

#[cycle(pluck)]
fn plucked_item(alloc: Global, item: &Datum, parts: &Fields) -> Result<Option<Datum>, Memory>
    requires { are_normal (pairs_of parts.now) ≡ true }
    ensures { IfOk result (λ r. option_map plain r
        ≡ item_kept (plain item.now) (one_of parts.now)) }
{
    match item {
        Datum::Obj(fields) => plucked_object(alloc, fields, parts),
        _ => Ok(None),
    }
}
