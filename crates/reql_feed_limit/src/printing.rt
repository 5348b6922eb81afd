// How a step, and the elements at the opening, print as items of a feed.
ghost use Rattle.std.specs.Prelude.{◌≡◌, ◌∷◌, ◌^◌, [], map, true, false, codes, IfOk, option_map};
ghost use Rattle.reql_datum.specs.Members.{put};
ghost use Rattle.reql_datum.specs.Plain.{text};
ghost use Rattle.reql_datum.specs.View.{plain};
ghost use Rattle.reql_feed_spec.specs.Feeds.{opened_from};
ghost use Rattle.reql_feed_spec.specs.Shown.{Shows, item_members, opening, or_null, place, shown, type_member, type_of as type_name};
ghost use Rattle.reql_feed_limit.specs.Feed.{ArePrintable, difference, document_at, told};
ghost use Rattle.reql_feed_limit.specs.Seen.{seen, seen_placed, seen_step};
ghost use Rattle.reql_feed_limit.specs.Stands.{IsWithin};
ghost use Rattle.reql_rules.specs.Places.{counted_as as counted_as_of};

use crate::element::{Element, LimitStep, Placed};
use reql_datum::{Datum, Fields, Items, Memory, Name, Whole};
use std::alloc::Global;

fn place_shown(placed: &Option<Placed>) -> Datum
    requires { IsWithin (option_map seen_placed placed.now) (2 ^ 53) }
    ensures { plain result ≡ place (option_map (λ p. p.0) (option_map seen_placed placed.now)) }
{
    match placed {
        None => Datum::Null,
        Some(placed) => match Whole::new(placed.place as i64) {
            Some(place) => Datum::Num(place),
            None => unreachable!(),
        },
    }
}

fn document_shown(placed: &Option<Placed>) -> Result<Datum, Memory>
    ensures { IfOk result (λ d. plain d ≡ or_null (option_map document_at (option_map seen_placed placed.now))) }
{
    match placed {
        None => Ok(Datum::Null),
        Some(placed) => placed.element.doc.copy(),
    }
}

fn type_of(step: &LimitStep) -> &'static str
    ensures { result.now ≡ type_name (difference (seen_step step.now)).old (difference (seen_step step.now)).new }
{
    match &step.left {
        None => "add",
        Some(_) => match &step.came {
            None => "remove",
            Some(_) => "change",
        },
    }
}

fn put(alloc: Global, fields: &mut Fields, name: &str, value: Datum) -> Result<(), Memory>
    ensures { IfOk result (λ _. fields.new ≡ put name.now (plain value) fields.old) }
{
    let name = Name::of(alloc, name)?;
    match fields.put(name, value) {
        Ok(_) => Ok(()),
        Err(_) => Err(Memory),
    }
}

fn put_type(alloc: Global, fields: &mut Fields, name: &str) -> Result<(), Memory>
    ensures { IfOk result (λ _. fields.new ≡ put (codes "type") (text name.now) fields.old) }
{
    let value = Datum::Text(Name::of(alloc, name)?);
    put(alloc, fields, "type", value)
}

fn values(alloc: Global, step: &LimitStep) -> Result<Fields, Memory>
    ensures { IfOk result (λ f. f ≡ item_members (record { offsets = false; types = false }) (difference (seen_step step.now))) }
{
    let mut fields = Fields::new(alloc);
    put(alloc, &mut fields, "new_val", document_shown(&step.came)?)?;
    put(alloc, &mut fields, "old_val", document_shown(&step.left)?)?;
    Ok(fields)
}

fn placed_values(alloc: Global, step: &LimitStep) -> Result<Fields, Memory>
    requires left { IsWithin (option_map seen_placed step.now.left) (2 ^ 53) }
    requires came { IsWithin (option_map seen_placed step.now.came) (2 ^ 53) }
    ensures { IfOk result (λ f. f ≡ item_members (record { offsets = true; types = false }) (difference (seen_step step.now))) }
{
    let mut fields = Fields::new(alloc);
    put(alloc, &mut fields, "new_offset", place_shown(&step.came))?;
    put(alloc, &mut fields, "new_val", document_shown(&step.came)?)?;
    put(alloc, &mut fields, "old_offset", place_shown(&step.left))?;
    put(alloc, &mut fields, "old_val", document_shown(&step.left)?)?;
    Ok(fields)
}

fn typed_values(alloc: Global, step: &LimitStep, types: bool) -> Result<Fields, Memory>
    ensures { IfOk result (λ f. f ≡ item_members (record { offsets = false; types = types }) (difference (seen_step step.now))) }
{
    let mut fields = values(alloc, step)?;
    if !types {
        return Ok(fields);
    }
    put_type(alloc, &mut fields, type_of(step))?;
    Ok(fields)
}

fn typed_placed(alloc: Global, step: &LimitStep, types: bool) -> Result<Fields, Memory>
    requires left { IsWithin (option_map seen_placed step.now.left) (2 ^ 53) }
    requires came { IsWithin (option_map seen_placed step.now.came) (2 ^ 53) }
    ensures { IfOk result (λ f. f ≡ item_members (record { offsets = true; types = types }) (difference (seen_step step.now))) }
{
    let mut fields = placed_values(alloc, step)?;
    if !types {
        return Ok(fields);
    }
    put_type(alloc, &mut fields, type_of(step))?;
    Ok(fields)
}

fn members(alloc: Global, step: &LimitStep, offsets: bool, types: bool) -> Result<Fields, Memory>
    requires left { IsWithin (option_map seen_placed step.now.left) (2 ^ 53) }
    requires came { IsWithin (option_map seen_placed step.now.came) (2 ^ 53) }
    ensures { IfOk result (λ f. f ≡ item_members (record { offsets = offsets; types = types }) (difference (seen_step step.now))) }
{
    if offsets {
        typed_placed(alloc, step, types)
    } else {
        typed_values(alloc, step, types)
    }
}

fn one(alloc: Global, step: &LimitStep, offsets: bool, types: bool) -> Result<Items, Memory>
    requires left { IsWithin (option_map seen_placed step.now.left) (2 ^ 53) }
    requires came { IsWithin (option_map seen_placed step.now.came) (2 ^ 53) }
    ensures { IfOk result (λ items. items ≡ shown (record { offsets = offsets; types = types }) (difference (seen_step step.now)) ∷ []) }
{
    let mut items = Items::with_room(alloc, 1)?;
    let fields = members(alloc, step, offsets, types)?;
    items.push(Datum::Obj(fields))?;
    Ok(items)
}

impl LimitStep {
    /// The item as it is sent, with places and its type where these are asked for; no item where
    /// nothing differs.
    pub fn items(&self, alloc: Global, offsets: bool, types: bool) -> Result<Items, Memory>
        requires places { ArePrintable (seen_step self.now) }
        ensures { IfOk result (λ items. items ≡ map (shown (record { offsets = offsets; types = types })) (told (seen_step self.now))) }
    {
        match &self.left {
            Some(_) => one(alloc, self, offsets, types),
            None => match &self.came {
                Some(_) => one(alloc, self, offsets, types),
                None => Ok(Items::new(alloc)),
            },
        }
    }
}

// A place as a number; above the range it is the greatest number.
fn counted_as(count: u64) -> Datum
    ensures { plain result ≡ counted_as_of count }
{
    let within = count.min(9007199254740992) as i64;
    match Whole::new(within) {
        Some(n) => Datum::Num(n),
        None => unreachable!(),
    }
}

fn bare_opening(alloc: Global, types: bool, doc: &Datum) -> Result<Fields, Memory>
    ensures { IfOk result (λ f. f ≡ (codes "new_val", plain doc.now) ∷ type_member types (codes "initial")) }
{
    let mut fields = Fields::new(alloc);
    put(alloc, &mut fields, "new_val", doc.copy()?)?;
    if !types {
        return Ok(fields);
    }
    put_type(alloc, &mut fields, "initial")?;
    Ok(fields)
}

fn placed_opening(alloc: Global, types: bool, at: u64, doc: &Datum) -> Result<Fields, Memory>
    ensures { IfOk result (λ f. f ≡ (codes "new_offset", counted_as_of at) ∷ (codes "new_val", plain doc.now) ∷ type_member types (codes "initial")) }
{
    let mut fields = Fields::new(alloc);
    put(alloc, &mut fields, "new_offset", counted_as(at))?;
    put(alloc, &mut fields, "new_val", doc.copy()?)?;
    if !types {
        return Ok(fields);
    }
    put_type(alloc, &mut fields, "initial")?;
    Ok(fields)
}

// The opening item of a document at a place.
fn opening_at(
    alloc: Global,
    offsets: bool,
    types: bool,
    at: u64,
    doc: &Datum,
) -> Result<Datum, Memory>
    ensures { IfOk result (λ d. plain d ≡ opening (record { offsets = offsets; types = types }) at (plain doc.now)) }
{
    if offsets {
        let fields = placed_opening(alloc, types, at, doc)?;
        return Ok(Datum::Obj(fields));
    }
    let fields = bare_opening(alloc, types, doc)?;
    Ok(Datum::Obj(fields))
}

/// The opening items of elements, in their order.
pub(crate) fn opening_items(
    alloc: Global,
    held: &[Element],
    offsets: bool,
    types: bool,
) -> Result<Items, Memory>
    ensures { IfOk result (λ items. items ≡ opened_from (record { offsets = offsets; types = types }) 0 (map (λ e. plain e.doc) held.now)) }
{
    let mut items = Items::with_room(alloc, held.len())?;
    let mut at = 0u64;
    for element in held {
        let item = opening_at(alloc, offsets, types, at, &element.doc)?;
        items.push(item)?;
        at += 1;
    }
    Ok(items)
}
