// COERCE_TO, but for JSON texts.
ghost use Rattle.std.specs.Prelude.{◌≡◌, ◌∷◌, [], Ok, IfOk, map, option_map};
ghost use Rattle.reql_datum.specs.Members.{put};
ghost use Rattle.reql_datum.specs.Outcome.{Gives};
ghost use Rattle.reql_datum.specs.Answer.{query_logic};
ghost use Rattle.reql_datum.specs.Plain.{Plain, boolean, object, pairs_of, array, items_of, binary, text};
ghost use Rattle.reql_datum.specs.View.{plain};
ghost use Rattle.reql_rules.specs.Coercing.{coerced, array_in, string_in, whole_in, binary_in, pair_in, to_object, coerce_named, coerce};
ghost use Rattle.reql_rules.specs.Faults.{cannot_coerce, bad_name_in_object};
ghost use Rattle.reql_rules.specs.Objects.{as_pair, put_new};
ghost use Rattle.reql_rules.specs.Types.{same_text, truth};
ghost use Rattle.reql_scalar.specs.Digits.{number_of};
ghost use Rattle.reql_scalar.specs.Two.{named, two_in, put_pair, put_pairs};
ghost use Rattle.reql_scalar.specs.Told.{Tells};

use crate::building::ObjectBuilder;
use crate::digits::number_of;
use crate::numbers::query_logic;
use reql_datum::{Blob, Datum, Fault, Fields, Items, Memory, Name};
use std::alloc::Global;

fn refusal(alloc: Global, kind: &str, to: &str) -> Result<Name, Memory>
    ensures { IfOk result (λ s. cannot_coerce kind.now to.now ≡ query_logic s) }
{
    let text = format!(in alloc; "Cannot coerce {} to {}.", kind, to)?;
    Name::of(alloc, &text)
}

fn refused(alloc: Global, kind: &str, to: &str) -> Fault
    ensures { Tells result (cannot_coerce kind.now to.now) }
{
    match refusal(alloc, kind, to) {
        Ok(text) => Fault::QueryLogic(text),
        Err(_) => Fault::Memory,
    }
}

// A name and its value as an array.
fn pair(alloc: Global, name: &Name, value: &Datum) -> Result<Datum, Memory>
    ensures { IfOk result (λ d. plain d ≡ as_pair (name.now, plain value.now)) }
{
    let mut items = Items::with_room(alloc, 2)?;
    items.push(Datum::Text(name.copy()?))?;
    items.push(value.copy()?)?;
    Ok(Datum::List(items))
}

fn pairs(alloc: Global, fields: &Fields) -> Result<Items, Memory>
    ensures { IfOk result (λ r. r ≡ map as_pair fields.now) }
{
    let mut pairs = Items::with_room(alloc, fields.len())?;
    let mut place = 0;
    while let Some((name, value)) = fields.at(place) {
        pairs.push(pair(alloc, name, value)?)?;
        place += 1;
    }
    Ok(pairs)
}

#[tactic(auto, using(reql_datum::proofs::Back::back))]
fn object_to_array(alloc: Global, kind: &str, fields: &Fields, to: &str) -> Result<Datum, Fault>
    ensures { Gives plain result
        (coerced kind.now to.now (array_in (object (pairs_of fields.now)))) }
{
    if fields.is_literal() {
        return Err(refused(alloc, kind, to));
    }
    Ok(Datum::List(pairs(alloc, fields)?))
}

fn to_array(alloc: Global, kind: &str, d: &Datum, to: &str) -> Result<Datum, Fault>
    ensures { Gives plain result (coerced kind.now to.now (array_in (plain d.now))) }
{
    match d {
        Datum::List(items) => Ok(Datum::List(items.copy()?)),
        Datum::Obj(fields) => object_to_array(alloc, kind, fields, to),
        _ => Err(refused(alloc, kind, to)),
    }
}

fn named<'a>(first: &'a Datum, second: &'a Datum) -> Option<(&'a Name, &'a Datum)>
    ensures { option_map (λ m. (m.0.now, plain m.1.now))
        result ≡ named (plain first.now) (plain second.now) }
{
    match first {
        Datum::Text(name) => Some((name, second)),
        _ => None,
    }
}

fn two_in(items: &Items) -> Option<(&Name, &Datum)>
    ensures { option_map (λ m. (m.0.now, plain m.1.now)) result ≡ two_in items.now }
{
    match items.as_slice() {
        [first, second] => named(first, second),
        _ => None,
    }
}

#[tactic(auto, using(crate::proofs::Two::two_is))]
fn pair_in(d: &Datum) -> Option<(&Name, &Datum)>
    ensures { option_map (λ m. (m.0.now, plain m.1.now)) result ≡ pair_in (plain d.now) }
{
    match d {
        Datum::List(items) => two_in(items),
        _ => None,
    }
}

pub(crate) fn bad_name(alloc: Global) -> Fault
    ensures { Tells result bad_name_in_object }
{
    query_logic(alloc, "Bad name in object.")
}

/// Puts a name that is not there yet into an object. One that is there, or the reserved one, is a
/// fault.
pub(crate) fn put_new(
    alloc: Global,
    fields: &mut Fields,
    name: &Name,
    value: &Datum,
) -> Result<(), Fault>
    ensures { Gives (λ _. fields.new) result (put_new name.now (plain value.now) fields.old) }
{
    if is_same(name.as_str(), "$reql_type$") || fields.get(name.as_str()).is_some() {
        return Err(bad_name(alloc));
    }
    let key = name.copy()?;
    let copied = value.copy()?;
    put(fields, key, copied)?;
    Ok(())
}

pub(crate) fn put(fields: &mut Fields, name: Name, value: Datum) -> Result<(), Memory>
    ensures { IfOk result (λ _. fields.new ≡ put name (plain value) fields.old) }
{
    fields.set(name, value)?;
    Ok(())
}

pub(crate) fn is_same(this: &str, other: &str) -> bool
    ensures { result ≡ same_text this.now other.now }
{
    this.cmp(other).is_eq()
}

fn put_pair(
    alloc: Global,
    object: &mut ObjectBuilder,
    kind: &str,
    item: &Datum,
) -> Result<(), Fault>
    ensures { Gives (λ _. object.new) result (put_pair kind.now (plain item.now) object.old) }
{
    match pair_in(item) {
        Some((name, value)) => object.put_new(name, value),
        None => Err(refused(alloc, kind, "object")),
    }
}

// The object of pairs.
fn object_of(alloc: Global, kind: &str, items: &Items) -> Result<Fields, Fault>
    ensures { Gives (λ ms. ms) result (put_pairs kind.now [] items.now) }
{
    let mut object = ObjectBuilder::with_room(alloc, items.len())?;
    let mut place = 0;
    while let Some(item) = items.at(place) {
        put_pair(alloc, &mut object, kind, item)?;
        place += 1;
    }
    Ok(object.build()?)
}

#[tactic(auto, using(crate::proofs::Two::object_is))]
fn array_to_object(alloc: Global, kind: &str, items: &Items) -> Result<Datum, Fault>
    ensures { Gives plain result (to_object kind.now (array (items_of items.now))) }
{
    let fields = object_of(alloc, kind, items)?;
    Ok(Datum::Obj(fields))
}

fn to_object(alloc: Global, kind: &str, d: &Datum) -> Result<Datum, Fault>
    ensures { Gives plain result (to_object kind.now (plain d.now)) }
{
    match d {
        Datum::List(items) => array_to_object(alloc, kind, items),
        _ => Err(refused(alloc, kind, "object")),
    }
}

fn binary_to_string(alloc: Global, kind: &str, blob: &Blob, to: &str) -> Result<Datum, Fault>
    ensures { Gives plain result (coerced kind.now to.now (string_in (binary blob.now))) }
{
    match str::from_utf8(blob.as_bytes()) {
        Ok(text) => Ok(Datum::Text(Name::of(alloc, text)?)),
        Err(_) => Err(refused(alloc, kind, to)),
    }
}

fn to_string(alloc: Global, kind: &str, d: &Datum, to: &str) -> Result<Datum, Fault>
    ensures { Gives plain result (coerced kind.now to.now (string_in (plain d.now))) }
{
    match d {
        Datum::Text(text) => Ok(Datum::Text(text.copy()?)),
        Datum::Binary(blob) => binary_to_string(alloc, kind, blob, to),
        _ => Err(refused(alloc, kind, to)),
    }
}

#[tactic(auto, using(crate::proofs::Written::whole_text))]
fn text_to_number(alloc: Global, kind: &str, chars: &Name, to: &str) -> Result<Datum, Fault>
    ensures { Gives plain result (coerced kind.now to.now (whole_in (text chars.now))) }
{
    match number_of(chars.as_str()) {
        Some(n) => Ok(Datum::Num(n)),
        None => Err(refused(alloc, kind, to)),
    }
}

fn to_number(alloc: Global, kind: &str, d: &Datum, to: &str) -> Result<Datum, Fault>
    ensures { Gives plain result (coerced kind.now to.now (whole_in (plain d.now))) }
{
    match d {
        Datum::Num(n) => Ok(Datum::Num(*n)),
        Datum::Text(chars) => text_to_number(alloc, kind, chars, to),
        _ => Err(refused(alloc, kind, to)),
    }
}

fn truth(d: &Datum) -> bool
    ensures { result ≡ truth (plain d.now) }
{
    match d {
        Datum::Bool(b) => *b,
        Datum::Null => false,
        _ => true,
    }
}

fn to_binary(alloc: Global, kind: &str, d: &Datum, to: &str) -> Result<Datum, Fault>
    ensures { Gives plain result (coerced kind.now to.now (binary_in (plain d.now))) }
{
    match d {
        Datum::Binary(blob) => Ok(Datum::Binary(blob.copy()?)),
        Datum::Text(chars) => Ok(Datum::Binary(Blob::of(alloc, chars.as_str().as_bytes())?)),
        _ => Err(refused(alloc, kind, to)),
    }
}

/// The document as one of another type, or the fault that there is none: an array is of the pairs
/// of an object and the other way round, a binary is of the bytes of a text, a number is written by
/// an optional minus and digits. As a string it is a text, or a binary that holds the bytes of one.
pub fn coerce(alloc: Global, d: &Datum, to: &str) -> Result<Datum, Fault>
    ensures { Gives plain result (coerce (plain d.now) to.now) }
{
    coerce_named(alloc, d.type_name(), d, to)
}

/// The same, with the name of the type that a fault tells, which isn't the document's own where it
/// is a row of a table.
pub fn coerce_named(alloc: Global, kind: &str, d: &Datum, to: &str) -> Result<Datum, Fault>
    ensures { Gives plain result (coerce_named kind.now (plain d.now) to.now) }
{
    if is_same(to, "array") {
        return to_array(alloc, kind, d, to);
    }
    if is_same(to, "object") {
        return to_object(alloc, kind, d);
    }
    if is_same(to, "string") {
        return to_string(alloc, kind, d, to);
    }
    if is_same(to, "number") {
        return to_number(alloc, kind, d, to);
    }
    if is_same(to, "bool") {
        return Ok(Datum::Bool(truth(d)));
    }
    if is_same(to, "binary") {
        return to_binary(alloc, kind, d, to);
    }
    Err(refused(alloc, kind, to))
}
