// Items as a client reads them.
ghost use Rattle.std.specs.Prelude.{◌≡◌, ◌++◌, map, IfOk, option_map, option_and_then};
ghost use Rattle.reql_datum.specs.View.{plain};
ghost use Rattle.reql_feed_spec.specs.Items.{present};
ghost use Rattle.reql_feed_spec.specs.Net.{listed, keyed};
ghost use Rattle.reql_feed_spec.specs.Shown.{read};
ghost use Rattle.reql_squash.specs.Told.{side_of, sides_of};

use reql_datum::{Datum, Items, Memory};
use std::alloc::Global;

/// A document that is no null.
fn not_null<'a>(value: Option<&'a Datum>) -> Option<&'a Datum>
    ensures { option_map (λ d. plain d.now) result
        ≡ option_and_then present (option_map (λ d. plain d.now) value.entry) }
{
    match value {
        Some(Datum::Null) => None,
        _ => value,
    }
}

/// What stands at a name of an item, absent where it is null.
#[tactic(auto, using(reql_datum::proofs::Back::back))]
pub(crate) fn side<'a>(item: &'a Datum, name: &str) -> Option<&'a Datum>
    ensures { option_map (λ d. plain d.now) result ≡ side_of name.now (plain item.now) }
{
    match item {
        Datum::Obj(fields) => not_null(fields.get(name)),
        _ => None,
    }
}

fn add_side(sides: &mut Items, item: &Datum, name: &str) -> Result<(), Memory>
    ensures { IfOk result (λ _. sides.new
        ≡ sides.old ++ listed (side_of name.now (plain item.now))) }
{
    let Some(value) = side(item, name) else {
        return Ok(());
    };
    sides.push(value.copy()?)?;
    Ok(())
}

/// What stands at a name of each item.
pub(crate) fn sides(alloc: Global, items: &Items, name: &str) -> Result<Items, Memory>
    ensures { IfOk result (λ r. r ≡ sides_of name.now items.now) }
{
    let mut sides = Items::new(alloc);
    let mut place = 0;
    while let Some(item) = items.at(place) {
        add_side(&mut sides, item, name)?;
        place += 1;
    }
    Ok(sides)
}

/// The key of an item that is queued behind one.
pub(crate) fn key_of(item: &Datum) -> &Datum
    ensures { plain result.now ≡ (keyed (plain item.now)).0 }
{
    match item {
        Datum::List(parts) => match parts.at(0) {
            Some(key) => key,
            None => item,
        },
        _ => item,
    }
}

/// The item that is queued behind a key.
pub(crate) fn inner_of(item: &Datum) -> &Datum
    ensures { read (plain result.now) ≡ (keyed (plain item.now)).1 }
{
    match item {
        Datum::List(parts) => match parts.at(1) {
            Some(inner) => inner,
            None => item,
        },
        _ => item,
    }
}
