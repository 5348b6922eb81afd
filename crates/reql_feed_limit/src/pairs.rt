// The pair under which a document stands in an order.
ghost use Rattle.std.specs.Prelude.{◌≡◌, ◌∷◌, [], IfOk, option_map};
ghost use Rattle.reql_datum.specs.View.{plain};
ghost use Rattle.reql_rules.specs.Lists.{array_of};
ghost use Rattle.reql_term.specs.Views.{index_of};
ghost use Rattle.reql_feed_limit.specs.Boundary as law;
ghost use Rattle.reql_feed_limit.specs.Bounded.{bounds_of};
ghost use Rattle.reql_feed_limit.specs.Bounds.{in_bounds};
ghost use Rattle.reql_feed_limit.specs.Edits.{pair_at, element_at};
ghost use Rattle.reql_feed_limit.specs.Order.{entry_pair, spot_of};
ghost use Rattle.reql_feed_limit.specs.Seen.{seen};

use crate::bounds::Bounds;
use crate::element::Element;
use reql_datum::{Datum, Items, Memory};
use reql_index::entries;
use reql_table::{IndexDef, Table};
use std::alloc::Global;

// The list of a value and a primary key.
fn pair(alloc: Global, value: &Datum, key: &Datum) -> Result<Datum, Memory>
    ensures { IfOk result (λ d. plain d ≡ array_of (plain value.now ∷ plain key.now ∷ [])) }
{
    let mut parts = Items::with_room(alloc, 2)?;
    parts.push(value.copy()?)?;
    parts.push(key.copy()?)?;
    Ok(Datum::List(parts))
}

fn first_pair(alloc: Global, key: &Datum, values: &Items) -> Result<Option<Datum>, Memory>
    ensures { IfOk result (λ p. option_map plain p ≡ entry_pair (plain key.now) values.now) }
{
    match values.at(0) {
        None => Ok(None),
        Some(value) => {
            let pair = pair(alloc, value, key)?;
            Ok(Some(pair))
        }
    }
}

/// The pair under which a document stands in an index, or in the primary order; None where it has
/// no entry.
pub(crate) fn pair_of(
    alloc: Global,
    index: &Option<IndexDef>,
    key: &Datum,
    doc: &Datum,
) -> Result<Option<Datum>, Memory>
    ensures { IfOk result (λ p. option_map plain p
        ≡ spot_of (option_map index_of index.now) (plain key.now) (plain doc.now)) }
{
    match index {
        None => {
            let pair = key.copy()?;
            Ok(Some(pair))
        }
        Some(def) => {
            let values = entries::<Table>(alloc, def, doc)?;
            first_pair(alloc, key, &values)
        }
    }
}

/// The pair of a document that may be there, where it has one that lies between bounds.
pub(crate) fn pair_between(
    alloc: Global,
    index: &Option<IndexDef>,
    bounds: &Bounds,
    key: &Datum,
    doc: &Option<Datum>,
) -> Result<Option<Datum>, Memory>
    ensures { IfOk result (λ p. option_map plain p ≡ law.kept (in_bounds (bounds_of bounds.now))
        (pair_at (spot_of (option_map index_of index.now)) (plain key.now) (option_map plain doc.now))) }
{
    let Some(doc) = doc else {
        return Ok(None);
    };
    let Some(pair) = pair_of(alloc, index, key, doc)? else {
        return Ok(None);
    };
    if bounds.holds(&pair) {
        Ok(Some(pair))
    } else {
        Ok(None)
    }
}

/// The same with the document.
pub(crate) fn element_between(
    alloc: Global,
    index: &Option<IndexDef>,
    bounds: &Bounds,
    key: &Datum,
    doc: &Option<Datum>,
) -> Result<Option<Element>, Memory>
    ensures { IfOk result (λ e. option_map seen e ≡ law.kept_element (in_bounds (bounds_of bounds.now))
        (element_at (spot_of (option_map index_of index.now)) (plain key.now) (option_map plain doc.now))) }
{
    let Some(doc) = doc else {
        return Ok(None);
    };
    let Some(pair) = pair_of(alloc, index, key, doc)? else {
        return Ok(None);
    };
    if bounds.holds(&pair) {
        let doc = doc.copy()?;
        Ok(Some(Element { pair, doc }))
    } else {
        Ok(None)
    }
}
