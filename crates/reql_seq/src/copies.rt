// Lists copied item by item, each copy a count of sharers.
ghost use Rattle.std.specs.Prelude.{◌≡◌, map, IfOk};
ghost use Rattle.reql_datum.specs.View.{plain};

use reql_datum::{Datum, Items, Memory};
use std::alloc::Global;

/// A list of the items of a slice.
pub(crate) fn items_of(alloc: Global, slice: &[Datum]) -> Result<Items, Memory>
    ensures { IfOk result (λ items. items ≡ map plain slice.now) }
{
    let mut items = Items::with_room(alloc, slice.len())?;
    for d in slice {
        let copied = d.copy()?;
        items.push(copied)?;
    }
    Ok(items)
}

/// The items of a list as a vector, to be put in another order.
pub(crate) fn copies_of(alloc: Global, list: &Items) -> Result<Vec<Datum>, Memory>
    ensures { IfOk result (λ copies. map plain copies.items ≡ list.now) }
{
    let mut copies = Vec::with_capacity(alloc, list.len())?;
    let mut place = 0;
    while let Some(item) = list.at(place) {
        let copied = item.copy()?;
        copies.push(copied)?;
        place += 1;
    }
    Ok(copies)
}
