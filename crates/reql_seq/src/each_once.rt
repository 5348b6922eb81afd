// DISTINCT.
ghost use Rattle.std.specs.Prelude.{◌≡◌, ◌∷◌, map, IfOk};
ghost use Rattle.std.specs.List.Sorted.{IsStrictlySortedBy};
ghost use Rattle.reql_datum.specs.Order.{order};
ghost use Rattle.reql_datum.specs.Plain.{Plain};
ghost use Rattle.reql_datum.specs.View.{plain};
ghost use Rattle.reql_rules.specs.Sets.{is_among};
ghost use Rattle.reql_rules.specs.Sorting.{once, once_after, distinct};

use crate::copies::copies_of;
use reql_datum::{Datum, Items, Memory, compare};
use std::alloc::Global;

/// The values of a list in order, each once: a sort, and one walk over what is sorted.
pub fn distinct(alloc: Global, list: &Items) -> Result<Items, Memory>
    ensures items { IfOk result (λ items. items ≡ distinct list.now) }
    ensures rising { IfOk result (λ items. IsStrictlySortedBy order items) }
    ensures members { IfOk result (λ items. (v : Plain) → is_among items v ≡ is_among list.now v) }
{
    let mut copies = copies_of(alloc, list)?;
    copies.sort()?;
    once(alloc, &copies)
}

// A sorted list without repeats.
fn once(alloc: Global, sorted: &[Datum]) -> Result<Items, Memory>
    ensures { IfOk result (λ items. items ≡ once (map plain sorted.now)) }
{
    match sorted {
        [] => Ok(Items::new(alloc)),
        [first, rest @ ..] => once_after(alloc, first, rest),
    }
}

fn once_after(alloc: Global, first: &Datum, rest: &[Datum]) -> Result<Items, Memory>
    ensures { IfOk result (λ items.
        items ≡ plain first.now ∷ once_after (plain first.now) (map plain rest.now)) }
{
    let mut items = Items::new(alloc);
    let copied = first.copy()?;
    items.push(copied)?;
    let mut last = first;
    for item in rest {
        if compare(last, item).is_ne() {
            let copied = item.copy()?;
            items.push(copied)?;
            last = item;
        }
    }
    Ok(items)
}
