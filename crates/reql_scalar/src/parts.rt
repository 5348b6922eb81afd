// Parts of lists, put together.
ghost use Rattle.std.specs.Prelude.{◌≡◌, ◌++◌, ◌∷◌, [], IfOk, take, drop};
ghost use Rattle.reql_datum.specs.View.{plain};
ghost use Rattle.reql_rules.specs.Edits.{exchanged};

use reql_datum::{Datum, Items, Memory};
use std::alloc::Global;

/// Adds a copy of one document.
pub(crate) fn add(list: &mut Items, item: &Datum) -> Result<(), Memory>
    ensures { IfOk result (λ _. list.new ≡ list.old ++ plain item.now ∷ []) }
{
    let copied = item.copy()?;
    list.push(copied)?;
    Ok(())
}

/// Adds copies of the documents of a list, from a place on.
pub(crate) fn append_from(list: &mut Items, more: &Items, from: usize) -> Result<(), Memory>
    ensures { IfOk result (λ _. list.new ≡ list.old ++ drop from more.now) }
{
    let mut place = from;
    while let Some(item) = more.at(place) {
        add(list, item)?;
        place += 1;
    }
    Ok(())
}

// Adds copies of the documents of a list, up to a place.
fn append_to(list: &mut Items, more: &Items, to: usize) -> Result<(), Memory>
    ensures { IfOk result (λ _. list.new ≡ list.old ++ take to more.now) }
{
    for place in 0..to {
        let Some(item) = more.at(place) else {
            return Ok(());
        };
        add(list, item)?;
    }
    Ok(())
}

/// The list with others in place of the documents from one place up to another.
pub(crate) fn exchanged(
    alloc: Global,
    list: &Items,
    from: usize,
    to: usize,
    others: &Items,
) -> Result<Items, Memory>
    ensures { IfOk result (λ r. r ≡ exchanged list.now from to others.now) }
{
    let mut edited = Items::with_room(alloc, list.len().saturating_add(others.len()))?;
    append_to(&mut edited, list, from)?;
    append_from(&mut edited, others, 0)?;
    append_from(&mut edited, list, to)?;
    Ok(edited)
}

/// The list of one document.
pub(crate) fn only(alloc: Global, item: &Datum) -> Result<Items, Memory>
    ensures { IfOk result (λ r. r ≡ plain item.now ∷ []) }
{
    let mut list = Items::new(alloc);
    add(&mut list, item)?;
    Ok(list)
}
