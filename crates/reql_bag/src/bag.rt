// Bags of documents, as lists that rise with repeats.
ghost use Rattle.std.specs.Prelude.{◌≡◌, [], ◌∷◌, ◌++◌, map, IfOk, length};
ghost use Rattle.std.specs.Bool.{OnTrue};
ghost use Rattle.reql_datum.specs.View.{plain};
ghost use Rattle.reql_bag.specs.Bag.{IsRising, in_order, less_all};

use reql_datum::{Datum, Items, Memory, compare};
use std::alloc::Global;
use std::cmp::Ordering;

/// What left a bag and what came, each in order, with repeats.
#[derive(Drop)]
pub struct Parted {
    pub left: Items,
    pub came: Items,
}

// Whether a list is in order.
fn is_rising(items: &Items) -> bool
    ensures { OnTrue result (IsRising items.now) }
{
    let Some(mut last) = items.at(0) else {
        return true;
    };
    let mut place = 1;
    while let Some(next) = items.at(place) {
        if compare(next, last).is_lt() {
            return false;
        }
        last = next;
        place += 1;
    }
    true
}

fn copies_of(alloc: Global, items: &Items) -> Result<Vec<Datum>, Memory>
    ensures { IfOk result (λ r. map plain r.items ≡ items.now) }
{
    let mut copies = Vec::with_capacity(alloc, items.len())?;
    let mut place = 0;
    while let Some(item) = items.at(place) {
        let copied = item.copy()?;
        copies.push(copied)?;
        place += 1;
    }
    Ok(copies)
}

fn items_of(alloc: Global, list: &[Datum]) -> Result<Items, Memory>
    ensures { IfOk result (λ r. r ≡ map plain list.now) }
{
    let mut items = Items::with_room(alloc, list.len())?;
    for d in list {
        let copied = d.copy()?;
        items.push(copied)?;
    }
    Ok(items)
}

fn resorted(alloc: Global, items: &Items) -> Result<Items, Memory>
    ensures { IfOk result (λ r. r ≡ in_order items.now) }
{
    let mut copies = copies_of(alloc, items)?;
    copies.sort_unstable();
    items_of(alloc, &copies)
}

/// The list in order, each item as often as before. A list that is in order already is given back
/// after one look at it, else it is sorted by a copy.
pub fn in_order(alloc: Global, items: Items) -> Result<Items, Memory>
    ensures items { IfOk result (λ r. r ≡ in_order items) }
    ensures rising { IfOk result (λ r. IsRising r) }
{
    if is_rising(&items) {
        return Ok(items);
    }
    resorted(alloc, &items)
}

// The list with one more item.
fn add(list: &mut Items, item: &Datum) -> Result<(), Memory>
    ensures { IfOk result (λ _. list.new ≡ list.old ++ plain item.now ∷ []) }
{
    let copied = item.copy()?;
    list.push(copied)?;
    Ok(())
}

/// The difference of two bags that are in order, by one walk over both: each document of the one
/// takes one that equals it out of the other.
pub fn difference(alloc: Global, olds: &Items, news: &Items) -> Result<Parted, Memory>
    requires olds { IsRising olds.now }
    requires news { IsRising news.now }
    ensures left { IfOk result (λ r. r.left ≡ less_all olds.now news.now) }
    ensures came { IfOk result (λ r. r.came ≡ less_all news.now olds.now) }
{
    let mut left = Items::new(alloc);
    let mut came = Items::new(alloc);
    let mut from = 0;
    let mut to = 0;
    loop {
        match (olds.at(from), news.at(to)) {
            (Some(old), Some(new)) => match compare(old, new) {
                Ordering::Less => {
                    add(&mut left, old)?;
                    from += 1;
                }
                Ordering::Equal => {
                    from += 1;
                    to += 1;
                }
                Ordering::Greater => {
                    add(&mut came, new)?;
                    to += 1;
                }
            },
            (Some(old), None) => {
                add(&mut left, old)?;
                from += 1;
            }
            (None, Some(new)) => {
                add(&mut came, new)?;
                to += 1;
            }
            (None, None) => return Ok(Parted { left, came }),
        }
    }
}
