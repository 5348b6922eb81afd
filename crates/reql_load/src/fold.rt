// Whether what a feed told leads from one value to another.
ghost use Rattle.std.specs.Prelude.{◌≡◌, ◌↔◌, map, cond, Some, None, IfOk, IsTrue, option_map};
ghost use Rattle.std.specs.List.{list_any};
ghost use Rattle.reql_datum.specs.View.{plain};
ghost use Rattle.reql_bag.specs.Bag.{in_order};
ghost use Rattle.reql_load.specs.Folded.{folded, folded_by, is_skip, lacks_offsets};

use crate::heard::{is_skip, lacks_offsets};
use crate::steps::{Way, take};
use reql_bag::in_order;
use reql_datum::{Datum, Items, Memory};
use std::alloc::Global;

/// Whether the items, each with its stamp and in the order in which a client received them, fold over
/// the opening value to the wanted one. Where an item that is folded has neither `old_offset` nor
/// `new_offset`, all are folded as a range feed's: over the opening value as a bag, and the wanted
/// value is that bag in order. Otherwise they are folded by their offsets, over the opening value as
/// it stands. An item with `state` is not folded. False too, where an item has `error`, since items
/// were dropped then; where an `old_val` is not in the bag; and where an offset is outside the list.
pub fn fold_check(
    alloc: Global,
    opening: &Items,
    items: &[(u64, Datum)],
    wanted: &Items,
) -> Result<bool, Memory>
    ensures { IfOk result (λ folds. IsTrue folds
        ↔ (folded opening.now (map (λ i. plain i.1) items.now) ≡ Some wanted.now)) }
{
    match fold(alloc, opening, items)? {
        Some(list) => Ok(are_equal(&list, wanted.as_slice())),
        None => Ok(false),
    }
}

fn are_equal(list: &[Datum], wanted: &[Datum]) -> bool
    ensures { IsTrue result ↔ (map plain list.now ≡ map plain wanted.now) }
{
    list == wanted
}

// What the items lead to, where they can be folded.
fn fold(
    alloc: Global,
    opening: &Items,
    items: &[(u64, Datum)],
) -> Result<Option<Vec<Datum>>, Memory>
    ensures { IfOk result (λ list. option_map (λ v. map plain v.items) list
        ≡ folded opening.now (map (λ i. plain i.1) items.now)) }
{
    if has_skip(items) {
        return Ok(None);
    }
    if lack_offsets(items) {
        let bag = fold_bag(alloc, opening, items)?;
        return Ok(bag);
    }
    let values = copies(alloc, opening)?;
    let list = fold_by(Way::ByPlaces, values, items)?;
    Ok(list)
}

fn fold_bag(
    alloc: Global,
    opening: &Items,
    items: &[(u64, Datum)],
) -> Result<Option<Vec<Datum>>, Memory>
    ensures { IfOk result (λ list. option_map (λ v. map plain v.items) list
        ≡ folded_by Way.AsBag (in_order opening.now) (map (λ i. plain i.1) items.now)) }
{
    let bag = in_order(alloc, opening.copy()?)?;
    fold_by(Way::AsBag, copies(alloc, &bag)?, items)
}

fn copies(alloc: Global, items: &Items) -> Result<Vec<Datum>, Memory>
    ensures { IfOk result (λ list. map plain list.items ≡ items.now) }
{
    let list = items.as_slice().to_vec(alloc)?;
    Ok(list)
}

fn has_skip(items: &[(u64, Datum)]) -> bool
    ensures { result ≡ list_any (λ i. is_skip (plain i.1)) items.now }
{
    items.iter().any(|item| is_skip(&item.1))
}

fn lack_offsets(items: &[(u64, Datum)]) -> bool
    ensures { result ≡ list_any (λ i. lacks_offsets (plain i.1)) items.now }
{
    items.iter().any(|item| lacks_offsets(&item.1))
}

fn fold_by(way: Way, list: Vec<Datum>, items: &[(u64, Datum)]) -> Result<Option<Vec<Datum>>, Memory>
    ensures { IfOk result (λ folded. option_map (λ v. map plain v.items) folded
        ≡ folded_by way (map plain list.items) (map (λ i. plain i.1) items.now)) }
{
    let mut list = list;
    if !take_all(way, &mut list, items)? {
        return Ok(None);
    }
    Ok(Some(list))
}

// Folds all items. False: one can't be folded, and the list is not used again.
#[tactic(auto, using(crate::proofs::Places::one_folded, crate::proofs::Places::not_folded))]
fn take_all(way: Way, list: &mut Vec<Datum>, items: &[(u64, Datum)]) -> Result<bool, Memory>
    ensures { IfOk result (λ goes. cond goes (Some (map plain list.new.items)) None
        ≡ folded_by way (map plain list.old.items) (map (λ i. plain i.1) items.now)) }
{
    for item in items {
        if !take(way, list, &item.1)? {
            return Ok(false);
        }
    }
    Ok(true)
}
