// A vector of elements with room, and what is put into it and taken out.
ghost use Rattle.std.specs.Prelude.{◌≡◌, ◌+◌, ◌<◌, ◌≤◌, ◌++◌, ◌∷◌, [], length, map, vec_capacity, IfOk, option_map};
ghost use Rattle.std.specs.List.{insert, remove};
ghost use Rattle.reql_feed_limit.specs.Items.{deleted, inserted};
ghost use Rattle.reql_feed_limit.specs.Seen.{seen, seen_placed};
ghost use Rattle.reql_feed_limit.specs.Stands.{IsWithin};

use crate::element::{Element, Placed};
use reql_datum::Memory;
use std::alloc::Global;

/// One more at the end.
pub(crate) fn add(held: &mut Vec<Element>, element: Element) -> Result<(), Memory>
    ensures items { IfOk result (λ _. held.new.items ≡ held.old.items ++ element ∷ []) }
    ensures capacity { vec_capacity held.old ≤ vec_capacity held.new }
{
    match held.push(element) {
        Ok(()) => Ok(()),
        Err(_) => Err(Memory),
    }
}

/// Equal elements that share what they hold, with room for so many.
pub(crate) fn copies(alloc: Global, held: &[Element], room: usize) -> Result<Vec<Element>, Memory>
    ensures items { IfOk result (λ v. v.items ≡ held.now) }
    ensures room { IfOk result (λ v. room ≤ vec_capacity v) }
{
    let Ok(mut copies) = Vec::with_capacity(alloc, room) else {
        return Err(Memory);
    };
    for element in held {
        add(&mut copies, element.copy()?)?;
    }
    Ok(copies)
}

fn remove_at(held: &mut Vec<Element>, place: usize)
    requires { place < length held.old.items }
    ensures items { held.new.items ≡ remove held.old.items place }
    ensures capacity { vec_capacity held.new ≡ vec_capacity held.old }
{
    let _ = held.remove(place);
}

/// The element that leaves, by its place.
pub(crate) fn take_out(held: &mut Vec<Element>, left: &Option<Placed>)
    requires { IsWithin (option_map seen_placed left.now) (length held.old.items) }
    ensures items { map seen held.new.items ≡ deleted (option_map seen_placed left.now) (map seen held.old.items) }
    ensures capacity { vec_capacity held.new ≡ vec_capacity held.old }
{
    match left {
        None => {}
        Some(placed) => remove_at(held, placed.place),
    }
}

/// Lets an element go.
pub(crate) fn let_go(_left: Option<Placed>) {}

fn insert_at(held: &mut Vec<Element>, place: usize, element: Element)
    requires within { place < length held.old.items + 1 }
    requires room { length held.old.items < vec_capacity held.old }
    ensures items { held.new.items ≡ insert held.old.items place element }
    ensures capacity { vec_capacity held.old ≤ vec_capacity held.new }
{
    let Ok(()) = held.insert(place, element) else {
        unreachable!()
    };
}

/// The element that comes, at its place.
pub(crate) fn put_in(held: &mut Vec<Element>, came: Option<Placed>)
    requires within { IsWithin (option_map seen_placed came) (length held.old.items + 1) }
    requires room { length (inserted (option_map seen_placed came) (map seen held.old.items)) ≤ vec_capacity held.old }
    ensures items { map seen held.new.items ≡ inserted (option_map seen_placed came) (map seen held.old.items) }
    ensures capacity { vec_capacity held.old ≤ vec_capacity held.new }
{
    match came {
        None => {}
        Some(Placed { place, element }) => insert_at(held, place, element),
    }
}
