// One item more of what is folded.
ghost use Rattle.std.specs.Prelude.{◌≡◌, ◌<◌, ◌≤◌, suc, map, length, cond, Some, None, IfSome, IfOk, OnOk, option_map, codes};
ghost use Rattle.std.specs.Bool.{OnTrue};
ghost use Rattle.std.specs.List.{list_any, prefix_len, position};
ghost use Rattle.std.specs.Ordering.{is_lt};
ghost use Rattle.reql_datum.specs.Order.{order};
ghost use Rattle.reql_datum.specs.View.{plain};
ghost use Rattle.reql_rules.specs.Types.{same};
ghost use Rattle.reql_feed_spec.specs.Fold.{coming, leaving, cut, put_at};
ghost use Rattle.reql_feed_spec.specs.Shown.{member_at, read};
ghost use Rattle.reql_load.specs.Folded.{bag_step, is_below, is_there, list_step, step};

use crate::heard::{is_absent, is_state, place_at, value};
use reql_datum::{Datum, Memory, compare};

/// How items are folded: as a bag that is kept in order, or by their places in a list.
#[derive(Clone, Copy)]
pub(crate) enum Way {
    AsBag,
    ByPlaces,
}

/// Folds one item. False: what leaves isn't there, or a place is outside the list, and the list is
/// not used again.
pub(crate) fn take(way: Way, list: &mut Vec<Datum>, item: &Datum) -> Result<bool, Memory>
    ensures { IfOk result (λ goes. cond goes (Some (map plain list.new.items)) None
        ≡ step way (map plain list.old.items) (plain item.now)) }
{
    if is_state(item) {
        return Ok(true);
    }
    match way {
        Way::AsBag => take_in_bag(list, item),
        Way::ByPlaces => take_by_places(list, item),
    }
}

fn take_in_bag(bag: &mut Vec<Datum>, item: &Datum) -> Result<bool, Memory>
    ensures { IfOk result (λ goes. cond goes (Some (map plain bag.new.items)) None
        ≡ bag_step (map plain bag.old.items) (plain item.now)) }
{
    if !leave(bag, value(item, "old_val")) {
        return Ok(false);
    }
    come(bag, value(item, "new_val"))?;
    Ok(true)
}

// Takes one that equals the value out of the bag, where there is a value. False: none does.
fn leave(bag: &mut Vec<Datum>, old: Option<&Datum>) -> bool
    ensures there { result ≡ is_there (option_map (λ d. plain d.now) old.entry)
        (map plain bag.old.items) }
    ensures left { OnTrue result (map plain bag.new.items
        ≡ leaving (option_map (λ d. plain d.now) old.entry) (map plain bag.old.items)) }
{
    match old {
        Some(value) => take_out(bag, value),
        None => true,
    }
}

fn take_out(bag: &mut Vec<Datum>, value: &Datum) -> bool
    ensures there { result ≡ list_any (same (plain value.now)) (map plain bag.old.items) }
    ensures left { OnTrue result (map plain bag.new.items
        ≡ leaving (Some (plain value.now)) (map plain bag.old.items)) }
{
    match place_of_equal(bag, value) {
        Some(place) => {
            drop(bag.remove(place));
            true
        }
        None => false,
    }
}

fn place_of_equal(bag: &[Datum], value: &Datum) -> Option<usize>
    ensures first { result ≡ position (λ d. same (plain value.now) (plain d)) bag.now }
    ensures within { IfSome result (λ place. place < length bag.now) }
{
    bag.iter().position(|d| compare(value, d).is_eq())
}

// Puts the value, where there is one, in front of the first that isn't below it.
fn come(bag: &mut Vec<Datum>, new: Option<&Datum>) -> Result<(), Memory>
    ensures { OnOk result (map plain bag.new.items
        ≡ coming (option_map (λ d. plain d.now) new.entry) (map plain bag.old.items)) }
{
    let Some(value) = new else {
        return Ok(());
    };
    let place = count_below(bag, value);
    bag.insert(place, value.copy()?)?;
    Ok(())
}

// How many at the front are below the value.
fn count_below(bag: &[Datum], value: &Datum) -> usize
    ensures count { result ≡ prefix_len (λ d. is_lt (order (plain d) (plain value.now))) bag.now }
    ensures within { result ≤ length bag.now }
{
    bag.iter().take_while(|d| compare(d, value).is_lt()).count()
}

fn take_by_places(list: &mut Vec<Datum>, item: &Datum) -> Result<bool, Memory>
    ensures { IfOk result (λ goes. cond goes (Some (map plain list.new.items)) None
        ≡ list_step (map plain list.old.items) (plain item.now)) }
{
    if !leave_place(list, item) {
        return Ok(false);
    }
    come_to_place(list, item)
}

// Deletes the element at the old place, where there is one. False: it is outside the list.
#[tactic(auto, using(crate::proofs::Places::removed_seen))]
fn leave_place(list: &mut Vec<Datum>, item: &Datum) -> bool
    ensures within { result ≡ is_below (length (map plain list.old.items))
        (member_at (codes "old_offset") (plain item.now)) }
    ensures left { OnTrue result (map plain list.new.items
        ≡ cut (read (plain item.now)).old_at (map plain list.old.items)) }
{
    let Some(place) = place_at(item, "old_offset") else {
        return is_absent(item, "old_offset");
    };
    if place >= list.len() {
        return false;
    }
    drop(list.remove(place));
    true
}

// Inserts what came at the new place, where there are both. False: the place is outside the list.
fn come_to_place(list: &mut Vec<Datum>, item: &Datum) -> Result<bool, Memory>
    ensures { IfOk result (λ goes. cond goes (Some (map plain list.new.items)) None
        ≡ cond (is_below (suc (length (map plain list.old.items)))
        (member_at (codes "new_offset") (plain item.now)))
        (Some (put_at (read (plain item.now)).new_at (read (plain item.now)).new
        (map plain list.old.items))) None) }
{
    let Some(place) = place_at(item, "new_offset") else {
        return Ok(is_absent(item, "new_offset"));
    };
    if place > list.len() {
        return Ok(false);
    }
    insert(list, place, value(item, "new_val"))?;
    Ok(true)
}

// Inserts the value at the place, where there is a value.
#[tactic(auto, using(crate::proofs::Places::inserted_seen))]
fn insert(list: &mut Vec<Datum>, place: usize, new: Option<&Datum>) -> Result<(), Memory>
    requires { place ≤ length list.old.items }
    ensures { OnOk result (map plain list.new.items ≡ put_at (Some place)
        (option_map (λ d. plain d.now) new.entry) (map plain list.old.items)) }
{
    let Some(value) = new else {
        return Ok(());
    };
    list.insert(place, value.copy()?)?;
    Ok(())
}
