// Feeds that were opened, and their first items.
ghost use Rattle.std.specs.Prelude.{◌≡◌, ◌∷◌, ◌++◌, [], map, cond, codes, IfOk, OnOk};
ghost use Rattle.reql_datum.specs.Plain.{text};
ghost use Rattle.reql_datum.specs.View.{plain};
ghost use Rattle.reql_rules.specs.Lists.{object_of};
ghost use Rattle.reql_feed_spec.specs.Shown.{type_member};
ghost use Rattle.reql_plan_spec.specs.Course.{items_of, opening_from, first_stamp as first_stamp_of, state_of, first_items as first_items_of};
ghost use Rattle.reql_plan_spec.specs.Held.{dropped_of as dropped_of_slot};
ghost use Rattle.reql_plan_results.specs.Seen.{told as told_of, opened, item};

use crate::members::set_text;
use crate::names::dropped_of;
use reql_catalog::Names;
use reql_datum::{Datum, Fields, Items, Memory, Name};
use std::alloc::Global;

/// How the items of a feed are given, by the options of CHANGES.
#[derive(Clone, Copy, Drop)]
pub struct Told {
    /// How many items wait at most.
    pub size: u32,
    /// Whether the first items are the elements that are there.
    pub initial: bool,
    /// Whether states are told.
    pub states: bool,
    /// Whether items tell their types.
    pub types: bool,
    /// Whether items of a limit feed tell their places.
    pub offsets: bool,
    /// Whether what waits is joined when it is taken.
    pub squash: bool,
}

/// An arm of a feed as it was opened: its slot, its number there, its stamp, and the opening items.
#[derive(Drop)]
pub struct Open {
    pub slot: u32,
    pub feed: u64,
    pub stamp: u64,
    pub opening: Items,
}

/// An item of a feed: the place of its arm, whether it tells a state, and its stamp.
#[derive(Drop)]
pub struct Item {
    pub arm: u64,
    pub is_state: bool,
    pub stamp: u64,
    pub shown: Datum,
}

/// An arm of an open feed: its slot, its number there, and the text that its end is told with where
/// the table is dropped.
#[derive(Drop)]
pub struct Arm {
    pub slot: u32,
    pub feed: u64,
    pub dropped: Name,
}

/// The arm of an open feed.
pub fn arm_of(alloc: Global, names: &Names, open: &Open) -> Result<Arm, Memory>
    ensures slot { IfOk result (λ a. a.slot ≡ open.now.slot) }
    ensures feed { IfOk result (λ a. a.feed ≡ open.now.feed) }
    ensures dropped { IfOk result (λ a. a.dropped ≡ dropped_of_slot names.now open.now.slot) }
{
    Ok(Arm {
        slot: open.slot,
        feed: open.feed,
        dropped: dropped_of(alloc, names, open.slot)?,
    })
}

/// The first items of a feed: where they are asked for, the opening items by arm, after the state
/// `initializing`; then the state `ready`. States have the stamp of arm 0.
pub fn first_items(alloc: Global, told: Told, arms: &[Open]) -> Result<Vec<Item>, Memory>
    ensures { IfOk result (λ items. map item items.items
        ≡ first_items_of (told_of told) (map opened arms.now)) }
{
    let mut items = Vec::new(alloc);
    add_initial(alloc, &mut items, told, arms)?;
    add_state(alloc, &mut items, told, arms, "ready")?;
    Ok(items)
}

// Adds the opening items after their state, where they are asked for.
fn add_initial(
    alloc: Global,
    items: &mut Vec<Item>,
    told: Told,
    arms: &[Open],
) -> Result<(), Memory>
    ensures { OnOk result (map item items.new.items ≡ map item items.old.items
        ++ cond told.initial (state_of (told_of told) (map opened arms.now) (codes "initializing")
        ++ opening_from 0 (map opened arms.now)) []) }
{
    if !told.initial {
        return Ok(());
    }
    add_state(alloc, items, told, arms, "initializing")?;
    add_openings(items, arms)?;
    Ok(())
}

fn first_stamp(arms: &[Open]) -> u64
    ensures { result ≡ first_stamp_of (map opened arms.now) }
{
    match arms {
        [] => 0,
        [first, ..] => first.stamp,
    }
}

// Adds the item of a state, where states are told.
fn add_state(
    alloc: Global,
    items: &mut Vec<Item>,
    told: Told,
    arms: &[Open],
    state: &str,
) -> Result<(), Memory>
    ensures { OnOk result (map item items.new.items
        ≡ map item items.old.items ++ state_of (told_of told) (map opened arms.now) state.now) }
{
    if !told.states {
        return Ok(());
    }
    let shown = state_item(alloc, told.types, state)?;
    items.push(Item {
        arm: 0,
        is_state: true,
        stamp: first_stamp(arms),
        shown,
    })?;
    Ok(())
}

// What a feed tells of its own state.
fn state_item(alloc: Global, types: bool, state: &str) -> Result<Datum, Memory>
    ensures { IfOk result (λ d. plain d ≡ object_of ((codes "state", text state.now)
        ∷ type_member types (codes "state"))) }
{
    let mut fields = Fields::with_room(alloc, 2)?;
    set_text(alloc, &mut fields, "state", state)?;
    if types {
        set_text(alloc, &mut fields, "type", "state")?;
        return Ok(Datum::Obj(fields));
    }
    Ok(Datum::Obj(fields))
}

// Adds the opening items of each arm.
fn add_openings(items: &mut Vec<Item>, arms: &[Open]) -> Result<(), Memory>
    ensures { OnOk result (map item items.new.items
        ≡ map item items.old.items ++ opening_from 0 (map opened arms.now)) }
{
    let mut place = 0;
    while place < arms.len() {
        let arm = &arms[place];
        add_opening(items, place as u64, arm.stamp, &arm.opening)?;
        place += 1;
    }
    Ok(())
}

// Adds the opening items of one arm.
#[tactic(auto, using(reql_datum::proofs::Walks::walks))]
fn add_opening(items: &mut Vec<Item>, arm: u64, stamp: u64, opening: &Items) -> Result<(), Memory>
    ensures { OnOk result (map item items.new.items
        ≡ map item items.old.items ++ items_of arm stamp opening.now) }
{
    let mut place = 0;
    while let Some(shown) = opening.at(place) {
        items.push(Item {
            arm,
            is_state: false,
            stamp,
            shown: shown.copy()?,
        })?;
        place += 1;
    }
    Ok(())
}
