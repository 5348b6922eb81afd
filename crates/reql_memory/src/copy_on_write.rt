//! Lists that are shared, and copied where a shared one is written to: calls on the field that
//! holds one.
ghost use Rattle.std.specs.Prelude.{◌≡◌, [], ◌∷◌, ◌++◌, is_ok, IfOk, IfErr, if◌then◌else◌};
ghost use Rattle.reql_memory.specs.CopyOnWrite.{held_items};

use crate::memory::{Memory, Refused};
use std::alloc::Global;
use std::sync::Arc;

/// The items, none where there is no list.
pub fn shown<T>(held: &Option<Arc<Vec<T>>>) -> &[T]
    ensures { result.now ≡ held_items held.now }
{
    match held {
        None => &[],
        Some(list) => list.as_slice(),
    }
}

/// A list of nothing with room for so many items, which takes no memory where that is none.
pub fn roomy<T: Drop>(alloc: Global, room: usize) -> Result<Option<Arc<Vec<T>>>, Memory>
    ensures { IfOk result (λ held. held_items held ≡ []) }
{
    if room == 0 {
        return Ok(None);
    }
    let list = Vec::with_capacity(alloc, room)?;
    Ok(Some(Arc::new(alloc, list)?))
}

/// A field that shares the list. Memory where the count of sharers is full.
pub fn copied<T>(held: &Option<Arc<Vec<T>>>) -> Result<Option<Arc<Vec<T>>>, Memory>
    ensures { IfOk result (λ copy. held_items copy ≡ held_items held.now) }
{
    match held {
        None => Ok(None),
        Some(list) => Ok(Some(Arc::try_clone(list)?)),
    }
}

fn is_own<T>(held: &Option<Arc<Vec<T>>>) -> bool {
    match held {
        None => false,
        Some(list) => Arc::strong_count(list) == 1,
    }
}

// A copy of each item, with room for so many more.
fn copies_of<T: Clone>(alloc: Global, items: &[T], room: usize) -> Result<Vec<T>, Memory>
    requires exact { (x y : T) → T.is_clone x y → y ≡ x }
    ensures { IfOk result (λ r. r.items ≡ items.now) }
{
    let mut copies = Vec::with_capacity(alloc, items.len().saturating_add(room))?;
    for item in items {
        let copied = item.clone()?;
        copies.push(copied)?;
    }
    Ok(copies)
}

/// Makes the list one that no other value shares, to write to by `Arc::get_mut`. A list that is made
/// or copied for it has room for so many items more.
pub fn own<T: Clone>(
    alloc: Global,
    held: &mut Option<Arc<Vec<T>>>,
    room: usize,
) -> Result<(), Memory>
    requires exact { (x y : T) → T.is_clone x y → y ≡ x }
    ensures { held_items held.new ≡ held_items held.old }
{
    if is_own(held) {
        return Ok(());
    }
    let copies = copies_of(alloc, shown(held), room)?;
    *held = Some(Arc::new(alloc, copies)?);
    Ok(())
}

/// Adds an item at the end, where a list has room for four at first.
pub fn push_on<T: Clone>(
    alloc: Global,
    held: &mut Option<Arc<Vec<T>>>,
    item: T,
) -> Result<(), Refused<T>>
    requires exact { (x y : T) → T.is_clone x y → y ≡ x }
    ensures items { held_items held.new
        ≡ (if is_ok result then held_items held.old ++ item ∷ [] else held_items held.old) }
    ensures back { IfErr result (λ refused. refused.back ≡ item) }
{
    if let Err(_) = own(alloc, held, 4) {
        return Err(Refused { back: item });
    }
    match held {
        None => Err(Refused { back: item }),
        Some(list) => match Arc::get_mut(list) {
            None => Err(Refused { back: item }),
            Some(held) => match held.push(item) {
                Ok(()) => Ok(()),
                Err(failed) => Err(Refused { back: failed.value }),
            },
        },
    }
}
