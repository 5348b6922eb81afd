// How a hall opens: its engines are shared, and each desk gets a pass on each.
ghost use Rattle.std.specs.Prelude.{◌≡◌, ◌<◌, ◌≤◌, ℕ, [], All, map, length, slice_index_or, IfOk};
ghost use Rattle.reql_shared.specs.Sight.{unused_passes};
ghost use Rattle.reql_hall.specs.Rooms.{Sits, unused_desks, with_more};
ghost use Rattle.reql_hall.specs.Sharing.{SharesOne, SharesAll};

use crate::desk::Desk;
use crate::hall::{Hall, Room};
use reql_memory::Memory;
use reql_shared::{Engine, Pass, Shared};
use std::alloc::Global;

impl<C: Engine + Drop, N: Engine + Drop> Hall<C, N> {
    /// A hall of names and engines that have recorded nothing yet, with so many desks, numbered from 0, and the
    /// room that its end needs.
    pub fn new(
        alloc: Global,
        names: N,
        engines: Vec<C>,
        desks: u32,
    ) -> Result<(Hall<C, N>, Vec<Desk<C, N>>, Room<C>), Memory>
        requires names_unused { N.machine.place (N.state names) ≡ 0 }
        requires slots_unused { All (λ e. C.machine.place (C.state e) ≡ 0) engines.items }
        ensures names { IfOk result (λ made. (made.0.names.start ≡ N.state names)
            × (made.0.names.passes ≡ desks)) }
        ensures slots { IfOk result (λ made. map (λ o. o.start) made.0.slots
            ≡ map C.state engines.items) }
        ensures passes { IfOk result (λ made. All (λ o. o.passes ≡ desks) made.0.slots) }
        ensures desks { IfOk result (λ made. made.1.items ≡ unused_desks made.0) }
        ensures of_this_hall { IfOk result (λ made. All (Sits made.0) made.1.items) }
        ensures room { IfOk result (λ made. length made.0.slots ≤ made.2) }
    {
        let room = Room::new(alloc, engines.len())?;
        let (names, passes) = Shared::new(alloc, names, desks)?;
        let mut made = open_desks(alloc, passes)?;
        let slots = share_all(alloc, engines, desks, &mut made)?;
        Ok((Hall { names, slots }, made, room))
    }
}

impl<C: Engine> Room<C> {
    // Room for so many slots.
    fn new(alloc: Global, slots: usize) -> Result<Room<C>, Memory>
        ensures { IfOk result (λ room. slots ≤ room) }
    {
        match Vec::with_capacity(alloc, slots) {
            Ok(slots) => Ok(Room { slots }),
            Err(_) => Err(Memory),
        }
    }
}

// A desk for each pass on the names.
fn open_desks<C: Engine + Drop, N: Engine + Drop>(
    alloc: Global,
    passes: Vec<Pass<N>>,
) -> Result<Vec<Desk<C, N>>, Memory>
    ensures { IfOk result (λ made. made.items
        ≡ map (λ p. record { names = p; slots = [] }) passes.items) }
{
    let Ok(mut made) = Vec::with_capacity(alloc, passes.len()) else {
        return Err(Memory);
    };
    for names in passes {
        made.push_reserved(Desk::without_slots(alloc, names));
    }
    Ok(made)
}

// Gives each desk its pass on one more slot.
fn deal<C: Engine + Drop, N: Engine + Drop>(
    passes: Vec<Pass<C>>,
    desks: &mut [Desk<C, N>],
) -> Result<(), Memory>
    requires count { length passes.items ≡ length desks.old }
    ensures { IfOk result (λ done. (k : ℕ) (desk : _) (pass : _) → k < length desks.old
        → slice_index_or desks.new k desk ≡ with_more (slice_index_or desks.old k desk)
        (slice_index_or passes.items k pass)) }
{
    let mut passes = passes;
    while let Some(pass) = passes.pop() {
        let desk = &mut desks[passes.len()];
        desk.gain(pass)?;
    }
    Ok(())
}

// A shared engine with so many passes.
fn share<E: Engine + Drop>(
    alloc: Global,
    engine: E,
    count: u32,
) -> Result<(Shared<E>, Vec<Pass<E>>), Memory>
    requires unused { E.machine.place (E.state engine) ≡ 0 }
    ensures start { IfOk result (λ made. made.0.start ≡ E.state engine) }
    ensures count { IfOk result (λ made. made.0.passes ≡ count) }
    ensures passes { IfOk result (λ made. made.1.items ≡ unused_passes made.0) }
    ensures many { IfOk result (λ made. length made.1.items ≡ count) }
{
    let (shared, passes) = Shared::new(alloc, engine, count)?;
    Ok((shared, passes))
}

// Shares one more engine, and gives each desk its pass on it.
fn share_one<C: Engine + Drop, N: Engine + Drop>(
    alloc: Global,
    engine: C,
    count: u32,
    slots: &mut Vec<Shared<C>>,
    desks: &mut [Desk<C, N>],
) -> Result<(), Memory>
    requires unused { C.machine.place (C.state engine) ≡ 0 }
    requires count { length desks.old ≡ count }
    ensures { IfOk result (λ done. SharesOne (C.state engine) count slots.old.items slots.new.items
        desks.old desks.new) }
{
    let (shared, passes) = share(alloc, engine, count)?;
    deal(passes, desks)?;
    let Ok(()) = slots.push(shared) else {
        return Err(Memory);
    };
    Ok(())
}

// Shares each engine, and gives each desk its pass on it.
fn share_all<C: Engine + Drop, N: Engine + Drop>(
    alloc: Global,
    engines: Vec<C>,
    count: u32,
    desks: &mut [Desk<C, N>],
) -> Result<Vec<Shared<C>>, Memory>
    requires unused { All (λ e. C.machine.place (C.state e) ≡ 0) engines.items }
    requires count { length desks.old ≡ count }
    requires empty { All (λ desk. desk.slots ≡ []) desks.old }
    ensures { IfOk result (λ slots. SharesAll (map C.state engines.items) count slots.items
        desks.old desks.new) }
{
    let mut slots = Vec::new(alloc);
    for engine in engines {
        share_one(alloc, engine, count, &mut slots, desks)?;
    }
    Ok(slots)
}
