// How a hall closes: its engines are shared no more, and each desk is shown their whole histories.
ghost use Rattle.std.specs.Prelude.{◌≡◌, ◌<◌, ◌≤◌, ℕ, [], All, map, length, slice_index_or};
ghost use Rattle.std.specs.List.{AllZip};
ghost use Rattle.reql_shared.specs.History.{AllBelow};
ghost use Rattle.reql_shared.specs.Machine.{replay};
ghost use Rattle.reql_shared.specs.Sight.{Learns};
ghost use Rattle.reql_hall.specs.Rooms.{Sits, LearnsAll, rooms_of, histories_of};

use crate::desk::Desk;
use crate::hall::{Hall, Room};
use crate::last::FinalHall;
use reql_shared::{Engine, Final, Pass, Shared};
use std::sync::Wait;

impl<C: Engine + Drop, N: Engine + Drop> Hall<C, N> {
    /// Ends the sharing, and shows its desks the whole histories. It takes each engine's lock once more, so it may
    /// wait, and it takes no memory.
    pub fn close<R: Wait>(self, rt: &R, desks: Vec<Desk<C, N>>, room: Room<C>) -> FinalHall<C, N>
        requires of_this_hall { All (Sits self) desks.items }
        requires room { length self.slots ≤ room }
        ensures rooms { rooms_of result ≡ self }
        ensures names_state { N.state result.names.engine
            ≡ replay N.machine self.names.start result.names.history }
        ensures states { All (λ f. C.state f.engine ≡ replay C.machine f.object.start f.history)
            result.slots }
        ensures names_numbers { AllBelow self.names.passes result.names.history }
        ensures numbers { All (λ f. AllBelow f.object.passes f.history) result.slots }
        ensures desks { AllZip (λ old new. LearnsAll old new (histories_of result)) desks.items
            result.desks }
        ensures of_this_hall { All (Sits (rooms_of result)) result.desks }
    {
        let Hall { names, slots } = self;
        let Room { slots: room } = room;
        let mut names = names.close(rt);
        let mut slots = close_all(rt, slots, room);
        let mut desks = desks;
        check_all(&mut names, &mut slots, &mut desks);
        FinalHall {
            names,
            slots,
            desks,
        }
    }
}

// Ends the sharing of each engine, in the room that is there.
fn close_all<E: Engine + Drop, R: Wait>(
    rt: &R,
    shared: Vec<Shared<E>>,
    room: Vec<Final<E>>,
) -> Vec<Final<E>>
    requires empty { room.items ≡ [] }
    requires room { length shared.items ≤ room.cap }
    ensures objects { map (λ f. f.object) result.items ≡ shared.items }
    ensures states { All (λ f. E.state f.engine ≡ replay E.machine f.object.start f.history)
        result.items }
    ensures numbers { All (λ f. AllBelow f.object.passes f.history) result.items }
{
    let mut closed = room;
    for one in shared {
        closed.push_reserved(one.close(rt));
    }
    closed
}

// Shows each pass the whole history of its engine.
fn check_slots<E: Engine + Drop>(slots: &mut [Final<E>], passes: &mut Vec<Pass<E>>)
    requires of_these_engines { map (λ p. p.object) passes.old.items
        ≡ map (λ f. f.object) slots.old }
    ensures same { slots.new ≡ slots.old }
    ensures many { length passes.new.items ≡ length passes.old.items }
    ensures learns { (k : ℕ) (p : _) (f : _) → k < length passes.old.items
        → Learns (slice_index_or passes.old.items k p) (slice_index_or passes.new.items k p)
        (slice_index_or slots.old k f).history }
{
    for k in 0..passes.len() {
        let last = &mut slots[k];
        let pass = &mut passes[k];
        last.check(pass);
    }
}

// Shows a desk the whole histories.
fn check_desk<C: Engine + Drop, N: Engine + Drop>(
    names: &mut Final<N>,
    slots: &mut [Final<C>],
    desk: &mut Desk<C, N>,
)
    requires of_this_hall { Sits record {
      names = names.old.object;
      slots = map (λ f. f.object) slots.old;
    } desk.old }
    ensures names { names.new ≡ names.old }
    ensures slots { slots.new ≡ slots.old }
    ensures desk { LearnsAll desk.old desk.new record {
      names = names.old.history;
      slots = map (λ f. f.history) slots.old;
    } }
    ensures stays { Sits record {
      names = names.old.object;
      slots = map (λ f. f.object) slots.old;
    } desk.new }
{
    names.check(&mut desk.names);
    check_slots(slots, &mut desk.slots);
}

// Shows each desk the whole histories.
fn check_all<C: Engine + Drop, N: Engine + Drop>(
    names: &mut Final<N>,
    slots: &mut [Final<C>],
    desks: &mut [Desk<C, N>],
)
    requires of_this_hall { All (Sits record {
      names = names.old.object;
      slots = map (λ f. f.object) slots.old;
    }) desks.old }
    ensures names { names.new ≡ names.old }
    ensures slots { slots.new ≡ slots.old }
    ensures desks { AllZip (λ old new. LearnsAll old new record {
      names = names.old.history;
      slots = map (λ f. f.history) slots.old;
    }) desks.old desks.new }
    ensures stay { All (Sits record {
      names = names.old.object;
      slots = map (λ f. f.object) slots.old;
    }) desks.new }
{
    for desk in desks.iter_mut() {
        check_desk(names, slots, desk);
    }
}
