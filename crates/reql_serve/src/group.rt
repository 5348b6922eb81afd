// The seats of one thread, which are served turn by turn.
ghost use Rattle.std.specs.Prelude.{◌≡◌, ◌≢◌, ◌<◌, ℕ, List, true, length, slice_index_or, All, IfSome, None};
ghost use Rattle.reql_serve.specs.Seats.{AllSeats, AllWorkedThere, IsSeat, MayBegin, Serves, ServesAll, Stands};
ghost use Rattle.reql_serve.specs.Sessions.{IsFit, at_work};
ghost use Rattle.reql_serve.specs.declared.worker.WorkState.TheVariants as state;

use crate::ground::Ground;
use crate::parting::rest_of;
use crate::seat::serve_place;
use crate::sitting::Sitting;
use crate::worker::{WorkState, Worker};
use reql_catalog::Catalogue;
use reql_hall::Hall;
use reql_net::{Door, Watch};
use reql_outside::{Clock, Dice, Link};
use reql_session::Session;
use reql_session_api::Planner;
use reql_session_spec::Planning;
use reql_table_spec::TableEngine;
use reql_turns::received_room;
use std::alloc::Global;
use std::mem;
use std::sync::Wait;

/// What a thread serves its seats with: what tells it whose turn it is, room for what one receive gives, and who sits at each
/// seat.
#[derive(Drop)]
struct Tools<S, W> {
    watch: W,
    buf: Vec<u8>,
    sittings: Vec<Option<S>>,
}

// So many seats, at none of which anybody sits.
fn no_sittings<S: Drop>(alloc: Global, count: usize) -> Option<Vec<Option<S>>>
    ensures count { IfSome result (λ s. length s.items ≡ count) }
    ensures free { IfSome result (λ s. All (λ x. x ≡ None) s.items) }
{
    let Ok(mut sittings) = Vec::with_capacity(alloc, count) else {
        return None;
    };
    for _ in 0..count {
        sittings.push_reserved(None);
    }
    Some(sittings)
}

// What the seats of these workers are served with. It is none where there are none, or memory or what a watch stands on is
// wanted.
fn gathered<S: Drop, C: TableEngine, G: Door, D, T>(
    alloc: Global,
    workers: &[Worker<C, G, D, T>],
) -> Option<Tools<S, G::Watch>>
    ensures room { IfSome result (λ t. length t.buf.items ≡ 65536) }
    ensures count { IfSome result (λ t. length t.sittings.items ≡ length workers.now) }
    ensures free { IfSome result (λ t. All (λ x. x ≡ None) t.sittings.items) }
    ensures some { IfSome result (λ t. 0 < length workers.now) }
{
    let first = workers.first()?;
    let sittings = no_sittings(alloc, workers.len())?;
    let buf = received_room(alloc)?;
    let watch = first.door.watch(alloc, workers.len())?;
    Some(Tools {
        watch,
        buf,
        sittings,
    })
}

// A worker stands so where it may serve somebody; one without a share has served it. Its door is told where it takes nobody.
fn stand<C: TableEngine, G: Door, D, T>(worker: &mut Worker<C, G, D, T>, state: WorkState)
    ensures { Stands G.told worker.old worker.new state }
{
    worker.state = if worker.left == 0 {
        WorkState::Done
    } else {
        state
    };
    if worker.state != WorkState::Ready {
        worker.door.rests(rest_of(worker.state));
    }
}

// All stand so.
fn stand_all<C: TableEngine, G: Door, D, T>(workers: &mut [Worker<C, G, D, T>], state: WorkState)
    ensures { (n : ℕ) (w : _) → n < length workers.old
        → Stands G.told (slice_index_or workers.old n w) (slice_index_or workers.new n w) state }
{
    for place in 0..workers.len() {
        stand(&mut workers[place], state);
    }
}

// Whether none may go on.
fn all_over<C: TableEngine, G: Door, D, T>(workers: &[Worker<C, G, D, T>]) -> bool
    ensures { result ≡ true → All (λ w. w.state ≢ state.Ready) workers.now }
{
    for worker in workers {
        if worker.state == WorkState::Ready {
            return false;
        }
    }
    true
}

// The turn of a seat. Whether its worker ended with it.
fn serve_seat<
    'a,
    R: Wait,
    C: TableEngine + Drop,
    P: Planner<View = <C as TableEngine>::View>,
    G: Door,
    D: Dice + Drop,
    T: Clock + Drop,
>(
    ground: &Ground<'a, R, C, P>,
    watch: &mut G::Watch,
    place: usize,
    worker: &mut Worker<C, G, D, T>,
    seat: &mut Option<Sitting<Session<'a, R, C, P, D, T>, G::Link>>,
    buf: &mut [u8],
) -> bool
where
    <P as Planning>::Plan: Drop,
    <P as Planner>::Course: Drop,
    requires room { length buf.old ≡ 65536 }
    requires slots { ground.now.slots ≡ length ground.now.hall.now.slots }
    requires seat { IsSeat (P.talk ground.now.planner.now) C.some_state G.Link.kept G.Link.tape T.told D.told G.told
        (at_work C.some_state T.told D.told) (IsFit P.talk ground.now.hall.now (P.talk ground.now.planner.now)) ground.now.hall.now worker.old seat.old }
    ensures { Serves (P.talk ground.now.planner.now) C.some_state G.Link.kept G.Link.tape T.told D.told G.told
        (at_work C.some_state T.told D.told) (IsFit P.talk ground.now.hall.now (P.talk ground.now.planner.now)) ground.now.hall.now worker.old seat.old worker.new seat.new }
{
    if worker.state != WorkState::Ready {
        watch.retires(place);
        return false;
    }
    let before = seat.take();
    let after = serve_place(ground, watch, place, worker, before, buf);
    drop(mem::replace(seat, after));
    worker.state != WorkState::Ready
}

// The turn of the seat at a place. Whether its worker ended with it.
fn serve_at<
    'a,
    R: Wait,
    C: TableEngine + Drop,
    P: Planner<View = <C as TableEngine>::View>,
    G: Door,
    D: Dice + Drop,
    T: Clock + Drop,
>(
    ground: &Ground<'a, R, C, P>,
    watch: &mut G::Watch,
    place: usize,
    workers: &mut [Worker<C, G, D, T>],
    sittings: &mut [Option<Sitting<Session<'a, R, C, P, D, T>, G::Link>>],
    buf: &mut [u8],
) -> bool
where
    <P as Planning>::Plan: Drop,
    <P as Planner>::Course: Drop,
    requires room { length buf.old ≡ 65536 }
    requires slots { ground.now.slots ≡ length ground.now.hall.now.slots }
    requires place { place < length workers.old }
    requires count { length sittings.old ≡ length workers.old }
    requires seats { AllSeats (P.talk ground.now.planner.now) C.some_state G.Link.kept G.Link.tape T.told D.told G.told
        (at_work C.some_state T.told D.told) (IsFit P.talk ground.now.hall.now (P.talk ground.now.planner.now))
        ground.now.hall.now workers.old sittings.old }
    ensures { ServesAll (P.talk ground.now.planner.now) C.some_state G.Link.kept G.Link.tape T.told D.told G.told
        (at_work C.some_state T.told D.told) (IsFit P.talk ground.now.hall.now (P.talk ground.now.planner.now))
        ground.now.hall.now workers.old sittings.old workers.new sittings.new }
{
    serve_seat(
        ground,
        watch,
        place,
        &mut workers[place],
        &mut sittings[place],
        buf,
    )
}

// Serves seats turn by turn, until none of their workers may go on.
fn serve_in_turns<
    'a,
    R: Wait,
    C: TableEngine + Drop,
    P: Planner<View = <C as TableEngine>::View>,
    G: Door,
    D: Dice + Drop,
    T: Clock + Drop,
>(
    ground: &Ground<'a, R, C, P>,
    watch: &mut G::Watch,
    workers: &mut [Worker<C, G, D, T>],
    sittings: &mut [Option<Sitting<Session<'a, R, C, P, D, T>, G::Link>>],
    buf: &mut [u8],
)
where
    <P as Planning>::Plan: Drop,
    <P as Planner>::Course: Drop,
    requires room { length buf.old ≡ 65536 }
    requires slots { ground.now.slots ≡ length ground.now.hall.now.slots }
    requires some { 0 < length workers.old }
    requires count { length sittings.old ≡ length workers.old }
    requires seats { AllSeats (P.talk ground.now.planner.now) C.some_state G.Link.kept G.Link.tape T.told D.told G.told
        (at_work C.some_state T.told D.told) (IsFit P.talk ground.now.hall.now (P.talk ground.now.planner.now))
        ground.now.hall.now workers.old sittings.old }
    ensures over { All (λ w. w.state ≢ state.Ready) workers.new }
    ensures served { ServesAll (P.talk ground.now.planner.now) C.some_state G.Link.kept G.Link.tape T.told D.told G.told
        (at_work C.some_state T.told D.told) (IsFit P.talk ground.now.hall.now (P.talk ground.now.planner.now))
        ground.now.hall.now workers.old sittings.old workers.new sittings.new }
{
    if all_over(workers) {
        return;
    }
    for _ in ground.rt.forever() {
        let place = watch.next(workers.len());
        if !serve_at(ground, watch, place, workers, sittings, buf) {
            continue;
        }
        if all_over(workers) {
            return;
        }
    }
    unreachable!()
}

/// Serves the links of the doors of these workers, each up to its share, turn by turn.
pub(crate) fn serve_chunk<
    R: Wait,
    C: TableEngine + Drop,
    P: Planner<View = <C as TableEngine>::View>,
    G: Door,
    D: Dice + Drop,
    T: Clock + Drop,
>(
    rt: &R,
    alloc: Global,
    hall: &Hall<C, Catalogue>,
    slots: u32,
    planner: &P,
    workers: &mut [Worker<C, G, D, T>],
)
where
    <P as Planning>::Plan: Drop,
    <P as Planner>::Course: Drop,
    requires { MayBegin hall.now slots workers.old }
    ensures { AllWorkedThere (P.talk planner.now) C.some_state G.Link.kept T.told D.told G.told hall.now workers.old workers.new }
{
    let Some(
        Tools {
            mut watch,
            mut buf,
            mut sittings,
        },
    ) = gathered(alloc, workers)
    else {
        stand_all(workers, WorkState::Memory);
        return;
    };
    let ground = Ground {
        rt,
        alloc,
        hall,
        slots,
        planner,
    };
    stand_all(workers, WorkState::Ready);
    serve_in_turns(&ground, &mut watch, workers, &mut sittings, &mut buf);
}
