// Workers, some on each thread.
ghost use Rattle.std.specs.Prelude.{◌≡◌, ◌<◌, ℕ, [], All, length, slice_index_or};
ghost use Rattle.reql_serve.specs.Working.{SitsAt, WorkedThere};

use crate::group::serve_chunk;
use crate::worker::Worker;
use reql_catalog::Catalogue;
use reql_hall::Hall;
use reql_net::Door;
use reql_outside::{Clock, Dice, Link};
use reql_session_api::Planner;
use reql_session_spec::Planning;
use reql_table_spec::TableEngine;
use std::alloc::Global;
use std::sync::Wait;
use std::thread;
use std::thread::Threads;

// How many of so many seats each of so many threads has, at most.
fn seats_each(seats: usize, threads: usize) -> usize
    ensures { 0 < result }
{
    seats.div_ceil(threads.max(1)).max(1)
}

/// Serves the links of each worker's door, up to its share, on so many threads, where they can be made. Each thread serves as
/// many workers as another, turn by turn. They share the hall, at whose desks they sit. A worker that ends leaves the others as
/// they are.
pub fn serve_all<R, C, P, G, D, T>(
    rt: &R,
    alloc: Global,
    hall: &Hall<C, Catalogue>,
    slots: u32,
    planner: &P,
    workers: &mut [Worker<C, G, D, T>],
    threads: usize,
)
where
    R: Threads + Wait + Sync,
    C: TableEngine + Drop + Send,
    P: Planner<View = <C as TableEngine>::View> + Sync,
    <P as Planning>::Plan: Drop + Send,
    <P as Planner>::Course: Drop + Send,
    <P as Planner>::View: Send,
    G: Door + Send,
    G::Link: Send,
    G::Watch: Send,
    <G::Link as Link>::Record: Send,
    D: Dice + Drop + Send,
    T: Clock + Drop + Send,
    requires of_this_hall { All (λ w. SitsAt hall.now w.bench) workers.old }
    requires slots { slots ≡ length hall.now.slots }
    requires unused { All (λ w. w.ended.items ≡ []) workers.old }
    ensures { (k : ℕ) (w : _) → k < length workers.old
        → WorkedThere (P.talk planner.now) C.some_state G.Link.kept T.told D.told hall.now
        (slice_index_or workers.old k w).bench (slice_index_or workers.new k w).bench
        (G.told (slice_index_or workers.old k w).door) (G.told (slice_index_or workers.new k w).door)
        (slice_index_or workers.old k w).left (slice_index_or workers.new k w).left
        (slice_index_or workers.new k w).ended.items (slice_index_or workers.new k w).state }
{
    let size = seats_each(workers.len(), threads);
    thread::for_each_chunk_mut(
        rt,
        workers,
        size,
        &|_, chunk| serve_chunk(rt, alloc, hall, slots, planner, chunk),
    );
}

/// The same, but that so many of the first workers begin when the others have ended.
pub(crate) fn serve_in_turn<R, C, P, G, D, T>(
    rt: &R,
    alloc: Global,
    hall: &Hall<C, Catalogue>,
    slots: u32,
    planner: &P,
    workers: &mut [Worker<C, G, D, T>],
    threads: usize,
    later: usize,
)
where
    R: Threads + Wait + Sync,
    C: TableEngine + Drop + Send,
    P: Planner<View = <C as TableEngine>::View> + Sync,
    <P as Planning>::Plan: Drop + Send,
    <P as Planner>::Course: Drop + Send,
    <P as Planner>::View: Send,
    G: Door + Send,
    G::Link: Send,
    G::Watch: Send,
    <G::Link as Link>::Record: Send,
    D: Dice + Drop + Send,
    T: Clock + Drop + Send,
    requires of_this_hall { All (λ w. SitsAt hall.now w.bench) workers.old }
    requires slots { slots ≡ length hall.now.slots }
    requires unused { All (λ w. w.ended.items ≡ []) workers.old }
    ensures { (k : ℕ) (w : _) → k < length workers.old
        → WorkedThere (P.talk planner.now) C.some_state G.Link.kept T.told D.told hall.now
        (slice_index_or workers.old k w).bench (slice_index_or workers.new k w).bench
        (G.told (slice_index_or workers.old k w).door) (G.told (slice_index_or workers.new k w).door)
        (slice_index_or workers.old k w).left (slice_index_or workers.new k w).left
        (slice_index_or workers.new k w).ended.items (slice_index_or workers.new k w).state }
{
    let place = later.min(workers.len());
    let (last, first) = workers.split_at_mut(place);
    serve_all(rt, alloc, hall, slots, planner, first, threads);
    serve_all(rt, alloc, hall, slots, planner, last, threads);
}
