// Many sessions, by workers at the desks of one hall.
ghost use Rattle.std.specs.Prelude.{◌≡◌, All, IfErr, IfOk, map};
ghost use Rattle.reql_catalog.specs.Machine.{catalogue_machine};
ghost use Rattle.reql_serve.specs.Working.{outside};
ghost use Rattle.reql_serve.specs.Many.{SharesAddUp, ServesMany, at_end};

use crate::seats::{Parted, part, seat_all};
use crate::serving::serve_in_turn;
use crate::worker::{Member, WorkState};
use reql_catalog::Catalogue;
use reql_hall::{FinalHall, Hall};
use reql_memory::Refused;
use reql_net::{Door, Post};
use reql_outside::{Clock, Dice, Link};
use reql_session_api::Planner;
use reql_session_spec::Planning;
use reql_table_spec::TableEngine;
use std::alloc::Global;
use std::sync::Wait;
use std::thread::Threads;

/// A worker as it ended.
#[derive(Drop)]
pub struct Left<G: Door> {
    pub door: G,
    /// The sessions that it served, in their order.
    pub ended: Vec<Member<<G::Link as Link>::Record>>,
    /// How many sessions of its share it did not serve.
    pub left: u64,
    pub state: WorkState,
}

/// What is left of a server of many sessions: its workers as they ended, in the order of their desks, and the hall with its
/// whole histories.
#[derive(Drop)]
pub struct Many<C: TableEngine, G: Door> {
    pub workers: Vec<Left<G>>,
    pub hall: FinalHall<C, Catalogue>,
}

/// Serves up to so many sessions at a hall of these names and engines, which nobody has used: a worker for each post, each at a
/// desk of its own, with its share of the sessions, on so many threads, where they can be made. So many of the first workers
/// begin when the others have ended. An `Err` is want of memory to begin with, or more than 2^32 - 1 posts or engines, and hands
/// the posts back as they came: no door was asked.
pub fn serve_many<R, C, P, G, D, T>(
    rt: &R,
    alloc: Global,
    names: Catalogue,
    engines: Vec<C>,
    planner: &P,
    posts: Vec<Post<G, D, T>>,
    sessions: u64,
    threads: usize,
    later: usize,
) -> Result<Many<C, G>, Refused<Vec<Post<G, D, T>>>>
where
    R: Threads + Wait + Sync,
    C: TableEngine + Drop + Send,
    P: Planner<View = <C as TableEngine>::View> + Sync,
    <P as Planning>::Plan: Drop + Send,
    <P as Planner>::Course: Drop + Send,
    <P as Planner>::View: Send,
    G: Door + Drop + Send,
    G::Link: Send,
    G::Watch: Send,
    <G::Link as Link>::Record: Drop + Send,
    D: Dice + Drop + Send,
    T: Clock + Drop + Send,
    requires names_unused { catalogue_machine.place names ≡ 0 }
    requires slots_unused { All (λ e. C.machine.place (C.state e) ≡ 0) engines.items }
    ensures served { IfOk result (λ many. ServesMany (P.talk planner.now) C.some_state G.Link.kept C.state (λ n. n) names
        (map C.state engines.items) (map (λ p. outside (T.told p.clock) (D.told p.dice) (G.told p.door)) posts.items) sessions
        (map (λ w. at_end (G.told w.door) w.ended.items w.left w.state) many.workers.items) many.hall) }
    ensures back { IfErr result (λ refused. refused.back ≡ posts) }
{
    let Ok(slots) = u32::try_from(engines.len()) else {
        return Err(Refused { back: posts });
    };
    let Ok(count) = u32::try_from(posts.len()) else {
        return Err(Refused { back: posts });
    };
    let Ok(room_after) = Parted::with_room(alloc, posts.len()) else {
        return Err(Refused { back: posts });
    };
    let Ok((hall, desks, room)) = Hall::new(alloc, names, engines, count) else {
        return Err(Refused { back: posts });
    };
    let mut workers = seat_all(alloc, posts, desks, sessions)?;
    serve_in_turn(
        rt,
        alloc,
        &hall,
        slots,
        planner,
        &mut workers,
        threads,
        later,
    );
    let parted = part(workers, room_after);
    let hall = hall.close(rt, parted.desks, room);
    Ok(Many {
        workers: parted.left,
        hall,
    })
}

/// The shares of all workers are all sessions.
pub fn shares_add_up()
    ensures { SharesAddUp }
{}
