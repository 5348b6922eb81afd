// What is done at one seat.
ghost use Rattle.std.specs.Prelude.{◌≡◌, ◌<◌, length, None, Some};
ghost use Rattle.reql_hall.specs.Rooms.{Sits};
ghost use Rattle.reql_session_api.specs.World.{AtWork};
ghost use Rattle.reql_turns.specs.Running.{HasEnded};
ghost use Rattle.reql_serve.specs.Seats.{Asks, HasLeft, IsSeat, IsServedSo, Serves, Stopped};
ghost use Rattle.reql_serve.specs.Working.{SitsAt};
ghost use Rattle.reql_serve.specs.Sessions.{at_work, IsFit, IsReady};
ghost use Rattle.reql_serve.specs.declared.worker.WorkState.TheVariants as state;

use crate::ground::Ground;
use crate::parting::{parting_of, rest_of};
use crate::sitting::{Received, Sitting, receive, tend};
use crate::worker::{Member, WorkState, Worker};
use reql_net::{Door, Watch};
use reql_outside::{Clock, Dice, Link};
use reql_session::{Bench, Session};
use reql_session_api::Planner;
use reql_session_spec::{End, Planning};
use reql_table_spec::TableEngine;
use reql_turns::finish;
use std::sync::Wait;

/// What comes of asking a door for a client, where a bench is free.
pub(crate) enum Asked<S, C: TableEngine, D, T> {
    /// The session of a client has the bench.
    Client(S),
    /// No client is there now.
    Nobody(Bench<C, D, T>),
    /// No more clients are taken, and why.
    Over(Bench<C, D, T>, WorkState),
}

/// Asks a door for a client of a bench. What its session needs is there before the door is asked.
fn invite<
    'a,
    R: Wait,
    C: TableEngine + Drop,
    P: Planner<View = <C as TableEngine>::View>,
    G: Door,
    D: Dice + Drop,
    T: Clock + Drop,
>(
    ground: &Ground<'a, R, C, P>,
    door: &mut G,
    bench: Bench<C, D, T>,
) -> Asked<Sitting<Session<'a, R, C, P, D, T>, G::Link>, C, D, T>
where
    <P as Planning>::Plan: Drop,
    <P as Planner>::Course: Drop,
    requires of_this_hall { Sits ground.now.hall.now bench.desk }
    requires slots { ground.now.slots ≡ length ground.now.hall.now.slots }
    ensures { Asks (P.talk ground.now.planner.now) C.some_state G.Link.tape T.told D.told (at_work C.some_state T.told D.told)
        (IsFit P.talk ground.now.hall.now (P.talk ground.now.planner.now)) bench (G.told door.old) (G.told door.new) result }
{
    let session = match Session::new(
        ground.rt,
        ground.alloc,
        ground.hall,
        bench,
        ground.slots,
        ground.planner,
    ) {
        Ok(session) => session,
        Err(refused) => return Asked::Over(refused.back, WorkState::Memory),
    };
    match receive(ground.alloc, door, &session) {
        Received::Client(running) => Asked::Client(Sitting {
            handler: session,
            running,
        }),
        Received::Nobody => Asked::Nobody(session.into_bench()),
        Received::Over(state) => Asked::Over(session.into_bench(), state),
    }
}

/// Ends the session of a client, which has ended so, and tells its door. What it was, and its bench.
fn dismiss<
    'a,
    R: Wait,
    C: TableEngine + Drop,
    P: Planner<View = <C as TableEngine>::View>,
    G: Door,
    D: Dice + Drop,
    T: Clock + Drop,
>(
    door: &mut G,
    sitting: Sitting<Session<'a, R, C, P, D, T>, G::Link>,
    end: End,
) -> (Bench<C, D, T>, Member<<G::Link as Link>::Record>)
where
    <P as Planning>::Plan: Drop,
    <P as Planner>::Course: Drop,
    requires ready { IsReady sitting.handler }
    ensures sits { Sits sitting.entry.handler.hall.now result.0.desk }
    ensures desk { result.1.desk ≡ result.0.desk.names.number }
    ensures still { G.told door.new ≡ G.told door.old }
    ensures served { (start : AtWork) → HasEnded (P.talk sitting.entry.handler.planner.now) G.Link.tape start
        (at_work C.some_state T.told D.told sitting.entry.handler) sitting.entry.running end
        → IsServedSo (P.talk sitting.entry.handler.planner.now) C.some_state G.Link.kept T.told D.told start result.0 result.1 }
{
    let Sitting {
        handler: mut session,
        running,
    } = sitting;
    let served = finish(running, &mut session, end);
    door.leaves(&served.tape, parting_of(served.end));
    let bench = session.into_bench();
    let desk = bench.desk.number();
    (bench, Member { desk, served })
}

// The worker at a place takes no more clients, for this reason.
fn stop<C: TableEngine, G: Door, D, T>(
    watch: &mut G::Watch,
    place: usize,
    worker: &mut Worker<C, G, D, T>,
    state: WorkState,
)
    ensures { Stopped G.told worker.old worker.new state }
{
    worker.door.rests(rest_of(state));
    worker.state = state;
    watch.retires(place);
}

/// Asks the door of a worker for a client, where nobody is at its desk and it may go on. All that a session needs is there
/// before the door is asked.
fn ask<
    'a,
    R: Wait,
    C: TableEngine + Drop,
    P: Planner<View = <C as TableEngine>::View>,
    G: Door,
    D: Dice + Drop,
    T: Clock + Drop,
>(
    ground: &Ground<'a, R, C, P>,
    watch: &mut G::Watch,
    place: usize,
    worker: &mut Worker<C, G, D, T>,
) -> Option<Sitting<Session<'a, R, C, P, D, T>, G::Link>>
where
    <P as Planning>::Plan: Drop,
    <P as Planner>::Course: Drop,
    requires slots { ground.now.slots ≡ length ground.now.hall.now.slots }
    requires ready { worker.old.state ≡ state.Ready }
    requires of_this_hall { SitsAt ground.now.hall.now worker.old.bench }
    ensures { Serves (P.talk ground.now.planner.now) C.some_state G.Link.kept G.Link.tape T.told D.told G.told
        (at_work C.some_state T.told D.told) (IsFit P.talk ground.now.hall.now (P.talk ground.now.planner.now)) ground.now.hall.now worker.old None worker.new result }
{
    if worker.left == 0 {
        stop(watch, place, worker, WorkState::Done);
        return None;
    }
    let Ok(()) = worker.ended.reserve(1) else {
        stop(watch, place, worker, WorkState::Memory);
        return None;
    };
    let Some(bench) = worker.bench.take() else {
        unreachable!()
    };
    match invite(ground, &mut worker.door, bench) {
        Asked::Client(sitting) => {
            watch.enters(place, &sitting.running.link);
            Some(sitting)
        }
        Asked::Nobody(bench) => {
            worker.bench = Some(bench);
            watch.passes(place);
            None
        }
        Asked::Over(bench, state) => {
            worker.bench = Some(bench);
            stop(watch, place, worker, state);
            None
        }
    }
}

/// A client leaves the desk of a worker, whose session has ended so. It is a member of those that were served, for which there
/// is room, and the worker may go on, or has served all of its share.
fn leave<
    'a,
    R: Wait,
    C: TableEngine + Drop,
    P: Planner<View = <C as TableEngine>::View>,
    G: Door,
    D: Dice + Drop,
    T: Clock + Drop,
>(
    watch: &mut G::Watch,
    place: usize,
    worker: &mut Worker<C, G, D, T>,
    sitting: Sitting<Session<'a, R, C, P, D, T>, G::Link>,
    end: End,
)
where
    <P as Planning>::Plan: Drop,
    <P as Planner>::Course: Drop,
    requires fit { IsReady sitting.handler }
    requires ready { worker.old.state ≡ state.Ready }
    requires room { length worker.old.ended.items < worker.old.ended.cap }
    requires share { 0 < worker.old.left }
    ensures { HasLeft (P.talk sitting.entry.handler.planner.now) C.some_state G.Link.kept G.Link.tape T.told D.told G.told
        (at_work C.some_state T.told D.told) (IsFit P.talk sitting.entry.handler.hall.now (P.talk sitting.entry.handler.planner.now)) sitting.entry.handler.hall.now worker.old sitting.entry end worker.new }
{
    let (bench, member) = dismiss(&mut worker.door, sitting, end);
    worker.ended.push_reserved(member);
    worker.bench = Some(bench);
    worker.left -= 1;
    watch.leaves(place);
    if worker.left == 0 {
        stop(watch, place, worker, WorkState::Done);
    }
}

/// What a seat does when its turn comes, where its worker may go on: its client's session makes a turn, or its door is asked
/// for a client.
pub(crate) fn serve_place<
    'a,
    R: Wait,
    C: TableEngine + Drop,
    P: Planner<View = <C as TableEngine>::View>,
    G: Door,
    D: Dice + Drop,
    T: Clock + Drop,
>(
    ground: &Ground<'a, R, C, P>,
    watch: &mut G::Watch,
    place: usize,
    worker: &mut Worker<C, G, D, T>,
    sitting: Option<Sitting<Session<'a, R, C, P, D, T>, G::Link>>,
    buf: &mut [u8],
) -> Option<Sitting<Session<'a, R, C, P, D, T>, G::Link>>
where
    <P as Planning>::Plan: Drop,
    <P as Planner>::Course: Drop,
    requires room { length buf.old ≡ 65536 }
    requires slots { ground.now.slots ≡ length ground.now.hall.now.slots }
    requires ready { worker.old.state ≡ state.Ready }
    requires seat { IsSeat (P.talk ground.now.planner.now) C.some_state G.Link.kept G.Link.tape T.told D.told G.told
        (at_work C.some_state T.told D.told) (IsFit P.talk ground.now.hall.now (P.talk ground.now.planner.now)) ground.now.hall.now worker.old sitting }
    ensures { Serves (P.talk ground.now.planner.now) C.some_state G.Link.kept G.Link.tape T.told D.told G.told
        (at_work C.some_state T.told D.told) (IsFit P.talk ground.now.hall.now (P.talk ground.now.planner.now)) ground.now.hall.now worker.old sitting.entry worker.new result }
{
    let Some(sitting) = sitting else {
        return ask(ground, watch, place, worker);
    };
    let Sitting {
        mut handler,
        mut running,
    } = sitting;
    let ended = tend::<Session<'a, R, C, P, D, T>, G>(
        ground.alloc,
        watch,
        place,
        &mut handler,
        &mut running,
        buf,
    );
    let sitting = Sitting { handler, running };
    let Some(end) = ended else {
        return Some(sitting);
    };
    leave(watch, place, worker, sitting, end);
    None
}
