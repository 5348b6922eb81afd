// One session, at the one desk of a hall.
ghost use Rattle.std.specs.Prelude.{◌≡◌, All, IfErr, IfOk, map};
ghost use Rattle.reql_outside.specs.Tape.{IsFresh};
ghost use Rattle.reql_catalog.specs.Machine.{catalogue_machine};
ghost use Rattle.reql_serve.specs.Serving.{ServesOne};

use reql_catalog::Catalogue;
use reql_hall::{FinalHall, Hall};
use reql_memory::Refused;
use reql_outside::{Clock, Dice, Link};
use reql_session::{Bench, Session};
use reql_session_api::Planner;
use reql_session_spec::Planning;
use reql_table_spec::TableEngine;
use reql_turns::{Served, serve_session};
use std::alloc::Global;
use std::sync::Wait;

/// What is left of a server that served one session: how it ended, and the hall with its whole histories.
#[derive(Drop)]
pub struct Ended<C: TableEngine, R> {
    pub session: Served<R>,
    pub hall: FinalHall<C, Catalogue>,
}

/// Serves one session over a link, at the one desk of a hall of these names and engines, which nobody has used. The link is
/// fresh. An `Err` is want of memory to begin with, and hands the link back as it came: nothing was heard or said.
pub fn serve_one<
    R: Wait,
    C: TableEngine + Drop,
    P: Planner<View = <C as TableEngine>::View>,
    L: Link + Drop,
    D: Dice + Drop,
    T: Clock + Drop,
>(
    rt: &R,
    alloc: Global,
    names: Catalogue,
    engines: Vec<C>,
    planner: &P,
    link: L,
    clock: T,
    dice: D,
) -> Result<Ended<C, L::Record>, Refused<L>>
where
    <P as Planning>::Plan: Drop,
    <P as Planner>::Course: Drop,
    requires names_unused { catalogue_machine.place names ≡ 0 }
    requires slots_unused { All (λ e. C.machine.place (C.state e) ≡ 0) engines.items }
    requires fresh { IsFresh (L.tape link) }
    ensures served { IfOk result (λ ended. ServesOne (P.talk planner.now) C.some_state C.state (λ n. n) names
        (map C.state engines.items) (T.told clock) (D.told dice) (L.kept ended.session.tape) ended.session.end
        ended.session.turns ended.hall) }
    ensures back { IfErr result (λ refused. refused.back ≡ link) }
{
    let Ok(slots) = u32::try_from(engines.len()) else {
        return Err(Refused { back: link });
    };
    let Ok((hall, mut desks, room)) = Hall::new(alloc, names, engines, 1) else {
        return Err(Refused { back: link });
    };
    let Some(desk) = desks.pop() else {
        return Err(Refused { back: link });
    };
    let bench = Bench { desk, clock, dice };
    let Ok(mut session) = Session::new(rt, alloc, &hall, bench, slots, planner) else {
        return Err(Refused { back: link });
    };
    let served = serve_session(alloc, link, &mut session);
    desks.push_reserved(session.into_bench().desk);
    let hall = hall.close(rt, desks, room);
    Ok(Ended {
        session: served,
        hall,
    })
}
