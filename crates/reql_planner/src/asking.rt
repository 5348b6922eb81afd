// What a body asks for.
ghost use Rattle.std.specs.Prelude.{◌≡◌, Option, Err, IfOk};
ghost use Rattle.reql_term.specs.View.{form_of};
ghost use Rattle.reql_faults.specs.Faults.{plan_fault};
ghost use Rattle.reql_faults.specs.Finds.{Is};
ghost use Rattle.reql_faults.specs.declared.fault.CompileFault.{CompileFault as Faulty};
ghost use Rattle.reql_plan_spec.specs.declared.parts.Plan.{Plan as Planned};
ghost use Rattle.reql_read.specs.View.{asked as read_as};
ghost use Rattle.reql_session_api.specs.Meant.{asked_of};
ghost use Rattle.reql_query_session_spec.specs.Asking.{asked, planned, plan_of};
ghost use Rattle.reql_planner.specs.Asking.{asked_so, Refuses};

use reql_datum::Memory;
use reql_faults::CompileFault;
use reql_plan_spec::Plan;
use reql_plan_steps::plan;
use reql_read::{Globals, Query as Body, ReadFault, Unread, read_query};
use reql_session_api::Query;
use reql_term::Term;
use std::alloc::Global;

/// What a body asks for: a plan where it is read and has one, else the first fault of reading, or of
/// planning.
#[tactic(auto, using(crate::proofs::Bodies::asks))]
pub(crate) fn asked(alloc: Global, body: &[u8]) -> Result<Query<Plan>, Memory>
    ensures { IfOk result (λ q. asked_of q ≡ asked body.now) }
{
    match read_query(alloc, body) {
        Ok(query) => started(alloc, query),
        Err(unread) => refused(alloc, &unread),
    }
}

fn started(alloc: Global, query: Body) -> Result<Query<Plan>, Memory>
    ensures { IfOk result (λ q. asked_of q ≡ asked_so (read_as query)) }
{
    match query {
        Body::Start {
            term,
            globals,
            noreply,
        } => planned(alloc, term, globals, noreply),
        Body::Continue => Ok(Query::Continue),
        Body::Stop => Ok(Query::Stop),
        Body::NoreplyWait => Ok(Query::NoreplyWait),
        Body::ServerInfo => Ok(Query::ServerInfo),
    }
}

fn planned(
    alloc: Global,
    term: Term,
    globals: Globals,
    noreply: bool,
) -> Result<Query<Plan>, Memory>
    ensures { IfOk result (λ q. asked_of q ≡ planned noreply
        (plan_of (form_of term) globals.db globals.array_limit globals.batch)
        (plan_fault (form_of term))) }
{
    let Globals {
        db,
        array_limit,
        batch,
    } = globals;
    match plan(alloc, term, db, array_limit, batch) {
        Ok(plan) => Ok(Query::Start(noreply, plan)),
        Err(why) => unplanned(alloc, noreply, why),
    }
}

fn unplanned(alloc: Global, noreply: bool, why: CompileFault) -> Result<Query<Plan>, Memory>
    ensures { (p : Planned) (first : Option Faulty) → Is {T = Planned} (Err why) first →
        IfOk result (λ q. asked_of q ≡ planned noreply p first) }
{
    let text = why.text(alloc)?;
    match why {
        CompileFault::Memory => Err(Memory),
        CompileFault::Unbound(_) => Ok(Query::Unplanned(noreply, text)),
        CompileFault::WriteNested => Ok(Query::Unplanned(noreply, text)),
        CompileFault::TableNotLiteral => Ok(Query::Unplanned(noreply, text)),
        CompileFault::FeedShape => Ok(Query::Unplanned(noreply, text)),
        CompileFault::OffsetsNeedLimit => Ok(Query::Unplanned(noreply, text)),
    }
}

fn refused(alloc: Global, unread: &Unread) -> Result<Query<Plan>, Memory>
    ensures { Refuses result unread.now }
{
    let text = unread.fault.text(alloc)?;
    match &unread.fault {
        ReadFault::Memory => Err(Memory),
        ReadFault::NotJson => Ok(Query::Unreadable(unread.noreply, text)),
        ReadFault::BadShape => Ok(Query::Unreadable(unread.noreply, text)),
        ReadFault::UnknownTerm(_) => Ok(Query::Unplanned(unread.noreply, text)),
        ReadFault::LeftOut(_) => Ok(Query::Unplanned(unread.noreply, text)),
        ReadFault::Arity(_, _) => Ok(Query::Unplanned(unread.noreply, text)),
        ReadFault::BadOptarg(_) => Ok(Query::Unplanned(unread.noreply, text)),
        ReadFault::Number(_) => Ok(Query::Unplanned(unread.noreply, text)),
    }
}
