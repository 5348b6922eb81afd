// How a request asks for a move, and how it ends by a fault.
ghost use Rattle.reql_plan_spec.specs.Held.{dropped};
ghost use Rattle.reql_plan_spec.specs.Move.{Outcome};
ghost use Rattle.reql_plan_steps.specs.Heard.{ask_of};
ghost use Rattle.reql_plan_spec.specs.Request.{Request, asks, ends, refuse};
ghost use Rattle.reql_plan_state.specs.Rest.{rest_of};
ghost use Rattle.reql_plan_state.specs.Turn.{Turns, Stops, lost_request};

use crate::stage::{Stage, Turn};
use reql_catalog::Names;
use reql_datum::{Fault, Memory, Name};
use reql_plan_results::dropped_of;
use reql_plan_steps::{Answered, Ask};
use reql_term::TableView;
use std::alloc::Global;

/// Asks, and waits in this stage for the answer.
pub fn asks<V: TableView + Drop>(
    alloc: Global,
    question: Ask,
    stage: Stage<V>,
) -> Result<Turn<V>, Memory>
    ensures { Turns V.documents V.indexes V.entries result
        (asks (ask_of question) (λ h. rest_of V.documents V.indexes V.entries stage h)) }
{
    let stage = Box::new(alloc, stage)?;
    Ok(Turn::Ask(question, stage))
}

/// A fault is the answer, but for want of memory.
pub fn refused<V: TableView + Drop>(why: Fault) -> Result<Turn<V>, Memory>
    ensures { (r : Request) → Stops why r → Turns V.documents V.indexes V.entries result r }
{
    match why {
        Fault::Memory => Err(Memory),
        Fault::QueryLogic(text) => Ok(Turn::Done(Answered::Fault(Fault::QueryLogic(text)))),
        Fault::NonExistence(text) => Ok(Turn::Done(Answered::Fault(Fault::NonExistence(text)))),
        Fault::ResourceLimit(text) => Ok(Turn::Done(Answered::Fault(Fault::ResourceLimit(text)))),
        Fault::OpFailed(text) => Ok(Turn::Done(Answered::Fault(Fault::OpFailed(text)))),
        Fault::User(text) => Ok(Turn::Done(Answered::Fault(Fault::User(text)))),
        Fault::Empty => Ok(Turn::Done(Answered::Fault(Fault::Empty))),
    }
}

/// The answer to what was found in place of what was asked for, which never comes.
pub fn lost<V: TableView + Drop>(alloc: Global) -> Result<Turn<V>, Memory>
    ensures { Turns V.documents V.indexes V.entries result lost_request }
{
    let text = Name::of(alloc, "Misplaced term.")?;
    Ok(Turn::Done(Answered::Fault(Fault::QueryLogic(text))))
}

/// The answer where the table in a slot was dropped.
pub fn dropped<V: TableView + Drop>(
    alloc: Global,
    names: &Names,
    slot: u32,
) -> Result<Turn<V>, Memory>
    ensures { Turns V.documents V.indexes V.entries result
        (refuse {A = Outcome} (dropped names.now slot) ends) }
{
    let text = dropped_of(alloc, names, slot)?;
    Ok(Turn::Done(Answered::Fault(Fault::OpFailed(text))))
}
