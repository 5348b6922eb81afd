// What a request comes to.
ghost use Rattle.std.specs.Prelude.{◌≡◌, IfOk, map};
ghost use Rattle.reql_plan_results.specs.Seen.{arm, item};
ghost use Rattle.reql_plan_spec.specs.Move.{feed};
ghost use Rattle.reql_plan_steps.specs.Heard.{outcome_of, stop_of};
ghost use Rattle.reql_session_api.specs.Meant.{answered_of as answer_said};
ghost use Rattle.reql_query_session_spec.specs.Told.{answered_of as answer_told, stop_of as stop_told};

use crate::grouping::grouped;
use crate::listing::{arms_of, items_of};
use reql_answer::ErrorType;
use reql_datum::{Fault, Memory, Name, Seq};
use reql_plan_results::{Arm, Item};
use reql_plan_steps::Answered as Outcome;
use reql_session_api::Answered;
use std::alloc::Global;

/// What a request comes to, in the words of its session.
pub(crate) fn answered(alloc: Global, outcome: Outcome) -> Result<Answered, Memory>
    ensures { IfOk result (λ a. answer_said a ≡ answer_told (outcome_of outcome)) }
{
    match outcome {
        Outcome::Unsent => Ok(Answered::Unsent),
        Outcome::Atom(document) => Ok(Answered::One(document)),
        Outcome::Grouped(groups) => {
            let document = grouped(alloc, groups.as_slice())?;
            Ok(Answered::One(document))
        }
        Outcome::Sequence(items) => Ok(Answered::Stream(items)),
        Outcome::Feed { arms, notes, items } => fed(alloc, &arms, notes, &items),
        Outcome::Fault(fault) => stopped(alloc, fault),
    }
}

fn fed(alloc: Global, known: &[Arm], notes: Vec<u8>, first: &[Item]) -> Result<Answered, Memory>
    ensures { IfOk result (λ a. answer_said a ≡ answer_told (feed (map arm known.now) notes.items
        (map item first.now))) }
{
    let arms = arms_of(alloc, known)?;
    let items = items_of(alloc, first)?;
    Ok(Answered::Feed {
        arms,
        notes: Seq::from_vec(notes),
        items,
    })
}

// A fault with its type. One without a text never ends a request.
fn stopped(alloc: Global, fault: Fault) -> Result<Answered, Memory>
    ensures { IfOk result (λ a. answer_said a ≡ stop_told (stop_of fault)) }
{
    match fault {
        Fault::QueryLogic(text) => Ok(Answered::Fault(ErrorType::QueryLogic, text)),
        Fault::NonExistence(text) => Ok(Answered::Fault(ErrorType::NonExistence, text)),
        Fault::ResourceLimit(text) => Ok(Answered::Fault(ErrorType::ResourceLimit, text)),
        Fault::OpFailed(text) => Ok(Answered::Fault(ErrorType::OpFailed, text)),
        Fault::User(text) => Ok(Answered::Fault(ErrorType::User, text)),
        Fault::Empty => {
            let text = Name::of(alloc, "")?;
            Ok(Answered::Fault(ErrorType::QueryLogic, text))
        }
        Fault::Memory => Ok(Answered::Wanting),
    }
}
