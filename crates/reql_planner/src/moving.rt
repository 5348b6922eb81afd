// The moves of a request, and what they found, between a session and its plans.
ghost use Rattle.std.specs.Prelude.{◌≡◌, IfOk};
ghost use Rattle.reql_plan_steps.specs.Heard.{ask_of, move_of as next_of, heard};
ghost use Rattle.reql_session_api.specs.Meant.{move_of as move_said, found_of};
ghost use Rattle.reql_query_session_spec.specs.Told.{asked_of as ask_told, move_of as move_told, heard_of};
ghost use Rattle.reql_planner.specs.Follows.{is_answer as is_answer_of};

use crate::answering::answered;
use reql_datum::Memory;
use reql_plan_steps::{Ask, Found as Heard, Move as Next};
use reql_session_api::{Found, Move};
use reql_term::TableView;
use std::alloc::Global;

/// A plan's next move, in the words of its session.
pub(crate) fn moved(alloc: Global, next: Next) -> Result<Move, Memory>
    ensures { IfOk result (λ m. move_said m ≡ move_told (next_of next)) }
{
    match next {
        Next::Ask(question) => Ok(asked(question)),
        Next::Answer(outcome) => {
            let answer = answered(alloc, outcome)?;
            Ok(Move::Ends(answer))
        }
    }
}

fn asked(question: Ask) -> Move
    ensures { move_said result ≡ ask_told (ask_of question) }
{
    match question {
        Ask::LookNames => Move::LookNames,
        Ask::Tell => Move::TellTime,
        Ask::Look(slot) => Move::LookSlot(slot),
        Ask::Run(slot, order) => Move::RunSlot(slot, order),
        Ask::ChangeNames(command) => Move::ChangeNames(command),
        Ask::Roll => Move::Roll,
    }
}

/// What a move found, as its plan hears it.
pub(crate) fn heard<V: TableView>(found: Found<V>) -> Heard<V>
    ensures { heard V.documents V.indexes result ≡ heard_of (found_of V.documents V.indexes found) }
{
    match found {
        Found::SawNames(_, names) => Heard::Names(names),
        Found::Clocked(moment) => Heard::Told(moment),
        Found::SawSlot(_, look) => Heard::Look(look),
        Found::RanSlot(_, reply) => Heard::Ran(reply),
        Found::ChangedNames(_, reply) => Heard::Changed(reply),
        Found::Rolled(bytes) => Heard::Rolled(bytes),
    }
}

/// Whether a move is the answer.
pub(crate) fn is_answer(next: &Next) -> bool
    ensures { result ≡ is_answer_of next.now }
{
    match next {
        Next::Ask(_) => false,
        Next::Answer(_) => true,
    }
}
