// A request's course: its moves, one after another.
ghost use Rattle.std.specs.Prelude.{◌≡◌, option_map, None};
ghost use Rattle.reql_plan_spec.specs.Request.{request};
ghost use Rattle.reql_plan_spec.specs.Course.{course};
ghost use Rattle.reql_table_spec.specs.Engines.{HoldsEntries};
ghost use Rattle.reql_plan_steps.specs.Heard.{heard, outcome_of};
ghost use Rattle.reql_plan_state.specs.Rest.{rest_of};
ghost use Rattle.reql_plan.specs.declared.course.Waiting.TheVariants.{In, Over};
ghost use Rattle.reql_plan_state.specs.Turn.{Turns, turn_of};
ghost use Rattle.reql_plan.specs.Moved.{Goes, Moved, left_in, left_of, First, quieted};

use crate::catalogue::{changed, shut};
use crate::closing::closing;
use crate::feeds::opened;
use crate::indexing::replied;
use crate::looking::looked;
use crate::opening::{named, told};
use reql_datum::{Fault, Memory, Name};
use reql_plan_spec::{Plan, Setting};
use reql_plan_state::{Stage, Turn, lost, rolled, wrote};
use reql_plan_steps::{Answered, Ask, Found, Move};
use reql_term::TableView;
use std::alloc::Global;
use std::mem;

/// What a request waits for: the names that its plan is resolved by, or the answer to a later move;
/// or it is over.
#[derive(Drop)]
pub enum Waiting<V> {
    Names { plan: Plan, setting: Setting },
    In(Box<Stage<V>>),
    Over,
}

/// A request as it goes, by the answers to its moves. Its first move is a look at the names, and then
/// it waits in a stage.
#[derive(Drop)]
pub struct Course<V> {
    pub(crate) waiting: Waiting<V>,
    pub(crate) is_fresh: bool,
    pub(crate) noreply: bool,
}

impl<V: TableView + Drop> Course<V> {
    /// The course of a request, before its first move. It takes no memory.
    pub fn new(plan: Plan, setting: Setting) -> Course<V>
        ensures left { left_of V.documents V.indexes V.entries result None
            ≡ request (course plan setting) }
        ensures quiet { result.noreply ≡ setting.noreply }
    {
        let noreply = setting.noreply;
        Course {
            waiting: Waiting::Names { plan, setting },
            is_fresh: true,
            noreply,
        }
    }

    /// The next move, by the answer to the last one; None is found exactly at the first call. After
    /// want of memory, or an answer, a course isn't used again.
    #[tactic(auto, using(crate::proofs::Moving::first_goes))]
    pub fn next(&mut self, alloc: Global, found: Option<Found<V>>) -> Result<Move, Memory>
        requires holds { HoldsEntries V.documents V.indexes V.entries }
        ensures goes { Goes V.documents V.indexes V.entries result self.new.waiting self.old.noreply
            (left_of V.documents V.indexes V.entries self.old
            (option_map (heard V.documents V.indexes) found)) }
        ensures quiet { self.new.noreply ≡ self.old.noreply }
    {
        match found {
            None => first(alloc, &mut self.is_fresh, self.noreply),
            Some(found) => further(alloc, &mut self.waiting, self.noreply, found),
        }
    }
}

// The first move; where it was made, there is no other without an answer.
fn first(alloc: Global, is_fresh: &mut bool, noreply: bool) -> Result<Move, Memory>
    ensures { First result is_fresh.old noreply }
{
    if *is_fresh {
        *is_fresh = false;
        return Ok(Move::Ask(Ask::LookNames));
    }
    let text = Name::of(alloc, "Misplaced term.")?;
    let answered = Answered::Fault(Fault::QueryLogic(text));
    Ok(Move::Answer(quieted(noreply, answered)))
}

#[tactic(auto, using(crate::proofs::Moving::goes_as))]
fn further<V: TableView + Drop>(
    alloc: Global,
    waiting: &mut Waiting<V>,
    noreply: bool,
    found: Found<V>,
) -> Result<Move, Memory>
    requires holds { HoldsEntries V.documents V.indexes V.entries }
    ensures { Goes V.documents V.indexes V.entries result waiting.new noreply
        (left_in V.documents V.indexes V.entries waiting.old (heard V.documents V.indexes found)) }
{
    let waited = taken(waiting);
    let turn = resumed(alloc, waited, found)?;
    let next = moved(waiting, noreply, turn);
    Ok(next)
}

fn taken<V: Drop>(waiting: &mut Waiting<V>) -> Waiting<V>
    ensures was { result ≡ waiting.old }
    ensures over { waiting.new ≡ Over }
{
    mem::replace(waiting, Waiting::Over)
}

fn moved<V: TableView + Drop>(waiting: &mut Waiting<V>, noreply: bool, turn: Turn<V>) -> Move
    ensures { Moved V.documents V.indexes V.entries result waiting.new noreply
        (turn_of V.documents V.indexes V.entries turn) }
{
    match turn {
        Turn::Ask(question, stage) => {
            waits(waiting, stage);
            Move::Ask(question)
        }
        Turn::Done(answered) => Move::Answer(quieted(noreply, answered)),
    }
}

// What was waited for is let go here, and in no function that does more.
fn waits<V: Drop>(waiting: &mut Waiting<V>, stage: Box<Stage<V>>)
    ensures { waiting.new ≡ In stage }
{
    drop(mem::replace(waiting, Waiting::In(stage)));
}

fn quieted(noreply: bool, answered: Answered) -> Answered
    ensures { outcome_of result ≡ quieted noreply (outcome_of answered) }
{
    if noreply { Answered::Unsent } else { answered }
}

fn resumed<V: TableView + Drop>(
    alloc: Global,
    waiting: Waiting<V>,
    found: Found<V>,
) -> Result<Turn<V>, Memory>
    requires holds { HoldsEntries V.documents V.indexes V.entries }
    ensures { Turns V.documents V.indexes V.entries result
        (left_in V.documents V.indexes V.entries waiting (heard V.documents V.indexes found)) }
{
    match waiting {
        Waiting::Names { plan, setting } => named(alloc, plan, setting, found),
        Waiting::In(stage) => resume(alloc, Box::into_inner(stage), found),
        Waiting::Over => lost(alloc),
    }
}

fn resume<V: TableView + Drop>(
    alloc: Global,
    stage: Stage<V>,
    found: Found<V>,
) -> Result<Turn<V>, Memory>
    requires holds { HoldsEntries V.documents V.indexes V.entries }
    ensures { Turns V.documents V.indexes V.entries result
        (rest_of V.documents V.indexes V.entries stage (heard V.documents V.indexes found)) }
{
    match stage {
        Stage::Clock(asked) => told(alloc, asked, found),
        Stage::Looks {
            asked,
            read,
            slot,
            slots,
            place,
        } => looked(alloc, asked, read, slot, slots, place, found),
        Stage::Keys {
            held,
            ready,
            made,
            left,
            then,
        } => rolled(alloc, held, ready, made, left, then, found),
        Stage::Wrote { held, slot, then } => wrote(alloc, held, slot, then, found),
        Stage::Catalogue { held, command } => changed(alloc, held, command, found),
        Stage::Shuts {
            held,
            command,
            slot,
            slots,
            place,
        } => shut(alloc, held, command, slot, slots, place, found),
        Stage::Table { held, command } => replied(alloc, held, command, found),
        Stage::Feeds {
            held,
            feeding,
            opening,
            before,
            place,
        } => opened(alloc, held, feeding, opening, before, place, found),
        Stage::Closing {
            held,
            why,
            before,
            place,
        } => closing(alloc, held, why, before, place),
    }
}
