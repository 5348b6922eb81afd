// Feeds: each arm is opened, and where one isn't, those before it are closed.
ghost use Rattle.std.specs.Prelude.{◌≡◌, ◌∷◌, ◌++◌, [], map};
ghost use Rattle.reql_term.specs.Form.{forms_of, named_of};
ghost use Rattle.reql_table_spec.specs.Replies.{told_of, said_of};
ghost use Rattle.reql_table_spec.specs.declared.command.Cmd.TheVariants.{Subscribe};
ghost use Rattle.reql_plan_results.specs.Seen.{opened as seen};
ghost use Rattle.reql_plan_context.specs.Seen.{held};
ghost use Rattle.reql_plan_changes.specs.Seen.{asked};
ghost use Rattle.reql_plan_spec.specs.Course.{changes, open_heard, opened_if, opened_by, order_of};
ghost use Rattle.reql_plan_spec.specs.Move.{run};
ghost use Rattle.reql_plan_spec.specs.Request.{ends, asks};
ghost use Rattle.reql_plan_steps.specs.Heard.{heard};
ghost use Rattle.reql_plan_state.specs.Rest.{feeds_rest, feed_answer, opens_rest};
ghost use Rattle.reql_plan_state.specs.Turn.{Turns, lost_request};

use crate::closing::closing;
use crate::opened::{copied_opening, copied_spec, name_or_empty, opened_as};
use reql_datum::{Fault, Memory, Name, Seq};
use reql_plan_changes::{Feeding, arms_of, feeds_asked, notes_of};
use reql_plan_context::Held;
use reql_plan_results::{Open, first_items};
use reql_plan_spec::Opening;
use reql_plan_state::{Refusal, Stage, Turn, asks, lost, points_of, refused};
use reql_plan_steps::{Answered, Ask, Found};
use reql_table_spec::{Cmd, Order, Reply, Said, Saved};
use reql_term::{TableView, TermFields, Terms};
use std::alloc::Global;

#[tactic(auto, using(reql_plan_state::proofs::Turns::turns))]
pub(crate) fn changes<V: TableView + Drop>(
    alloc: Global,
    e: Held<V>,
    args: &Terms,
    opts: &TermFields,
) -> Result<Turn<V>, Memory>
    ensures { let k = held V.documents V.indexes V.entries e in
        Turns V.documents V.indexes V.entries result
        (changes k (forms_of args.now) (named_of opts.now) ends) }
{
    match feeds_asked(alloc, &e, args, opts) {
        Ok(feeding) => opens(alloc, e, feeding),
        Err(why) => refused(why),
    }
}

// None is opened where no answer is wanted, nor while as many cursors are open as may be.
fn opens<V: TableView + Drop>(
    alloc: Global,
    e: Held<V>,
    feeding: Feeding,
) -> Result<Turn<V>, Memory>
    ensures { let k = held V.documents V.indexes V.entries e in
        Turns V.documents V.indexes V.entries result (opens_rest k (asked feeding)) }
{
    if e.setting.noreply {
        return Ok(Turn::Done(Answered::Unsent));
    }
    if e.setting.opened < e.setting.cursors {
        return subscribe(alloc, e, feeding, Seq::new(alloc), 0);
    }
    let text = Name::of(alloc, "Too many cursors.")?;
    Ok(Turn::Done(Answered::Fault(Fault::ResourceLimit(text))))
}

// The next arm, or the answer.
pub(crate) fn subscribe<V: TableView + Drop>(
    alloc: Global,
    e: Held<V>,
    feeding: Feeding,
    before: Seq<Open>,
    place: usize,
) -> Result<Turn<V>, Memory>
    ensures { let k = held V.documents V.indexes V.entries e in
        Turns V.documents V.indexes V.entries result
        (feeds_rest k (asked feeding) (map seen before) place) }
{
    match feeding.openings.at(place) {
        Some(opening) => {
            let opening = copied_opening(opening)?;
            ask_feed(alloc, e, feeding, opening, before, place + 1)
        }
        None => feeds_told(alloc, e, feeding, before),
    }
}

fn ask_feed<V: TableView + Drop>(
    alloc: Global,
    e: Held<V>,
    feeding: Feeding,
    opening: Opening,
    before: Seq<Open>,
    place: usize,
) -> Result<Turn<V>, Memory>
    ensures { let k = held V.documents V.indexes V.entries e in
        Turns V.documents V.indexes V.entries result
        (asks (run opening.slot (order_of k (Subscribe opening.spec)))
        (λ h. open_heard k (map seen before) opening h
        (λ x. feeds_rest k (asked feeding) (map seen before ++ x ∷ []) place))) }
{
    let points = points_of(alloc, &e.points)?;
    let spec = copied_spec(&opening.spec)?;
    let order = Order {
        points,
        cmd: Cmd::Subscribe(spec),
    };
    asks(
        alloc,
        Ask::Run(opening.slot, order),
        Stage::Feeds {
            held: e,
            feeding,
            opening,
            before,
            place,
        },
    )
}

fn feeds_told<V: TableView + Drop>(
    alloc: Global,
    e: Held<V>,
    feeding: Feeding,
    before: Seq<Open>,
) -> Result<Turn<V>, Memory>
    ensures { let k = held V.documents V.indexes V.entries e in
        Turns V.documents V.indexes V.entries result
        (ends (feed_answer k (asked feeding) (map seen before))) }
{
    let arms = arms_of(alloc, &e, before.as_slice())?;
    let notes = notes_of(alloc, &feeding)?;
    let items = first_items(alloc, feeding.told, before.as_slice())?;
    Ok(Turn::Done(Answered::Feed { arms, notes, items }))
}

// What no answer to a move calls for, with the feed's request that is let go.
fn lost_feed<V: TableView + Drop>(alloc: Global, opening: Opening) -> Result<Turn<V>, Memory>
    ensures { Turns V.documents V.indexes V.entries result lost_request }
{
    drop(opening);
    lost(alloc)
}

// What a feed that was asked for was answered.
pub(crate) fn opened<V: TableView + Drop>(
    alloc: Global,
    e: Held<V>,
    feeding: Feeding,
    opening: Opening,
    before: Seq<Open>,
    place: usize,
    found: Found<V>,
) -> Result<Turn<V>, Memory>
    ensures { let k = held V.documents V.indexes V.entries e in
        Turns V.documents V.indexes V.entries result
        (open_heard k (map seen before) opening (heard V.documents V.indexes found)
        (λ x. feeds_rest k (asked feeding) (map seen before ++ x ∷ []) place)) }
{
    match found {
        Found::Ran(reply) => opened_if(alloc, e, feeding, opening, before, place, reply),
        Found::Names(other) => {
            drop(other);
            lost_feed(alloc, opening)
        }
        Found::Told(_) => lost_feed(alloc, opening),
        Found::Look(other) => {
            drop(other);
            lost_feed(alloc, opening)
        }
        Found::Changed(other) => {
            drop(other);
            lost_feed(alloc, opening)
        }
        Found::Rolled(_) => lost_feed(alloc, opening),
    }
}

fn opened_if<V: TableView + Drop>(
    alloc: Global,
    e: Held<V>,
    feeding: Feeding,
    opening: Opening,
    before: Seq<Open>,
    place: usize,
    reply: Reply,
) -> Result<Turn<V>, Memory>
    ensures { let k = held V.documents V.indexes V.entries e in
        Turns V.documents V.indexes V.entries result
        (opened_if k (map seen before) opening (told_of reply) reply.saved
        (λ x. feeds_rest k (asked feeding) (map seen before ++ x ∷ []) place)) }
{
    let Reply {
        place: _,
        stamp,
        said,
        saved,
    } = reply;
    match saved {
        Saved::Yes => opened_by(alloc, e, feeding, opening, before, place, stamp, said),
        Saved::Failed => {
            drop(said);
            drop(opening);
            let text = Name::of(alloc, "Journal failed.")?;
            Ok(Turn::Done(Answered::Fault(Fault::OpFailed(text))))
        }
        Saved::Memory => {
            drop(said);
            drop(opening);
            Ok(Turn::Done(Answered::Fault(Fault::Memory)))
        }
    }
}

#[tactic(auto, using(crate::proofs::Closed::closed_on))]
fn opened_by<V: TableView + Drop>(
    alloc: Global,
    e: Held<V>,
    feeding: Feeding,
    opening: Opening,
    before: Seq<Open>,
    place: usize,
    stamp: u64,
    said: Said,
) -> Result<Turn<V>, Memory>
    ensures { let k = held V.documents V.indexes V.entries e in
        Turns V.documents V.indexes V.entries result
        (opened_by k (map seen before) opening stamp (said_of said)
        (λ x. feeds_rest k (asked feeding) (map seen before ++ x ∷ []) place)) }
{
    match said {
        Said::Opened {
            feed,
            opening: first,
        } => {
            let new = Open {
                slot: opening.slot,
                feed,
                stamp,
                opening: first,
            };
            drop(opening);
            opened_as(alloc, e, feeding, before, place, new)
        }
        Said::IndexMissing => {
            let name = name_or_empty(alloc, &opening.spec.index)?;
            drop(opening);
            closing(alloc, e, Refusal::NoIndex(name), before, 0)
        }
        Said::FeedsFull { count: _ } => {
            drop(opening);
            closing(alloc, e, Refusal::FeedsFull, before, 0)
        }
        Said::HistoryFull { count: _ } => {
            drop(opening);
            closing(alloc, e, Refusal::HistoryFull, before, 0)
        }
        Said::Gone => {
            let slot = opening.slot;
            drop(opening);
            closing(alloc, e, Refusal::Dropped(slot), before, 0)
        }
        Said::Done(other) => {
            drop(other);
            lost_feed(alloc, opening)
        }
        Said::Changed => lost_feed(alloc, opening),
        Said::IndexExists => lost_feed(alloc, opening),
        Said::Batch {
            skipped: _,
            last: _,
            items,
        } => {
            drop(items);
            lost_feed(alloc, opening)
        }
        Said::Nothing => lost_feed(alloc, opening),
        Said::FeedUnknown { feed: _ } => lost_feed(alloc, opening),
        Said::Closed => lost_feed(alloc, opening),
    }
}
