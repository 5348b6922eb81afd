// Writes: their keys are made, and their command is run.
ghost use Rattle.std.specs.Prelude.{◌≡◌, ◌∷◌, ◌++◌, [], IfOk};
ghost use Rattle.reql_datum.specs.View.{plain};
ghost use Rattle.reql_term.specs.View.{form_of};
ghost use Rattle.reql_table_spec.specs.Replies.{told_of, said_of};
ghost use Rattle.reql_table_spec.specs.declared.command.Cmd.TheVariants.{Write};
ghost use Rattle.reql_plan_context.specs.Seen.{held};
ghost use Rattle.reql_plan_spec.specs.Course.{key_heard, key_by, run_write, write, reply_heard, summary_said};
ghost use Rattle.reql_plan_spec.specs.Keys.{key_of};
ghost use Rattle.reql_plan_spec.specs.Move.{ran, Outcome};
ghost use Rattle.reql_plan_spec.specs.Request.{ends, refuse};
ghost use Rattle.reql_plan_spec.specs.Writes.{act_with, with_keys};
ghost use Rattle.reql_rules.specs.Faults.{misplaced};
ghost use Rattle.reql_plan_steps.specs.Heard.{heard, outcome_of};
ghost use Rattle.reql_plan_state.specs.Rest.{rest_of_writes, counted};
ghost use Rattle.reql_plan_state.specs.Turn.{turn_of, Turns, lost_request};

use crate::ending::{asks, lost, refused};
use crate::rounds::round;
use crate::stage::{Rounds, Stage, Then, Turn};
use reql_datum::{Datum, Fault, Items, Memory, Name, Point, Seq};
use reql_plan_commands::prepared;
use reql_plan_context::Held;
use reql_plan_results::{added, key_of, summary_shown};
use reql_plan_spec::Prepared;
use reql_plan_steps::{Answered, Ask, Found, Kept, kept_by};
use reql_table_spec::{Act, Cmd, Order, Reply, Said, Summary, WriteCmd};
use reql_term::{TableView, Term};
use std::alloc::Global;

/// A write, with the keys that are made for it, and then what its summary is for.
#[tactic(auto, using(crate::proofs::Turns::turns))]
pub fn write<V: TableView + Drop>(
    alloc: Global,
    e: Held<V>,
    term: &Term,
    then: Then,
) -> Result<Turn<V>, Memory>
    ensures { let k = held V.documents V.indexes V.entries e in
        Turns V.documents V.indexes V.entries result
        (write k (form_of term.now) (rest_of_writes k then)) }
{
    match prepared(alloc, &e, term) {
        Ok(ready) => written(alloc, e, ready, then),
        Err(why) => refused(why),
    }
}

fn written<V: TableView + Drop>(
    alloc: Global,
    e: Held<V>,
    ready: Prepared,
    then: Then,
) -> Result<Turn<V>, Memory>
    ensures { let k = held V.documents V.indexes V.entries e in
        Turns V.documents V.indexes V.entries result
        (run_write k ready [] ready.rolls (rest_of_writes k then)) }
{
    let left = ready.rolls;
    run_write(alloc, e, ready, Items::new(alloc), left, then)
}

// The keys that are left to be made, and then the command.
#[tactic(auto, using(crate::proofs::Keys::key_more))]
fn run_write<V: TableView + Drop>(
    alloc: Global,
    e: Held<V>,
    ready: Prepared,
    made: Items,
    left: u64,
    then: Then,
) -> Result<Turn<V>, Memory>
    ensures { let k = held V.documents V.indexes V.entries e in
        Turns V.documents V.indexes V.entries result
        (run_write k ready made left (rest_of_writes k then)) }
{
    if left > 0 {
        return asks(
            alloc,
            Ask::Roll,
            Stage::Keys {
                held: e,
                ready,
                made,
                left: left - 1,
                then,
            },
        );
    }
    let points = points_of(alloc, &e.points)?;
    let Prepared {
        slot,
        cmd,
        rolls: _,
    } = ready;
    let order = Order {
        points,
        cmd: with_keys(made, cmd),
    };
    asks(
        alloc,
        Ask::Run(slot, order),
        Stage::Wrote {
            held: e,
            slot,
            then,
        },
    )
}

/// The points that a command is run at, once more.
pub fn points_of(alloc: Global, points: &Seq<Point>) -> Result<Seq<Point>, Memory>
    ensures { IfOk result (λ ps. ps ≡ points.now) }
{
    match points.as_slice().to_vec(alloc) {
        Ok(list) => Ok(Seq::from_vec(list)),
        Err(_) => Err(Memory),
    }
}

fn act_with(made: Items, act: Act) -> Act
    ensures { result ≡ act_with made act }
{
    match act {
        Act::Insert {
            docs,
            conflict,
            made: _,
        } => Act::Insert {
            docs,
            conflict,
            made,
        },
        Act::Update { rows, change } => Act::Update { rows, change },
        Act::Replace { rows, change } => Act::Replace { rows, change },
        Act::Delete { rows } => Act::Delete { rows },
    }
}

fn with_keys(made: Items, cmd: WriteCmd) -> Cmd
    ensures { result ≡ Write (with_keys made cmd) }
{
    let WriteCmd {
        key,
        act,
        returns,
        hard,
    } = cmd;
    let act = act_with(made, act);
    Cmd::Write(WriteCmd {
        key,
        act,
        returns,
        hard,
    })
}

/// What the dice gave for a key.
pub fn rolled<V: TableView + Drop>(
    alloc: Global,
    e: Held<V>,
    ready: Prepared,
    made: Items,
    left: u64,
    then: Then,
    found: Found<V>,
) -> Result<Turn<V>, Memory>
    ensures { let k = held V.documents V.indexes V.entries e in
        Turns V.documents V.indexes V.entries result
        (key_heard (heard V.documents V.indexes found)
        (λ x. run_write k ready (made ++ x ∷ []) left (rest_of_writes k then))) }
{
    match found {
        Found::Rolled(bytes) => rolled_by(alloc, e, ready, made, left, then, bytes),
        Found::Names(other) => {
            drop(other);
            lost_keys(alloc, e, ready, made, then)
        }
        Found::Told(_) => lost_keys(alloc, e, ready, made, then),
        Found::Look(other) => {
            drop(other);
            lost_keys(alloc, e, ready, made, then)
        }
        Found::Ran(other) => {
            drop(other);
            lost_keys(alloc, e, ready, made, then)
        }
        Found::Changed(other) => {
            drop(other);
            lost_keys(alloc, e, ready, made, then)
        }
    }
}

fn rolled_by<V: TableView + Drop>(
    alloc: Global,
    e: Held<V>,
    ready: Prepared,
    made: Items,
    left: u64,
    then: Then,
    bytes: Option<[u8; 16]>,
) -> Result<Turn<V>, Memory>
    ensures { let k = held V.documents V.indexes V.entries e in
        Turns V.documents V.indexes V.entries result
        (key_by bytes
        (λ x. run_write k ready (made ++ x ∷ []) left (rest_of_writes k then))) }
{
    match bytes {
        Some(bytes) => rolled_key(alloc, e, ready, made, left, then, bytes),
        None => {
            let text = Name::of(alloc, "Random source failed.")?;
            Ok(Turn::Done(Answered::Fault(Fault::OpFailed(text))))
        }
    }
}

fn rolled_key<V: TableView + Drop>(
    alloc: Global,
    e: Held<V>,
    ready: Prepared,
    made: Items,
    left: u64,
    then: Then,
    bytes: [u8; 16],
) -> Result<Turn<V>, Memory>
    ensures { let k = held V.documents V.indexes V.entries e in
        Turns V.documents V.indexes V.entries result
        (run_write k ready (made ++ key_of bytes ∷ []) left (rest_of_writes k then)) }
{
    let key = key_of(alloc, bytes)?;
    let keys = with_key(made, key)?;
    run_write(alloc, e, ready, keys, left, then)
}

fn with_key(made: Items, key: Datum) -> Result<Items, Memory>
    ensures { IfOk result (λ ks. ks ≡ made ++ plain key ∷ []) }
{
    let mut keys = made;
    match keys.push(key) {
        Ok(()) => Ok(keys),
        Err(_) => Err(Memory),
    }
}

/// What a write was answered.
pub fn wrote<V: TableView + Drop>(
    alloc: Global,
    e: Held<V>,
    slot: u32,
    then: Then,
    found: Found<V>,
) -> Result<Turn<V>, Memory>
    ensures { let k = held V.documents V.indexes V.entries e in
        Turns V.documents V.indexes V.entries result
        (reply_heard e.names slot (heard V.documents V.indexes found)
        (λ x. summary_said x (rest_of_writes k then))) }
{
    match found {
        Found::Ran(reply) => replied(alloc, e, slot, then, reply),
        Found::Names(other) => {
            drop(other);
            lost_after(alloc, e, then)
        }
        Found::Told(_) => lost_after(alloc, e, then),
        Found::Look(other) => {
            drop(other);
            lost_after(alloc, e, then)
        }
        Found::Changed(other) => {
            drop(other);
            lost_after(alloc, e, then)
        }
        Found::Rolled(_) => lost_after(alloc, e, then),
    }
}

#[tactic(auto, using(crate::proofs::Saying::kept_on))]
fn replied<V: TableView + Drop>(
    alloc: Global,
    e: Held<V>,
    slot: u32,
    then: Then,
    reply: Reply,
) -> Result<Turn<V>, Memory>
    ensures { let k = held V.documents V.indexes V.entries e in
        Turns V.documents V.indexes V.entries result
        (reply_heard e.names slot (ran (told_of reply) reply.saved)
        (λ x. summary_said x (rest_of_writes k then))) }
{
    match kept_by(alloc, &e.names, slot, reply)? {
        Kept::Said(said) => summed(alloc, e, then, said),
        Kept::Ends(answered) => Ok(ended(e, then, answered)),
    }
}

fn summed<V: TableView + Drop>(
    alloc: Global,
    e: Held<V>,
    then: Then,
    said: Said,
) -> Result<Turn<V>, Memory>
    ensures { let k = held V.documents V.indexes V.entries e in
        Turns V.documents V.indexes V.entries result
        (summary_said (said_of said) (rest_of_writes k then)) }
{
    match said {
        Said::Done(summary) => after(alloc, e, then, summary),
        Said::HistoryFull { count: _ } => lost_after(alloc, e, then),
        Said::Changed => lost_after(alloc, e, then),
        Said::IndexExists => lost_after(alloc, e, then),
        Said::IndexMissing => lost_after(alloc, e, then),
        Said::Opened { feed: _, opening } => {
            drop(opening);
            lost_after(alloc, e, then)
        }
        Said::FeedsFull { count: _ } => lost_after(alloc, e, then),
        Said::Batch {
            skipped: _,
            last: _,
            items,
        } => {
            drop(items);
            lost_after(alloc, e, then)
        }
        Said::Nothing => lost_after(alloc, e, then),
        Said::FeedUnknown { feed: _ } => lost_after(alloc, e, then),
        Said::Closed => lost_after(alloc, e, then),
        Said::Gone => lost_after(alloc, e, then),
    }
}

// What is left after a write's summary.
fn after<V: TableView + Drop>(
    alloc: Global,
    e: Held<V>,
    then: Then,
    summary: Summary,
) -> Result<Turn<V>, Memory>
    ensures { Turns V.documents V.indexes V.entries result
        (rest_of_writes (held V.documents V.indexes V.entries e) then summary) }
{
    match then {
        Then::Once => finished(alloc, summary),
        Then::Each(rounds) => {
            let Rounds {
                id,
                element,
                writes,
                next,
                elements,
                place,
                total: before,
            } = Box::into_inner(rounds);
            let total = added(alloc, before, summary)?;
            round(
                alloc,
                e,
                Rounds {
                    id,
                    element,
                    writes,
                    next,
                    elements,
                    place,
                    total,
                },
            )
        }
    }
}

pub(crate) fn finished<V: TableView + Drop>(
    alloc: Global,
    summary: Summary,
) -> Result<Turn<V>, Memory>
    ensures { Turns V.documents V.indexes V.entries result (counted summary) }
{
    Ok(Turn::Done(Answered::Atom(summary_shown(alloc, &summary)?)))
}

// What no answer to a move calls for, with what is let go.
fn lost_after<V: TableView + Drop>(alloc: Global, e: Held<V>, then: Then) -> Result<Turn<V>, Memory>
    ensures { Turns V.documents V.indexes V.entries result lost_request }
{
    drop(e);
    drop(then);
    lost(alloc)
}

fn lost_keys<V: TableView + Drop>(
    alloc: Global,
    e: Held<V>,
    ready: Prepared,
    made: Items,
    then: Then,
) -> Result<Turn<V>, Memory>
    ensures { Turns V.documents V.indexes V.entries result lost_request }
{
    drop(ready);
    drop(made);
    lost_after(alloc, e, then)
}

fn ended<V: TableView + Drop>(e: Held<V>, then: Then, answered: Answered) -> Turn<V>
    ensures { turn_of V.documents V.indexes V.entries result ≡ ends (outcome_of answered) }
{
    drop(e);
    drop(then);
    Turn::Done(answered)
}
