// Commands on a table's indexes, and SYNC.
ghost use Rattle.std.specs.Prelude.{◌≡◌, IfOk};
ghost use Rattle.reql_term.specs.Form.{forms_of, named_of};
ghost use Rattle.reql_table_spec.specs.Replies.{told_of, said_of};
ghost use Rattle.reql_plan_context.specs.Seen.{held};
ghost use Rattle.reql_plan_spec.specs.Commands.{cmd_of};
ghost use Rattle.reql_plan_spec.specs.Course.{change_table, reply_heard, table_said, order_of};
ghost use Rattle.reql_plan_spec.specs.Move.{run, ran};
ghost use Rattle.reql_plan_spec.specs.Request.{ends, asks};
ghost use Rattle.reql_plan_steps.specs.Heard.{heard};
ghost use Rattle.reql_plan_state.specs.Turn.{Turns, lost_request};

use reql_datum::{Fault, Memory};
use reql_operand::no_index;
use reql_plan_commands::{cmd_of, table_command};
use reql_plan_context::Held;
use reql_plan_results::counted;
use reql_plan_spec::{Commanded, TableCmd};
use reql_plan_state::{Stage, Turn, asks, lost, points_of, refused};
use reql_plan_steps::{Answered, Ask, Found, Kept, index_there, kept_by};
use reql_table_spec::{Order, Reply, Said};
use reql_term::{Op, TableView, TermFields, Terms};
use std::alloc::Global;

#[tactic(auto, using(reql_plan_state::proofs::Turns::turns))]
pub(crate) fn change_table<V: TableView + Drop>(
    alloc: Global,
    e: Held<V>,
    op: Op,
    args: &Terms,
    opts: &TermFields,
) -> Result<Turn<V>, Memory>
    ensures { let k = held V.documents V.indexes V.entries e in
        Turns V.documents V.indexes V.entries result
        (change_table k op (forms_of args.now) (named_of opts.now) ends) }
{
    match table_command(alloc, &e, op, args, opts) {
        Ok(command) => ask_table(alloc, e, command),
        Err(why) => refused(why),
    }
}

fn ask_table<V: TableView + Drop>(
    alloc: Global,
    e: Held<V>,
    command: Commanded,
) -> Result<Turn<V>, Memory>
    ensures { let k = held V.documents V.indexes V.entries e in
        Turns V.documents V.indexes V.entries result
        (asks (run command.slot (order_of k (cmd_of command.cmd)))
        (λ h. reply_heard e.names command.slot h (λ x. table_said command x ends))) }
{
    let points = points_of(alloc, &e.points)?;
    let copy = copied(&command.cmd)?;
    let cmd = cmd_of(copy);
    asks(
        alloc,
        Ask::Run(command.slot, Order { points, cmd }),
        Stage::Table { held: e, command },
    )
}

fn copied(command: &TableCmd) -> Result<TableCmd, Memory>
    ensures { IfOk result (λ c. c ≡ command.now) }
{
    match command {
        TableCmd::IndexCreate(index) => Ok(TableCmd::IndexCreate(index.copy()?)),
        TableCmd::IndexDrop(name) => Ok(TableCmd::IndexDrop(name.copy()?)),
        TableCmd::IndexRename {
            old,
            new,
            overwrite,
        } => Ok(TableCmd::IndexRename {
            old: old.copy()?,
            new: new.copy()?,
            overwrite: *overwrite,
        }),
        TableCmd::Sync => Ok(TableCmd::Sync),
    }
}

// What the table answered.
pub(crate) fn replied<V: TableView + Drop>(
    alloc: Global,
    e: Held<V>,
    command: Commanded,
    found: Found<V>,
) -> Result<Turn<V>, Memory>
    ensures { Turns V.documents V.indexes V.entries result
        (reply_heard e.names command.slot (heard V.documents V.indexes found)
        (λ x. table_said command x ends)) }
{
    match found {
        Found::Ran(reply) => replied_by(alloc, e, command, reply),
        Found::Names(other) => {
            drop(other);
            lost_command(alloc, command)
        }
        Found::Told(_) => lost_command(alloc, command),
        Found::Look(other) => {
            drop(other);
            lost_command(alloc, command)
        }
        Found::Changed(other) => {
            drop(other);
            lost_command(alloc, command)
        }
        Found::Rolled(_) => lost_command(alloc, command),
    }
}

// What no answer to a move calls for, with the command that is let go.
fn lost_command<V: TableView + Drop>(alloc: Global, command: Commanded) -> Result<Turn<V>, Memory>
    ensures { Turns V.documents V.indexes V.entries result lost_request }
{
    drop(command);
    lost(alloc)
}

#[tactic(auto, using(reql_plan_state::proofs::Saying::kept_on))]
fn replied_by<V: TableView + Drop>(
    alloc: Global,
    e: Held<V>,
    command: Commanded,
    reply: Reply,
) -> Result<Turn<V>, Memory>
    ensures { Turns V.documents V.indexes V.entries result
        (reply_heard e.names command.slot (ran (told_of reply) reply.saved)
        (λ x. table_said command x ends)) }
{
    match kept_by(alloc, &e.names, command.slot, reply)? {
        Kept::Said(said) => {
            let turn = said_of_table(alloc, &command, said);
            drop(command);
            turn
        }
        Kept::Ends(answered) => {
            drop(command);
            Ok(Turn::Done(answered))
        }
    }
}

fn said_of_table<V: TableView + Drop>(
    alloc: Global,
    command: &Commanded,
    said: Said,
) -> Result<Turn<V>, Memory>
    ensures { Turns V.documents V.indexes V.entries result
        (table_said command.now (said_of said) ends) }
{
    match said {
        Said::Changed => Ok(Turn::Done(Answered::Atom(counted(
            alloc,
            command.label.as_str(),
            command.count,
        )?))),
        Said::IndexExists => {
            let text = index_there(alloc, command.present.as_str())?;
            Ok(Turn::Done(Answered::Fault(Fault::OpFailed(text))))
        }
        Said::IndexMissing => {
            let text = no_index(alloc, command.missing.as_str())?;
            Ok(Turn::Done(Answered::Fault(Fault::OpFailed(text))))
        }
        Said::Done(other) => {
            drop(other);
            lost(alloc)
        }
        Said::HistoryFull { count: _ } => lost(alloc),
        Said::Opened { feed: _, opening } => {
            drop(opening);
            lost(alloc)
        }
        Said::FeedsFull { count: _ } => lost(alloc),
        Said::Batch {
            skipped: _,
            last: _,
            items,
        } => {
            drop(items);
            lost(alloc)
        }
        Said::Nothing => lost(alloc),
        Said::FeedUnknown { feed: _ } => lost(alloc),
        Said::Closed => lost(alloc),
        Said::Gone => lost(alloc),
    }
}
