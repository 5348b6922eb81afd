// Commands on names: a drop shuts the slots of its tables, rising.
ghost use Rattle.std.specs.Prelude.{◌≡◌, IfOk, drop, length};
ghost use Rattle.reql_term.specs.Form.{forms_of, named_of};
ghost use Rattle.reql_plan_context.specs.Seen.{held};
ghost use Rattle.reql_table_spec.specs.Replies.{told_of};
ghost use Rattle.reql_plan_spec.specs.Course.{change_catalogue, change_heard, changed_by, reply_heard};
ghost use Rattle.reql_naming.specs.Texts.{bad_name, no_db as no_db_of, no_table as no_table_of};
ghost use Rattle.reql_plan_spec.specs.Commands.{names_in as names_told, made_by as made_as};
ghost use Rattle.reql_plan_spec.specs.Move.{change_names, ran, atom, Outcome};
ghost use Rattle.reql_plan_spec.specs.Request.{ends, asks, refuse};
ghost use Rattle.reql_plan_spec.specs.Texts.{db_there as db_there_of, table_there as table_there_of, too_many_tables, history_full};
ghost use Rattle.reql_plan_steps.specs.Heard.{heard, outcome_of};
ghost use Rattle.reql_plan_state.specs.Rest.{shut_rest};
ghost use Rattle.reql_plan_state.specs.Turn.{turn_of, Turns, lost_request};

use reql_catalog::{CatCmd, CatReply, CatSaid};
use reql_datum::{Fault, Memory, Name, Seq};
use reql_plan_commands::cat_command;
use reql_plan_context::Held;
use reql_plan_results::{dropped_by, made_by, names_in};
use reql_plan_state::{Stage, Turn, asks, lost, points_of, refused};
use reql_plan_steps::{
    Answered, Ask, Found, Kept, db_there, kept_by, no_db, no_table, table_there,
};
use reql_table_spec::{Cmd, Order, Reply};
use reql_term::{Op, TableView, TermFields, Terms};
use std::alloc::Global;

#[tactic(auto, using(reql_plan_state::proofs::Turns::turns))]
pub(crate) fn change<V: TableView + Drop>(
    alloc: Global,
    e: Held<V>,
    op: Op,
    args: &Terms,
    opts: &TermFields,
) -> Result<Turn<V>, Memory>
    ensures { let k = held V.documents V.indexes V.entries e in
        Turns V.documents V.indexes V.entries result
        (change_catalogue k op (forms_of args.now) (named_of opts.now) ends) }
{
    match cat_command(alloc, &e, op, args, opts) {
        Ok(command) => ask_names(alloc, e, command),
        Err(why) => refused(why),
    }
}

fn ask_names<V: TableView + Drop>(
    alloc: Global,
    e: Held<V>,
    command: CatCmd,
) -> Result<Turn<V>, Memory>
    ensures { let k = held V.documents V.indexes V.entries e in
        Turns V.documents V.indexes V.entries result
        (asks (change_names command) (λ h. change_heard k command h ends)) }
{
    let asked = copied(&command)?;
    asks(
        alloc,
        Ask::ChangeNames(asked),
        Stage::Catalogue { held: e, command },
    )
}

fn copied(command: &CatCmd) -> Result<CatCmd, Memory>
    ensures { IfOk result (λ c. c ≡ command.now) }
{
    match command {
        CatCmd::DbCreate(db) => Ok(CatCmd::DbCreate(db.copy()?)),
        CatCmd::DbDrop(db) => Ok(CatCmd::DbDrop(db.copy()?)),
        CatCmd::TableCreate { db, table, key } => Ok(CatCmd::TableCreate {
            db: db.copy()?,
            table: table.copy()?,
            key: key.copy()?,
        }),
        CatCmd::TableDrop { db, table } => Ok(CatCmd::TableDrop {
            db: db.copy()?,
            table: table.copy()?,
        }),
    }
}

// What the catalogue answered.
pub(crate) fn changed<V: TableView + Drop>(
    alloc: Global,
    e: Held<V>,
    command: CatCmd,
    found: Found<V>,
) -> Result<Turn<V>, Memory>
    ensures { let k = held V.documents V.indexes V.entries e in
        Turns V.documents V.indexes V.entries result
        (change_heard k command (heard V.documents V.indexes found) ends) }
{
    match found {
        Found::Changed(reply) => {
            let CatReply { place: _, said } = reply;
            changed_by(alloc, e, command, said)
        }
        Found::Names(other) => {
            drop(other);
            lost_command(alloc, e, command)
        }
        Found::Told(_) => lost_command(alloc, e, command),
        Found::Look(other) => {
            drop(other);
            lost_command(alloc, e, command)
        }
        Found::Ran(other) => {
            drop(other);
            lost_command(alloc, e, command)
        }
        Found::Rolled(_) => lost_command(alloc, e, command),
    }
}

fn changed_by<V: TableView + Drop>(
    alloc: Global,
    e: Held<V>,
    command: CatCmd,
    said: CatSaid,
) -> Result<Turn<V>, Memory>
    ensures { let k = held V.documents V.indexes V.entries e in
        Turns V.documents V.indexes V.entries result (changed_by k command said ends) }
{
    match said {
        CatSaid::Made => made(alloc, e, command),
        CatSaid::Dropped { slots } => shuts(alloc, e, command, slots, 0),
        CatSaid::DbExists => db_exists(alloc, e, command),
        CatSaid::DbMissing => db_missing(alloc, e, command),
        CatSaid::TableExists => table_exists(alloc, e, command),
        CatSaid::TableMissing => table_missing(alloc, e, command),
        CatSaid::SlotsFull { count: _ } => slots_full(alloc, e, command),
        CatSaid::BadName => bad_named(alloc, e, command),
        CatSaid::HistoryFull { count: _ } => full(alloc, e, command),
    }
}

fn made<V: TableView + Drop>(alloc: Global, e: Held<V>, command: CatCmd) -> Result<Turn<V>, Memory>
    ensures { Turns V.documents V.indexes V.entries result
        (ends (atom (made_as command))) }
{
    let document = made_by(alloc, &command)?;
    Ok(done(e, command, Answered::Atom(document)))
}

fn db_exists<V: TableView + Drop>(
    alloc: Global,
    e: Held<V>,
    command: CatCmd,
) -> Result<Turn<V>, Memory>
    ensures { Turns V.documents V.indexes V.entries result
        (refuse {A = Outcome} (db_there_of (names_told command).0) ends) }
{
    let text = db_there(alloc, names_in(&command).db)?;
    Ok(done(e, command, Answered::Fault(Fault::OpFailed(text))))
}

fn db_missing<V: TableView + Drop>(
    alloc: Global,
    e: Held<V>,
    command: CatCmd,
) -> Result<Turn<V>, Memory>
    ensures { Turns V.documents V.indexes V.entries result
        (refuse {A = Outcome} (no_db_of (names_told command).0) ends) }
{
    let text = no_db(alloc, names_in(&command).db)?;
    Ok(done(e, command, Answered::Fault(Fault::OpFailed(text))))
}

fn table_exists<V: TableView + Drop>(
    alloc: Global,
    e: Held<V>,
    command: CatCmd,
) -> Result<Turn<V>, Memory>
    ensures { Turns V.documents V.indexes V.entries result
        (refuse {A = Outcome} (table_there_of (names_told command).0 (names_told command).1) ends) }
{
    let names = names_in(&command);
    let text = table_there(alloc, names.db, names.table)?;
    Ok(done(e, command, Answered::Fault(Fault::OpFailed(text))))
}

fn table_missing<V: TableView + Drop>(
    alloc: Global,
    e: Held<V>,
    command: CatCmd,
) -> Result<Turn<V>, Memory>
    ensures { Turns V.documents V.indexes V.entries result
        (refuse {A = Outcome} (no_table_of (names_told command).0 (names_told command).1) ends) }
{
    let names = names_in(&command);
    let text = no_table(alloc, names.db, names.table)?;
    Ok(done(e, command, Answered::Fault(Fault::OpFailed(text))))
}

fn slots_full<V: TableView + Drop>(
    alloc: Global,
    e: Held<V>,
    command: CatCmd,
) -> Result<Turn<V>, Memory>
    ensures { Turns V.documents V.indexes V.entries result
        (refuse {A = Outcome} too_many_tables ends) }
{
    let text = Name::of(alloc, "Too many tables.")?;
    Ok(done(e, command, Answered::Fault(Fault::ResourceLimit(text))))
}

fn bad_named<V: TableView + Drop>(
    alloc: Global,
    e: Held<V>,
    command: CatCmd,
) -> Result<Turn<V>, Memory>
    ensures { Turns V.documents V.indexes V.entries result
        (refuse {A = Outcome} bad_name ends) }
{
    let text = Name::of(alloc, "Bad name.")?;
    Ok(done(e, command, Answered::Fault(Fault::QueryLogic(text))))
}

fn full<V: TableView + Drop>(alloc: Global, e: Held<V>, command: CatCmd) -> Result<Turn<V>, Memory>
    ensures { Turns V.documents V.indexes V.entries result
        (refuse {A = Outcome} history_full ends) }
{
    let text = Name::of(alloc, "History is full.")?;
    Ok(done(e, command, Answered::Fault(Fault::ResourceLimit(text))))
}

// The end of a request, with what is let go.
fn done<V: TableView + Drop>(e: Held<V>, command: CatCmd, answered: Answered) -> Turn<V>
    ensures { turn_of V.documents V.indexes V.entries result ≡ ends (outcome_of answered) }
{
    drop(e);
    drop(command);
    Turn::Done(answered)
}

// The next slot that is shut; after them all the drop is told.
fn shuts<V: TableView + Drop>(
    alloc: Global,
    e: Held<V>,
    command: CatCmd,
    slots: Seq<u32>,
    place: usize,
) -> Result<Turn<V>, Memory>
    ensures { let k = held V.documents V.indexes V.entries e in
        Turns V.documents V.indexes V.entries result
        (shut_rest k command (drop place slots) (length slots)) }
{
    match slots.at(place) {
        Some(slot) => {
            let slot = *slot;
            let points = points_of(alloc, &e.points)?;
            let order = Order {
                points,
                cmd: Cmd::Shut,
            };
            asks(
                alloc,
                Ask::Run(slot, order),
                Stage::Shuts {
                    held: e,
                    command,
                    slot,
                    slots,
                    place: place + 1,
                },
            )
        }
        None => {
            let count = slots.len() as u64;
            Ok(Turn::Done(Answered::Atom(dropped_by(alloc, &command, count)?)))
        }
    }
}

// What a slot that was to be shut answered.
pub(crate) fn shut<V: TableView + Drop>(
    alloc: Global,
    e: Held<V>,
    command: CatCmd,
    slot: u32,
    slots: Seq<u32>,
    place: usize,
    found: Found<V>,
) -> Result<Turn<V>, Memory>
    ensures { let k = held V.documents V.indexes V.entries e in
        Turns V.documents V.indexes V.entries result
        (reply_heard e.names slot (heard V.documents V.indexes found)
        (λ x. shut_rest k command (drop place slots) (length slots))) }
{
    match found {
        Found::Ran(reply) => shut_by(alloc, e, command, slot, slots, place, reply),
        Found::Names(other) => {
            drop(other);
            lost_command(alloc, e, command)
        }
        Found::Told(_) => lost_command(alloc, e, command),
        Found::Look(other) => {
            drop(other);
            lost_command(alloc, e, command)
        }
        Found::Changed(other) => {
            drop(other);
            lost_command(alloc, e, command)
        }
        Found::Rolled(_) => lost_command(alloc, e, command),
    }
}

#[tactic(auto, using(reql_plan_state::proofs::Saying::kept_on))]
fn shut_by<V: TableView + Drop>(
    alloc: Global,
    e: Held<V>,
    command: CatCmd,
    slot: u32,
    slots: Seq<u32>,
    place: usize,
    reply: Reply,
) -> Result<Turn<V>, Memory>
    ensures { let k = held V.documents V.indexes V.entries e in
        Turns V.documents V.indexes V.entries result
        (reply_heard e.names slot (ran (told_of reply) reply.saved)
        (λ x. shut_rest k command (drop place slots) (length slots))) }
{
    match kept_by(alloc, &e.names, slot, reply)? {
        Kept::Said(said) => {
            drop(said);
            shuts(alloc, e, command, slots, place)
        }
        Kept::Ends(answered) => Ok(Turn::Done(answered)),
    }
}

// What no answer to a move calls for, with what is let go.
fn lost_command<V: TableView + Drop>(
    alloc: Global,
    e: Held<V>,
    command: CatCmd,
) -> Result<Turn<V>, Memory>
    ensures { Turns V.documents V.indexes V.entries result lost_request }
{
    drop(e);
    drop(command);
    lost(alloc)
}
