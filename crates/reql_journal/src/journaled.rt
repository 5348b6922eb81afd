// The engine of a table whose commands a journal keeps.
ghost use Rattle.std.specs.Prelude.{◌≡◌, ◌≤◌, List, map, option_map, Some, None, refl, IfOk, IfErr};
ghost use Rattle.reql_blocks.specs.Held.{Counts};
ghost use Rattle.reql_records.specs.Safe.{Saves};
ghost use Rattle.reql_table_records.specs.Records.{Change};
ghost use Rattle.reql_table_spec.specs.Engines.{kept_of};
ghost use Rattle.reql_table_spec.specs.Machine as law;
ghost use Rattle.reql_table_spec.specs.Replies.{told_of, said_of};
ghost use Rattle.reql_journal.specs.Commands.{IsWritten, of_command, of_draft};
ghost use Rattle.reql_journal.specs.Commands as commands;
ghost use Rattle.reql_journal.specs.Engines.{state_of, faults_of, saved_of, changes_of, texts_of, Answers, Ran, Keeps, Refuses, Tells};
ghost use Rattle.reql_journal.specs.Faults.{faults_stay, fails_by_faults};

use crate::commands::{Draft, drafted, waits};
use crate::opening::TableJournal;
use reql_disk::{Disk, DiskFault};
use reql_memory::{Memory, Refused};
use reql_shared::{Engine, Snap};
use reql_table_spec::{
    Cmd, Heard, Keeping, Kept, Look, MachineState, Order, Reply, Said, Saved, TableEngine, Told,
};
use std::marker::Model;

/// An engine of a table with a journal that keeps its commands, or without one.
///
/// A record is let wait for each command that has one: a write with changes, a command on indexes
/// that was answered Changed, and the Shut that drops the table. A hard write, a command on indexes,
/// Sync and Shut are answered when all records are safe on the disk, or when that failed: then
/// `saved` says so, the command stands, and the next of them tries again.
#[derive(Drop)]
pub struct Journaled<E: Keeping, D: Disk> {
    engine: E,
    journal: Option<TableJournal<D>>,
}

impl<E: Keeping, D: Disk> Model for Journaled<E, D> {
    ghost use Rattle.reql_journal.specs.Engines.{Both};

    ghost Value = { Both E };

    ghost view = { λ b. record { engine = b.engine; journal = b.journal } };
}

impl<E: Keeping, D: Disk> Journaled<E, D> {
    /// An engine that nobody has used, with the journal that was opened for its table, or without
    /// one. It takes no memory.
    pub fn new(engine: E, journal: Option<TableJournal<D>>) -> Journaled<E, D>
        ensures { result ≡ record { engine = engine; journal = journal } }
    {
        Journaled { engine, journal }
    }

    /// The engine.
    pub fn engine(&self) -> &E
        ensures { result.now ≡ self.now.engine }
    {
        &self.engine
    }

    /// The journal, if there is one.
    pub fn journal(&self) -> Option<&TableJournal<D>>
        ensures { option_map (λ j. j.now) result ≡ self.now.journal }
    {
        self.journal.as_ref()
    }
}

fn saving(kept: Result<(), DiskFault>) -> Saved
    ensures { result ≡ saved_of kept }
{
    match kept {
        Ok(()) => Saved::Yes,
        Err(DiskFault::Failed) => Saved::Failed,
        Err(DiskFault::Memory) => Saved::Memory,
    }
}

// Runs a command on the engine alone.
fn run<E: Keeping>(engine: &mut E, by: u64, order: Order) -> Result<Reply, Refused<Order>>
    ensures answers { IfOk result (λ r.
        Answers (E.state engine.old) (E.state engine.new) by order (told_of r)) }
    ensures kept { IfOk result (λ r. E.kept engine.new ≡ changes_of (E.state engine.old) by order) }
    ensures tells { IfOk result (λ r. E.tells engine.old engine.new by order (Some r)) }
    ensures quiet { IfErr result (λ refused. E.tells engine.old engine.new by order None) }
    ensures back { IfErr result (λ refused. refused.back ≡ order) }
    ensures refused { IfErr result (λ refused. E.state engine.new ≡ E.state engine.old) }
{
    match engine.apply(by, order) {
        Ok(reply) => Ok(reply),
        Err(refused) => Err(refused),
    }
}

// Runs a command on the engine, and takes its changes.
fn run_taking<E: Keeping>(
    engine: &mut E,
    by: u64,
    order: Order,
) -> Result<(Reply, Vec<Kept>), Refused<Order>>
    ensures answers { IfOk result (λ r.
        Answers (E.state engine.old) (E.state engine.new) by order (told_of r.0)) }
    ensures kept { IfOk result (λ r.
        map kept_of r.1.items ≡ changes_of (E.state engine.old) by order) }
    ensures ran { IfOk result (λ r. Ran E.tells E.state engine.old engine.new by order r.0) }
    ensures back { IfErr result (λ refused. refused.back ≡ order) }
    ensures refused { IfErr result (λ refused. E.state engine.new ≡ E.state engine.old) }
{
    match run(engine, by, order) {
        Err(refused) => Err(refused),
        Ok(reply) => {
            let kept = engine.take_kept();
            Ok((reply, kept))
        }
    }
}

// Takes all memory that is wanted to keep a command, but for the flush.
fn prepare<D: Disk>(journal: &mut TableJournal<D>, cmd: &Cmd) -> Result<Draft, Memory>
    ensures written { IfOk result (λ d. IsWritten cmd.now) }
    ensures draft { IfOk result (λ d. (s : commands.Heard) (cs : List Change)
        → of_draft d s cs ≡ of_command cmd.now s cs) }
    ensures room { IfOk result (λ d. 1 ≤ journal.new.room) }
    ensures held { journal.new.held ≡ journal.old.held }
    ensures waiting { journal.new.waiting ≡ journal.old.waiting }
{
    let draft = drafted(journal.allocator(), cmd)?;
    journal.take_room()?;
    Ok(draft)
}

// Keeps the record of a command that was answered so, if it has one.
fn keep<D: Disk>(
    journal: &mut TableJournal<D>,
    draft: Draft,
    waits: bool,
    said: &Said,
    kept: Vec<Kept>,
) -> Result<(), DiskFault>
    requires { 1 ≤ journal.old.room }
    ensures counts { Counts journal.old.held.told journal.new.held.told result }
    ensures saves { Saves (texts_of (of_draft draft (said_of said.now) (map kept_of kept.items)))
        waits journal.old journal.new result }
{
    let made = draft.finish(said, kept);
    journal.keep(made, waits)
}

// Runs a command, and keeps its record.
fn apply_kept<E: Keeping, D: Disk>(
    engine: &mut E,
    journal: &mut TableJournal<D>,
    by: u64,
    order: Order,
) -> Result<Reply, Refused<Order>>
    ensures answers { IfOk result (λ r.
        Answers (E.state engine.old) (E.state engine.new) by order (told_of r)) }
    ensures ran { IfOk result (λ r. Ran E.tells E.state engine.old engine.new by order r) }
    ensures keeps { IfOk result (λ r.
        Keeps (E.state engine.old) journal.old journal.new by order r.saved) }
    ensures refuses { IfErr result (λ refused. Refuses journal.old journal.new) }
    ensures back { IfErr result (λ refused. refused.back ≡ order) }
    ensures refused { IfErr result (λ refused. E.state engine.new ≡ E.state engine.old) }
{
    let Ok(draft) = prepare(journal, &order.cmd) else {
        return Err(Refused { back: order });
    };
    let waits = waits(&order.cmd);
    match run_taking(engine, by, order) {
        Err(refused) => Err(refused),
        Ok((reply, kept)) => {
            let saved = saving(keep(journal, draft, waits, &reply.said, kept));
            Ok(Reply { saved, ..reply })
        }
    }
}

impl<E: Keeping, D: Disk> Engine for Journaled<E, D> {
    type Cmd = Order;

    type Reply = Reply;

    type Question = Snap;

    type Answer = Look<<E as TableEngine>::View>;

    type State = MachineState;

    type Told = Told;

    type Heard = Heard;

    ghost machine = { law.machine };

    ghost state = { state_of E.state };

    ghost told = { E.told };

    ghost heard = { E.heard };

    ghost tells = { Tells E.tells E.state };

    ghost some_state = { E.some_state };

    fn apply(&mut self, by: u64, order: Order) -> Result<Reply, Refused<Order>> {
        match &mut self.journal {
            None => run(&mut self.engine, by, order),
            Some(journal) => apply_kept(&mut self.engine, journal, by, order),
        }
    }

    fn ask(&self, question: &Snap) -> Result<Look<<E as TableEngine>::View>, Memory> {
        self.engine.ask(question)
    }

    fn records(answered: &Reply) -> bool {
        E::records(answered)
    }
}

impl<E: Keeping, D: Disk> TableEngine for Journaled<E, D> {
    type View = <E as TableEngine>::View;

    ghost faults = { faults_of E.faults };

    ghost is_machine = { refl };

    ghost tells_all = { E.tells_all };

    ghost shows = { E.shows };

    ghost holds = { E.holds };

    ghost faults_stay = { faults_stay E.tells E.state E.faults E.faults_stay };

    ghost fails = { fails_by_faults E.tells E.state E.faults E.fails };
}
