// What a history answers.
ghost use Rattle.std.specs.Prelude.{◌≡◌, ◌≤◌, [], ◌++◌, map, IfOk};
ghost use Rattle.reql_table_spec.specs.Engines.{kept_of};
ghost use Rattle.reql_table_spec.specs.Machine.{reply, unused};
ghost use Rattle.reql_table_spec.specs.Replies.{said_of};
ghost use Rattle.reql_tally.specs.Past.{batches_taken, sent_by, taken_as};
ghost use Rattle.reql_tally.specs.Views.{given, listed, made, made_by, stamped};

use crate::entries::entry_at;
use crate::replica::{Ran, Replica};
use reql_core::Opening;
use reql_datum::Datum;
use reql_memory::{Memory, Seq};
use reql_table_spec::{Cmd, Entry, Kept, Limits, Said};
use std::alloc::Global;

/// Items that the owner of a feed took, and whether they tell that others were dropped.
#[derive(Drop)]
pub(crate) struct Batch {
    pub(crate) owner: u64,
    pub(crate) number: u64,
    pub(crate) skips: bool,
    pub(crate) items: Seq<(u64, Datum)>,
}

/// All single-document changes of a history, and all batches that were taken.
#[derive(Drop)]
pub(crate) struct Heard {
    pub(crate) changes: Vec<Kept>,
    pub(crate) batches: Vec<Batch>,
}

fn item_copy(item: &(u64, Datum)) -> Result<(u64, Datum), Memory>
    ensures { IfOk result (λ i. stamped i ≡ stamped item.now) }
{
    let copy = item.1.copy()?;
    Ok((item.0, copy))
}

/// Adds copies of items.
pub(crate) fn add_items(list: &mut Vec<(u64, Datum)>, items: &[(u64, Datum)]) -> Result<(), Memory>
    ensures { IfOk result (λ _. map stamped list.new.items
        ≡ map stamped list.old.items ++ map stamped items.now) }
{
    for item in items {
        list.push(item_copy(item)?)?;
    }
    Ok(())
}

fn copies(alloc: Global, items: &[(u64, Datum)]) -> Result<Seq<(u64, Datum)>, Memory>
    ensures { IfOk result (λ list. map stamped list ≡ map stamped items.now) }
{
    let mut list = Vec::new(alloc);
    add_items(&mut list, items)?;
    Ok(Seq::from_vec(list))
}

// The batch that a Take was answered, if it was answered one.
fn taken(alloc: Global, owner: u64, number: u64, said: &Said) -> Result<Option<Batch>, Memory>
    ensures { IfOk result (λ b. map given (listed b) ≡ taken_as owner number (said_of said.now)) }
{
    match said {
        Said::Batch {
            skipped,
            last: _,
            items,
        } => {
            let items = copies(alloc, items.as_slice())?;
            Ok(Some(Batch {
                owner,
                number,
                skips: *skipped != 0,
                items,
            }))
        }
        Said::Done(_) => Ok(None),
        Said::HistoryFull { count: _ } => Ok(None),
        Said::Changed => Ok(None),
        Said::IndexExists => Ok(None),
        Said::IndexMissing => Ok(None),
        Said::Opened {
            feed: _,
            opening: _,
        } => Ok(None),
        Said::FeedsFull { count: _ } => Ok(None),
        Said::Nothing => Ok(None),
        Said::FeedUnknown { feed: _ } => Ok(None),
        Said::Closed => Ok(None),
        Said::Gone => Ok(None),
    }
}

// The batch that a command was answered, if it was answered one.
fn batch_of(alloc: Global, owner: u64, cmd: &Cmd, said: &Said) -> Result<Option<Batch>, Memory>
    ensures { IfOk result (λ b. map given (listed b) ≡ sent_by owner cmd.now (said_of said.now)) }
{
    match cmd {
        Cmd::Take { feed, max: _ } => taken(alloc, owner, *feed, said),
        Cmd::Write(_) => Ok(None),
        Cmd::IndexCreate(_) => Ok(None),
        Cmd::IndexDrop(_) => Ok(None),
        Cmd::IndexRename {
            old: _,
            new: _,
            overwrite: _,
        } => Ok(None),
        Cmd::Subscribe(_) => Ok(None),
        Cmd::Unsubscribe { feed: _ } => Ok(None),
        Cmd::Shut => Ok(None),
        Cmd::Sync => Ok(None),
    }
}

fn add_batch(batches: &mut Vec<Batch>, batch: Option<Batch>) -> Result<(), Memory>
    ensures { IfOk result (λ _. map given batches.new.items
        ≡ map given batches.old.items ++ map given (listed batch)) }
{
    let Some(batch) = batch else {
        return Ok(());
    };
    batches.push(batch)?;
    Ok(())
}

fn add_changes(changes: &mut Vec<Kept>, more: Vec<Kept>) -> Result<(), Memory>
    ensures { IfOk result (λ _. map kept_of changes.new.items
        ≡ map kept_of changes.old.items ++ map kept_of more.items) }
{
    let mut more = more;
    changes.append(&mut more)?;
    Ok(())
}

// One entry more.
fn add(alloc: Global, heard: &mut Heard, entry: &Entry, ran: Ran) -> Result<(), Memory>
    ensures changes { IfOk result (λ _. map kept_of heard.new.changes.items
        ≡ map kept_of heard.old.changes.items ++ map kept_of ran.kept.items) }
    ensures batches { IfOk result (λ _. map given heard.new.batches.items
        ≡ map given heard.old.batches.items
        ++ sent_by entry.now.by entry.now.order.cmd (said_of ran.said)) }
{
    let Ran { said, kept } = ran;
    let batch = batch_of(alloc, entry.by, &entry.order.cmd, &said)?;
    add_changes(&mut heard.changes, kept)?;
    add_batch(&mut heard.batches, batch)?;
    Ok(())
}

/// What the entries of a history are answered, one after the other, by an empty table.
pub(crate) fn hear<F: Opening>(
    alloc: Global,
    older: &[Entry],
    newer: &[Entry],
    limits: &Limits,
) -> Result<Heard, Memory>
    requires { 2 ≤ limits.now.tail }
    ensures changes { IfOk result (λ h. map kept_of h.changes.items
        ≡ made (unused limits.now.feeds limits.now.tail) (older.now ++ newer.now)) }
    ensures batches { IfOk result (λ h. map given h.batches.items
        ≡ batches_taken (unused limits.now.feeds limits.now.tail) (older.now ++ newer.now)) }
{
    let mut replica: Replica<F> = Replica::new(alloc, limits)?;
    let mut heard = Heard {
        changes: Vec::new(alloc),
        batches: Vec::new(alloc),
    };
    let mut place = 0;
    while let Some(entry) = entry_at(older, newer, place) {
        let ran = replica.run(entry)?;
        add(alloc, &mut heard, entry, ran)?;
        place += 1;
    }
    Ok(heard)
}
