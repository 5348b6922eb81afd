// The feeds of a history, counted.
ghost use Rattle.std.specs.Prelude.{◌≡◌, ◌≤◌, ◌<◌, ◌+◌, ◌^◌, ◌++◌, map, length, None, IfOk};
ghost use Rattle.reql_table_spec.specs.Engines.{kept_of};
ghost use Rattle.reql_table_spec.specs.Machine.{after, reply, unused};
ghost use Rattle.reql_table_spec.specs.declared.command.Cmd.TheVariants.{Subscribe};
ghost use Rattle.reql_table_spec.specs.Replies.{said_of};
ghost use Rattle.reql_tally.specs.Past.{batches_taken, feeds_opened, number_of, opened_by};
ghost use Rattle.reql_tally.specs.Tallied.{FoldsUp, IsCount};
ghost use Rattle.reql_tally.specs.Views.{IsTold, given, made, one_fed, one_folds};

use crate::entries::entry_at;
use crate::folding::folds;
use crate::hearing::Heard;
use crate::replica::{Replica, SeenTable};
use crate::sent::Whose;
use reql_core::Opening;
use reql_memory::Memory;
use reql_table_spec::{Cmd, Entry, FeedSpec, Limits, Said};
use std::alloc::Global;

/// How many feeds were opened, and how many of them fold.
#[derive(Clone, Copy)]
pub(crate) struct FeedCount {
    pub(crate) feeds: u64,
    pub(crate) folds: u64,
}

fn number_of(said: &Said) -> Option<u64>
    ensures { result ≡ number_of (said_of said.now) }
{
    match said {
        Said::Opened { feed, opening: _ } => Some(*feed),
        Said::Done(_) => None,
        Said::HistoryFull { count: _ } => None,
        Said::Changed => None,
        Said::IndexExists => None,
        Said::IndexMissing => None,
        Said::FeedsFull { count: _ } => None,
        Said::Batch {
            skipped: _,
            last: _,
            items: _,
        } => None,
        Said::Nothing => None,
        Said::FeedUnknown { feed: _ } => None,
        Said::Closed => None,
        Said::Gone => None,
    }
}

// Gives an entry to the table, and says the number of the feed that it opened.
fn run<F: Opening>(replica: &mut Replica<F>, entry: &Entry) -> Result<Option<u64>, Memory>
    ensures state { IfOk result (λ _. replica.new
        ≡ after replica.old entry.now.by entry.now.order) }
    ensures number { IfOk result (λ n. n
        ≡ number_of (reply replica.old entry.now.by entry.now.order).said) }
{
    let ran = replica.run(entry)?;
    let number = number_of(&ran.said);
    Ok(number)
}

// Gives a request of a feed to the table: whether the feed folds, if it was opened.
fn subscribe<F: Opening>(
    alloc: Global,
    replica: &mut Replica<F>,
    entry: &Entry,
    spec: &FeedSpec,
    heard: &Heard,
) -> Result<Option<bool>, Memory>
    requires { entry.now.order.cmd ≡ Subscribe spec.now }
    ensures state { IfOk result (λ _. replica.new
        ≡ after replica.old entry.now.by entry.now.order) }
    ensures told { IfOk result (IsTold replica.old.table.docs (map kept_of heard.now.changes.items)
        (map given heard.now.batches.items) replica.old.table.stamp
        (opened_by replica.old entry.now.by entry.now.order.cmd
        (reply replica.old entry.now.by entry.now.order).said)) }
{
    let seen = replica.look()?;
    let Some(number) = run(replica, entry)? else {
        return Ok(None);
    };
    let Some(seen) = seen else {
        return Ok(None);
    };
    let SeenTable { stamp, table } = seen;
    let owner = entry.by;
    let folds = folds::<F>(alloc, Whose { owner, number }, spec, table, stamp, heard)?;
    Ok(Some(folds))
}

// An entry that opens no feed.
fn pass_by<F: Opening>(replica: &mut Replica<F>, entry: &Entry) -> Result<Option<bool>, Memory>
    ensures state { IfOk result (λ _. replica.new
        ≡ after replica.old entry.now.by entry.now.order) }
    ensures none { IfOk result (λ r. r ≡ None) }
{
    let _number = run(replica, entry)?;
    Ok(None)
}

// One entry: whether the feed that it opened folds, where it opened one.
fn pass<F: Opening>(
    alloc: Global,
    replica: &mut Replica<F>,
    entry: &Entry,
    heard: &Heard,
) -> Result<Option<bool>, Memory>
    ensures state { IfOk result (λ _. replica.new
        ≡ after replica.old entry.now.by entry.now.order) }
    ensures told { IfOk result (IsTold replica.old.table.docs (map kept_of heard.now.changes.items)
        (map given heard.now.batches.items) replica.old.table.stamp
        (opened_by replica.old entry.now.by entry.now.order.cmd
        (reply replica.old entry.now.by entry.now.order).said)) }
{
    match &entry.order.cmd {
        Cmd::Subscribe(spec) => subscribe(alloc, replica, entry, spec, heard),
        Cmd::Write(_) => pass_by(replica, entry),
        Cmd::IndexCreate(_) => pass_by(replica, entry),
        Cmd::IndexDrop(_) => pass_by(replica, entry),
        Cmd::IndexRename {
            old: _,
            new: _,
            overwrite: _,
        } => pass_by(replica, entry),
        Cmd::Take { feed: _, max: _ } => pass_by(replica, entry),
        Cmd::Unsubscribe { feed: _ } => pass_by(replica, entry),
        Cmd::Shut => pass_by(replica, entry),
        Cmd::Sync => pass_by(replica, entry),
    }
}

// The count with one entry more.
fn counted(count: FeedCount, told: Option<bool>) -> FeedCount
    requires room { count.feeds + 1 < 2 ^ 64 }
    requires fewer { count.folds ≤ count.feeds }
    ensures feeds { result.feeds ≡ count.feeds + one_fed told }
    ensures folds { result.folds ≡ count.folds + one_folds told }
{
    match told {
        None => count,
        Some(true) => FeedCount {
            feeds: count.feeds + 1,
            folds: count.folds + 1,
        },
        Some(false) => FeedCount {
            feeds: count.feeds + 1,
            folds: count.folds,
        },
    }
}

/// Counts the feeds of a history from an empty table, of which all was heard.
pub(crate) fn count<F: Opening>(
    alloc: Global,
    older: &[Entry],
    newer: &[Entry],
    limits: &Limits,
    heard: &Heard,
) -> Result<FeedCount, Memory>
    requires tail { 2 ≤ limits.now.tail }
    requires changes { map kept_of heard.now.changes.items
        ≡ made (unused limits.now.feeds limits.now.tail) (older.now ++ newer.now) }
    requires batches { map given heard.now.batches.items
        ≡ batches_taken (unused limits.now.feeds limits.now.tail) (older.now ++ newer.now) }
    ensures feeds { IfOk result (λ c. c.feeds
        ≡ length (feeds_opened (unused limits.now.feeds limits.now.tail) (older.now ++ newer.now))) }
    ensures folds { IfOk result (λ c. IsCount
        (FoldsUp (unused limits.now.feeds limits.now.tail) (older.now ++ newer.now))
        (feeds_opened (unused limits.now.feeds limits.now.tail) (older.now ++ newer.now)) c.folds) }
{
    let mut replica: Replica<F> = Replica::new(alloc, limits)?;
    let mut count = FeedCount { feeds: 0, folds: 0 };
    let mut place = 0;
    while let Some(entry) = entry_at(older, newer, place) {
        let told = pass(alloc, &mut replica, entry, heard)?;
        count = counted(count, told);
        place += 1;
    }
    Ok(count)
}
