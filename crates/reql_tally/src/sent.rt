// What was sent to a feed.
ghost use Rattle.std.specs.Prelude.{◌≡◌, ◌++◌, ◌&&◌, map, cond, nat_lt, IfOk};
ghost use Rattle.reql_tally.specs.Past.{is_to, latest, sent_in, sent_to, skips};
ghost use Rattle.reql_tally.specs.Views.{given, stamped};

use crate::hearing::{Batch, add_items};
use reql_datum::Datum;
use reql_memory::Memory;
use std::alloc::Global;

/// A feed as its items are known by: who opened it, and its number.
#[derive(Clone, Copy)]
pub(crate) struct Whose {
    pub(crate) owner: u64,
    pub(crate) number: u64,
}

fn is_to(whose: Whose, batch: &Batch) -> bool
    ensures { result ≡ is_to whose.owner whose.number (given batch.now) }
{
    batch.owner == whose.owner && batch.number == whose.number
}

fn tells_skip(whose: Whose, batch: &Batch) -> bool
    ensures { result ≡ (is_to whose.owner whose.number (given batch.now) && (given batch.now).skips) }
{
    is_to(whose, batch) && batch.skips
}

/// Whether the feed was told that items were dropped.
pub(crate) fn skips(whose: Whose, batches: &[Batch]) -> bool
    ensures { result ≡ skips whose.owner whose.number (map given batches.now) }
{
    for batch in batches {
        if tells_skip(whose, batch) {
            return true;
        }
    }
    false
}

fn add_batch(sent: &mut Vec<(u64, Datum)>, whose: Whose, batch: &Batch) -> Result<(), Memory>
    ensures { IfOk result (λ _. map stamped sent.new.items ≡ map stamped sent.old.items
        ++ sent_in whose.owner whose.number (given batch.now)) }
{
    if is_to(whose, batch) {
        add_items(sent, batch.items.as_slice())?;
        return Ok(());
    }
    Ok(())
}

/// The items that were sent to the feed, each with its stamp.
pub(crate) fn sent_to(
    alloc: Global,
    whose: Whose,
    batches: &[Batch],
) -> Result<Vec<(u64, Datum)>, Memory>
    ensures { IfOk result (λ sent. map stamped sent.items
        ≡ sent_to whose.owner whose.number (map given batches.now)) }
{
    let mut sent = Vec::new(alloc);
    for batch in batches {
        add_batch(&mut sent, whose, batch)?;
    }
    Ok(sent)
}

fn greater(a: u64, b: u64) -> u64
    ensures { result ≡ cond (nat_lt a b) b a }
{
    if a < b {
        return b;
    }
    a
}

/// The greatest of a stamp and those of items.
pub(crate) fn latest(stamp: u64, items: &[(u64, Datum)]) -> u64
    ensures { result ≡ latest stamp (map stamped items.now) }
{
    let mut last = stamp;
    for item in items {
        last = greater(last, item.0);
    }
    last
}
