// What a change is to a feed of each kind.
ghost use Rattle.std.specs.Prelude.{◌≡◌, Some, None, IfOk, IfSome, IfNone};
ghost use Rattle.reql_feeds.specs.Items.{items_in};
ghost use Rattle.reql_feeds.specs.Turn.{told, undone, due, Leads};
ghost use Rattle.reql_open_feed.specs.First.{First, FirstFits, FirstReads};
ghost use Rattle.reql_open_feed.specs.Open.{Brings, Installs};
ghost use Rattle.reql_open_feed.specs.declared.feed.OpenFeed.TheVariants as feeds;
ghost use Rattle.reql_table.specs.Seen.{documents_of};

use crate::first::FirstFeed;
use crate::listed::listed;
use reql_datum::Items;
use reql_feed_limit::LimitStep;
use reql_feed_range::RangeFeed;
use reql_feeds::{Change, Prepared};
use reql_memory::Memory;
use reql_table::Table;
use std::alloc::Global;

// Items with no step; nothing where there are none.
#[tactic(auto, using(crate::proofs::Changes::none_of))]
fn without_step(alloc: Global, items: &Items) -> Result<Option<Prepared<Option<LimitStep>>>, Memory>
    ensures items { IfOk result (λ r. items_in r ≡ items.now) }
    ensures step { IfOk result (λ r. IfSome r (λ p. p.step ≡ None)) }
{
    if items.is_empty() {
        return Ok(None);
    }
    let items = listed(alloc, items)?;
    Ok(Some(Prepared { items, step: None }))
}

/// What a change of one document is to a feed of one document or of a range: it remembers nothing,
/// so that it makes no step. `after` is the table after the change.
#[tactic(auto, using(crate::proofs::Changes::range_due, crate::proofs::Changes::range_installs, crate::proofs::Changes::range_brings))]
pub(crate) fn range_prepared(
    alloc: Global,
    feed: &RangeFeed,
    change: &Change,
    after: &Table,
) -> Result<Option<Prepared<Option<LimitStep>>>, Memory>
    requires leads { Leads (told change.now) (documents_of after.now) }
    ensures items { IfOk result (λ r. items_in r
        ≡ due feed.now (told change.now) (documents_of after.now)) }
    ensures installs { IfOk result (λ r. IfSome r (λ p. Installs (feeds.Range feed.now) p.step)) }
    ensures brings { IfOk result (λ r. IfSome r (λ p. Brings (feeds.Range feed.now) p.step
        (documents_of after.now))) }
{
    let items = feed.prepare(alloc, change)?;
    let prepared = without_step(alloc, &items)?;
    Ok(prepared)
}

// The step is one of a feed.
fn as_step(prepared: Prepared<LimitStep>) -> Prepared<Option<LimitStep>>
    ensures items { result.items ≡ prepared.items }
    ensures step { result.step ≡ Some prepared.step }
{
    let Prepared { items, step } = prepared;
    Prepared {
        items,
        step: Some(step),
    }
}

/// What a change of one document is to a limit feed. `after` is the table after the change.
pub(crate) fn first_prepared(
    alloc: Global,
    feed: &FirstFeed,
    change: &Change,
    after: &Table,
) -> Result<Option<Prepared<Option<LimitStep>>>, Memory>
    requires leads { Leads (told change.now) (documents_of after.now) }
    requires fits { FirstFits feed.now.feed (undone (told change.now) (documents_of after.now)) }
    requires reads { FirstReads feed.now.feed after.now }
    ensures items { IfOk result (λ r. items_in r
        ≡ due feed.now.held (told change.now) (documents_of after.now)) }
    ensures stays { IfOk result (λ r. IfNone r (FirstFits feed.now.feed (documents_of after.now))) }
    ensures installs { IfOk result (λ r. IfSome r (λ p. Installs (feeds.First feed.now) p.step)) }
    ensures brings { IfOk result (λ r. IfSome r (λ p. Brings (feeds.First feed.now) p.step
        (documents_of after.now))) }
{
    match feed.prepare(alloc, change, after)? {
        None => Ok(None),
        Some(prepared) => Ok(Some(as_step(prepared))),
    }
}
