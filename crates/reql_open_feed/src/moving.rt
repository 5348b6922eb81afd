// What a change does to the elements of a limit feed.
ghost use Rattle.std.specs.Prelude.{◌≡◌, ◌||◌, is_some, List, map, IfOk, IfSome, IfNone};
ghost use Rattle.reql_feed_spec.specs.Items.{limit_items};
ghost use Rattle.reql_feed_limit.specs.Feed.{ArePrintable, Shows, told as told_of};
ghost use Rattle.reql_feed_spec.specs.Shown.{shown};
ghost use Rattle.reql_feed_limit.specs.Items.{folded};
ghost use Rattle.reql_feed_limit.specs.Order.{first_in};
ghost use Rattle.reql_feed_limit.specs.Seen.{seen_step};
ghost use Rattle.reql_feed_limit.specs.Selection.{Element};
ghost use Rattle.reql_feed_limit.specs.Stands.{Installs};
ghost use Rattle.reql_feeds.specs.Items.{items_in};
ghost use Rattle.reql_feeds.specs.Turn.{told, undone, Leads};
ghost use Rattle.reql_open_feed.specs.First.{Comes, FindsTree};
ghost use Rattle.reql_table.specs.Seen.{documents_of};

use crate::listed::listed;
use reql_feed_limit::{LimitFeed, LimitStep};
use reql_feeds::{Change, Prepared};
use reql_memory::Memory;
use reql_ptree::Steps;
use reql_table::Table;
use reql_table_spec::FeedSpec;
use std::alloc::Global;

/// The step of a change, from the elements before it. `after` is the table after the change.
#[tactic(auto, using(crate::proofs::Elements::stands, crate::proofs::Elements::keeps_tree, crate::proofs::Elements::told_from))]
pub(crate) fn step_of(
    alloc: Global,
    feed: &LimitFeed,
    change: &Change,
    after: &Table,
) -> Result<LimitStep, Memory>
    requires leads { Leads (told change.now) (documents_of after.now) }
    requires shows { Shows feed.now (undone (told change.now) (documents_of after.now)) }
    requires tree { FindsTree feed.now.tree feed.now.order.index after.now }
    ensures told { IfOk result (λ s. told_of (seen_step s) ≡ limit_items
        (first_in feed.now.order (undone (told change.now) (documents_of after.now)))
        (first_in feed.now.order (documents_of after.now))) }
    ensures comes { IfOk result (λ s. Comes feed.now (seen_step s) (documents_of after.now)) }
    ensures installs { IfOk result (λ s. Installs feed.now.order.most feed.now.elements (seen_step s)) }
    ensures places { IfOk result (λ s. ArePrintable (seen_step s)) }
{
    let _elements = feed.elements();
    let _tree = feed.tree();
    let mut steps = Steps::start();
    let step = feed.prepare(alloc, change, after, &mut steps)?;
    Ok(step)
}

// Whether a step changes anything.
fn moves(step: &LimitStep) -> bool
    ensures { result ≡ (is_some (seen_step step.now).left || is_some (seen_step step.now).came) }
{
    step.left.is_some() || step.came.is_some()
}

/// A step with what is queued for it; nothing where it changes nothing.
#[tactic(auto, using(crate::proofs::Told::still_told, crate::proofs::Told::still_folded))]
pub(crate) fn prepared(
    alloc: Global,
    spec: &FeedSpec,
    step: LimitStep,
) -> Result<Option<Prepared<LimitStep>>, Memory>
    requires places { ArePrintable (seen_step step) }
    ensures items { IfOk result (λ r. items_in r ≡ map
        (shown (record { offsets = spec.now.offsets; types = spec.now.types }))
        (told_of (seen_step step))) }
    ensures step { IfOk result (λ r. IfSome r (λ p. seen_step p.step ≡ seen_step step)) }
    ensures still { IfOk result (λ r. IfNone r ((es : List Element)
        → folded (seen_step step) es ≡ es)) }
{
    if !moves(&step) {
        return Ok(None);
    }
    let printed = step.items(alloc, spec.offsets, spec.types)?;
    let items = listed(alloc, &printed)?;
    Ok(Some(Prepared { items, step }))
}
