// A limit feed with its request.
ghost use Rattle.std.specs.Prelude.{◌≡◌, true, is_some, Some, IfOk, IfSome, IfNone, List};
ghost use Rattle.reql_feed_spec.specs.Feeds.{kind_of, opening_items};
ghost use Rattle.reql_feed_limit.specs.Asked.{IsOf, IsOfOne};
ghost use Rattle.reql_feed_limit.specs.Seen.{seen_step};
ghost use Rattle.reql_feed_read.specs.Follows.{held_of};
ghost use Rattle.reql_feeds.specs.Items.{items_in};
ghost use Rattle.reql_feeds.specs.Turn.{told, undone, due, Leads};
ghost use Rattle.reql_table_spec.specs.Table.{held, feed_of, is_limit};
ghost use Rattle.reql_open_feed.specs.First.{FirstBrings, FirstFits, FirstInstalls, FirstReads};
ghost use Rattle.reql_table.specs.Seen.{Standing, documents_of, indexes_of};
ghost use Rattle.reql_term.specs.Views.{Document};

use crate::moving::{prepared, step_of};
use reql_datum::Items;
use reql_feed_limit::{LimitFeed, LimitStep};
use reql_feed_read::{index_copy, kept_index, request_copy};
use reql_feeds::{Change, Prepared};
use reql_memory::Memory;
use reql_ptree::Steps;
use reql_table::{IndexDef, Table};
use reql_table_spec::{FeedKind, FeedSpec};
use std::alloc::Global;
use std::marker::Model;

/// A limit feed with its request. Where the request is none for the first of an order, it shows
/// nothing. Contracts see what is kept of the request, and the feed of its order.
#[derive(Drop)]
pub struct FirstFeed {
    spec: FeedSpec,
    index: Option<IndexDef>,
    feed: Option<LimitFeed>,
}

impl Model for FirstFeed {
    ghost use Rattle.std.specs.Coded.{codes};
    ghost use Rattle.reql_datum.specs.Code.{plain_code, list_code, pairs_code};
    ghost use Rattle.reql_term.specs.FormCode.{form_code};
    ghost use Rattle.reql_feed_limit.specs.Asked.{IsOf};
    ghost use Rattle.reql_feed_read.specs.Follows.{held_of};
    ghost use Rattle.reql_open_feed.specs.First.{First};

    ghost Value = { First };

    ghost coded = { Prim.hlevel (codes, plain_code, list_code, pairs_code, form_code) };

    ghost view = { λ f. record { held = held_of f.spec f.index; feed = f.feed } };

    ghost invariant = { λ f. IsOf f.feed (held_of f.spec f.index) };
}

impl FirstFeed {
    fn made(spec: FeedSpec, index: Option<IndexDef>, feed: Option<LimitFeed>) -> FirstFeed
        requires { IsOf feed (held_of spec index) }
        ensures { result ≡ record { held = held_of spec index; feed = feed } }
    {
        FirstFeed { spec, index, feed }
    }

    fn of(alloc: Global, spec: FeedSpec, table: &Table) -> Result<FirstFeed, Memory>
        requires kind { is_limit spec.kind ≡ true }
        requires there { is_some (held (indexes_of table.now) spec) ≡ true }
        ensures feed { IfOk result (λ f. held (indexes_of table.now) spec ≡ Some f.held) }
        ensures fits { IfOk result (λ f. FirstFits f.feed (documents_of table.now)) }
        ensures reads { IfOk result (λ f. FirstReads f.feed table.now) }
    {
        let index = kept_index(&spec, table)?;
        let feed = feed_of_request(alloc, &spec, table)?;
        Ok(FirstFeed::made(spec, index, feed))
    }

    /// The feed of a request on a table, and its opening items, one for each element in order. Its
    /// request is one of a limit feed, and the index that it names, if it names one, is there and no
    /// multi index, or is the key field.
    pub fn open(alloc: Global, spec: &FeedSpec, table: &Table) -> Result<(FirstFeed, Items), Memory>
        requires kind { is_limit spec.now.kind ≡ true }
        requires there { is_some (held (indexes_of table.now) spec.now) ≡ true }
        ensures feed { IfOk result (λ r. held (indexes_of table.now) spec.now ≡ Some r.0.held) }
        ensures opening { IfOk result (λ r. r.1 ≡ opening_items (feed_of r.0.held).watch
            (feed_of r.0.held).shows (documents_of table.now)) }
        ensures fits { IfOk result (λ r. FirstFits r.0.feed (documents_of table.now)) }
        ensures reads { IfOk result (λ r. FirstReads r.0.feed table.now) }
    {
        let copy = request_copy(spec)?;
        let feed = FirstFeed::of(alloc, copy, table)?;
        let items = feed.opening(alloc, table)?;
        Ok((feed, items))
    }

    fn opening(&self, alloc: Global, table: &Table) -> Result<Items, Memory>
        requires fits { FirstFits self.now.feed (documents_of table.now) }
        requires limit { is_limit self.now.held.spec.kind ≡ true }
        ensures { IfOk result (λ r. r ≡ opening_items (feed_of self.now.held).watch
            (feed_of self.now.held).shows (documents_of table.now)) }
    {
        match &self.feed {
            None => Ok(Items::new(alloc)),
            Some(feed) => {
                let _elements = feed.elements();
                let items = feed.opening(alloc, self.spec.offsets, self.spec.types)?;
                Ok(items)
            }
        }
    }

    /// What it was asked for.
    pub fn spec(&self) -> &FeedSpec
        ensures { result.now ≡ self.now.held.spec }
    {
        &self.spec
    }

    /// What kind of feed it is.
    pub fn kind(&self) -> FeedKind
        ensures { result ≡ kind_of (feed_of self.now.held).watch }
    {
        self.spec.kind
    }

    /// What a change of one document is to the feed: the items that are queued for it, and the step of
    /// its elements. Nothing where nothing is queued and the elements stay. `after` is the table after
    /// the change.
    pub fn prepare(
        &self,
        alloc: Global,
        change: &Change,
        after: &Table,
    ) -> Result<Option<Prepared<LimitStep>>, Memory>
        requires leads { Leads (told change.now) (documents_of after.now) }
        requires fits { FirstFits self.now.feed (undone (told change.now) (documents_of after.now)) }
        requires reads { FirstReads self.now.feed after.now }
        ensures items { IfOk result (λ r. items_in r
            ≡ due self.now.held (told change.now) (documents_of after.now)) }
        ensures stays { IfOk result (λ r. IfNone r (FirstFits self.now.feed (documents_of after.now))) }
        ensures installs { IfOk result (λ r. IfSome r (λ p. FirstInstalls self.now.feed (seen_step p.step))) }
        ensures brings { IfOk result (λ r. IfSome r (λ p. FirstBrings self.now.feed (seen_step p.step)
            (documents_of after.now))) }
    {
        match &self.feed {
            None => Ok(None),
            Some(feed) => {
                let step = step_of(alloc, feed, change, after)?;
                let prepared = prepared(alloc, &self.spec, step)?;
                Ok(prepared)
            }
        }
    }

    /// Puts a prepared step into effect. It takes no memory.
    pub fn install(&mut self, step: LimitStep)
        requires { FirstInstalls self.old.feed (seen_step step) }
        ensures held { self.new.held ≡ self.old.held }
        ensures fits { (docs : List Document) → FirstBrings self.old.feed (seen_step step) docs
            → FirstFits self.new.feed docs }
        ensures reads { (table : Standing) → FirstReads self.old.feed table
            → FirstReads self.new.feed table }
    {
        match &mut self.feed {
            None => unreachable!(),
            Some(feed) => feed.install(step),
        }
    }

    /// An equal feed that later calls on the first don't change.
    pub fn share(&self, alloc: Global) -> Result<FirstFeed, Memory>
        ensures { IfOk result (λ f. f ≡ self.now) }
    {
        let spec = request_copy(&self.spec)?;
        let index = index_copy(&self.index)?;
        let feed = shared(alloc, &self.feed)?;
        Ok(FirstFeed::made(spec, index, feed))
    }
}

fn shared(alloc: Global, feed: &Option<LimitFeed>) -> Result<Option<LimitFeed>, Memory>
    ensures { IfOk result (λ f. f ≡ feed.now) }
{
    match feed {
        None => Ok(None),
        Some(feed) => {
            let share = feed.share(alloc)?;
            Ok(Some(share))
        }
    }
}

// The feed of the order that a request follows.
#[tactic(auto, using(crate::proofs::Beginnings::finds_tree))]
fn feed_of_request(
    alloc: Global,
    spec: &FeedSpec,
    table: &Table,
) -> Result<Option<LimitFeed>, Memory>
    requires kind { is_limit spec.now.kind ≡ true }
    requires there { is_some (held (indexes_of table.now) spec.now) ≡ true }
    ensures feed { IfOk result (λ o. IsOfOne o (held (indexes_of table.now) spec.now)) }
    ensures fits { IfOk result (λ o. FirstFits o (documents_of table.now)) }
    ensures reads { IfOk result (λ o. FirstReads o table.now) }
{
    let mut steps = Steps::start();
    let _numbers = table.has_tree(0);
    match LimitFeed::of_request(alloc, spec, table, &mut steps)? {
        None => Ok(None),
        Some(feed) => {
            let _tree = feed.tree();
            Ok(Some(feed))
        }
    }
}
