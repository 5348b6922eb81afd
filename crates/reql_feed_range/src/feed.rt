// Feeds of one document or of a range.
ghost use Rattle.std.specs.Prelude.{◌≡◌, true, false, IfOk, Some, is_some, option_map, List};
ghost use Rattle.reql_datum.specs.Order.{order};
ghost use Rattle.reql_datum.specs.View.{plain};
ghost use Rattle.reql_memory.specs.Sorted.{AreRisingBy, find_by};
ghost use Rattle.reql_term.specs.Views.{Document};
ghost use Rattle.reql_feed_spec.specs.Feeds.{kind_of, opening_items, queued};
ghost use Rattle.reql_feed_range.specs.Feed.{watched_key};
ghost use Rattle.reql_feed_read.specs.Follows.{Reads, held_of};
ghost use Rattle.reql_table_spec.specs.Table.{held, feed_of, is_limit};
ghost use Rattle.reql_table.specs.Seen.{documents_of, indexes_of};

use crate::opening::{open_key, open_nothing, open_shape};
use crate::printed::Printer;
use crate::telling::{point_change, range_change};
use reql_datum::{Datum, Items, Memory};
use reql_feed_read::{Follows, index_copy, kept_index, read, request_copy};
use reql_table::{Change, IndexDef, Table};
use reql_table_spec::{FeedKind, FeedSpec};
use std::alloc::Global;
use std::marker::Model;

/// A feed of one document or of a range. Contracts see what it keeps: its request, and the
/// definition of its index that stood when it was opened.
#[derive(Drop)]
pub struct RangeFeed {
    spec: FeedSpec,
    index: Option<IndexDef>,
    follows: Follows,
    printer: Printer,
}

impl Model for RangeFeed {
    ghost use Rattle.std.specs.Coded.{codes};
    ghost use Rattle.reql_datum.specs.Code.{plain_code, list_code, pairs_code};
    ghost use Rattle.reql_term.specs.FormCode.{form_code};
    ghost use Rattle.reql_table_spec.specs.Table.{Held};
    ghost use Rattle.reql_feed_range.specs.Feed.{Keeps};
    ghost use Rattle.reql_feed_read.specs.Follows.{held_of};

    ghost Value = { Held };

    ghost coded = { Prim.hlevel (codes, plain_code, list_code, pairs_code, form_code) };

    ghost view = { λ f. held_of f.spec f.index };

    ghost invariant = { λ f. Keeps f.spec f.index f.follows f.printer };
}

impl RangeFeed {
    fn made(
        spec: FeedSpec,
        index: Option<IndexDef>,
        follows: Follows,
        printer: Printer,
    ) -> RangeFeed
        requires reads { Reads follows spec index }
        requires kind { is_limit spec.kind ≡ false }
        requires offsets { printer.offsets ≡ spec.offsets }
        requires types { printer.types ≡ spec.types }
        ensures { result ≡ held_of spec index }
    {
        RangeFeed {
            spec,
            index,
            follows,
            printer,
        }
    }

    fn of(alloc: Global, spec: FeedSpec, table: &Table) -> Result<RangeFeed, Memory>
        requires kind { is_limit spec.kind ≡ false }
        requires there { is_some (held (indexes_of table.now) spec) ≡ true }
        ensures { IfOk result (λ f. held (indexes_of table.now) spec ≡ Some f) }
    {
        let index = kept_index(&spec, table)?;
        let follows = read(alloc, &spec, &index)?;
        let printer = Printer::new(alloc, spec.offsets, spec.types)?;
        Ok(RangeFeed::made(spec, index, follows, printer))
    }

    /// The feed of a request on a table, and its opening items: of a point feed one, also for null;
    /// of a range feed one for each value, in order. Its request is one for a document or a range,
    /// and the index that it names, if it names one, is there or is the key field. Each document is
    /// evaluated by itself, so that one on which the shape faults is passed over.
    pub fn open(alloc: Global, spec: &FeedSpec, table: &Table) -> Result<(RangeFeed, Items), Memory>
        requires kind { is_limit spec.now.kind ≡ false }
        requires there { is_some (held (indexes_of table.now) spec.now) ≡ true }
        ensures feed { IfOk result (λ r. held (indexes_of table.now) spec.now ≡ Some r.0) }
        ensures opening { IfOk result (λ r. r.1
            ≡ opening_items (feed_of r.0).watch (feed_of r.0).shows (documents_of table.now)) }
    {
        let copy = request_copy(spec)?;
        let feed = RangeFeed::of(alloc, copy, table)?;
        let items = feed.opening(alloc, table)?;
        Ok((feed, items))
    }

    /// What it was asked for.
    pub fn spec(&self) -> &FeedSpec
        ensures { result.now ≡ self.now.spec }
    {
        &self.spec
    }

    /// What kind of feed it is.
    #[tactic(auto, using(crate::proofs::Feeds::kind_kept))]
    pub fn kind(&self) -> FeedKind
        ensures { result ≡ kind_of (feed_of self.now).watch }
    {
        self.spec.kind
    }

    /// The key of the document that it follows, where it follows one.
    pub fn only_key(&self) -> Option<&Datum>
        ensures { option_map (λ k. plain k.now) result ≡ watched_key (feed_of self.now).watch }
    {
        match &self.follows {
            Follows::Key(key) => Some(key),
            Follows::Shape(_) => None,
            Follows::First(_) => unreachable!(),
            Follows::Nothing => None,
        }
    }

    /// An equal feed that shares what it holds.
    pub fn share(&self, alloc: Global) -> Result<RangeFeed, Memory>
        ensures { IfOk result (λ f. f ≡ self.now) }
    {
        let spec = request_copy(&self.spec)?;
        let index = index_copy(&self.index)?;
        let follows = self.follows.copy()?;
        let printer = Printer::new(alloc, spec.offsets, spec.types)?;
        Ok(RangeFeed::made(spec, index, follows, printer))
    }

    fn opening(&self, alloc: Global, table: &Table) -> Result<Items, Memory>
        ensures { IfOk result (λ r. r ≡ opening_items (feed_of self.now).watch
            (feed_of self.now).shows (documents_of table.now)) }
    {
        match &self.follows {
            Follows::Key(key) => open_key(alloc, &self.printer, key, table),
            Follows::Shape(shape) => open_shape(alloc, &self.printer, shape, table),
            Follows::First(_) => unreachable!(),
            Follows::Nothing => open_nothing(alloc, &self.printer, self.spec.kind),
        }
    }

    /// The items of a change as they are queued, from the changed document alone: those of any table
    /// that has the change's old document at its key. A range feed that squashes queues each behind
    /// the key.
    pub fn prepare(&self, alloc: Global, change: &Change) -> Result<Items, Memory>
        ensures { IfOk result (λ r. (docs : List Document) → AreRisingBy order docs
            → find_by order (plain change.now.key) docs ≡ option_map plain change.now.old
            → r ≡ queued (feed_of self.now) docs
            (plain change.now.key, option_map plain change.now.new)) }
    {
        match &self.follows {
            Follows::Key(key) => point_change(alloc, &self.printer, key, change),
            Follows::Shape(shape) => {
                range_change(alloc, &self.printer, self.spec.squash, shape, change)
            }
            Follows::First(_) => unreachable!(),
            Follows::Nothing => Ok(Items::new(alloc)),
        }
    }
}
