// What a feed is to the table that keeps it.
ghost use Rattle.std.specs.Prelude.{◌≡◌, List, Option, Some, option_map, IfOk, IfSome, IfNone};
ghost use Rattle.reql_datum.specs.Plain.{Plain};
ghost use Rattle.reql_datum.specs.View.{plain};
ghost use Rattle.reql_feed_spec.specs.Feeds.{kind_of};
ghost use Rattle.reql_table_spec.specs.Table.{Held, feed_of};
ghost use Rattle.reql_term.specs.Views.{Document};
ghost use Rattle.reql_feeds.specs.Turn.{told, undone, due, Leads};
ghost use Rattle.reql_feeds.specs.Items.{items_in};
ghost use Rattle.reql_feeds.specs.Only.{IsOfOne};

use crate::prepared::Prepared;
use reql_datum::Datum;
use reql_feed_spec::FeedKind;
use reql_memory::Memory;
use reql_table_spec::FeedSpec;
use reql_write_spec::Change;
use std::alloc::Global;

/// A feed as a table keeps it: what it was asked for, and whatever it remembers of the documents.
pub trait Following: Drop {
    /// The table after a change, as a feed may read it.
    type After;

    /// What a change makes of a feed, made before it takes effect.
    type Step: Drop;

    // The documents of a table.
    ghost documents: { Self.After → List Document };

    // What a feed keeps of its request.
    ghost held: { Self → Held };

    // A feed is at these documents: what it remembers is of them.
    ghost fits: { Self → List Document → Type 0 };

    // A feed finds in a table what it looks for there.
    ghost reads: { Self → Self.After → Type 0 };

    // A step is one of this feed, and brings it to these documents.
    ghost installs: { Self → Self.Step → Type 0 };

    ghost brings: { Self → Self.Step → List Document → Type 0 };

    // The key of the only document that a feed looks at, where there is just one.
    ghost only: { Self → Option Plain };

    /// What it was asked for.
    fn spec(&self) -> &FeedSpec
        ensures { result.now ≡ (held self.now).spec };

    /// What kind of feed it is.
    fn kind(&self) -> FeedKind
        ensures { result ≡ kind_of (feed_of (held self.now)).watch };

    /// The key of the only document whose changes are anything to it, where there is just one.
    fn only_key(&self) -> Option<&Datum>
        ensures { option_map (λ k. plain k.now) result ≡ only self.now };

    /// What a change of one document is to the feed: the items that are queued for it, and what it makes
    /// of the feed. Nothing where nothing is queued and the feed stays as it is. `after` is the table
    /// after the change.
    fn prepare(
        &self,
        alloc: Global,
        change: &Change,
        after: &Self::After,
    ) -> Result<Option<Prepared<Self::Step>>, Memory>
        requires leads { Leads (told change.now) (documents after.now) }
        requires fits { fits self.now (undone (told change.now) (documents after.now)) }
        requires reads { reads self.now after.now }
        ensures items { IfOk result (λ r. items_in r
            ≡ due (held self.now) (told change.now) (documents after.now)) }
        ensures stays { IfOk result (λ r. IfNone r (fits self.now (documents after.now))) }
        ensures installs { IfOk result (λ r. IfSome r (λ p. installs self.now p.step)) }
        ensures brings { IfOk result (λ r. IfSome r (λ p. brings self.now p.step
            (documents after.now))) };

    /// Puts a prepared step into effect. It takes no memory.
    fn install(&mut self, step: Self::Step)
        requires { installs self.old step }
        ensures fits { (docs : List Document) → brings self.old step docs → fits self.new docs }
        ensures held { held self.new ≡ held self.old }
        ensures only { only self.new ≡ only self.old }
        ensures reads { (table : Self.After) → reads self.old table → reads self.new table };

    /// An equal feed that later calls on the first don't change.
    fn share(&self, alloc: Global) -> Result<Self, Memory>
        ensures { IfOk result (λ f. f ≡ self.now) };

    // Changes of other documents than the only one are nothing to it.
    ghost of_one: { (f : Self) (key : Plain) → only f ≡ Some key → IsOfOne held fits f key };
}
