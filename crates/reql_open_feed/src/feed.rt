// A feed of any kind as a table keeps it.
ghost use Rattle.std.specs.Prelude.{◌≡◌, List};
ghost use Rattle.reql_open_feed.specs.Alone.{alone};
ghost use Rattle.reql_open_feed.specs.Open.{held_in, only_in, Fits, Reads, Installs, Brings, StepInstalls, StepBrings};
ghost use Rattle.reql_table.specs.Seen.{Standing, documents_of};
ghost use Rattle.reql_term.specs.Views.{Document};

use crate::first::FirstFeed;
use crate::preparing::{first_prepared, range_prepared};
use reql_datum::Datum;
use reql_feed_limit::LimitStep;
use reql_feed_range::RangeFeed;
use reql_feeds::{Change, Following, Prepared};
use reql_memory::Memory;
use reql_table::Table;
use reql_table_spec::{FeedKind, FeedSpec};
use std::alloc::Global;

/// A feed with what it was asked for: of one document or of a range, or of the first of an order.
#[derive(Drop)]
pub enum OpenFeed {
    Range(RangeFeed),
    First(FirstFeed),
}

impl OpenFeed {
    // Puts a step of the elements into effect.
    fn follow(&mut self, step: LimitStep)
        requires { StepInstalls self.old step }
        ensures fits { (docs : List Document) → StepBrings self.old step docs → Fits self.new docs }
        ensures held { held_in self.new ≡ held_in self.old }
        ensures only { only_in self.new ≡ only_in self.old }
        ensures reads { (table : Standing) → Reads self.old table → Reads self.new table }
    {
        match self {
            OpenFeed::Range(_) => unreachable!(),
            OpenFeed::First(feed) => feed.install(step),
        }
    }
}

impl Following for OpenFeed {
    type After = Table;

    type Step = Option<LimitStep>;

    ghost documents = { documents_of };

    ghost held = { held_in };

    ghost fits = { Fits };

    ghost reads = { Reads };

    ghost installs = { Installs };

    ghost brings = { Brings };

    ghost only = { only_in };

    fn spec(&self) -> &FeedSpec {
        match self {
            OpenFeed::Range(feed) => feed.spec(),
            OpenFeed::First(feed) => feed.spec(),
        }
    }

    fn kind(&self) -> FeedKind {
        match self {
            OpenFeed::Range(feed) => feed.kind(),
            OpenFeed::First(feed) => feed.kind(),
        }
    }

    fn only_key(&self) -> Option<&Datum> {
        match self {
            OpenFeed::Range(feed) => feed.only_key(),
            OpenFeed::First(_) => None,
        }
    }

    fn prepare(
        &self,
        alloc: Global,
        change: &Change,
        after: &Table,
    ) -> Result<Option<Prepared<Option<LimitStep>>>, Memory> {
        match self {
            OpenFeed::Range(feed) => range_prepared(alloc, feed, change, after),
            OpenFeed::First(feed) => first_prepared(alloc, feed, change, after),
        }
    }

    fn install(&mut self, step: Option<LimitStep>) {
        if let Some(step) = step {
            self.follow(step);
        }
    }

    fn share(&self, alloc: Global) -> Result<OpenFeed, Memory> {
        match self {
            OpenFeed::Range(feed) => {
                let share = feed.share(alloc)?;
                Ok(OpenFeed::Range(share))
            }
            OpenFeed::First(feed) => {
                let share = feed.share(alloc)?;
                Ok(OpenFeed::First(share))
            }
        }
    }

    ghost of_one = { alone };
}
