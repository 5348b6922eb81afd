// A feed behind the key of the only document that it looks at.
ghost use Rattle.std.specs.Prelude.{◌≡◌, IfOk, not, option_map};
ghost use Rattle.reql_datum.specs.View.{plain};
ghost use Rattle.reql_rules.specs.Types.{same};
ghost use Rattle.reql_feeds.specs.Only.{is_other};

use crate::following::Following;
use crate::prepared::Prepared;
use reql_datum::{Datum, compare};
use reql_feed_spec::FeedKind;
use reql_memory::Memory;
use reql_table_spec::FeedSpec;
use reql_write_spec::Change;
use std::alloc::Global;
use std::marker::Model;

/// A feed with a copy of the key of the only document that it looks at, where there is just one. The
/// feed stands elsewhere, so that the keys of many lie close together, and a change of other
/// documents passes them without a look at a feed. Contracts see the feed.
#[derive(Drop)]
pub(crate) struct Keyed<F: Following> {
    only: Option<Datum>,
    feed: Box<F>,
}

impl<F: Following> Model for Keyed<F> {
    ghost use Rattle.std.specs.Prelude.{◌≡◌, option_map};
    ghost use Rattle.reql_datum.specs.View.{plain};

    ghost Value = { F };

    ghost coded = { F.code };

    ghost view = { λ k. k.feed.value };

    ghost invariant = { λ k. option_map plain k.only ≡ F.only k.feed.value };
}

fn copied(key: Option<&Datum>) -> Result<Option<Datum>, Memory>
    ensures { IfOk result (λ k. option_map plain k ≡ option_map (λ d. plain d.now) key.entry) }
{
    match key {
        None => Ok(None),
        Some(key) => {
            let key = key.copy()?;
            Ok(Some(key))
        }
    }
}

impl<F: Following> Keyed<F> {
    pub(crate) fn new(alloc: Global, feed: F) -> Result<Keyed<F>, Memory>
        ensures { IfOk result (λ k. k ≡ feed) }
    {
        let only = copied(feed.only_key())?;
        let feed = Box::new(alloc, feed)?;
        Ok(Keyed { only, feed })
    }
}

impl<F: Following> Following for Keyed<F> {
    type After = F::After;

    type Step = F::Step;

    ghost documents = { F.documents };

    ghost held = { F.held };

    ghost fits = { F.fits };

    ghost reads = { F.reads };

    ghost installs = { F.installs };

    ghost brings = { F.brings };

    ghost only = { F.only };

    fn spec(&self) -> &FeedSpec {
        self.feed.spec()
    }

    fn kind(&self) -> FeedKind {
        self.feed.kind()
    }

    fn only_key(&self) -> Option<&Datum> {
        match &self.only {
            None => None,
            Some(only) => Some(only),
        }
    }

    fn prepare(
        &self,
        alloc: Global,
        change: &Change,
        after: &F::After,
    ) -> Result<Option<Prepared<F::Step>>, Memory> {
        self.feed.prepare(alloc, change, after)
    }

    fn install(&mut self, step: F::Step) {
        self.feed.install(step);
    }

    fn share(&self, alloc: Global) -> Result<Keyed<F>, Memory> {
        let feed = self.feed.share(alloc)?;
        Keyed::new(alloc, feed)
    }

    ghost of_one = { F.of_one };
}

// Whether two keys are not the same. Numbers and texts, which most keys are, are compared here, where
// many feeds are passed, and not by a call that walks documents.
fn differ(key: &Datum, other: &Datum) -> bool
    ensures { result ≡ not (same (plain key.now) (plain other.now)) }
{
    match key {
        Datum::Num(n) => match other {
            Datum::Num(m) => n.get().cmp(&m.get()).is_ne(),
            _ => compare(key, other).is_ne(),
        },
        Datum::Text(s) => match other {
            Datum::Text(t) => s.order(t.as_str()).is_ne(),
            _ => compare(key, other).is_ne(),
        },
        _ => compare(key, other).is_ne(),
    }
}

/// Whether a change is one of another document than the only one that a feed looks at.
pub(crate) fn passes_over<F: Following>(feed: &F, change: &Change) -> bool
    ensures { result ≡ is_other (F.only feed.now) (plain change.now.key) }
{
    match feed.only_key() {
        None => false,
        Some(key) => differ(key, &change.key),
    }
}
