// A feed is opened on a table.
ghost use Rattle.std.specs.Prelude.{◌≡◌, true, false, is_some, refl, IfOk};
ghost use Rattle.reql_table_spec.specs.Table.{held, is_limit as is_limit_of};
ghost use Rattle.reql_open_feed.specs.Open.{held_in, Fits, Reads};
ghost use Rattle.reql_open_feed.specs.Stays.{reads_stay};
ghost use Rattle.reql_opening.specs.Opens.{IsOpened};
ghost use Rattle.reql_table.specs.Seen.{indexes_of};

use crate::asking::{is_limit, is_there};
use crate::feed::OpenFeed;
use crate::first::FirstFeed;
use reql_feed_range::RangeFeed;
use reql_memory::Memory;
use reql_opening::{Opened, Opening};
use reql_table::Table;
use reql_table_spec::FeedSpec;
use std::alloc::Global;

// A feed of one document or of a range.
fn open_range(alloc: Global, spec: &FeedSpec, table: &Table) -> Result<Opened<OpenFeed>, Memory>
    requires kind { is_limit_of spec.now.kind ≡ false }
    requires there { is_some (held (indexes_of table.now) spec.now) ≡ true }
    ensures { IfOk result (IsOpened held_in Fits Reads spec.now table.now) }
{
    let (feed, opening) = RangeFeed::open(alloc, spec, table)?;
    Ok(Opened {
        feed: OpenFeed::Range(feed),
        opening,
    })
}

// A limit feed.
fn open_first(alloc: Global, spec: &FeedSpec, table: &Table) -> Result<Opened<OpenFeed>, Memory>
    requires kind { is_limit_of spec.now.kind ≡ true }
    requires there { is_some (held (indexes_of table.now) spec.now) ≡ true }
    ensures { IfOk result (IsOpened held_in Fits Reads spec.now table.now) }
{
    let (feed, opening) = FirstFeed::open(alloc, spec, table)?;
    Ok(Opened {
        feed: OpenFeed::First(feed),
        opening,
    })
}

// A feed whose index is there.
fn open_kept(alloc: Global, spec: &FeedSpec, table: &Table) -> Result<Opened<OpenFeed>, Memory>
    requires { is_some (held (indexes_of table.now) spec.now) ≡ true }
    ensures { IfOk result (IsOpened held_in Fits Reads spec.now table.now) }
{
    if is_limit(spec.kind) {
        return open_first(alloc, spec, table);
    }
    open_range(alloc, spec, table)
}

impl Opening for OpenFeed {
    fn open(
        alloc: Global,
        spec: &FeedSpec,
        table: &Table,
    ) -> Result<Option<Opened<OpenFeed>>, Memory> {
        if !is_there(spec, table) {
            return Ok(None);
        }
        let opened = open_kept(alloc, spec, table)?;
        Ok(Some(opened))
    }

    ghost sees = { λ t. refl };

    ghost stays = { reads_stay };
}
