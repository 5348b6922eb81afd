// How a feed opens.
ghost use Rattle.std.specs.Prelude.{◌≡◌, IfOk};
ghost use Rattle.reql_table.specs.Seen.{Standing, documents_of};
ghost use Rattle.reql_opening.specs.Opens.{Opens, Follows};

use reql_datum::Items;
use reql_feeds::Following;
use reql_memory::Memory;
use reql_table::Table;
use reql_table_spec::FeedSpec;
use std::alloc::Global;

/// A feed that was opened, and the items that it begins with.
#[derive(Drop)]
pub struct Opened<F> {
    pub feed: F,
    pub opening: Items,
}

/// A feed that opens on a table.
pub trait Opening: Following<After = Table> {
    /// Opens a feed as it is asked for. None where its index isn't there, or is of another kind than
    /// the feed wants.
    fn open(alloc: Global, spec: &FeedSpec, table: &Table) -> Result<Option<Opened<Self>>, Memory>
        ensures { IfOk result (Opens Self.held Self.fits Self.reads spec.now table.now) };

    // The documents that it sees in a table are the table's.
    ghost sees: { (t : Standing) → Self.documents t ≡ documents_of t };

    // A feed finds what it looks for, whatever becomes of other indexes.
    ghost stays: { (f : Self) (t u : Standing) → Follows t u → Self.reads f t → Self.reads f u };
}
