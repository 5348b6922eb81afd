// A table with its open feeds.
ghost use Rattle.std.specs.Prelude.{◌≡◌, [], IfOk};
ghost use Rattle.reql_table.specs.Seen.{documents_of, indexes_of};
ghost use Rattle.reql_table_machine_spec.specs.Feeds.{look};
ghost use Rattle.reql_table_spec.specs.Engines.{seen_in};
ghost use Rattle.reql_table_spec.specs.Table.{feeding};
ghost use Rattle.reql_core.specs.Live.{table_of};

use crate::moment::Moment;
use reql_feeds::Feeds;
use reql_memory::Memory;
use reql_opening::Opening;
use reql_table::Table;
use reql_table_spec::Look;
use std::alloc::Global;
use std::marker::Model;

/// A table at a place of its history, with its open feeds, and whether it was dropped.
#[derive(Drop)]
pub(crate) struct LiveTable<F: Opening> {
    pub(crate) alloc: Global,
    pub(crate) moment: Moment,
    pub(crate) feeds: Feeds<F>,
    pub(crate) shut: bool,
    /// How many feeds may be open.
    pub(crate) most: u32,
}

impl<F: Opening> Model for LiveTable<F> {
    ghost use Rattle.std.specs.Coded.{codes};
    ghost use Rattle.reql_datum.specs.Code.{plain_code};
    ghost use Rattle.reql_term.specs.FormCode.{form_code};
    ghost use Rattle.reql_core.specs.Live.{Live, Lives};

    ghost Value = { Live F };

    ghost coded = { Prim.hlevel (codes, plain_code, form_code) };

    ghost view = { λ t. record { moment = t.moment; feeds = t.feeds; shut = t.shut; most = t.most } };

    ghost invariant = { λ t. Lives F.fits F.reads record { moment = t.moment; feeds = t.feeds; shut = t.shut; most = t.most } };
}

impl<F: Opening> LiveTable<F> {
    /// A table that nobody has used since it was kept so.
    pub(crate) fn opened(alloc: Global, table: Table, shut: bool, most: u32) -> LiveTable<F>
        ensures now { result.moment ≡ record { table = table; place = 0; stamp = 0 } }
        ensures feeds { result.feeds ≡ [] }
        ensures shut { result.shut ≡ shut }
        ensures most { result.most ≡ most }
    {
        LiveTable {
            alloc,
            moment: Moment {
                table,
                place: 0,
                stamp: 0,
            },
            feeds: Feeds::new(alloc),
            shut,
            most,
        }
    }

    /// Whether the table was dropped.
    pub(crate) fn is_shut(&self) -> bool
        ensures { result ≡ self.now.shut }
    {
        self.shut
    }

    /// The table.
    pub(crate) fn table(&self) -> &Table
        ensures { result.now ≡ self.now.moment.table }
    {
        &self.moment.table
    }

    /// The number of its changes.
    pub(crate) fn stamp(&self) -> u64
        ensures { result ≡ self.now.moment.stamp }
    {
        self.moment.stamp
    }

    pub(crate) fn alloc(&self) -> Global {
        self.alloc
    }

    /// A look at all that it holds now.
    pub(crate) fn look(&self) -> Result<Look<Table>, Memory>
        ensures { IfOk result (λ l. seen_in documents_of indexes_of l
            ≡ look (feeding self.now.most) (table_of F.held self.now)) }
    {
        let place = self.moment.place;
        let stamp = self.moment.stamp;
        if self.shut {
            return Ok(Look {
                place,
                stamp,
                view: None,
            });
        }
        let table = self.moment.table.share()?;
        Ok(Look {
            place,
            stamp,
            view: Some(table),
        })
    }
}
