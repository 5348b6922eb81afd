// A limit feed of a request.
ghost use Rattle.std.specs.Prelude.{◌≡◌, true, is_some, ⊤, IfOk, MatchOption};
ghost use Rattle.reql_feed_limit.specs.Asked.{IsOfOne};
ghost use Rattle.reql_feed_limit.specs.Feed.{KeepsTree, Shows};
ghost use Rattle.reql_table_spec.specs.Table.{held, is_limit};
ghost use Rattle.reql_table.specs.Seen.{documents_of, indexes_of};
ghost use Rattle.reql_table.specs.Trees.{has_tree};

use crate::feed::LimitFeed;
use reql_datum::Memory;
use reql_feed_read::{Follows, kept_index, read};
use reql_ptree::Steps;
use reql_table::Table;
use reql_table_spec::FeedSpec;
use std::alloc::Global;

impl LimitFeed {
    /// The feed of a request on a table, with its first elements; none where the request is none for
    /// the first of an order, so that it shows nothing. Its request is one of a limit feed, and the
    /// index that it names, if it names one, is there and no multi index, or is the key field.
    #[tactic(auto, using(crate::proofs::Kept::requests))]
    pub fn of_request<L>(
        alloc: Global,
        spec: &FeedSpec,
        table: &Table,
        steps: &mut Steps<L>,
    ) -> Result<Option<LimitFeed>, Memory>
        requires kind { is_limit spec.now.kind ≡ true }
        requires there { is_some (held (indexes_of table.now) spec.now) ≡ true }
        ensures feed { IfOk result (λ o. IsOfOne o (held (indexes_of table.now) spec.now)) }
        ensures shows { IfOk result (λ o. MatchOption o ⊤ (λ f. Shows f (documents_of table.now))) }
        ensures tree { IfOk result (λ o. MatchOption o ⊤ (λ f. KeepsTree f table.now)) }
        ensures there { IfOk result (λ o. MatchOption o ⊤
            (λ f. has_tree table.now f.tree ≡ true)) }
    {
        let index = kept_index(spec, table)?;
        match read(alloc, spec, &index)? {
            Follows::First(order) => {
                let _own = table.has_tree(0);
                let feed = LimitFeed::open(alloc, order, table, steps)?;
                Ok(Some(feed))
            }
            Follows::Nothing => Ok(None),
            Follows::Key(_) => unreachable!(),
            Follows::Shape(_) => unreachable!(),
        }
    }
}
