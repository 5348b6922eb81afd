// What a client is told of a feed that isn't opened.
ghost use Rattle.std.specs.Prelude.{◌≡◌, IfOk};
ghost use Rattle.reql_datum.specs.Answer.{query_logic, resource_limit};
ghost use Rattle.reql_plan_spec.specs.Texts.{multi_feed as multi_feed_of, over_limit as over_limit_of};

use reql_datum::{Memory, Name};
use std::alloc::Global;

/// That a limit feed is asked for over a multi index.
pub(crate) fn multi_feed(alloc: Global) -> Result<Name, Memory>
    ensures { IfOk result (λ text. query_logic text ≡ multi_feed_of) }
{
    Name::of(alloc, "Limit feed over a multi index.")
}

/// That a limit feed is asked for more rows than it may have.
pub(crate) fn over_limit(alloc: Global) -> Result<Name, Memory>
    ensures { IfOk result (λ text. resource_limit text ≡ over_limit_of) }
{
    Name::of(alloc, "Limit over `100000`.")
}
