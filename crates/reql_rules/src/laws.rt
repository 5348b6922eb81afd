// Laws of the rules.
ghost use Rattle.reql_rules.specs.Laws.{KeysSortStably, DistinctHoldsEachOnce, GroupsHoldEachOnce};

/// The order by keys is a stable sort, and the only one: what a stable sort by these keys gives is
/// what ORDER_BY gives.
pub fn order_law()
    ensures { KeysSortStably }
{}

/// Distinct values rise, and hold each value once.
pub fn distinct_law()
    ensures { DistinctHoldsEachOnce }
{}

/// Groups rise by their values, and hold each element once, in order.
pub fn group_law()
    ensures { GroupsHoldEachOnce }
{}
