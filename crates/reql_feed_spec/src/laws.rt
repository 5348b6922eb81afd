// Laws of the definitions, each a clause of a function that does nothing.
ghost use Rattle.reql_feed_spec.specs.Laws.{ItemsReadBack, PointItemsFold, RangeItemsFold, LimitItemsFoldByPlaces, LimitItemsFoldAsBags, RangeValuesJoin, RangeItemsAreOfTheDocument, PointsChangeAlone, PointNetsFold, BagNetsFold, RangeNetsFold, PointHistoriesFold, RangeHistoriesFold, PointNetsHold, RangeNetsHold, LimitHistoriesFoldByPlaces, LimitHistoriesFoldAsBags, LimitNetsHold};
ghost use Rattle.reql_feed_spec.specs.Folds.{ChangesKeepOrder, OneChangeFolds, JoinedChangesFold, NothingJoinsToNothing, JoinedStampsStayAbove, JoinedStampsStayBelow};
ghost use Rattle.reql_feed_spec.specs.Moving.{IndexesMoveOne, KeysMoveOne};
ghost use Rattle.reql_feed_spec.specs.Kept.{KeptFeedsFollow};
ghost use Rattle.reql_feed_spec.specs.Watched.{PointsAreGets, RangesFollowShapes, LimitsFollowIndexes, LimitsFollowKeys, LimitsAreFirstByIndex, LimitsAreFirstByKey};

/// Items: what a client reads of a printed one is the item, but that null is absence; and folded over
/// the value that it had, the items of a change give the value after it.
#[tactic(auto, using(crate::proofs::Readback::reads, crate::proofs::Folds::point_folds, crate::proofs::Folds::range_folds, crate::proofs::LimitFolds::limit_folds, crate::proofs::LimitFolds::limit_bag_folds))]
pub fn item_laws()
    ensures read_back { ItemsReadBack }
    ensures point { PointItemsFold }
    ensures range { RangeItemsFold }
    ensures places { LimitItemsFoldByPlaces }
    ensures bag { LimitItemsFoldAsBags }
{}

/// Point and range feeds. A change touches a point feed at its key alone. A range feed's value is the
/// sorted union of what each document adds, so the items of a change are those between what the
/// changed document added and what it adds.
#[tactic(auto, using(crate::proofs::Points::point_after, crate::proofs::Contributions::value_is_union, crate::proofs::Contributions::change_of_part))]
pub fn range_laws()
    ensures point { PointsChangeAlone }
    ensures union { RangeValuesJoin }
    ensures change { RangeItemsAreOfTheDocument }
{}

/// Nets: the net of items folds as the items do, where each value that leaves is there. A range
/// feed's net counts for each document by itself.
#[tactic(auto, using(crate::proofs::Nets::point_net_folds, crate::proofs::Nets::bag_net_folds, crate::proofs::Nets::range_net_folds))]
pub fn net_laws()
    ensures point { PointNetsFold }
    ensures bag { BagNetsFold }
    ensures range { RangeNetsFold }
{}

/// Along any changes of a table, the items that a feed was told, as a client reads them, fold over the
/// value before the first to the value after the last, and so does their net, with no premise on them.
#[tactic(auto, using(crate::proofs::Histories::point_history, crate::proofs::Histories::range_history, crate::proofs::Histories::point_net_history, crate::proofs::Histories::told_net_history, crate::proofs::LimitHistories::places_history, crate::proofs::LimitHistories::bag_history, crate::proofs::LimitHistories::bag_net_history))]
pub fn told_laws()
    ensures point { PointHistoriesFold }
    ensures range { RangeHistoriesFold }
    ensures point_net { PointNetsHold }
    ensures range_net { RangeNetsHold }
    ensures limit_places { LimitHistoriesFoldByPlaces }
    ensures limit_bag { LimitHistoriesFoldAsBags }
    ensures limit_net { LimitNetsHold }
{}

/// What every kind of feed owes the table that keeps its queue: the items of one change fold over the
/// value before it to the value after it; what joins a queue folds to the value after its changes, has
/// stamps from the queue, and is nothing where nothing is queued. Whatever a feed keeps of its request,
/// these hold of it along all changes of a table in order, whose documents are no nulls.
#[tactic(auto, using(crate::proofs::Owed::keep_order, crate::proofs::Owed::one_change, crate::proofs::Owed::joined_changes, crate::proofs::Owed::nothing_joins, crate::proofs::Owed::stay_above, crate::proofs::Owed::stay_below, crate::proofs::Keeping::kept_follow))]
pub fn feed_laws()
    ensures order { ChangesKeepOrder }
    ensures one { OneChangeFolds }
    ensures joined { JoinedChangesFold }
    ensures nothing { NothingJoinsToNothing }
    ensures above { JoinedStampsStayAbove }
    ensures below { JoinedStampsStayBelow }
    ensures follow { KeptFeedsFollow }
{}

/// Limit feeds. A change of one document moves at most one element of the first n between bounds, in
/// the order of an index that is no multi index or in the primary order, and in their reverse.
#[tactic(auto, using(crate::proofs::Moving::indexes_move, crate::proofs::Moving::keys_move))]
pub fn limit_laws()
    ensures indexes { IndexesMoveOne }
    ensures keys { KeysMoveOne }
{}

/// What the term of a feed gives over a table is the feed's value: GET of a key for a point feed, and
/// LIMIT over ORDER_BY by an index, or by primary key, for a limit feed. A range feed may follow every
/// shape, and a limit feed such an order, along any changes.
#[tactic(auto, using(crate::proofs::Watched::gets, crate::proofs::Watched::follow_indexes, crate::proofs::Watched::follow_keys, crate::proofs::Watched::first_by_index, crate::proofs::Watched::first_by_key))]
pub fn term_laws()
    ensures points { PointsAreGets }
    ensures ranges { RangesFollowShapes }
    ensures follow_indexes { LimitsFollowIndexes }
    ensures follow_keys { LimitsFollowKeys }
    ensures limits { LimitsAreFirstByIndex }
    ensures limits_by_key { LimitsAreFirstByKey }
{}
