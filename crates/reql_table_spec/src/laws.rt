// Laws of the table machine, each a clause of a function that does nothing.
ghost use Rattle.reql_table_spec.specs.Reading.{PointsAreRead, RangesAreRead, NamedRangesAreRead, LimitsAreRead, LimitsByKeyAreRead};
ghost use Rattle.reql_table_spec.specs.Terms.{PointsShowTheirTerms, RangesShowTheirTerms, LimitsShowTheirTerms};
ghost use Rattle.reql_table_spec.specs.Laws.{RefusedStays, RecordedFit, DocsAtStamp, StampCounts, LaterDocs, DocsStay, TablesStay, WritesLand, GoodStay, IndexesStay, MakingStays, ShutWhereDropped, KindsFold, FeedsFold, TakesTellSkips, TakesLieInOrder, TakesArePlaced, SubscribesArePlaced, NumbersRise, FeedsComeAndGo, UnsubscribesAreTold, LooksTellTheTable};

/// A command that adds no entry leaves the table as it was, and one that does adds one to the place;
/// places and stamps are numbers of a u64. The documents of a table are those after all changes of
/// its history, which the stamp counts; those at a stamp, and the table at a place, stay the same
/// when the history goes on. A write leaves what writes leave. Documents stay in order of their keys
/// and no nulls, and indexes in order of their names; limits, and how an engine was made, stay. Which
/// feeds are open changes by nothing but a Subscribe that is answered by a feed, which adds that one, and
/// an Unsubscribe that is answered Closed, which ends just the asker's feed of that number; and an
/// Unsubscribe is answered as these feeds, the room of the history and whether the table is shut say. A
/// table is shut exactly where it was or a command of its history dropped it. A look tells the table's
/// place and stamp, and its documents and indexes, or none where it is shut.
pub fn table_laws()
    ensures refused { RefusedStays }
    ensures recorded { RecordedFit }
    ensures docs { DocsAtStamp }
    ensures stamp { StampCounts }
    ensures later { LaterDocs }
    ensures stay { DocsStay }
    ensures tables { TablesStay }
    ensures writes { WritesLand }
    ensures good { GoodStay }
    ensures indexes { IndexesStay }
    ensures making { MakingStays }
    ensures feeds { FeedsComeAndGo }
    ensures closed { UnsubscribesAreTold }
    ensures shut { ShutWhereDropped }
    ensures looks { LooksTellTheTable }
{}

/// Feeds of every kind meet the laws that the machine asks of them: their items, one change after
/// another or joined, fold to their values.
pub fn feed_kinds_fold()
    ensures { KindsFold }
{}

/// Each feed that a user opened along a history of a table folds to its query, evaluated from scratch
/// over the documents of any moment up to which its answers are whole.
pub fn feeds_of_histories_fold()
    ensures { FeedsFold }
{}

/// The answers of a feed's Takes tell what its queue skipped, for each feed that a user opened along a
/// history, up to the first Unsubscribe of it that the user asks, whatever that is answered: just what
/// went of that which waited since the Take before, up to the count's end, ahead of what they give of the
/// items that were behind it. So, while no count of skipped items is at its end, all that the Takes
/// reached is told once, in its order: as one of so many skipped, or in a batch, by itself or, where the
/// feed squashes, joined with the rest of the batch. Of what is behind the last Take nothing is said.
/// What has come by a Take is what the changes behind the opening and ahead of its place brought: the
/// stamp of an answer counts the changes ahead of it.
///
/// A Take of such a feed is answered Nothing exactly where nothing waits and the table isn't shut at its
/// place, and Gone exactly where nothing waits and it is. Where something waits it is given, as long as
/// the history has room for one more entry; else all of it waits on, and the answer is that the history
/// is full. A table is shut exactly where it was or a command of its history dropped it.
pub fn takes_tell_skips()
    ensures told { TakesTellSkips }
    ensures laid { TakesLieInOrder }
    ensures placed { TakesArePlaced }
    ensures shut { ShutWhereDropped }
{}

/// A Subscribe is answered Gone exactly where the table was dropped at its place. Where it wasn't, and the
/// history has room for one more entry, the answer is that the index is missing exactly where nothing is
/// kept of the request; that there are too many feeds exactly where it is kept and as many are open as may
/// be; and else a feed, by the number of the place behind it, with the items of its opening. Where the
/// history has no room, the answer of a table that is there is that it is full. The numbers of a table's
/// feeds rise, so that no two are ever given one number, whoever opens them.
pub fn subscribes_are_told()
    ensures placed { SubscribesArePlaced }
    ensures numbers { NumbersRise }
{}

/// Requests of feeds as they are planned are read for what they mean: GET of a key, a range shape by
/// its index or none, and the first of an order by an index or by primary key. By `term_laws` of
/// reql_feed_spec what such a term gives over a table is then the value of its feed.
pub fn requests_are_read()
    ensures points { PointsAreRead }
    ensures ranges { RangesAreRead }
    ensures named_ranges { NamedRangesAreRead }
    ensures limits { LimitsAreRead }
    ensures limits_by_key { LimitsByKeyAreRead }
{}

/// Every request of a feed that is accepted on a table shows what its term gives there, however the term
/// is spelled: GET of any closed key for a point feed; any shape for a range feed, on the good documents;
/// and for a limit feed LIMIT of ORDER_BY by an index or by primary key, named alone or in ASC or DESC,
/// over the table or over BETWEEN of any closed bounds with any of its options.
pub fn feeds_show_their_terms()
    ensures points { PointsShowTheirTerms }
    ensures ranges { RangesShowTheirTerms }
    ensures limits { LimitsShowTheirTerms }
{}
