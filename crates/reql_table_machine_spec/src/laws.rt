// The laws of a table and its feeds, for any kinds of writes and feeds.
ghost use Rattle.reql_table_machine_spec.specs.Feeding.{Feeding, Folds};
ghost use Rattle.reql_table_machine_spec.specs.Laws.{RefusedStays, DocsAtStamp, LaterDocs, ShutWhereDropped, FeedsFold};
ghost use Rattle.reql_table_machine_spec.specs.Skips.{OldestAreSkipped, SkipsCount, NothingIsSkipped, SkipsOfFullQueues, SkipsBetweenTakes};
ghost use Rattle.reql_table_machine_spec.specs.Telling.{TakesTellSkips, TakesLieInOrder, TakesArePlaced};
ghost use Rattle.reql_table_machine_spec.specs.Subscribing.{NumbersRise, SubscribesArePlaced};
ghost use Rattle.reql_table_machine_spec.specs.Ending.{FeedsComeAndGo, UnsubscribesAreTold, LooksTellTheTable};
ghost use Rattle.reql_table_machine_spec.specs.Sample.{one_number, Good, May};

/// What a table's writes and feeds mean.
pub trait Meaning {
    type Docs;

    type Indexes;

    type Write;

    type IndexCmd;

    type Request;

    type Summary;

    type Change;

    type Kept;

    type Item;

    type Value;

    ghost feeding: { Feeding Self.Docs Self.Indexes Self.Write Self.IndexCmd Self.Request Self.Summary Self.Change Self.Kept Self.Item Self.Value };

    ghost good: { Self.Docs → Type 0 };

    ghost may: { Self.Docs → Self.Change → Type 0 };
}

/// A command that adds no entry leaves the table as it was; the documents of a table are those after
/// all changes of its history; and the documents at a stamp stay the same when the history goes on. A look
/// tells the table's place and stamp, and its documents and indexes, or none where it is shut.
pub fn machine_laws<F: Meaning>()
    ensures refused { RefusedStays F.feeding }
    ensures docs { DocsAtStamp F.feeding }
    ensures later { LaterDocs F.feeding }
    ensures looks { LooksTellTheTable F.feeding }
{}

/// Where the laws of its kinds of feed hold, each feed that a user opened along a history folds to its query.
pub fn feeds_fold<F: Meaning>()
    ensures { FeedsFold F.feeding F.good F.may }
{}

/// A skip comes only from a full queue, and counts what was dropped: as many of the oldest items as
/// have no place, up to the end of the count, and the last of them is told. Along any history a feed
/// that has a skip to tell has a full queue, and nothing comes to a feed but what changes append.
pub fn skips_of_full_queues<F: Meaning>()
    ensures oldest { OldestAreSkipped F.feeding }
    ensures counted { SkipsCount F.feeding }
    ensures room { NothingIsSkipped F.feeding }
    ensures full { SkipsOfFullQueues F.feeding }
    ensures between { SkipsBetweenTakes F.feeding }
{}

/// The answers of a feed's Takes tell what its queue skipped, for each feed that a user opened along a
/// history, up to the first Unsubscribe of it that the user asks, whatever that is answered. Of what waits
/// at a Take, which is what the Take before left and what came since, the oldest that have no place are
/// gone: just these the answer tells, up to the count's end, before what it gives of those behind them.
/// So, while no count is at its end, all that the Takes reached is told once, in its order: as one of so
/// many skipped, or in a batch, by itself or, where the feed squashes, joined with the rest of the batch.
/// Of what is behind the last Take nothing is said. What has come by a Take is what the changes behind
/// the opening and ahead of its place brought: the stamp of an answer counts the changes ahead of it.
///
/// A Take of such a feed is answered Nothing exactly where nothing waits and the table isn't shut at its
/// place, and Gone exactly where nothing waits and it is. Where something waits it is given, as long as
/// the history has room for one more entry; else all of it waits on, and the answer is that the history
/// is full. A table is shut exactly where it was or a command of its history dropped it.
pub fn takes_tell_skips<F: Meaning>()
    ensures told { TakesTellSkips F.feeding }
    ensures laid { TakesLieInOrder F.feeding }
    ensures placed { TakesArePlaced F.feeding }
    ensures shut { ShutWhereDropped F.feeding }
{}

/// A Subscribe is answered Gone exactly where the table was dropped at its place. Where it wasn't, and the
/// history has room for one more entry, the answer is that the index is missing exactly where nothing is
/// kept of the request; that there are too many feeds exactly where it is kept and as many are open as may
/// be; and else a feed, by the number of the place behind it, with the items of its opening. Where the
/// history has no room, the answer of a table that is there is that it is full.
pub fn subscribes_are_told<F: Meaning>()
    ensures { SubscribesArePlaced F.feeding }
{}

/// The numbers of the feeds that are opened on a table rise along its history, so that no two feeds of a
/// table are ever given one number, whoever opens them.
pub fn numbers_rise<F: Meaning>()
    ensures { NumbersRise F.feeding }
{}

/// After each command the feeds of a table that were open are open still, in their order, each with its
/// owner, number, request and stamp of opening, but where an Unsubscribe is answered Closed, which ends just
/// the asker's feed of that number; and none is new but where a Subscribe is answered by a feed, which is the
/// last. An Unsubscribe is answered Closed where who asks has a feed of that number open. Where he has none,
/// the answer is Gone if the table is shut, and else that the feed is unknown. Where the history has no room
/// for one more entry, it is that it is full, in place of Closed and of unknown.
pub fn feeds_come_and_go<F: Meaning>()
    ensures feeds { FeedsComeAndGo F.feeding }
    ensures closed { UnsubscribesAreTold F.feeding }
{}

/// The laws of a kind of feed can be met: the feeds of a table of one number meet them.
pub fn sample_folds()
    ensures { Folds one_number Good May }
{}
