// Laws of sessions that plan ReQL.
ghost use Rattle.reql_plan_spec.specs.Looks.{ReadSlotsRise};
ghost use Rattle.reql_query_session_spec.specs.Laws.{PlansAreTold, BatchesAgree, InfoIsServers, AllInOrder, AllFramesHandled, AllLoginRollsFirst, AllWornLate, AllFirstFailed, AllAreAnswered, AllWaitForNothing, AllValidClose, AllKept, AllOneMore, AllLearning, AllNothingLeft, AllFeedsHold, AllSkipsAreSent, AllFeedsAreOpened, AllFeedsBegin, AllFeedsOpen, AllFeedsEnd, AllContinuesAreAnswered, AllNothingKeptBack, AllOfFeedsIsSent, AllFeedsAreTold, AllBatchesAreOfFeeds, AllBatchesAreFull, AllTakesAreOfFeeds, AllIsSaid, AllFeedsAreRead, AllFeedsAreTheirs, AllFeedsAreAskedInTurn, AllRunNoOtherFeeds, AllFeedsEndWithTheirOwn, AllFaultyFeedsAreRefused, AllCrowdedFeedsAreRefused, AllNextFeedsAreRun, AllOpenFeedsAreTold, AllDeniedFeedsAreClosed, AllArmsAreApart, AllTakesArePlaced, AllSubscribesArePlaced};
ghost use Rattle.reql_query_session_spec.specs.Looks.{AllAreSeenAtTheirSlots, AllDroppedTablesAreTold, AllLookAtNoOthers, AllReadSlotsAreLookedAt, AllTermsGoOnInWhatWasSeen, AllValuesAreOfWhatWasSeen};
ghost use Rattle.reql_query_session_spec.specs.Refusing.{FirstRefusal, ShapeRefusal};

/// Plans, as a session is told of them, take from no feed, close only what they opened and is open still, and tell of
/// no other feeds, with opening items and states alone; and a session cuts their answers by the batch that they count by.
pub fn plans_are_told()
    ensures told { PlansAreTold }
    ensures batches { BatchesAgree }
{}

/// Every feed that a session opens for a body that it was sent follows a document, a range or the first of an order,
/// whatever the body is and whatever the moves of its plan are answered: none stays silent since its term could not be read.
/// And it is its own term's: of those that CHANGES follows, the first one that has no answer yet. It is asked of the table
/// that this term is on, to follow it with the data of its arguments in their places, by its shape and the options of CHANGES.
/// What is run to open feeds for a plan is the feeds of its CHANGES in their order, as far as each one before is open; no other
/// feed is run for any body. Where a plan ends with a feed, all feeds of its CHANGES were
/// run and are open, and its arms, notes and first items are those of just these.
pub fn feeds_are_read()
    ensures read { AllFeedsAreRead }
    ensures theirs { AllFeedsAreTheirs }
    ensures turn { AllFeedsAreAskedInTurn }
    ensures others { AllRunNoOtherFeeds }
    ensures ends { AllFeedsEndWithTheirOwn }
{}

/// A body whose plan came to a CHANGES that wants an answer is answered by the fault of its feeds, where they have one; else by
/// that too many cursors are open, where as many are as may be. Else its feeds are run: the next one while all before it are
/// open; once all are open they are the answer. Where one is not opened, since its index is missing or its table has too many
/// feeds, a full history or was dropped, those before it are closed in their order and then that is the answer; where a journal
/// failed or memory is wanted, it is at once.
pub fn changes_are_answered()
    ensures faulty { AllFaultyFeedsAreRefused }
    ensures crowded { AllCrowdedFeedsAreRefused }
    ensures asked { AllNextFeedsAreRun }
    ensures opened { AllOpenFeedsAreTold }
    ensures denied { AllDeniedFeedsAreClosed }
{}

/// What is looked at for a body is the slots that its plan's term reads, by rising number, each once, as long as there is a table
/// at each, and nothing else, whatever is found. When all are seen the term goes on in the world that has, for each of these slots,
/// the table that was seen at the look at that very slot, and no other tables; so a body that reads alone (no command, no
/// CHANGES, no BRANCH with a command in an arm), and wants an answer, is answered by what its term gives over these tables, by
/// why it gives nothing, or, where that is a sequence longer than a batch, by that too many cursors are open. Where a look
/// finds no table, nothing more is done, and the answer, where one is wanted, is that the table of this slot was dropped, by its
/// names. Of a command whose own table was dropped, which it doesn't read, this says nothing.
pub fn looks_are_of_the_term()
    ensures slots { ReadSlotsRise }
    ensures looks { AllReadSlotsAreLookedAt }
    ensures others { AllLookAtNoOthers }
    ensures seen { AllAreSeenAtTheirSlots }
    ensures terms { AllTermsGoOnInWhatWasSeen }
    ensures values { AllValuesAreOfWhatWasSeen }
    ensures dropped { AllDroppedTablesAreTold }
{}

/// A START is refused by the first of its refusals before anything is looked at: that its token has something open, the
/// faults of its term, those of its options, and those of planning; a body that has no shape of a query before all of
/// these. Where there is none, it is planned.
pub fn first_refusal()
    ensures shape { ShapeRefusal }
    ensures first { FirstRefusal }
{}

/// SERVER_INFO is answered by what the server tells of itself.
pub fn server_is_told()
    ensures { InfoIsServers }
{}

/// The laws of explained sessions, whatever their key, their password and their limits: what came in was handled in order; every whole
/// frame was handled, but for a failed send, a worn session or want of memory; the rolls of a login come before those of requests; a session is worn only where more came than
/// its turns may take; its first failed send ends it; each frame that wants an answer is given one before the next is taken,
/// but for a CONTINUE that waits, and that one waits only where, visited in that very turn, it had nothing left of its feed and
/// was given nothing by the arms that were taken from; a session that is given a valid input handles every frame of it and
/// closes, but for a failed receive, a failed send, too few turns or want of memory; a hall whose histories go on explains a
/// session still; the sessions of a desk divide what it did; every feed that a session opened folds to its query's value at
/// every change up to which its answers are whole; and what is sent of it as changes and as skips is, in order, a beginning of what its Takes give,
/// which tell just what its queue skipped, each time ahead of what came behind it.
pub fn sessions_hold()
    ensures in_order { AllInOrder }
    ensures frames_handled { AllFramesHandled }
    ensures login_rolls_first { AllLoginRollsFirst }
    ensures worn_late { AllWornLate }
    ensures first_failed { AllFirstFailed }
    ensures each_is_answered { AllAreAnswered }
    ensures waits_for_nothing { AllWaitForNothing }
    ensures valid_close { AllValidClose }
    ensures kept { AllKept }
    ensures one_more { AllOneMore }
    ensures learning { AllLearning }
    ensures nothing_left { AllNothingLeft }
    ensures feeds_hold { AllFeedsHold }
    ensures skips_are_sent { AllSkipsAreSent }
{}

/// The feeds that a session has open, whatever its key, its password and its limits: each is that of a START of its own token, with its
/// plan's arms, notes and batches; where a plan comes to a feed its first batch is the answer, and that is open from there on,
/// or its client is told a fault; it is closed only by a fault, or by the answer to its STOP. A CONTINUE on one is answered by
/// items that were left or taken, or by a fault that has a cause, and by no batch of nothing, where its batches have an item
/// at least; what its Takes gave is sent, or is in the answer that is being told, or is kept to be sent; and all that is said
/// of it is its plan's first items and then what its Takes gave, item by item as each is printed, with its arm's place and the
/// plan's notes, in batches as full as they may be while something is left, so that where a token waits nothing is still to be
/// said.
pub fn feeds_are_told()
    ensures opened { AllFeedsAreOpened }
    ensures begins { AllFeedsBegin }
    ensures opens { AllFeedsOpen }
    ensures ends { AllFeedsEnd }
    ensures continues { AllContinuesAreAnswered }
    ensures kept_back { AllNothingKeptBack }
    ensures sent { AllOfFeedsIsSent }
    ensures told { AllFeedsAreTold }
    ensures of_feeds { AllBatchesAreOfFeeds }
    ensures full { AllBatchesAreFull }
    ensures takes { AllTakesAreOfFeeds }
    ensures said { AllIsSaid }
{}

/// The arms of a session's feeds, and what its commands on them are answered, whatever its key, its password and its limits: no feed that it
/// has open has an arm twice, and no two have one in common; each Take is answered as the table of its slot says at its place,
/// by Nothing only while that isn't dropped, and by Gone only when it was; and a Subscribe is answered Gone exactly where the
/// table was dropped, and where it wasn't and its history has room, that the index is missing exactly where nothing is kept of the
/// request, that there are too many feeds exactly where it is kept and as many are open as may be, and else by a feed.
pub fn answers_are_placed()
    ensures apart { AllArmsAreApart }
    ensures takes { AllTakesArePlaced }
    ensures subscribes { AllSubscribesArePlaced }
{}
