// Laws of plans.
ghost use Rattle.reql_plan_spec.specs.Answering.{CrowdedFeedsAreRefused, DeniedFeedsAreClosed, FaultyFeedsAreRefused, NextFeedIsAsked, OpenFeedsAreTold};
ghost use Rattle.reql_plan_spec.specs.Asked.{EachIsOfItsTerm, FeedsAreAskedInTurn, FeedsEndWithTheirOwn, NoOtherFeedsAreAsked};
ghost use Rattle.reql_plan_spec.specs.Follows.{FeedsAreRead, LimitsAreRead, PointsAreRead, RangesAreRead};
ghost use Rattle.reql_plan_spec.specs.Looks.{DroppedTablesAreTold, EachIsSeenAtItsSlot, NoOthersAreLookedAt, ReadSlotsAreLookedAt, ReadSlotsRise, TermsGoOnInWhatWasSeen, ValuesAreOfWhatWasSeen};
ghost use Rattle.reql_plan_spec.specs.Minds.{PlansMind, PlansMindEachStep, UnsentOnlyWithNoreply};
ghost use Rattle.reql_plan_spec.specs.Opens.{AskedFeedsAreRead, PlannedFeedsAreRead};
ghost use Rattle.reql_plan_spec.specs.Settling.{FeedsMeanTheSame, SettledMeansTheSame};
ghost use Rattle.reql_plan_spec.specs.Theirs.{AskedOpeningsAreTheirs, OpeningsAreTheirs, PlannedOpeningsAreTheirs};

/// A plan takes nothing of a feed and closes no feed but those that it opened and that are open still; where it ends with
/// a feed, the arms are just those that are open, each once, and there is one; where it ends with a sequence none is open.
/// So it is whatever its moves are answered: what a session holds open is safe from a later request.
pub fn plans_mind()
    ensures { PlansMind }
{}

/// The same step by step, by what was heard so far, as a session follows a plan; and where no answer is wanted there is none.
#[tactic(auto, using(crate::proofs::Following::plans_mind_each_step))]
pub fn plans_mind_each_step()
    ensures { PlansMindEachStep }
{}

/// A request that wants an answer is never left without one, whatever its moves are answered: that nothing is sent is what
/// a plan ends with only where its request said so.
pub fn unsent_only_with_noreply()
    ensures { UnsentOnlyWithNoreply }
{}

/// A feed that CHANGES asks for, of a range, of a document by GET, or of the first of an order by an index, follows something
/// once it is opened, whatever indexes its table has: it is not one that shows nothing for ever since its term could not be
/// read, or is no term of its kind. So does each arm of a UNION of ranges, and so every feed that a request opens.
pub fn feeds_are_read()
    ensures ranges { RangesAreRead }
    ensures points { PointsAreRead }
    ensures limits { LimitsAreRead }
    ensures feeds { FeedsAreRead }
{}

/// Every feed that a plan opens follows something, whatever its moves are answered, where its term has no
/// fault, and each operator in it has a count of arguments and options that it takes, each option once, as in
/// every term that is read. So no request is answered with a feed that shows nothing for ever.
pub fn planned_feeds_are_read()
    ensures changes { PlannedFeedsAreRead }
    ensures asked { AskedFeedsAreRead }
{}

/// CHANGES opens a feed for each term that it follows, in their order: the arms of a UNION of ranges, else its one term. Each
/// is asked of the table that its own term is on, by the name of that table's key field, and follows that term with the data
/// of its arguments in their places: GET as one document, a range as a range by the index that it names, LIMIT of an order as
/// so many first ones by the order's index. All are told by the options of CHANGES. So it is of every request for CHANGES
/// whose term has no fault and stands as every term that is read; and every feed that a plan asks a slot for, whatever its
/// moves are answered, follows a term on the slot's own table, by the key field that the names it heard have for the slot.
pub fn openings_are_theirs()
    ensures changes { OpeningsAreTheirs }
    ensures planned { PlannedOpeningsAreTheirs }
    ensures asked { AskedOpeningsAreTheirs }
{}

/// Once a request for CHANGES has heard its names, the moment that its term asks for, and the snapshots of the slots that it
/// reads, it asks for the feeds of CHANGES in their order: the first one, and each next one as its answer once the one before
/// it is open; none after one that is refused. Each is asked of its slot with all that its opening says and the points of
/// these snapshots. The rest is of a plan whose term has no fault and stands as every term that is read, whatever its moves
/// are answered. It asks for no other feed: for none at all, or it is such a request, and each of its feeds is its own term's.
/// Each move for a feed is of the first term beyond as many as answers were heard after the snapshots. Where it ends with a
/// feed, all feeds of its CHANGES were asked for and are open, and its arms, notes and first items are those of just these.
pub fn feeds_are_asked_in_turn()
    ensures feeds { FeedsAreAskedInTurn }
    ensures others { NoOtherFeedsAreAsked }
    ensures each { EachIsOfItsTerm }
    ensures ends { FeedsEndWithTheirOwn }
{}

/// A request for CHANGES that wants an answer and has heard all that it reads is answered by the fault of its feeds, where they
/// have one; else by that too many cursors are open, where there is no room for one more. Else it asks for its feeds: the next
/// one while all before it are open; once all are open they are its answer, with their arms, notes and first items. Where one is
/// refused (its index is missing, its table has too many feeds, a full history or is dropped) those before it are closed in
/// their order, and then that is the answer; where a journal failed or memory is wanted, it is at once.
pub fn changes_are_answered()
    ensures faulty { FaultyFeedsAreRefused }
    ensures crowded { CrowdedFeedsAreRefused }
    ensures asked { NextFeedIsAsked }
    ensures opened { OpenFeedsAreTold }
    ensures denied { DeniedFeedsAreClosed }
{}

/// What is kept of a feed's term, with the data of its arguments in their places, means what the term does, in every world in
/// which each argument gives just the datum that was put in its place. A selected row is no such: its document alone is put
/// there, so that an ERROR of it, as the default of FILTER, is told as one of an object and no longer as one of a selection.
pub fn settled_means_the_same()
    ensures terms { SettledMeansTheSame }
    ensures feeds { FeedsMeanTheSame }
{}

/// A plan looks at the slots that its term reads, and at no others, whatever its moves are answered: once its names are heard,
/// and the moment where its term asks for it, at one after another by rising number, each once, as long as there is a table at
/// each. When it has seen them all, its term goes on in the world that has, for each of these slots, the table that was seen at
/// the look at that very slot, and no other tables. So a request that reads alone (no command, no CHANGES, no BRANCH with a
/// command in an arm), and wants an answer, is answered by what its term gives over these tables, by why it gives nothing, or,
/// where that is a sequence longer than a batch, by that too many cursors are open. Where a look finds no table,
/// nothing more is done, and the answer, where one is wanted, is that the table of this slot was dropped, by its names. Of a
/// command whose own table was dropped, which it doesn't read, this says nothing.
pub fn looks_are_of_the_term()
    ensures slots { ReadSlotsRise }
    ensures looks { ReadSlotsAreLookedAt }
    ensures others { NoOthersAreLookedAt }
    ensures seen { EachIsSeenAtItsSlot }
    ensures terms { TermsGoOnInWhatWasSeen }
    ensures values { ValuesAreOfWhatWasSeen }
    ensures dropped { DroppedTablesAreTold }
{}
