// The whole server, over the devices that it is handed.
ghost use Rattle.std.specs.Prelude.{◌≡◌, map, string_bytes, IfErr, IfOk, MatchResult};
ghost use Rattle.reql_outside.specs.Tape.{IsFresh};
ghost use Rattle.reql_words.specs.Words.{asks, named};
ghost use Rattle.reql_core.specs.Core.{state_of};
ghost use Rattle.reql_open_feed.specs.Open.{held_in};
ghost use Rattle.reql_table_spec.specs.Laws.{DocsAtStamp, StampCounts, FeedsComeAndGo, UnsubscribesAreTold, ShutWhereDropped, LooksTellTheTable};
ghost use Rattle.reql_table_spec.specs.Terms.{PointsShowTheirTerms, RangesShowTheirTerms, LimitsShowTheirTerms};
ghost use Rattle.reql_plan_spec.specs.Looks.{ReadSlotsRise};
ghost use Rattle.reql_query_session_spec.specs.Told.{keys_by};
ghost use Rattle.reql_query_session_spec.specs.Laws.{AllInOrder, AllFramesHandled, AllLoginRollsFirst, AllWornLate, AllFirstFailed, AllAreAnswered, AllWaitForNothing, AllValidClose, AllFeedsHold, AllSkipsAreSent, AllFeedsAreRead, AllFeedsAreTheirs, AllFeedsAreOpened, AllFeedsBegin, AllFeedsOpen, AllFeedsEnd, AllContinuesAreAnswered, AllNothingKeptBack, AllOfFeedsIsSent, AllFeedsAreTold, AllBatchesAreOfFeeds, AllBatchesAreFull, AllTakesAreOfFeeds, AllIsSaid, AllFeedsAreAskedInTurn, AllRunNoOtherFeeds, AllFeedsEndWithTheirOwn, AllFaultyFeedsAreRefused, AllCrowdedFeedsAreRefused, AllNextFeedsAreRun, AllOpenFeedsAreTold, AllDeniedFeedsAreClosed, AllArmsAreApart, AllTakesArePlaced, AllSubscribesArePlaced, BatchesAgree, InfoIsServers, PlansAreTold};
ghost use Rattle.reql_query_session_spec.specs.Looks.{AllAreSeenAtTheirSlots, AllDroppedTablesAreTold, AllLookAtNoOthers, AllReadSlotsAreLookedAt, AllTermsGoOnInWhatWasSeen, AllValuesAreOfWhatWasSeen};
ghost use Rattle.reql_query_session_spec.specs.Refusing.{FirstRefusal, ShapeRefusal};
ghost use Rattle.reql_run.specs.Running.{IsServed, Serves, Unserved};

use crate::opening::{Start, begin};
use crate::outcome::{Core, Outcome, status_of};
use reql_memory::Refused;
use reql_outside::{Clock, Dice, Link};
use reql_planner::QueryPlanner;
use reql_query_session_spec::{
    answers_are_placed, changes_are_answered, feeds_are_read, feeds_are_told, first_refusal,
    looks_are_of_the_term, plans_are_told, server_is_told, sessions_hold,
};
use reql_serve::{Ended, serve_one};
use reql_table_spec::{feeds_show_their_terms, table_laws};
use reql_words::{Command, command_of};
use std::alloc::Global;
use std::sync::Wait;

// Serves one session to who has the key or the password, with these tables from the start. An `Err` hands the link back as it came.
fn serve<R: Wait, L: Link + Drop, D: Dice + Drop, T: Clock + Drop>(
    rt: &R,
    alloc: Global,
    key: &str,
    password: &str,
    tables: &[(&str, &str)],
    stdio: L,
    dice: D,
    clock: T,
) -> Result<Ended<Core, L::Record>, Refused<L>>
    requires fresh { IsFresh (L.tape stdio) }
    ensures served { IfOk result (λ ended. IsServed (state_of held_in) (λ n. n) (keys_by key.now password.now) (map named tables.now) (T.told clock) (D.told dice)
        (L.kept ended.session.tape) ended.session.end ended.session.turns ended.hall) }
    ensures back { IfErr result (λ refused. refused.back ≡ stdio) }
{
    let Ok(start) = begin(alloc, key, password, tables) else {
        return Err(Refused { back: stdio });
    };
    let Start {
        names,
        engines,
        plans,
    } = start;
    let planner = QueryPlanner::<Core>::new(plans);
    serve_one(rt, alloc, names, engines, &planner, stdio, clock, dice)
}

/// Serves one session over `stdio`, with what the words ask for: `stdio [--key K] [--password P] [--table DB.NAME]..`, its
/// options in any order. K has at most 1024 bytes, and a greeting must bring it; without it the key is empty. P has at most 256
/// characters, and who logs in, as `admin`, must know it; without it the password is empty. The database `test` is
/// there, and each table that is named, with its database and the key field `id`.
///
/// The link is fresh. With other words the status is 2, and where memory is wanted before a session begins it is 8; then
/// the link comes back as it was handed in, so that nothing was heard or said. What is proved of every session of these
/// plans, whatever its input, stands beside what this one did: its input is handled in order, every whole frame of it, but
/// for a failed send, too few turns or want of memory; each frame that wants an answer is given just one, but for a
/// CONTINUE that waits and after a failed send; a CONTINUE waits only where its feed gave nothing in that very turn, and
/// one on a feed is else answered by items, by a fault that has a cause, or by the end that a STOP tells; a valid input,
/// which is nothing or a greeting that is accepted and whole frames within the limit, is handled to its last frame, and the
/// status is 0, unless a receive or a send failed, it took more turns than there are, or memory was wanted; every request
/// is answered by its plan, or by the first of its refusals; a plan looks at no slots but those that its term reads, and goes
/// on over the tables that it saw there, each at the look at its own slot, or ends at the first look that finds no table,
/// with the answer, if one is wanted, that this table was dropped; a CHANGES opens the feeds of its own terms, in their
/// order and no others, or is answered by its refusal; every feed that is open follows a document, a range or the first
/// of an order, so that none stays silent since its term could not be read, is told its plan's first items and then what its
/// Takes give, in order and nothing else, and folds to the value of its query up to where its answers are whole; no open feed
/// has an arm twice, and no two share one; which feeds a table has open changes by nothing but a Subscribe that is answered by
/// a feed and an Unsubscribe that is answered Closed, each by just that feed; a table is shut exactly where it was or a command
/// dropped it, and a look tells the table as it stands; and each Take, each Subscribe and each Unsubscribe that is answered is
/// answered as its table says at its place.
pub fn run<R: Wait, L: Link + Drop, D: Dice + Drop, T: Clock + Drop>(
    rt: &R,
    alloc: Global,
    words: &[String],
    stdio: L,
    dice: D,
    clock: T,
) -> Outcome<L>
    requires fresh { IsFresh (L.tape stdio) }
    ensures served { MatchResult result.ended
        (λ ended. Serves (state_of held_in) (λ n. n) (asks (map string_bytes words.now)) result.status (T.told clock) (D.told dice)
        (L.kept ended.session.tape) ended.session.end ended.session.turns ended.hall)
        (λ link. Unserved (asks (map string_bytes words.now)) result.status) }
    ensures back { IfErr result.ended (λ link. link ≡ stdio) }
    ensures in_order { AllInOrder }
    ensures frames_handled { AllFramesHandled }
    ensures login_rolls_first { AllLoginRollsFirst }
    ensures worn_late { AllWornLate }
    ensures first_failed { AllFirstFailed }
    ensures answered { AllAreAnswered }
    ensures waits_for_nothing { AllWaitForNothing }
    ensures valid_close { AllValidClose }
    ensures shape { ShapeRefusal }
    ensures first { FirstRefusal }
    ensures plans_are_told { PlansAreTold }
    ensures batches { BatchesAgree }
    ensures server { InfoIsServers }
    ensures feeds_hold { AllFeedsHold }
    ensures skips_are_sent { AllSkipsAreSent }
    ensures feeds_are_opened { AllFeedsAreOpened }
    ensures feeds_begin { AllFeedsBegin }
    ensures feeds_open { AllFeedsOpen }
    ensures feeds_close { AllFeedsEnd }
    ensures continues_are_answered { AllContinuesAreAnswered }
    ensures nothing_kept_back { AllNothingKeptBack }
    ensures all_is_sent { AllOfFeedsIsSent }
    ensures feeds_are_told { AllFeedsAreTold }
    ensures batches_are_of_feeds { AllBatchesAreOfFeeds }
    ensures batches_are_full { AllBatchesAreFull }
    ensures takes_are_of_feeds { AllTakesAreOfFeeds }
    ensures all_is_said { AllIsSaid }
    ensures feeds_are_read { AllFeedsAreRead }
    ensures feeds_are_theirs { AllFeedsAreTheirs }
    ensures feeds_in_turn { AllFeedsAreAskedInTurn }
    ensures no_other_feeds { AllRunNoOtherFeeds }
    ensures feeds_end { AllFeedsEndWithTheirOwn }
    ensures faulty_feeds { AllFaultyFeedsAreRefused }
    ensures crowded_feeds { AllCrowdedFeedsAreRefused }
    ensures next_feeds { AllNextFeedsAreRun }
    ensures open_feeds { AllOpenFeedsAreTold }
    ensures denied_feeds { AllDeniedFeedsAreClosed }
    ensures read_slots { ReadSlotsRise }
    ensures looks { AllReadSlotsAreLookedAt }
    ensures no_other_looks { AllLookAtNoOthers }
    ensures seen_slots { AllAreSeenAtTheirSlots }
    ensures seen_terms { AllTermsGoOnInWhatWasSeen }
    ensures seen_values { AllValuesAreOfWhatWasSeen }
    ensures dropped_tables { AllDroppedTablesAreTold }
    ensures documents { DocsAtStamp }
    ensures stamps { StampCounts }
    ensures feeds_come_and_go { FeedsComeAndGo }
    ensures unsubscribes_are_told { UnsubscribesAreTold }
    ensures shut_where_dropped { ShutWhereDropped }
    ensures looks_tell_the_table { LooksTellTheTable }
    ensures points { PointsShowTheirTerms }
    ensures ranges { RangesShowTheirTerms }
    ensures limits { LimitsShowTheirTerms }
    ensures arms_are_apart { AllArmsAreApart }
    ensures takes_are_placed { AllTakesArePlaced }
    ensures subscribes_are_placed { AllSubscribesArePlaced }
{
    first_refusal();
    plans_are_told();
    server_is_told();
    sessions_hold();
    feeds_are_read();
    feeds_are_told();
    changes_are_answered();
    looks_are_of_the_term();
    table_laws();
    feeds_show_their_terms();
    answers_are_placed();
    let Command::Stdio {
        key,
        password,
        tables,
    } = command_of(words)
    else {
        return Outcome {
            status: 2,
            ended: Err(stdio),
        };
    };
    match serve(
        rt,
        alloc,
        key,
        password,
        tables.as_slice(),
        stdio,
        dice,
        clock,
    ) {
        Ok(ended) => Outcome {
            status: status_of(ended.session.end),
            ended: Ok(ended),
        },
        Err(refused) => Outcome {
            status: 8,
            ended: Err(refused.back),
        },
    }
}
