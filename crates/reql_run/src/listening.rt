// The whole server, over the net that it is handed.
ghost use Rattle.std.specs.Prelude.{◌≡◌, length, map, string_bytes, IfOk, IfErr, MatchResult};
ghost use Rattle.std.specs.List.{All};
ghost use Rattle.reql_words.specs.Words.{asks, named, Listen};
ghost use Rattle.reql_core.specs.Core.{state_of};
ghost use Rattle.reql_open_feed.specs.Open.{held_in};
ghost use Rattle.reql_table_spec.specs.Laws.{DocsAtStamp, StampCounts, FeedsComeAndGo, UnsubscribesAreTold, ShutWhereDropped, LooksTellTheTable};
ghost use Rattle.reql_table_spec.specs.Terms.{PointsShowTheirTerms, RangesShowTheirTerms, LimitsShowTheirTerms};
ghost use Rattle.reql_plan_spec.specs.Looks.{ReadSlotsRise};
ghost use Rattle.reql_query_session_spec.specs.Told.{keys_by};
ghost use Rattle.reql_query_session_spec.specs.Laws.{AllInOrder, AllFramesHandled, AllLoginRollsFirst, AllWornLate, AllFirstFailed, AllAreAnswered, AllWaitForNothing, AllValidClose, AllFeedsHold, AllSkipsAreSent, AllFeedsAreRead, AllFeedsAreTheirs, AllFeedsAreOpened, AllFeedsBegin, AllFeedsOpen, AllFeedsEnd, AllContinuesAreAnswered, AllNothingKeptBack, AllOfFeedsIsSent, AllFeedsAreTold, AllBatchesAreOfFeeds, AllBatchesAreFull, AllTakesAreOfFeeds, AllIsSaid, AllFeedsAreAskedInTurn, AllRunNoOtherFeeds, AllFeedsEndWithTheirOwn, AllFaultyFeedsAreRefused, AllCrowdedFeedsAreRefused, AllNextFeedsAreRun, AllOpenFeedsAreTold, AllDeniedFeedsAreClosed, AllArmsAreApart, AllTakesArePlaced, AllSubscribesArePlaced, BatchesAgree, InfoIsServers, PlansAreTold};
ghost use Rattle.reql_query_session_spec.specs.Looks.{AllAreSeenAtTheirSlots, AllDroppedTablesAreTold, AllLookAtNoOthers, AllReadSlotsAreLookedAt, AllTermsGoOnInWhatWasSeen, AllValuesAreOfWhatWasSeen};
ghost use Rattle.reql_query_session_spec.specs.Refusing.{FirstRefusal, ShapeRefusal};
ghost use Rattle.reql_net.specs.Nets.{IsUntouched};
ghost use Rattle.reql_serve.specs.Working.{outside};
ghost use Rattle.reql_serve.specs.Many.{at_end};
ghost use Rattle.reql_run.specs.Listening.{AreServed, ComesTo, ComesToNone, Listens, Unheard, greater, status_of_fault, status_of_worker, status_of_workers};

use crate::opening::{Start, begin};
use crate::outcome::Core;
use reql_memory::Refused;
use reql_net::{Door, Net, NetFault, Post};
use reql_outside::{Clock, Dice, Link};
use reql_planner::QueryPlanner;
use reql_query_session_spec::{
    answers_are_placed, changes_are_answered, feeds_are_read, feeds_are_told, first_refusal,
    looks_are_of_the_term, plans_are_told, server_is_told, sessions_hold,
};
use reql_serve::{Left, Many, WorkState, serve_many};
use reql_table_spec::{feeds_show_their_terms, table_laws};
use reql_words::{Command, command_of};
use std::alloc::Global;
use std::sync::Wait;
use std::thread::Threads;

/// How a server that listened ended.
#[derive(Drop)]
pub struct Heard<G: Door, D, T> {
    /// 0: it served as many sessions as it was told, or no client comes any more. 2: the words ask for
    /// no port. 3: the port can't be opened, or a worker could take no more clients from it. 8: memory
    /// was wanted, to begin with or by a worker for one more session.
    pub status: u8,
    /// The workers as they ended, with their sessions, and the hall with its whole histories. Err with
    /// the status 2, where the port can't be opened, and where memory was wanted to begin with: all the
    /// posts that the net gave, none of whose doors was asked.
    pub ended: Result<Many<Core, G>, Vec<Post<G, D, T>>>,
}

// Why no session of a port was served, and the posts that its net gave.
#[derive(Drop)]
struct NoneServed<G, D, T> {
    fault: NetFault,
    posts: Vec<Post<G, D, T>>,
}

// The status where no session of a port was served.
fn status_of_fault(fault: NetFault) -> u8
    ensures { result ≡ status_of_fault fault }
{
    match fault {
        NetFault::Failed => 3,
        NetFault::Memory => 8,
    }
}

fn status_of_worker(state: WorkState) -> u8
    ensures { result ≡ status_of_worker state }
{
    match state {
        WorkState::Memory => 8,
        WorkState::Failed => 3,
        WorkState::Ready | WorkState::Done | WorkState::Over => 0,
    }
}

fn greater(a: u8, b: u8) -> u8
    ensures { result ≡ greater a b }
{
    if a < b {
        return b;
    }
    a
}

// The greatest status of the workers.
fn status_of_workers<G: Door>(workers: &[Left<G>]) -> u8
    ensures { result ≡ status_of_workers (map (λ w. w.state) workers.now) }
{
    let mut status = 0;
    for worker in workers {
        status = greater(status, status_of_worker(worker.state));
    }
    status
}

/// Serves the sessions of these posts, up to so many, to who has the key or the password, with these tables from the start. So many threads
/// serve them, each its share of the posts, turn by turn. So many of the first posts begin when the others have ended. An `Err` hands the
/// posts back as they came.
pub fn serve_posts<R, G, D, T>(
    rt: &R,
    alloc: Global,
    key: &str,
    password: &str,
    tables: &[(&str, &str)],
    posts: Vec<Post<G, D, T>>,
    sessions: u64,
    threads: usize,
    later: usize,
) -> Result<Many<Core, G>, Refused<Vec<Post<G, D, T>>>>
where
    R: Threads + Wait + Sync,
    G: Door + Drop + Send,
    G::Link: Send,
    G::Watch: Send,
    <G::Link as Link>::Record: Drop + Send,
    D: Dice + Drop + Send,
    T: Clock + Drop + Send,
    ensures served { IfOk result (λ many. AreServed (state_of held_in) (λ n. n) G.Link.kept (keys_by key.now password.now) (map named tables.now)
        (map (λ p. outside (T.told p.clock) (D.told p.dice) (G.told p.door)) posts.items) sessions
        (map (λ w. at_end (G.told w.door) w.ended.items w.left w.state) many.workers.items) many.hall) }
    ensures back { IfErr result (λ refused. refused.back ≡ posts) }
{
    let Ok(start) = begin(alloc, key, password, tables) else {
        return Err(Refused { back: posts });
    };
    let Start {
        names,
        engines,
        plans,
    } = start;
    let planner = QueryPlanner::<Core>::new(plans);
    serve_many(
        rt, alloc, names, engines, &planner, posts, sessions, threads, later,
    )
}

// Serves the sessions that come to a port, so many at once, by so many workers. An `Err` hands back the posts that the net gave.
fn serve_port<R, N>(
    rt: &R,
    alloc: Global,
    key: &str,
    password: &str,
    tables: &[(&str, &str)],
    port: u16,
    workers: u32,
    clients: u32,
    sessions: u64,
    net: &mut N,
) -> Result<Many<Core, N::Door>, NoneServed<N::Door, N::Dice, N::Clock>>
where
    R: Threads + Wait + Sync,
    N: Net,
    N::Door: Drop + Send,
    <N::Door as Door>::Link: Send,
    <N::Door as Door>::Watch: Send,
    <<N::Door as Door>::Link as Link>::Record: Drop + Send,
    N::Dice: Drop + Send,
    N::Clock: Drop + Send,
    ensures came { IfOk result (λ many. ComesTo (state_of held_in) (λ n. n) N.Door.Link.kept port clients sessions
        (keys_by key.now password.now) (map named tables.now) (N.told net.old) (N.told net.new)
        (map (λ w. at_end (N.Door.told w.door) w.ended.items w.left w.state) many.workers.items) many.hall) }
    ensures none { IfErr result (λ none. ComesToNone (N.told net.old) (N.told net.new) port clients (length none.posts.items) none.fault) }
    ensures untouched { IfErr result (λ none. All (IsUntouched N.Door.told) none.posts.items) }
{
    let posts = match net.doors(alloc, port, clients) {
        Ok(posts) => posts,
        Err(fault) => {
            let posts = Vec::new(alloc);
            return Err(NoneServed { fault, posts });
        }
    };
    match serve_posts(
        rt,
        alloc,
        key,
        password,
        tables,
        posts,
        sessions,
        workers as usize,
        0,
    ) {
        Ok(many) => Ok(many),
        Err(refused) => Err(NoneServed {
            fault: NetFault::Memory,
            posts: refused.back,
        }),
    }
}

/// Serves clients that connect to a port of the net, with what the words ask for:
/// `listen [--port P] [--workers W] [--clients C] [--sessions S] [--quiet] [--key K] [--password P] [--table DB.NAME]..`,
/// its options in any order. C clients are served at once, by W workers, each a thread that serves its share of them turn by turn; and S
/// in all.
///
/// With other words the status is 2, and the net isn't asked. Where memory is wanted before a client is
/// served, the posts that the net gave come back, all of them and with untouched doors, so that nobody
/// was heard and nothing was said. What is proved of every session of these plans stands beside what
/// these did, as it does beside `run`.
pub fn listen<R, N>(
    rt: &R,
    alloc: Global,
    words: &[String],
    net: &mut N,
) -> Heard<N::Door, N::Dice, N::Clock>
where
    R: Threads + Wait + Sync,
    N: Net,
    N::Door: Drop + Send,
    <N::Door as Door>::Link: Send,
    <N::Door as Door>::Watch: Send,
    <<N::Door as Door>::Link as Link>::Record: Drop + Send,
    N::Dice: Drop + Send,
    N::Clock: Drop + Send,
    ensures listens { MatchResult result.ended
        (λ many. Listens (state_of held_in) (λ n. n) N.Door.Link.kept (asks (map string_bytes words.now))
        (N.told net.old) (N.told net.new) result.status
        (map (λ w. at_end (N.Door.told w.door) w.ended.items w.left w.state) many.workers.items) many.hall)
        (λ posts. Unheard (asks (map string_bytes words.now)) (N.told net.old) (N.told net.new) result.status (length posts.items)) }
    ensures untouched { IfErr result.ended (λ posts. All (IsUntouched N.Door.told) posts.items) }
    ensures in_order { AllInOrder }
    ensures frames_handled { AllFramesHandled }
    ensures login_rolls_first { AllLoginRollsFirst }
    ensures worn_late { AllWornLate }
    ensures first_failed { AllFirstFailed }
    ensures answered { AllAreAnswered }
    ensures waits_for_nothing { AllWaitForNothing }
    ensures valid_close { AllValidClose }
    ensures shape { ShapeRefusal }
    ensures first { FirstRefusal }
    ensures plans_are_told { PlansAreTold }
    ensures batches { BatchesAgree }
    ensures server { InfoIsServers }
    ensures feeds_hold { AllFeedsHold }
    ensures skips_are_sent { AllSkipsAreSent }
    ensures feeds_are_opened { AllFeedsAreOpened }
    ensures feeds_begin { AllFeedsBegin }
    ensures feeds_open { AllFeedsOpen }
    ensures feeds_close { AllFeedsEnd }
    ensures continues_are_answered { AllContinuesAreAnswered }
    ensures nothing_kept_back { AllNothingKeptBack }
    ensures all_is_sent { AllOfFeedsIsSent }
    ensures feeds_are_told { AllFeedsAreTold }
    ensures batches_are_of_feeds { AllBatchesAreOfFeeds }
    ensures batches_are_full { AllBatchesAreFull }
    ensures takes_are_of_feeds { AllTakesAreOfFeeds }
    ensures all_is_said { AllIsSaid }
    ensures feeds_are_read { AllFeedsAreRead }
    ensures feeds_are_theirs { AllFeedsAreTheirs }
    ensures feeds_in_turn { AllFeedsAreAskedInTurn }
    ensures no_other_feeds { AllRunNoOtherFeeds }
    ensures feeds_end { AllFeedsEndWithTheirOwn }
    ensures faulty_feeds { AllFaultyFeedsAreRefused }
    ensures crowded_feeds { AllCrowdedFeedsAreRefused }
    ensures next_feeds { AllNextFeedsAreRun }
    ensures open_feeds { AllOpenFeedsAreTold }
    ensures denied_feeds { AllDeniedFeedsAreClosed }
    ensures read_slots { ReadSlotsRise }
    ensures looks { AllReadSlotsAreLookedAt }
    ensures no_other_looks { AllLookAtNoOthers }
    ensures seen_slots { AllAreSeenAtTheirSlots }
    ensures seen_terms { AllTermsGoOnInWhatWasSeen }
    ensures seen_values { AllValuesAreOfWhatWasSeen }
    ensures dropped_tables { AllDroppedTablesAreTold }
    ensures documents { DocsAtStamp }
    ensures stamps { StampCounts }
    ensures feeds_come_and_go { FeedsComeAndGo }
    ensures unsubscribes_are_told { UnsubscribesAreTold }
    ensures shut_where_dropped { ShutWhereDropped }
    ensures looks_tell_the_table { LooksTellTheTable }
    ensures points { PointsShowTheirTerms }
    ensures ranges { RangesShowTheirTerms }
    ensures limits { LimitsShowTheirTerms }
    ensures arms_are_apart { AllArmsAreApart }
    ensures takes_are_placed { AllTakesArePlaced }
    ensures subscribes_are_placed { AllSubscribesArePlaced }
{
    first_refusal();
    plans_are_told();
    server_is_told();
    sessions_hold();
    feeds_are_read();
    feeds_are_told();
    changes_are_answered();
    looks_are_of_the_term();
    table_laws();
    feeds_show_their_terms();
    answers_are_placed();
    let Command::Listen {
        port,
        workers,
        clients,
        sessions,
        key,
        password,
        quiet: _,
        tables,
    } = command_of(words)
    else {
        return Heard {
            status: 2,
            ended: Err(Vec::new(alloc)),
        };
    };
    match serve_port(
        rt,
        alloc,
        key,
        password,
        tables.as_slice(),
        port,
        workers,
        clients,
        sessions,
        net,
    ) {
        Ok(many) => Heard {
            status: status_of_workers(&many.workers),
            ended: Ok(many),
        },
        Err(none) => Heard {
            status: status_of_fault(none.fault),
            ended: Err(none.posts),
        },
    }
}
