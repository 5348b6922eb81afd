// A load, from its words to what it prints.
ghost use Rattle.std.specs.Prelude.{◌<◌, length, map, string_bytes, IfOk, IfSome, MatchOption};
ghost use Rattle.reql_words.specs.Words.{asks};
ghost use Rattle.reql_core.specs.Core.{state_of};
ghost use Rattle.reql_open_feed.specs.Open.{held_in};
ghost use Rattle.reql_query_session_spec.specs.Laws.{AllInOrder, AllFramesHandled, AllLoginRollsFirst, AllWornLate, AllFirstFailed, AllAreAnswered, AllWaitForNothing, AllValidClose, AllFeedsHold, AllSkipsAreSent, AllFeedsAreRead, AllFeedsAreTheirs, AllFeedsAreOpened, AllFeedsBegin, AllFeedsOpen, AllFeedsEnd, AllContinuesAreAnswered, AllNothingKeptBack, AllOfFeedsIsSent, AllFeedsAreTold, AllBatchesAreOfFeeds, AllBatchesAreFull, AllTakesAreOfFeeds, AllIsSaid, AllArmsAreApart, AllTakesArePlaced, AllSubscribesArePlaced};
ghost use Rattle.reql_serve.specs.Many.{at_end};
ghost use Rattle.reql_loading.specs.Loading.{IsServed, Loads, Prints, Reports, Unloaded};

use crate::posts::{SESSIONS, posts};
use crate::printing::lines;
use crate::whole::are_whole;
use reql_memory::Memory;
use reql_net::MemDoor;
use reql_outside::{Put, Sink};
use reql_query_session_spec::{answers_are_placed, feeds_are_read, feeds_are_told, sessions_hold};
use reql_run::{Core, serve_posts};
use reql_serve::Many;
use reql_table_spec::Limits;
use reql_tally::tally_history;
use reql_words::{Command, command_of};
use std::alloc::Global;
use std::sync::Wait;
use std::thread::Threads;

/// How a load ended.
#[derive(Drop)]
pub struct Loaded {
    /// 0: what the sessions left was counted, and printed. 2: the words ask for no load. 5: the sink
    /// failed. 8: memory was wanted, by a session or to count; a session was not served whole; or the
    /// table was dropped, or its first entries are no longer kept.
    pub status: u8,
    /// The sessions, by the desks at which they were served, and the hall with its whole histories.
    /// None with the status 2, and where memory was wanted to begin with.
    pub ended: Option<Many<Core, MemDoor>>,
}

// Serves the sessions of a load, each by a thread of its own. The four that write begin when the one that makes their index has ended.
fn serve_load<R>(rt: &R, alloc: Global, seed: u32, size: u32) -> Result<Many<Core, MemDoor>, Memory>
where
    R: Threads + Wait + Sync,
    ensures { IfOk result (λ many. IsServed (state_of held_in) (λ n. n)
        (map (λ w. at_end w.door.told w.ended.items w.left w.state) many.workers.items) many.hall) }
{
    let posts = posts(alloc, seed, size)?;
    let sessions = SESSIONS as u64;
    let threads = SESSIONS as usize;
    let many = serve_posts(
        rt,
        alloc,
        "",
        "",
        &[("test", "load")],
        posts,
        sessions,
        threads,
        4,
    )?;
    Ok(many)
}

// What is printed of a load; nothing where a session was not served whole, or more was done than is kept.
fn report(
    alloc: Global,
    seed: u32,
    size: u32,
    many: &Many<Core, MemDoor>,
) -> Result<Option<String>, Memory>
    requires { 0 < length many.now.hall.slots }
    ensures { IfOk result (λ r. IfSome r (λ text. Reports (state_of held_in) (λ c. c.tail) seed size
        (map (λ w. w.ended.items) many.now.workers.items) many.now.hall (string_bytes text))) }
{
    if !are_whole(alloc, seed, size, &many.workers)? {
        return Ok(None);
    }
    let limits = Limits::usual();
    match tally_history(alloc, many.hall.engine(0), &limits)? {
        Some(tally) => Ok(Some(lines(alloc, &tally)?)),
        None => Ok(None),
    }
}

// Prints what a load left. The status.
fn print<K: Sink>(
    alloc: Global,
    seed: u32,
    size: u32,
    many: &Many<Core, MemDoor>,
    out: &mut K,
) -> u8
    requires { 0 < length many.now.hall.slots }
    ensures { Prints (state_of held_in) (λ c. c.tail) seed size (map (λ w. w.ended.items) many.now.workers.items)
        many.now.hall (K.told out.old) (K.told out.new) result }
{
    match report(alloc, seed, size, many) {
        Ok(Some(text)) => match out.put(text.as_bytes()) {
            Put::Done => 0,
            Put::Failed => 5,
        },
        Ok(None) => 8,
        Err(Memory) => 8,
    }
}

/// Serves the load that the words ask for, `load SEED SIZE`, and prints what it left. Over a table with an
/// index, four sessions at once insert SIZE documents, update and delete some, and follow them with
/// feeds. Then four lines are printed: `documents`, how many the table has; `changes`, how many were made;
/// `feeds`, how many were opened; and `folds`, how many of these were sent changes that lead from what they
/// opened with to what their query gives.
///
/// With other words the status is 2, and nothing is served or printed. What is proved of every session of these plans
/// stands beside what these did: its input is handled in order, every whole frame of it, but for a failed send, too few
/// turns or want of memory; each frame that wants an answer is given just one, but for a CONTINUE that waits and after a
/// failed send, and one waits only where its feed gave nothing in that very turn; a session ends with its first failed
/// send; and every feed that it opened is its own term's, follows something, is told its plan's first items and then what
/// its Takes give, and folds to the value of its query up to where its answers are whole; no open feed has
/// an arm twice, and no two share one; and each Take and each Subscribe that is answered is answered as its table says at its
/// place. The clauses on refusals and plans, on what a plan looks at, on what the server tells, on which feeds a CHANGES asks
/// for and what it comes to, on which feeds a table has open and what a look at it tells, and on the values of feeds stand
/// beside `run` of `reql_run`.
pub fn load<R, K: Sink>(rt: &R, alloc: Global, words: &[String], out: &mut K) -> Loaded
where
    R: Threads + Wait + Sync,
    ensures loads { MatchOption result.ended
        (Unloaded (asks (map string_bytes words.now)) (K.told out.old) (K.told out.new) result.status)
        (λ many. Loads (state_of held_in) (λ n. n) (λ c. c.tail)
        (asks (map string_bytes words.now)) (K.told out.old) (K.told out.new) result.status
        (map (λ w. at_end w.door.told w.ended.items w.left w.state) many.workers.items) many.hall) }
    ensures in_order { AllInOrder }
    ensures frames_handled { AllFramesHandled }
    ensures login_rolls_first { AllLoginRollsFirst }
    ensures worn_late { AllWornLate }
    ensures first_failed { AllFirstFailed }
    ensures answered { AllAreAnswered }
    ensures waits_for_nothing { AllWaitForNothing }
    ensures valid_close { AllValidClose }
    ensures feeds_hold { AllFeedsHold }
    ensures skips_are_sent { AllSkipsAreSent }
    ensures feeds_are_opened { AllFeedsAreOpened }
    ensures feeds_begin { AllFeedsBegin }
    ensures feeds_open { AllFeedsOpen }
    ensures feeds_close { AllFeedsEnd }
    ensures continues_are_answered { AllContinuesAreAnswered }
    ensures nothing_kept_back { AllNothingKeptBack }
    ensures all_is_sent { AllOfFeedsIsSent }
    ensures feeds_are_told { AllFeedsAreTold }
    ensures batches_are_of_feeds { AllBatchesAreOfFeeds }
    ensures batches_are_full { AllBatchesAreFull }
    ensures takes_are_of_feeds { AllTakesAreOfFeeds }
    ensures all_is_said { AllIsSaid }
    ensures feeds_are_read { AllFeedsAreRead }
    ensures feeds_are_theirs { AllFeedsAreTheirs }
    ensures arms_are_apart { AllArmsAreApart }
    ensures takes_are_placed { AllTakesArePlaced }
    ensures subscribes_are_placed { AllSubscribesArePlaced }
{
    sessions_hold();
    feeds_are_read();
    feeds_are_told();
    answers_are_placed();
    let Command::Load { seed, size } = command_of(words) else {
        return Loaded {
            status: 2,
            ended: None,
        };
    };
    match serve_load(rt, alloc, seed, size) {
        Ok(many) => Loaded {
            status: print(alloc, seed, size, &many, out),
            ended: Some(many),
        },
        Err(Memory) => Loaded {
            status: 8,
            ended: None,
        },
    }
}
