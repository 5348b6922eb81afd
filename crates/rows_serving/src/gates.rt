// Sessions that wait for one another: no server that serves them one after another comes to their ends.
use crate::gate_link::{GateRecord, Part};
use crate::gate_net::{GateDoor, GateNet};
use crate::pieces::{GREETED, GREETING, INSERT, with_frames, words_of};
use reql_outside::{MemClock, MemDice};
use reql_run::{Heard, listen};
use reql_serve::Member;
use reql_session_spec::End;
use std::alloc::Global;
use std::sync::atomic::AtomicU64;
use std::sync::{Arc, Wait};
use std::test::Fail;
use std::thread::Threads;

const CHANGES: &str = "[1,[152,[[15,[\"docs\"]]]]]";

const OPENED: &str = "{\"f\":[],\"n\":[1],\"r\":[],\"s\":{\"c\":0,\"t\":[[0,1,0]]},\"t\":3}";

const CONTINUE: &str = "[2]";

const INSERTED: &str =
    "{\"n\":[],\"r\":[{\"deleted\":0,\"errors\":0,\"inserted\":1,\"replaced\":0,\"skipped\":0,\"unchanged\":0}],\"s\":{\"c\":0,\"t\":[[0,2,1]]},\"t\":1}";

const CHANGED: &str =
    "{\"f\":[1],\"n\":[1],\"r\":[{\"new_val\":{\"id\":1,\"n\":5},\"old_val\":null}],\"s\":{\"c\":0,\"t\":[[0,3,1]]},\"t\":3}";

// How many of these sessions ended between two requests, and with their answers sent.
fn closed(ended: &[Member<GateRecord>]) -> u64 {
    let mut count: u64 = 0;
    for member in ended {
        if member.served.end == End::Closed && member.served.tape.answered {
            count = count.saturating_add(1);
        }
    }
    count
}

// The same, of all sessions.
fn all_closed(heard: &Heard<GateDoor, MemDice, MemClock>) -> u64 {
    let Ok(many) = &heard.ended else {
        return 0;
    };
    let mut count: u64 = 0;
    for worker in &many.workers {
        count = count.saturating_add(closed(&worker.ended));
    }
    count
}

// Serves so many clients at once, by so many workers: the status, and how many sessions were closed.
fn serve<R: Threads + Wait + Sync>(
    rt: &R,
    alloc: Global,
    workers: &str,
    clients: &str,
    parts: Vec<Part>,
) -> Result<(u8, u64), Fail> {
    let words = words_of(
        alloc,
        &[
            "listen",
            "--port",
            "1",
            "--workers",
            workers,
            "--clients",
            clients,
            "--sessions",
            clients,
            "--table",
            "test.docs",
        ],
    )?;
    let mut net = GateNet::new(parts);
    let heard = listen(rt, alloc, &words, &mut net);
    Ok((heard.status, all_closed(&heard)))
}

// Four clients, each of whom ends when all of them were greeted.
fn greeted(alloc: Global) -> Result<Vec<Part>, Fail> {
    let met = Arc::new(alloc, AtomicU64::new(0))?;
    let mut parts = Vec::new(alloc);
    for _ in 0..4u32 {
        parts.push(Part {
            first: GREETING.to_vec(alloc)?,
            then: Vec::new(alloc),
            answers: GREETED.to_vec(alloc)?,
            meets_at: GREETED.len(),
            has_met: false,
            clients: 4,
            met: Arc::try_clone(&met)?,
        })?;
    }
    Ok(parts)
}

#[test]
fn gate_listen(rt: HostRuntime) -> Result<(), Fail> {
    let alloc = rt.alloc();
    let parts = greeted(alloc)?;
    assert_eq!(rt; serve(&rt, alloc, "4", "4", parts)?, (0, 4));
    Ok(())
}

// On two threads, each of which has two of the clients.
#[test]
fn gate_shared_threads(rt: HostRuntime) -> Result<(), Fail> {
    let alloc = rt.alloc();
    let parts = greeted(alloc)?;
    assert_eq!(rt; serve(&rt, alloc, "2", "4", parts)?, (0, 4));
    Ok(())
}

// One of two clients opens a feed, and waits for its first change.
fn reader(alloc: Global, met: Arc<AtomicU64, Global>) -> Result<Part, Fail> {
    let opens = with_frames(alloc, GREETING, &[CHANGES])?;
    let opened = with_frames(alloc, GREETED, &[OPENED])?;
    Ok(Part {
        first: with_frames(alloc, &opens, &[CONTINUE])?,
        then: Vec::new(alloc),
        answers: with_frames(alloc, &opened, &[CHANGED])?,
        meets_at: opened.len(),
        has_met: false,
        clients: 2,
        met,
    })
}

// The other one inserts a document when the first waits.
fn writer(alloc: Global, met: Arc<AtomicU64, Global>) -> Result<Part, Fail> {
    Ok(Part {
        first: GREETING.to_vec(alloc)?,
        then: with_frames(alloc, &[], &[INSERT])?,
        answers: with_frames(alloc, GREETED, &[INSERTED])?,
        meets_at: GREETED.len(),
        has_met: false,
        clients: 2,
        met,
    })
}

// Both of them.
fn both(alloc: Global) -> Result<Vec<Part>, Fail> {
    let met = Arc::new(alloc, AtomicU64::new(0))?;
    let mut parts = Vec::new(alloc);
    parts.push(reader(alloc, Arc::try_clone(&met)?)?)?;
    parts.push(writer(alloc, met)?)?;
    Ok(parts)
}

// Over `listen`, which serves its seats by `serve_all`.
#[test]
fn gate_two_sessions(rt: HostRuntime) -> Result<(), Fail> {
    let alloc = rt.alloc();
    let parts = both(alloc)?;
    assert_eq!(rt; serve(&rt, alloc, "2", "2", parts)?, (0, 2));
    Ok(())
}

// The same on one thread.
#[test]
fn gate_one_thread(rt: HostRuntime) -> Result<(), Fail> {
    let alloc = rt.alloc();
    let parts = both(alloc)?;
    assert_eq!(rt; serve(&rt, alloc, "1", "2", parts)?, (0, 2));
    Ok(())
}
