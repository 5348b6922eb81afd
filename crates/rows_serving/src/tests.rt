ghost use Rattle.std.specs.Prelude.{IfOk};
ghost use Rattle.reql_outside.specs.Tape.{IsFresh};

use crate::pieces::{GREETED, GREETING, INSERT, with_frames, words_of};
use reql_net::{MemDoor, MemNet, Post};
use reql_outside::{LinkStep, MemClock, MemDice, MemLink, MemRecord};
use reql_run::{Heard, Outcome, listen, run};
use reql_serve::Member;
use std::alloc::Global;
use std::process::Abort;
use std::sync::Wait;
use std::test::Fail;

const INSERTED: &str =
    "{\"n\":[],\"r\":[{\"deleted\":0,\"errors\":0,\"inserted\":1,\"replaced\":0,\"skipped\":0,\"unchanged\":0}],\"s\":{\"c\":0,\"t\":[[0,1,1]]},\"t\":1}";

const GET: &str = "[1,[16,[[15,[\"docs\"]],1]]]";

const GOT: &str = "{\"n\":[],\"r\":[{\"id\":1,\"n\":5}],\"s\":{\"c\":0,\"t\":[[0,1,1]]},\"t\":1}";

// Two documents without keys, the moment, and the documents in the order of their numbers.
const MADE: [&str; 3] = [
    "[1,[56,[[15,[\"docs\"]],[2,[{\"n\":1},{\"n\":2}]]]]]",
    "[1,[103]]",
    "[1,[41,[[15,[\"docs\"]],\"n\"]]]",
];

const KEYED: [&str; 3] = [
    "{\"n\":[],\"r\":[{\"deleted\":0,\"errors\":0,\"generated_keys\":[\"00010203-0405-4607-8809-0a0b0c0d0e0f\",\"10111213-1415-4617-9819-1a1b1c1d1e1f\"],\"inserted\":2,\"replaced\":0,\"skipped\":0,\"unchanged\":0}],\"s\":{\"c\":0,\"t\":[[0,1,2]]},\"t\":1}",
    "{\"n\":[],\"r\":[{\"$reql_type$\":\"TIME\",\"epoch_time\":1700000000,\"timezone\":\"+00:00\"}],\"s\":{\"c\":0,\"t\":[]},\"t\":1}",
    "{\"n\":[],\"r\":[[{\"id\":\"00010203-0405-4607-8809-0a0b0c0d0e0f\",\"n\":1},{\"id\":\"10111213-1415-4617-9819-1a1b1c1d1e1f\",\"n\":2}]],\"s\":{\"c\":0,\"t\":[[0,1,2]]},\"t\":1}",
];

const UNKEYED: [&str; 3] = [
    "{\"b\":[],\"e\":4100000,\"r\":[\"Random source failed.\"],\"s\":{\"c\":0,\"t\":[]},\"t\":18}",
    "{\"b\":[],\"e\":4100000,\"r\":[\"Clock failed.\"],\"s\":{\"c\":0,\"t\":[]},\"t\":18}",
    "{\"n\":[],\"r\":[[]],\"s\":{\"c\":0,\"t\":[[0,0,0]]},\"t\":1}",
];

// Whether the session was sent this.
fn was_sent(outcome: &Outcome<MemLink>, sent: &[u8]) -> bool {
    match &outcome.ended {
        Ok(ended) => ended.session.tape.sent.as_slice() == sent,
        Err(_) => false,
    }
}

// Serves a session on the table `docs`, and says how it has to end and what has to be sent.
fn expect<R: Wait + Abort>(
    rt: &R,
    alloc: Global,
    link: MemLink,
    dice: MemDice,
    clock: MemClock,
    status: u8,
    sent: &[u8],
) -> Result<(), Fail>
    requires fresh { IsFresh link.tape }
{
    let words = words_of(alloc, &["stdio", "--table", "test.docs"])?;
    let outcome = run(rt, alloc, &words, link, dice, clock);
    let told = (outcome.status, was_sent(&outcome, sent));
    assert_eq!(rt; told, (status, true));
    Ok(())
}

// The same, where neither dice nor clock are asked.
fn expect_unasked<R: Wait + Abort>(
    rt: &R,
    alloc: Global,
    link: MemLink,
    status: u8,
    sent: &[u8],
) -> Result<(), Fail>
    requires fresh { IsFresh link.tape }
{
    let dice = MemDice::new(Vec::new(alloc), Vec::new(alloc));
    let clock = MemClock::new(Vec::new(alloc), Vec::new(alloc));
    expect(rt, alloc, link, dice, clock, status, sent)
}

// A link that gives the input a byte at a time, and takes a byte a send; the k-th receive or send fails.
fn faulty(alloc: Global, input: &[u8], recv: usize, send: u64) -> Result<MemLink, Fail>
    ensures fresh { IfOk result (λ link. IsFresh link.tape) }
{
    let mut script = Vec::new(alloc);
    for (place, byte) in input.iter().enumerate() {
        if place == recv {
            script.push(LinkStep::Fail)?;
        }
        script.push(LinkStep::Give([*byte].to_vec(alloc)?))?;
        script.push(LinkStep::Idle)?;
    }
    if input.len() == recv {
        script.push(LinkStep::Fail)?;
    }
    let mut fails = Vec::new(alloc);
    fails.push(send)?;
    Ok(MemLink::slow(alloc, script, fails, 1))
}

#[test]
fn every_fault_of_the_link_ends_the_session_with_the_answers_before_it(
    rt: HostRuntime,
) -> Result<(), Fail> {
    let alloc = rt.alloc();
    let input = with_frames(alloc, GREETING, &[INSERT, GET])?;
    let output = with_frames(alloc, GREETED, &[INSERTED, GOT])?;
    let inserted = with_frames(alloc, GREETED, &[INSERTED])?.len();
    let after_insert = with_frames(alloc, GREETING, &[INSERT])?.len();
    let told = [
        (0, 0),
        (11, 0),
        (12, 8),
        (after_insert.saturating_sub(1), 8),
        (after_insert, inserted),
        (input.len().saturating_sub(1), inserted),
        (input.len(), output.len()),
    ];
    for (recv, sent) in told {
        assert!(rt; sent <= output.len());
        let link = faulty(alloc, &input, recv, u64::MAX)?;
        expect_unasked(&rt, alloc, link, 4, &output[..sent])?;
    }
    for send in [0, 7, 8, 20, inserted, output.len().saturating_sub(1)] {
        assert!(rt; send <= output.len());
        let link = faulty(alloc, &input, usize::MAX, send as u64)?;
        expect_unasked(&rt, alloc, link, 5, &output[..send])?;
    }
    let link = faulty(alloc, &input, usize::MAX, u64::MAX)?;
    expect_unasked(&rt, alloc, link, 0, &output)
}

// A link that gives all of this at once.
fn at_once(alloc: Global, input: Vec<u8>) -> Result<MemLink, Fail>
    ensures fresh { IfOk result (λ link. IsFresh link.tape) }
{
    let mut script = Vec::new(alloc);
    script.push(LinkStep::Give(input))?;
    Ok(MemLink::new(alloc, script, Vec::new(alloc)))
}

const ROLLS: [[u8; 16]; 2] = [
    [0, 1, 2, 3, 4, 5, 6, 7, 8, 9, 10, 11, 12, 13, 14, 15],
    [
        16, 17, 18, 19, 20, 21, 22, 23, 24, 25, 26, 27, 28, 29, 30, 31,
    ],
];

// Makes two documents and asks for the moment, where these calls of the dice and of the clock fail.
fn expect_made<R: Wait + Abort>(
    rt: &R,
    alloc: Global,
    no_rolls: &[u64],
    no_moments: &[u64],
    answers: &[&str],
) -> Result<(), Fail> {
    let sent = with_frames(alloc, GREETED, answers)?;
    let rolls = ROLLS.to_vec(alloc)?;
    let no_rolls = no_rolls.to_vec(alloc)?;
    let moments = [1_700_000_000].to_vec(alloc)?;
    let no_moments = no_moments.to_vec(alloc)?;
    let link = at_once(alloc, with_frames(alloc, GREETING, &MADE)?)?;
    let dice = MemDice::new(rolls, no_rolls);
    let clock = MemClock::new(moments, no_moments);
    expect(rt, alloc, link, dice, clock, 0, &sent)
}

#[test]
fn keys_and_the_moment_are_those_of_dice_and_clock(rt: HostRuntime) -> Result<(), Fail> {
    let alloc = rt.alloc();
    expect_made(&rt, alloc, &[], &[], &KEYED)?;
    expect_made(&rt, alloc, &[1], &[0], &UNKEYED)
}

// A net with one post, whose door gives this link alone; the first call fails where it says so.
fn net_of(alloc: Global, link: MemLink, fails: &[u64]) -> Result<MemNet, Fail>
    requires fresh { IsFresh link.tape }
{
    let door = MemDoor::new(vec![in alloc; link]?, Vec::new(alloc));
    let dice = MemDice::new(Vec::new(alloc), Vec::new(alloc));
    let clock = MemClock::new(Vec::new(alloc), Vec::new(alloc));
    let posts = vec![in alloc; Post { door, dice, clock }]?;
    Ok(MemNet::new(posts, fails.to_vec(alloc)?))
}

const LISTEN: [&str; 11] = [
    "listen",
    "--port",
    "1",
    "--workers",
    "1",
    "--clients",
    "1",
    "--sessions",
    "1",
    "--table",
    "test.docs",
];

// How many sessions were sent this.
fn sent_by(ended: &[Member<MemRecord>], sent: &[u8]) -> u64 {
    let mut count: u64 = 0;
    for member in ended {
        if member.served.tape.sent.as_slice() == sent {
            count = count.saturating_add(1);
        }
    }
    count
}

// The same, of all seats.
fn all_sent(heard: &Heard<MemDoor, MemDice, MemClock>, sent: &[u8]) -> u64 {
    let Ok(many) = &heard.ended else {
        return 0;
    };
    let mut count: u64 = 0;
    for worker in &many.workers {
        count = count.saturating_add(sent_by(&worker.ended, sent));
    }
    count
}

#[test]
fn a_session_that_a_door_gives_is_served(rt: HostRuntime) -> Result<(), Fail> {
    let alloc = rt.alloc();
    let words = words_of(alloc, &LISTEN)?;
    let sent = with_frames(alloc, GREETED, &[INSERTED, GOT])?;
    let link = at_once(alloc, with_frames(alloc, GREETING, &[INSERT, GET])?)?;
    let mut net = net_of(alloc, link, &[])?;
    let heard = listen(&rt, alloc, &words, &mut net);
    let told = (heard.status, all_sent(&heard, &sent));
    assert_eq!(rt; told, (0, 1));
    Ok(())
}

#[test]
fn a_net_that_fails_is_status_3(rt: HostRuntime) -> Result<(), Fail> {
    let alloc = rt.alloc();
    let words = words_of(alloc, &LISTEN)?;
    let link = at_once(alloc, Vec::new(alloc))?;
    let mut net = net_of(alloc, link, &[0])?;
    let heard = listen(&rt, alloc, &words, &mut net);
    let told = (heard.status, heard.ended.is_err());
    assert_eq!(rt; told, (3, true));
    Ok(())
}
