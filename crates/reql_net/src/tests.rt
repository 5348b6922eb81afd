ghost use Rattle.std.specs.Prelude.{◌≡◌, IfOk};
ghost use Rattle.reql_net.specs.Doors.{untouched};

use crate::outbox::STILL_SECONDS;
use crate::pace::{GREETING_SECONDS, REST_SECONDS};
use crate::{
    Accept, Door, MemDoor, MemNet, Net, NetFault, Post, TcpDoor, TcpLink, TcpNet, TcpWatch, Watch,
};
use reql_outside::{Expected, Link, MemClock, MemDice, MemLink, Recv, send_all};
use std::alloc::Global;
use std::io::{Read, Write};
use std::net::TcpStream;
use std::test::Fail;
use std::thread::{self, join};
use std::time::{Duration, Instant};

const TABLE: u32 = 7;

// The door of a net over TCP that has one.
fn one_door(rt: HostRuntime) -> Result<TcpDoor, Fail> {
    let mut net = TcpNet::new(rt, None)?;
    match net.doors(rt.alloc(), 0, 1) {
        Ok(mut posts) => match posts.pop() {
            Some(
                Post {
                    door,
                    dice: _,
                    clock: _,
                },
            ) => Ok(door),
            None => Err(Fail::new("no post")),
        },
        Err(_) => Err(Fail::new("no posts")),
    }
}

fn connected(rt: &HostRuntime, door: &TcpDoor) -> Result<TcpStream, Fail> {
    Ok(TcpStream::connect(rt, ("127.0.0.1", door.port()?))?)
}

fn accepted(door: &mut TcpDoor) -> Result<TcpLink, Fail> {
    match door.accept() {
        Accept::Link(link) => Ok(link),
        Accept::Idle | Accept::End | Accept::Failed => Err(Fail::new("no link")),
    }
}

// A link that a door gave, and its client.
fn joined(rt: &HostRuntime, door: &mut TcpDoor) -> Result<(TcpLink, TcpStream), Fail> {
    let client = connected(rt, door)?;
    let link = accepted(door)?;
    Ok((link, client))
}

// Receives until something else than Idle comes: how often it was idle before.
fn idles(link: &mut TcpLink, waits: bool) -> (u32, Recv) {
    let mut buf = [0u8; 16];
    for n in 0..1000 {
        if waits {
            link.awaits(TABLE);
        }
        match link.recv(&mut buf) {
            Recv::Idle => {}
            other => return (n, other),
        }
    }
    (1000, Recv::Idle)
}

#[test]
fn two_links_are_served_from_two_threads(rt: HostRuntime) -> Result<(), Fail> {
    let mut door = one_door(rt)?;
    let (mut one, mut first) = joined(&rt, &mut door)?;
    let (mut other, mut second) = joined(&rt, &mut door)?;
    first.write(b"ab")?;
    second.write(b"abc")?;
    let (a, b) = join(
        &rt,
        || idles(&mut one, true).1,
        || idles(&mut other, false).1,
    );
    assert_eq!(rt; (a, b), (Recv::Got(2), Recv::Got(3)));
    assert!(rt; send_all(&mut one, b"answer"));
    let mut buf = [0u8; 16];
    assert_eq!(rt; first.read(&mut buf)?, 6);
    drop(first);
    drop(second);
    let ends = (idles(&mut one, true).1, idles(&mut other, false).1);
    assert_eq!(rt; ends, (Recv::End, Recv::End));
    let record = one.finish();
    assert_eq!(rt;
        (record.over, record.faults_in, record.faults_out),
        (true, 0, 0)
    );
    Ok(())
}

// A watch over so many places, which were all asked once.
fn watch_of(rt: &HostRuntime, door: &TcpDoor, places: usize) -> Result<TcpWatch, Fail> {
    let Some(mut watch) = door.watch(rt.alloc(), places) else {
        return Err(Fail::new("no watch"));
    };
    for _ in 0..places {
        watch.called(None);
    }
    Ok(watch)
}

// The place that has something to do soon.
fn soon(watch: &mut TcpWatch) -> Option<usize> {
    watch.called(Some(Duration::from_millis(30)))
}

// Whether the place that is called is this one and wakes, and what is heard there in one turn.
fn heard(watch: &mut TcpWatch, place: usize, link: &mut TcpLink) -> Option<Recv> {
    if soon(watch) != Some(place) || !watch.wakes(place, link) {
        return None;
    }
    let came = link.recv(&mut [0u8; 16]);
    watch.rests(place, link);
    Some(came)
}

#[test]
fn a_watch_calls_the_place_that_has_something_to_do(rt: HostRuntime) -> Result<(), Fail> {
    let mut door = one_door(rt)?;
    let mut watch = watch_of(&rt, &door, 2)?;
    assert!(rt; matches!(door.accept(), Accept::Idle));
    watch.passes(0);
    assert_eq!(rt; soon(&mut watch), None);
    // a place is asked for each client
    let mut first = connected(&rt, &door)?;
    assert_eq!(rt; soon(&mut watch), Some(0));
    let mut one = accepted(&mut door)?;
    watch.enters(0, &one);
    let second = connected(&rt, &door)?;
    assert_eq!(rt; soon(&mut watch), Some(1));
    let mut other = accepted(&mut door)?;
    watch.enters(1, &other);
    // links at which nothing comes are left alone
    assert_eq!(rt; soon(&mut watch), None);
    first.write(b"ab")?;
    let turns = (
        heard(&mut watch, 0, &mut one),
        heard(&mut watch, 0, &mut one),
        soon(&mut watch),
    );
    assert_eq!(rt; turns, (Some(Recv::Got(2)), Some(Recv::Idle), None));
    drop(second);
    assert_eq!(rt; heard(&mut watch, 1, &mut other), Some(Recv::End));
    drop(first);
    Ok(())
}

#[test]
fn a_ring_calls_the_place_that_waits_for_it(rt: HostRuntime) -> Result<(), Fail> {
    let mut door = one_door(rt)?;
    let mut watch = watch_of(&rt, &door, 2)?;
    let (mut one, first) = joined(&rt, &mut door)?;
    watch.enters(0, &one);
    let (mut other, second) = joined(&rt, &mut door)?;
    watch.enters(1, &other);
    let _ = soon(&mut watch);
    for _ in 0..100 {
        other.awaits(TABLE);
        watch.rests(1, &other);
        // a change of another table isn't heard
        one.changed(TABLE + 1);
        one.changed(TABLE);
        assert_eq!(rt; heard(&mut watch, 1, &mut other), Some(Recv::Idle));
    }
    // it waits no more
    one.changed(TABLE);
    assert_eq!(rt; soon(&mut watch), None);
    drop((first, second));
    Ok(())
}

#[test]
fn a_ring_ends_the_wait_of_another_thread(rt: HostRuntime) -> Result<(), Fail> {
    let mut door = one_door(rt)?;
    let mut watch = watch_of(&rt, &door, 1)?;
    let (mut one, first) = joined(&rt, &mut door)?;
    watch.enters(0, &one);
    let (mut other, second) = joined(&rt, &mut door)?;
    let _ = soon(&mut watch);
    one.awaits(TABLE);
    watch.rests(0, &one);
    let (called, ()) = join(
        &rt,
        || watch.called(Some(Duration::from_secs(5))),
        || {
            thread::sleep(&rt, Duration::from_millis(50));
            other.changed(TABLE);
        },
    );
    assert_eq!(rt; called, Some(0));
    drop((first, second));
    Ok(())
}

#[test]
fn a_client_beyond_the_last_place_is_turned_away(rt: HostRuntime) -> Result<(), Fail> {
    let mut door = one_door(rt)?;
    let mut watch = watch_of(&rt, &door, 1)?;
    let (one, first) = joined(&rt, &mut door)?;
    watch.enters(0, &one);
    let mut further = connected(&rt, &door)?;
    assert_eq!(rt; soon(&mut watch), None);
    assert_eq!(rt; further.read(&mut [0u8; 16])?, 0);
    drop(first);
    Ok(())
}

// Sends until something waits for the client: how many bytes.
fn fill(link: &mut TcpLink, piece: &[u8]) -> usize {
    let mut sent: usize = 0;
    for _ in 0..100 {
        if !link.is_blocked() && send_all(link, piece) {
            sent = sent.saturating_add(piece.len());
        }
    }
    sent
}

// The client takes so many bytes, and the watch calls the place of its link meanwhile.
fn take(client: &mut TcpStream, watch: &mut TcpWatch, link: &mut TcpLink, sent: usize) -> usize {
    let mut buf = [0u8; 65_536];
    let mut taken: usize = 0;
    for _ in 0..100_000 {
        if taken >= sent {
            return taken;
        }
        if let Ok(n) = client.read(&mut buf) {
            taken = taken.saturating_add(n);
        }
        if let Some(place) = watch.called(Some(Duration::ZERO)) {
            watch.wakes(place, link);
        }
    }
    taken
}

// What a link gives whose client has taken nothing for too long, once the system takes nothing more either.
fn given_up(
    rt: &HostRuntime,
    watch: &mut TcpWatch,
    link: &mut TcpLink,
    piece: &[u8],
) -> Result<Option<Recv>, Fail> {
    for _ in 0..100 {
        fill(link, piece);
        if let Some(then) = Instant::now(rt)?.checked_sub(Duration::from_secs(STILL_SECONDS)) {
            link.outbox.since = then;
        }
        watch.rests(0, link);
        if let Some(came) = heard(watch, 0, link) {
            return Ok(Some(came));
        }
    }
    Ok(None)
}

#[test]
fn what_a_client_does_not_take_waits_for_it(rt: HostRuntime) -> Result<(), Fail> {
    let alloc = rt.alloc();
    let mut door = one_door(rt)?;
    let mut watch = watch_of(&rt, &door, 1)?;
    let (mut link, mut client) = joined(&rt, &mut door)?;
    watch.enters(0, &link);
    let piece = vec![in alloc; 7u8; 1_048_576]?;
    let sent = fill(&mut link, &piece);
    watch.rests(0, &link);
    assert_eq!(rt; (link.is_blocked(), soon(&mut watch)), (true, None));
    client.set_read_timeout(Some(Duration::from_millis(30)))?;
    let taken = take(&mut client, &mut watch, &mut link, sent);
    assert_eq!(rt; (taken, link.is_blocked()), (sent, false));
    assert_eq!(rt;
        given_up(&rt, &mut watch, &mut link, &piece)?,
        Some(Recv::Failed)
    );
    assert!(rt; link.finish().unsent);
    Ok(())
}

#[test]
fn a_place_is_called_when_its_client_took_too_long(rt: HostRuntime) -> Result<(), Fail> {
    let mut door = one_door(rt)?;
    let mut watch = watch_of(&rt, &door, 1)?;
    let (mut link, client) = joined(&rt, &mut door)?;
    watch.enters(0, &link);
    let _ = soon(&mut watch);
    if let Some(then) = Instant::now(&rt)?.checked_sub(Duration::from_secs(GREETING_SECONDS)) {
        link.pace.since = then;
    }
    watch.rests(0, &link);
    assert_eq!(rt; heard(&mut watch, 0, &mut link), Some(Recv::End));
    drop(client);
    Ok(())
}

// What a link gives whose client has owed what it owes for so many seconds.
fn owed_for(rt: &HostRuntime, link: &mut TcpLink, seconds: u64) -> Result<Recv, Fail> {
    let now = Instant::now(rt)?;
    if let Some(then) = now.checked_sub(Duration::from_secs(seconds)) {
        link.pace.since = then;
    }
    Ok(link.recv(&mut [0u8; 16]))
}

#[test]
fn a_client_that_is_slow_to_greet_is_given_up(rt: HostRuntime) -> Result<(), Fail> {
    let mut door = one_door(rt)?;
    let (mut one, mut slow) = joined(&rt, &mut door)?;
    let early = owed_for(&rt, &mut one, GREETING_SECONDS - 1)?;
    // a byte of the greeting gives no more time
    slow.write(b"a")?;
    let said = owed_for(&rt, &mut one, GREETING_SECONDS - 1)?;
    let late = owed_for(&rt, &mut one, GREETING_SECONDS)?;
    assert_eq!(rt; (early, said, late), (Recv::Idle, Recv::Got(1), Recv::End));
    assert_eq!(rt; one.recv(&mut [0u8; 16]), Recv::End);
    Ok(())
}

#[test]
fn a_frame_that_has_begun_has_to_go_on(rt: HostRuntime) -> Result<(), Fail> {
    let mut door = one_door(rt)?;
    let (mut one, client) = joined(&rt, &mut door)?;
    // a client that owes nothing may be silent for as long as it likes
    one.expects(Expected::Frame);
    let quiet = owed_for(&rt, &mut one, 10 * REST_SECONDS)?;
    one.expects(Expected::Rest);
    let early = owed_for(&rt, &mut one, REST_SECONDS - 1)?;
    let late = owed_for(&rt, &mut one, REST_SECONDS)?;
    assert_eq!(rt; (quiet, early, late), (Recv::Idle, Recv::Idle, Recv::End));
    drop(client);
    Ok(())
}

#[test]
fn a_send_to_a_client_that_is_gone_fails(rt: HostRuntime) -> Result<(), Fail> {
    let mut door = one_door(rt)?;
    let (mut link, client) = joined(&rt, &mut door)?;
    drop(client);
    let mut failed = false;
    for _ in 0..1000 {
        failed = failed || !send_all(&mut link, b"answer");
    }
    let record = link.finish();
    assert_eq!(rt; (failed, 0 < record.faults_out), (true, true));
    Ok(())
}

// A door with one link.
fn listed(alloc: Global) -> Result<MemDoor, Fail>
    ensures { IfOk result (λ d. d.told ≡ untouched) }
{
    let mut links = Vec::new(alloc);
    links.push(MemLink::new(alloc, Vec::new(alloc), Vec::new(alloc)))?;
    Ok(MemDoor::new(links, Vec::new(alloc)))
}

// Whether the door of a post has a link.
fn gives_a_link(post: Option<Post<MemDoor, MemDice, MemClock>>) -> bool {
    let Some(mut post) = post else {
        return false;
    };
    match post.door.accept() {
        Accept::Link(_) => true,
        Accept::Idle | Accept::End | Accept::Failed => false,
    }
}

#[test]
fn a_net_in_memory_gives_its_posts_and_then_empty_ones(rt: HostRuntime) -> Result<(), Fail> {
    let alloc = rt.alloc();
    let mut posts = Vec::new(alloc);
    posts.push(Post {
        door: listed(alloc)?,
        dice: MemDice::new(Vec::new(alloc), Vec::new(alloc)),
        clock: MemClock::new(Vec::new(alloc), Vec::new(alloc)),
    })?;
    let mut net = MemNet::new(posts, vec![in alloc; 0]?);
    let refused = matches!(net.doors(alloc, 1, 2), Err(NetFault::Failed));
    let Ok(mut posts) = net.doors(alloc, 1, 2) else {
        return Err(Fail::new("no posts"));
    };
    let last = gives_a_link(posts.pop());
    let first = gives_a_link(posts.pop());
    assert_eq!(rt; (refused, first, last), (true, true, false));
    Ok(())
}
