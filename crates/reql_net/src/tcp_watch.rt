// The watch over the links that one thread serves over TCP.
ghost use Rattle.std.specs.Prelude.{◌≡◌, ◌<◌};

use crate::gate::Gate;
use crate::lanes::{Lane, Lanes};
use crate::seats::Seats;
use crate::tcp::TcpLink;
use crate::watch::Watch;
use mio::unix::SourceFd;
use mio::{Events, Interest, Poll, Token};
use std::alloc::Global;
use std::io;
use std::sync::Arc;
use std::time::{Duration, Instant};

// How many events one look takes.
const EVENTS: usize = 256;

// How many places are named at least before the next look, where so many have something to do.
const ROUND: usize = 16;

// How long a client is left to a thread that has fewer links.
const LEFT_MILLIS: u64 = 2;

// How long a client waits for which there is no descriptor or no memory.
const STARVED_MILLIS: u64 = 50;

// What the poll calls the rings, the listening socket, and the link of a place.
const RINGS: Token = Token(0);

const CLIENTS: Token = Token(1);

const FIRST_PLACE: usize = 2;

/// The watch of one thread over TCP. It sleeps until the system tells of one of its sockets, a table changes for which a
/// session of its waits, or a client has taken too long for something.
///
/// Clients are taken by the thread that has the fewest links, or after some 2 milliseconds by any. Where all threads have a
/// link at each place, a further client is closed at once.
#[derive(Drop)]
pub struct TcpWatch {
    rt: HostRuntime,
    gate: Arc<Gate, Global>,
    lanes: Arc<Lanes, Global>,
    lane: usize,
    poll: Poll,
    events: Events,
    seats: Seats,
    // how many places are named before the next look
    left: usize,
    // whether clients may be there, and until when they are left alone
    knocked: bool,
    alone_until: Option<Instant>,
}

// The time from now on, if it isn't over.
fn until(now: Instant, then: Option<Instant>) -> Option<Duration> {
    Some(then?.duration_since(now))
}

// The shorter one of two times, where none is for ever.
fn shorter(one: Option<Duration>, other: Option<Duration>) -> Option<Duration> {
    match (one, other) {
        (Some(a), Some(b)) => Some(if b < a { b } else { a }),
        (Some(a), None) => Some(a),
        (None, b) => b,
    }
}

impl TcpWatch {
    /// A watch over so many places without a link. None: memory, a descriptor or a lane was wanted.
    pub(crate) fn new(
        rt: HostRuntime,
        alloc: Global,
        gate: Arc<Gate, Global>,
        lanes: Arc<Lanes, Global>,
        places: usize,
    ) -> io::Result<Option<TcpWatch>> {
        let poll = Poll::new(&rt)?;
        let events = Events::with_capacity(alloc, EVENTS)?;
        let seats = Seats::new(alloc, places)?;
        let listens = gate.descriptor();
        poll.registry()
            .register(&mut SourceFd(&listens), CLIENTS, Interest::READABLE)?;
        let Some(lane) = lanes.take() else {
            return Ok(None);
        };
        if let Some(own) = lanes.get(lane) {
            own.begin(poll.registry(), RINGS, places)?;
        }
        Ok(Some(TcpWatch {
            rt,
            gate,
            lanes,
            lane,
            poll,
            events,
            seats,
            left: 0,
            knocked: false,
            alone_until: None,
        }))
    }

    fn own(&self) -> Option<&Lane> {
        self.lanes.get(self.lane)
    }

    // The channels that rang, for which a link waits. Those for which none waits any more are left.
    fn rung(&self) -> u32 {
        let Some(own) = self.own() else {
            return 0;
        };
        let rung = own.take_rung();
        let unheard = self.seats.unheard(rung);
        own.hush(unheard);
        rung & !unheard
    }

    fn hear(&mut self) {
        let rung = self.rung();
        if rung != 0 {
            self.seats.ring(rung);
        }
    }

    // No link waits for these channels where none does.
    fn hush(&self, channels: u32) {
        if channels != 0
            && let Some(own) = self.own()
        {
            own.hush(self.seats.unheard(channels));
        }
    }

    // The next place of the round.
    fn call(&mut self) -> Option<usize> {
        self.left = self.left.checked_sub(1)?;
        self.seats.call()
    }

    /// The next place that has something to do, if one has within this time; none is for ever.
    pub(crate) fn called(&mut self, within: Option<Duration>) -> Option<usize> {
        self.hear();
        if let Some(place) = self.call() {
            return Some(place);
        }
        self.look(within);
        self.call()
    }

    // A round begins: what happened is looked at, and waited for where no place has anything to do.
    fn look(&mut self, within: Option<Duration>) {
        self.ask();
        let patience = shorter(self.patience(), within);
        if self.poll.poll(&mut self.events, patience).is_ok() {
            self.note();
        }
        self.hear();
        self.wake_late();
        self.ask();
        self.left = self.seats.in_line().max(ROUND);
    }

    // How long nothing has to be done. None: for ever.
    fn patience(&self) -> Option<Duration> {
        if self.seats.in_line() != 0 || self.knocked && self.alone_until.is_none() {
            return Some(Duration::ZERO);
        }
        let alone_until = if self.knocked { self.alone_until } else { None };
        let due = self.seats.due();
        if due.is_none() && alone_until.is_none() {
            return None;
        }
        match Instant::now(&self.rt) {
            Ok(now) => shorter(until(now, due), until(now, alone_until)),
            Err(_) => Some(Duration::from_millis(STARVED_MILLIS)),
        }
    }

    fn note(&mut self) {
        for event in self.events.iter() {
            let token = event.token();
            if token == CLIENTS {
                self.knocked = true;
            } else if let Some(place) = token.0.checked_sub(FIRST_PLACE) {
                let closing = event.is_read_closed() || event.is_error();
                self.seats
                    .see(place, event.is_readable(), closing, event.is_writable());
            }
        }
    }

    fn wake_late(&mut self) {
        let Some(due) = self.seats.due() else {
            return;
        };
        if let Ok(now) = Instant::now(&self.rt)
            && due <= now
        {
            self.seats.wake_late(now);
        }
    }

    // A free place comes into line where a client may be there that this thread takes.
    fn ask(&mut self) {
        if !self.knocked || self.leaves_alone() {
            return;
        }
        if self.is_full() {
            self.turn_away();
        } else if self.alone_until.is_none() && self.lanes.is_ahead(self.lane) {
            self.leave_alone(LEFT_MILLIS);
        } else {
            match self.seats.free() {
                Some(place) => self.seats.line_up(place),
                None => self.knocked = false,
            }
        }
    }

    // Whether clients are still left alone.
    fn leaves_alone(&self) -> bool {
        let Some(until) = self.alone_until else {
            return false;
        };
        match Instant::now(&self.rt) {
            Ok(now) => now < until,
            Err(_) => false,
        }
    }

    fn leave_alone(&mut self, millis: u64) {
        if let Ok(now) = Instant::now(&self.rt) {
            self.alone_until = now.checked_add(Duration::from_millis(millis));
        }
    }

    fn is_full(&self) -> bool {
        match self.own() {
            Some(own) => own.is_full(),
            None => true,
        }
    }

    // The places of this thread are taken. Clients are turned away where those of all threads are, and else left to another.
    fn turn_away(&mut self) {
        self.alone_until = None;
        self.knocked = self.gate.crowd.is_full() && self.gate.turn_away(&self.rt);
        self.leave_starved();
    }

    // A client that can't be taken now is tried again after some time.
    fn leave_starved(&mut self) {
        if self.gate.was_starved() {
            self.knocked = true;
            self.leave_alone(STARVED_MILLIS);
        }
    }
}

impl Watch<TcpLink> for TcpWatch {
    fn next(&mut self, places: usize) -> usize {
        for _ in 0..u64::MAX {
            match self.called(None) {
                Some(place) if place < places => return place,
                _ => {}
            }
        }
        0
    }

    fn enters(&mut self, place: usize, link: &TcpLink) {
        link.joins(self.lane);
        let socket = link.descriptor();
        let token = Token(place.saturating_add(FIRST_PLACE));
        let both = Interest::READABLE | Interest::WRITABLE;
        let watched = self
            .poll
            .registry()
            .register(&mut SourceFd(&socket), token, both);
        self.seats.enter(place, link, watched.is_ok());
        self.alone_until = None;
        if let Some(own) = self.own() {
            own.enter();
        }
    }

    fn wakes(&mut self, place: usize, link: &mut TcpLink) -> bool {
        let signs = self.seats.take_signs(place);
        let wakes = link.wakes(signs);
        if !wakes {
            self.seats.await_time(place, link);
        }
        wakes
    }

    fn rests(&mut self, place: usize, link: &TcpLink) {
        let heard = self.seats.heard_by(place);
        self.seats.rest(place, link);
        self.hush(heard & !link.wanted());
        if !link.is_quiet() && !link.is_blocked() {
            self.seats.line_up(place);
        }
    }

    fn leaves(&mut self, place: usize) {
        let heard = self.seats.heard_by(place);
        let had_link = self.seats.leave(place);
        self.hush(heard);
        if had_link && let Some(own) = self.own() {
            own.leave();
        }
    }

    fn passes(&mut self, _place: usize) {
        self.knocked = false;
        self.alone_until = None;
        self.leave_starved();
    }

    fn retires(&mut self, place: usize) {
        if self.seats.retire(place)
            && let Some(own) = self.own()
        {
            own.shrink();
        }
    }
}
