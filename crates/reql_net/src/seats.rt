// The places of one thread, and those of them that have something to do, in line.
use crate::lanes::CHANNELS;
use crate::tcp::{Signs, TcpLink};
use std::alloc::{AllocError, Global};
use std::collections::VecDeque;
use std::time::Instant;

#[derive(Clone, Copy, Debug, PartialEq, Eq)]
enum State {
    // it has no link
    Free,
    // it has one
    Taken,
    // it takes none any more
    Retired,
}

// What is known of one place.
#[derive(Clone, Copy)]
struct Seat {
    state: State,
    in_line: bool,
    signs: Signs,
    // whether its link waits until its client takes what was sent
    blocked: bool,
    // the channels that its link waits for
    hears: u32,
    // when it has to be woken though nothing came
    due: Option<Instant>,
}

/// The places of one thread.
#[derive(Drop)]
pub(crate) struct Seats {
    seats: Vec<Seat>,
    line: VecDeque<usize>,
    // how many links wait for each channel
    hearers: Vec<u32>,
    // no place has to be woken for its time before this
    due: Option<Instant>,
}

const NO_SIGNS: Signs = Signs {
    readable: false,
    closing: false,
    rung: false,
    lost: false,
};

// The earlier one of two times.
fn earlier(one: Option<Instant>, other: Option<Instant>) -> Option<Instant> {
    match (one, other) {
        (Some(a), Some(b)) => Some(if b < a { b } else { a }),
        (Some(a), None) => Some(a),
        (None, b) => b,
    }
}

impl Seats {
    /// So many places without a link, all in line.
    pub(crate) fn new(alloc: Global, places: usize) -> Result<Seats, AllocError> {
        let free = Seat {
            state: State::Free,
            in_line: false,
            signs: NO_SIGNS,
            blocked: false,
            hears: 0,
            due: None,
        };
        let mut seats = Seats {
            seats: Vec::from_elem(alloc, free, places)?,
            line: VecDeque::with_capacity(alloc, places)?,
            hearers: Vec::from_elem(alloc, 0, CHANNELS)?,
            due: None,
        };
        for place in 0..places {
            seats.line_up(place);
        }
        Ok(seats)
    }

    /// How many are in line.
    pub(crate) fn in_line(&self) -> usize {
        self.line.len()
    }

    /// The place comes to the end of the line, where it isn't in it.
    pub(crate) fn line_up(&mut self, place: usize) {
        if let Some(seat) = self.seats.get_mut(place)
            && !seat.in_line
        {
            // there is room for each place
            seat.in_line = self.line.push_back(place).is_ok();
        }
    }

    /// Takes the first place out of the line.
    pub(crate) fn call(&mut self) -> Option<usize> {
        let place = self.line.pop_front()?;
        if let Some(seat) = self.seats.get_mut(place) {
            seat.in_line = false;
        }
        Some(place)
    }

    /// The first place that is free.
    pub(crate) fn free(&self) -> Option<usize> {
        for place in 0..self.seats.len() {
            if let Some(seat) = self.seats.get(place)
                && seat.state == State::Free
            {
                return Some(place);
            }
        }
        None
    }

    /// A link came to the place. Where it can't be watched it is lost.
    pub(crate) fn enter(&mut self, place: usize, link: &TcpLink, is_watched: bool) {
        if let Some(seat) = self.seats.get_mut(place) {
            seat.state = State::Taken;
            seat.signs = Signs {
                lost: !is_watched,
                ..NO_SIGNS
            };
        }
        self.rest(place, link);
        if !is_watched {
            self.line_up(place);
        }
    }

    /// The socket of the place has something to read, is closed or failed, or takes something.
    pub(crate) fn see(&mut self, place: usize, readable: bool, closing: bool, writable: bool) {
        let Some(seat) = self.seats.get_mut(place) else {
            return;
        };
        if seat.state != State::Taken {
            return;
        }
        if readable || closing {
            seat.signs.readable = true;
        }
        if closing {
            seat.signs.closing = true;
        }
        if readable || closing || writable && seat.blocked {
            self.line_up(place);
        }
    }

    /// What was seen of the place since its last turn.
    pub(crate) fn take_signs(&mut self, place: usize) -> Signs {
        match self.seats.get_mut(place) {
            Some(seat) => {
                let signs = seat.signs;
                seat.signs = NO_SIGNS;
                signs
            }
            None => NO_SIGNS,
        }
    }

    /// What the link of the place waits for, its turn being over.
    pub(crate) fn rest(&mut self, place: usize, link: &TcpLink) {
        self.await_channels(place, link.wanted());
        self.await_time(place, link);
    }

    /// Until when the link of the place waits, and whether for its client.
    pub(crate) fn await_time(&mut self, place: usize, link: &TcpLink) {
        let due = link.due();
        if let Some(seat) = self.seats.get_mut(place) {
            seat.blocked = link.is_blocked();
            seat.due = due;
        }
        self.due = earlier(self.due, due);
    }

    /// The link of the place waits for these channels, and for no other.
    fn await_channels(&mut self, place: usize, wanted: u32) {
        let Some(seat) = self.seats.get_mut(place) else {
            return;
        };
        let heard = seat.hears;
        seat.hears = wanted;
        if heard != wanted {
            self.count(wanted & !heard, heard & !wanted);
        }
    }

    // One link more waits for some channels, and one less for others.
    fn count(&mut self, more: u32, less: u32) {
        for channel in 0..CHANNELS {
            let bit = 1u32 << (channel as u32 & 31);
            if let Some(hearers) = self.hearers.get_mut(channel) {
                if more & bit != 0 {
                    *hearers = hearers.saturating_add(1);
                }
                if less & bit != 0 {
                    *hearers = hearers.saturating_sub(1);
                }
            }
        }
    }

    /// Those of some channels for which no link waits.
    pub(crate) fn unheard(&self, channels: u32) -> u32 {
        let mut unheard = 0;
        for channel in 0..CHANNELS {
            let bit = 1u32 << (channel as u32 & 31);
            if channels & bit != 0
                && let Some(0) = self.hearers.get(channel)
            {
                unheard |= bit;
            }
        }
        unheard
    }

    /// The channels for which the link of the place waits.
    pub(crate) fn heard_by(&self, place: usize) -> u32 {
        match self.seats.get(place) {
            Some(seat) => seat.hears,
            None => 0,
        }
    }

    /// These channels rang: each place whose link waits for one of them comes into line.
    pub(crate) fn ring(&mut self, channels: u32) {
        for place in 0..self.seats.len() {
            if let Some(seat) = self.seats.get_mut(place)
                && seat.hears & channels != 0
            {
                seat.signs.rung = true;
                self.line_up(place);
            }
        }
    }

    /// The time at which `wake_late` has something to do, if no link changes what it waits for.
    pub(crate) fn due(&self) -> Option<Instant> {
        self.due
    }

    /// Each place whose time has come comes into line.
    pub(crate) fn wake_late(&mut self, now: Instant) {
        self.due = None;
        for place in 0..self.seats.len() {
            if let Some(seat) = self.seats.get_mut(place)
                && let Some(due) = seat.due
            {
                if due <= now {
                    seat.due = None;
                    self.line_up(place);
                } else {
                    self.due = earlier(self.due, Some(due));
                }
            }
        }
    }

    /// The link of the place is gone, so that its door is asked once more. False: it had none.
    pub(crate) fn leave(&mut self, place: usize) -> bool {
        self.await_channels(place, 0);
        self.line_up(place);
        match self.seats.get_mut(place) {
            Some(seat) if seat.state == State::Taken => {
                seat.state = State::Free;
                seat.signs = NO_SIGNS;
                seat.blocked = false;
                seat.due = None;
                true
            }
            _ => false,
        }
    }

    /// The place takes no link any more. False: it took none before.
    pub(crate) fn retire(&mut self, place: usize) -> bool {
        match self.seats.get_mut(place) {
            Some(seat) => {
                let retires = seat.state != State::Retired;
                seat.state = State::Retired;
                retires
            }
            None => false,
        }
    }
}
