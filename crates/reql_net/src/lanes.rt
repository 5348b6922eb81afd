// What wakes the threads that serve the links of a net, and how many links each of them has.
use mio::{Registry, Token, Waker};
use std::alloc::Global;
use std::io;
use std::sync::OnceLock;
use std::sync::atomic::Ordering::SeqCst;
use std::sync::atomic::{AtomicU32, AtomicU64, AtomicUsize};

/// How many channels there are, a bit of a word each. Slots that leave the same rest share one: a ring may wake too many,
/// and never too few.
pub(crate) const CHANNELS: usize = 32;

// How many threads may serve the links of a net.
const LANES: usize = 64;

/// The lanes of a net: one for each thread that serves its links, in the order in which they came.
#[derive(Drop)]
pub(crate) struct Lanes {
    lanes: Vec<Lane>,
    // how many have a thread
    taken: AtomicUsize,
}

/// What the others see of one thread.
#[derive(Drop)]
pub(crate) struct Lane {
    // the channels that links of the thread wait for
    heard: AtomicU32,
    // those of them that rang since the thread looked
    rung: AtomicU32,
    // ends the wait of the thread
    waker: OnceLock<Waker>,
    // how many links it has, and how many places for links
    links: AtomicU64,
    places: AtomicU64,
}

/// The bit of the channel of a slot.
pub(crate) fn channel_of(slot: u32) -> u32 {
    1u32 << (slot & 31)
}

impl Lane {
    fn new() -> Lane {
        Lane {
            heard: AtomicU32::new(0),
            rung: AtomicU32::new(0),
            waker: OnceLock::new(),
            links: AtomicU64::new(0),
            places: AtomicU64::new(0),
        }
    }

    /// A thread begins, which serves links at so many places and waits by this registry.
    pub(crate) fn begin(&self, registry: &Registry, token: Token, places: usize) -> io::Result<()> {
        let _ = self.waker.try_set(Waker::new(registry, token)?);
        self.places.store(places as u64, SeqCst);
        Ok(())
    }

    /// A link of the thread waits for these channels from now on.
    pub(crate) fn hear(&self, channels: u32) {
        if self.heard.load(SeqCst) & channels != channels {
            self.heard.fetch_or(channels, SeqCst);
        }
    }

    /// No link of the thread waits for these channels any more.
    pub(crate) fn hush(&self, channels: u32) {
        if channels != 0 {
            self.heard.fetch_and(!channels, SeqCst);
        }
    }

    /// The channels that rang since the thread looked.
    pub(crate) fn take_rung(&self) -> u32 {
        if self.rung.load(SeqCst) == 0 {
            return 0;
        }
        self.rung.swap(0, SeqCst)
    }

    // A thread that looks at what rang sees all that was changed before. One that has something to look at was woken, or it
    // is the one that rings, which looks before it waits.
    fn ring(&self, channels: u32, is_own: bool) {
        if self.heard.load(SeqCst) & channels == 0 {
            return;
        }
        if self.rung.fetch_or(channels, SeqCst) == 0 && !is_own {
            self.wake();
        }
    }

    fn wake(&self) {
        if let Some(waker) = self.waker.get() {
            let _ = waker.wake();
        }
    }

    /// The thread has one link more.
    pub(crate) fn enter(&self) {
        self.links.fetch_add(1, SeqCst);
    }

    /// The thread has one link less.
    pub(crate) fn leave(&self) {
        self.links.fetch_sub(1, SeqCst);
    }

    /// The thread has one place less.
    pub(crate) fn shrink(&self) {
        self.places.fetch_sub(1, SeqCst);
    }

    /// Whether the thread has a link at each of its places.
    pub(crate) fn is_full(&self) -> bool {
        self.links.load(SeqCst) >= self.places.load(SeqCst)
    }

    // Whether it has a place that is free, and so few links.
    fn has_room_with(&self, links: u64) -> bool {
        !self.is_full() && self.links.load(SeqCst) <= links
    }
}

impl Lanes {
    /// Lanes without a thread.
    pub(crate) fn new(alloc: Global) -> io::Result<Lanes> {
        let mut lanes = Vec::with_capacity(alloc, LANES)?;
        for _ in 0..LANES {
            lanes.push(Lane::new())?;
        }
        Ok(Lanes {
            lanes,
            taken: AtomicUsize::new(0),
        })
    }

    /// The number of a lane for one thread more, where there is one left.
    pub(crate) fn take(&self) -> Option<usize> {
        let number = self.taken.fetch_add(1, SeqCst);
        if number < self.lanes.len() {
            Some(number)
        } else {
            None
        }
    }

    pub(crate) fn get(&self, number: usize) -> Option<&Lane> {
        self.lanes.get(number)
    }

    /// Wakes each thread with a link that waits for one of these channels. The thread of the own lane, from which the ring
    /// comes, is awake.
    pub(crate) fn ring(&self, channels: u32, own: usize) {
        let taken = self.taken.load(SeqCst).min(self.lanes.len());
        for number in 0..taken {
            if let Some(lane) = self.lanes.get(number) {
                lane.ring(channels, number == own);
            }
        }
    }

    /// Whether a thread with a free place has at least two links less than that of the own lane.
    pub(crate) fn is_ahead(&self, own: usize) -> bool {
        let Some(lane) = self.lanes.get(own) else {
            return false;
        };
        let Some(links) = lane.links.load(SeqCst).checked_sub(2) else {
            return false;
        };
        let taken = self.taken.load(SeqCst).min(self.lanes.len());
        for number in 0..taken {
            if let Some(other) = self.lanes.get(number)
                && other.has_room_with(links)
            {
                return true;
            }
        }
        false
    }
}
