use reql_outside::Expected;
use std::time::{Duration, Instant};

// How long a client may take, from its accept on, until its greeting and its login are whole.
pub(crate) const GREETING_SECONDS: u64 = 10;

// How long the rest of a frame may take, where less than `REST_BYTES` of it come in that time.
pub(crate) const REST_SECONDS: u64 = 30;

// 1 KiB for each second.
const REST_BYTES: u64 = REST_SECONDS * 1024;

/// What a client owes its session, since when, and how many bytes came since then.
#[derive(Clone, Copy)]
pub(crate) struct Pace {
    expected: Expected,
    pub(crate) since: Instant,
    came: u64,
}

impl Pace {
    /// The pace of a client that is accepted now: it owes its greeting.
    pub(crate) fn new(now: Instant) -> Pace {
        Pace {
            expected: Expected::Greeting,
            since: now,
            came: 0,
        }
    }

    /// The session waits for this from now on.
    pub(crate) fn expects(&mut self, rt: &HostRuntime, expected: Expected) {
        if self.expected != expected {
            self.expected = expected;
            self.begin(rt);
        }
    }

    /// So many bytes came.
    pub(crate) fn comes(&mut self, bytes: usize) {
        self.came = self.came.saturating_add(bytes as u64);
    }

    /// Whether the client has taken too long for what it owes.
    pub(crate) fn is_over(&mut self, rt: &HostRuntime) -> bool {
        match self.expected {
            Expected::Frame => false,
            Expected::Greeting => self.lasts(rt, GREETING_SECONDS),
            Expected::Rest => self.is_slow(rt),
        }
    }

    /// When the client will have taken too long for what it owes, if it owes anything.
    pub(crate) fn due(&self) -> Option<Instant> {
        match self.expected {
            Expected::Frame => None,
            Expected::Greeting => self
                .since
                .checked_add(Duration::from_secs(GREETING_SECONDS)),
            Expected::Rest => self.since.checked_add(Duration::from_secs(REST_SECONDS)),
        }
    }

    /// The client is listened to again, after a time in which it wasn't.
    pub(crate) fn resumes(&mut self, rt: &HostRuntime) {
        if self.expected == Expected::Rest {
            self.begin(rt);
        }
    }

    // A client that sends enough gets as much time again.
    fn is_slow(&mut self, rt: &HostRuntime) -> bool {
        if !self.lasts(rt, REST_SECONDS) {
            return false;
        }
        if self.came < REST_BYTES {
            return true;
        }
        self.begin(rt);
        false
    }

    fn begin(&mut self, rt: &HostRuntime) {
        self.came = 0;
        if let Ok(now) = Instant::now(rt) {
            self.since = now;
        }
    }

    fn lasts(&self, rt: &HostRuntime, seconds: u64) -> bool {
        match self.since.elapsed(rt) {
            Ok(time) => time >= Duration::from_secs(seconds),
            Err(_) => false,
        }
    }
}
