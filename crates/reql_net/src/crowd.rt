// How many clients the doors of a net serve at once, and what is said of them on standard error.
use crate::door::{Parting, Rest};
use std::io;
use std::net::SocketAddr;
use std::sync::atomic::AtomicU64;
use std::sync::atomic::Ordering::SeqCst;
use std::time::Instant;

// How long nothing more is said of clients for whom there is no place, or of workers that end, once it was said.
const QUIET_SECONDS: u64 = 60;

// Why a version is refused, and how drivers ask for another.
const VERSIONS: &str =
    "refused: what is spoken is V1_0 and V0_4, with JSON; drivers choose by an option \
    named like HandshakeVersion (Go) or _handshake_version (Python)";

/// What the doors of one call share. It says nothing where it is not to tell.
#[derive(Drop)]
pub(crate) struct Crowd {
    tells: bool,
    // how many workers take clients, and how many serve one
    workers: AtomicU64,
    served: AtomicU64,
    since: Instant,
    // the seconds, from the first on, until which nothing is said of clients for whom there is no place, and of workers
    // that end
    full_until: AtomicU64,
    ends_until: AtomicU64,
}

// Why a client left, where that is worth a line. One that took its leave between two requests isn't.
fn reason(how: Parting, was_late: bool, was_unsent: bool) -> Option<&'static str> {
    match how {
        Parting::ReadFault if was_unsent => Some("ended: a send failed"),
        Parting::Closed if was_late => Some("left out: no greeting came in time"),
        Parting::Cut if was_late => {
            Some("left out: the rest of its greeting or of a request didn't come in time")
        }
        Parting::Closed => None,
        Parting::Cut => Some("ended within a greeting or a request"),
        Parting::Version => Some(VERSIONS),
        Parting::Key => Some("refused: it greets with another key than that of --key"),
        Parting::Login => Some("refused: its login failed"),
        Parting::TooLong => Some("ended: it announced a request above the limit"),
        Parting::ReadFault => Some("ended: a receive failed"),
        Parting::WriteFault => Some("ended: a send failed"),
        Parting::Worn => Some("ended: it took more turns than a session has"),
        Parting::Memory => Some("ended: out of memory"),
    }
}

fn rest_reason(why: Rest) -> &'static str {
    match why {
        Rest::Done => "it has served its share of the sessions",
        Rest::Over => "no client comes any more",
        Rest::Failed => "no client can be taken from the port: are too many files open?",
        Rest::Memory => "out of memory",
    }
}

impl Crowd {
    /// So many workers, of whom none serves a client yet.
    pub(crate) fn new(rt: &HostRuntime, tells: bool, workers: u32) -> io::Result<Crowd> {
        Ok(Crowd {
            tells,
            workers: AtomicU64::new(workers as u64),
            served: AtomicU64::new(0),
            since: Instant::now(rt)?,
            full_until: AtomicU64::new(0),
            ends_until: AtomicU64::new(0),
        })
    }

    /// One more client is served.
    pub(crate) fn enters(&self) {
        self.served.fetch_add(1, SeqCst);
    }

    /// Whether all workers serve a client.
    pub(crate) fn is_full(&self) -> bool {
        self.served.load(SeqCst) >= self.workers.load(SeqCst)
    }

    /// A client is turned away, since all workers serve one.
    pub(crate) fn turns_away(&self, rt: &HostRuntime, client: SocketAddr) {
        if self.tells && self.may_say(rt, &self.full_until) {
            let workers = self.workers.load(SeqCst);
            let _ = eprintln!(rt;
                "reqld: client {client} refused: {workers} clients are served, and no more at once (--clients)"
            );
        }
    }

    // Whether it wasn't said lately.
    fn may_say(&self, rt: &HostRuntime, quiet_until: &AtomicU64) -> bool {
        let Ok(time) = self.since.elapsed(rt) else {
            return false;
        };
        let now = time.as_secs();
        if now < quiet_until.load(SeqCst) {
            return false;
        }
        quiet_until.store(now.saturating_add(QUIET_SECONDS), SeqCst);
        true
    }

    /// A client's session ended so.
    pub(crate) fn leaves(
        &self,
        rt: &HostRuntime,
        client: SocketAddr,
        how: Parting,
        was_late: bool,
        was_unsent: bool,
    ) {
        self.served.fetch_sub(1, SeqCst);
        if !self.tells {
            return;
        }
        if let Some(why) = reason(how, was_late, was_unsent) {
            let _ = eprintln!(rt; "reqld: client {client} {why}");
        }
    }

    /// A worker takes no more clients. That it has served its share is said of the last one alone.
    pub(crate) fn shrinks(&self, rt: &HostRuntime, why: Rest) {
        let left = self.workers.fetch_sub(1, SeqCst).saturating_sub(1);
        if !self.tells {
            return;
        }
        let may_say = match why {
            Rest::Done | Rest::Over => left == 0,
            Rest::Failed | Rest::Memory => left == 0 || self.may_say(rt, &self.ends_until),
        };
        if may_say {
            let why = rest_reason(why);
            let _ = eprintln!(rt; "reqld: a worker ended: {why}; {left} go on");
        }
    }
}
