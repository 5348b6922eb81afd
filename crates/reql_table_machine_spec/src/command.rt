use reql_datum::Point;
use reql_memory::Seq;

/// A command that a table runs, over writes W, index commands N and feeds' requests P.
#[derive(Drop)]
pub enum Cmd<W, N, P> {
    Write(W),
    Index(N),
    Subscribe(P),
    Take { feed: u64, max: u32 },
    Unsubscribe { feed: u64 },
    Shut,
    Sync,
}

/// A command, with the points at which its values were read.
#[derive(Drop)]
pub struct Order<C> {
    pub points: Seq<Point>,
    pub cmd: C,
}

/// What a command is answered, over summaries M and printed items I.
#[derive(Drop)]
pub enum Said<M, I> {
    Done(M),
    HistoryFull {
        count: u64,
    },
    Changed,
    IndexExists,
    IndexMissing,
    Opened {
        feed: u64,
        opening: Seq<I>,
    },
    FeedsFull {
        count: u32,
    },
    Batch {
        skipped: u64,
        last: u64,
        items: Seq<(u64, I)>,
    },
    Nothing,
    FeedUnknown {
        feed: u64,
    },
    Closed,
    Gone,
}

/// What a command is answered, with the point of the table after it.
#[derive(Drop)]
pub struct Reply<S> {
    pub place: u64,
    pub stamp: u64,
    pub said: S,
}

/// What a look is answered: the point, and what can be read there, or nothing where the table was dropped.
#[derive(Drop)]
pub struct Look<V> {
    pub place: u64,
    pub stamp: u64,
    pub view: Option<V>,
}
