// An open feed with its queue.
use reql_datum::Datum;
use reql_queue::Queue;

/// An open feed: whose it is, its number, the stamp at which it was opened, and what waits for it.
#[derive(Drop)]
pub(crate) struct Entry<F> {
    pub(crate) owner: u64,
    pub(crate) number: u64,
    pub(crate) opened: u64,
    pub(crate) kept: F,
    pub(crate) queue: Queue<Datum>,
}
