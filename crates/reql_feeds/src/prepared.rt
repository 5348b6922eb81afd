// What a change makes of a feed.
use reql_datum::Datum;
use reql_memory::Seq;

/// What a change of one document makes of a feed, made before it takes effect.
#[derive(Drop)]
pub struct Prepared<S> {
    /// What is queued for it.
    pub items: Seq<Datum>,
    /// What becomes of the feed itself.
    pub step: S,
}

/// What is prepared of the feed at a place.
#[derive(Drop)]
pub(crate) struct Plan<S> {
    pub(crate) place: usize,
    pub(crate) prepared: Prepared<S>,
}
