/// What kind of feed it is, by its shape.
#[derive(Clone, Copy, Debug, PartialEq, Eq)]
pub enum FeedKind {
    /// One document by its key.
    Point,
    /// All that a range of documents gives, as a bag.
    Range,
    /// So many first documents of an order.
    Limit(u32),
}
