use reql_datum::Point;

/// The points that an answer names: the catalogue's place, and a point of each slot that the request
/// looked at or ran a command on, by rising slot.
#[derive(Clone, Copy)]
pub struct Stamp<'a> {
    pub catalogue: u64,
    pub points: &'a [Point],
}
