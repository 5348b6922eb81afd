/// A place in a table's history, with the number of single-document changes made before it.
///
/// Commands say at which points their values were read, and answers name those that they speak of.
#[derive(Clone, Copy, Debug, PartialEq, Eq)]
pub struct Point {
    /// The number of the table's slot.
    pub slot: u32,
    /// How many entries the history holds there.
    pub place: u64,
    /// How many single-document changes these entries made.
    pub stamp: u64,
}
