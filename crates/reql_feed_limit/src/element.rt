// The elements that a feed keeps, and what a change does to them.
ghost use Rattle.std.specs.Prelude.{◌≡◌, IfOk};

use reql_datum::{Datum, Memory};

/// A document as it stands in an index.
#[derive(Drop)]
pub struct Element {
    /// The list of its entry and its primary key; in the primary order the key alone.
    pub pair: Datum,
    pub doc: Datum,
}

/// An element with its place, from 0.
#[derive(Drop)]
pub struct Placed {
    pub place: usize,
    pub element: Element,
}

/// What a change does to a feed's elements.
#[derive(Drop)]
pub struct LimitStep {
    /// The element that leaves, with its place before the change.
    pub left: Option<Placed>,
    /// The element that comes, with its place after the change.
    pub came: Option<Placed>,
}

impl Element {
    /// An equal element that shares what it holds.
    pub(crate) fn copy(&self) -> Result<Element, Memory>
        ensures { IfOk result (λ e. e ≡ self.now) }
    {
        Ok(Element {
            pair: self.pair.copy()?,
            doc: self.doc.copy()?,
        })
    }
}
