// What a request is read to follow.
ghost use Rattle.std.specs.Prelude.{◌≡◌, [], true, IfOk, None, if◌then◌else◌};
ghost use Rattle.reql_feed_spec.specs.declared.kind.FeedKind.TheVariants as kinds;
ghost use Rattle.reql_feed_read.specs.Follows.{indexes_in, Reads, shape_of};
ghost use Rattle.reql_feed_read.specs.Shapes.{agrees, shape_slot as shape_slot_of};
ghost use Rattle.reql_table_spec.specs.Followed.{shape_index};
ghost use Rattle.reql_table.specs.Seen.{documents_of, indexes_of};
ghost use Rattle.reql_feed_spec.specs.Kept.{is_shape};
ghost use Rattle.reql_value_spec.specs.Index.{plain_view};
ghost use Rattle.reql_value_spec.specs.Shapes.{rows_over};
ghost use Rattle.reql_value_spec.specs.World.{bare_world};

use crate::asked::read_order;
use crate::index::names_index;
use crate::order::Order;
use crate::point::asked_key;
use crate::range::shape_slot;
use crate::shape::RangeShape;
use crate::source::read_source;
use reql_datum::{Datum, Memory};
use reql_table::{IndexDef, Table};
use reql_table_spec::{FeedKind, FeedSpec};
use std::alloc::Global;

/// What a feed follows.
#[derive(Drop)]
pub enum Follows {
    /// The document at a key.
    Key(Datum),
    /// What a shape gives.
    Shape(RangeShape),
    /// The first of an order.
    First(Order),
    /// Nothing: the request is none of its kind.
    Nothing,
}

impl Follows {
    /// What follows the same, and shares what it holds.
    pub fn copy(&self) -> Result<Follows, Memory>
        ensures { IfOk result (λ f. f ≡ self.now) }
    {
        match self {
            Follows::Key(key) => {
                let copy = key.copy()?;
                Ok(Follows::Key(copy))
            }
            Follows::Shape(shape) => {
                let copy = shape.copy()?;
                Ok(Follows::Shape(copy))
            }
            Follows::First(order) => {
                let copy = order.copy()?;
                Ok(Follows::First(copy))
            }
            Follows::Nothing => Ok(Follows::Nothing),
        }
    }
}

// A table of nothing, with an index.
fn empty_with(alloc: Global, index: &Option<IndexDef>) -> Result<Table, Memory>
    ensures documents { IfOk result (λ t. documents_of t ≡ []) }
    ensures indexes { IfOk result (λ t. indexes_of t ≡ indexes_in index.now) }
{
    let table = Table::new(alloc);
    match index {
        None => Ok(table),
        Some(def) => table.with_index(def),
    }
}

#[tactic(auto, using(crate::proofs::Requests::key_followed, crate::proofs::Requests::no_key_followed))]
fn follows_key(alloc: Global, spec: &FeedSpec, index: &Option<IndexDef>) -> Result<Follows, Memory>
    requires kind { spec.now.kind ≡ kinds.Point }
    ensures { IfOk result (λ f. Reads f spec.now index.now) }
{
    match asked_key(alloc, spec)? {
        Some(key) => Ok(Follows::Key(key)),
        None => Ok(Follows::Nothing),
    }
}

// The slot of the table of a range shape that names the index of its request.
fn asked_slot(spec: &FeedSpec) -> Option<u32>
    ensures { result ≡ (if agrees spec.now.index (shape_index spec.now.shape)
        then shape_slot_of spec.now.shape else None) }
{
    let term = spec.shape.term();
    if names_index(term, spec.index.as_ref()) {
        return shape_slot(term);
    }
    None
}

// The shape of a request on the table in a slot.
fn shape_on(
    alloc: Global,
    spec: &FeedSpec,
    index: &Option<IndexDef>,
    slot: u32,
) -> Result<RangeShape, Memory>
    requires shape { is_shape slot spec.now.shape ≡ true }
    ensures { IfOk result (λ s. shape_of s ≡ rows_over bare_world slot
        (plain_view [] 0 [] spec.now.key [] (indexes_in index.now)) spec.now.shape) }
{
    let key = spec.key.copy()?;
    let term = spec.shape.copy()?;
    let empty = empty_with(alloc, index)?;
    let source = read_source(alloc, &spec.key, index, spec.shape.term())?;
    Ok(RangeShape {
        key,
        term,
        slot,
        empty,
        source,
    })
}

#[tactic(auto, using(crate::proofs::Requests::is_found, crate::proofs::Requests::shape_read, crate::proofs::Requests::no_shape_followed))]
fn follows_shape(
    alloc: Global,
    spec: &FeedSpec,
    index: &Option<IndexDef>,
) -> Result<Follows, Memory>
    requires kind { spec.now.kind ≡ kinds.Range }
    ensures { IfOk result (λ f. Reads f spec.now index.now) }
{
    match asked_slot(spec) {
        None => Ok(Follows::Nothing),
        Some(slot) => {
            let shape = shape_on(alloc, spec, index, slot)?;
            Ok(Follows::Shape(shape))
        }
    }
}

#[tactic(auto, using(crate::proofs::Limits::order_reads))]
fn follows_order(
    alloc: Global,
    spec: &FeedSpec,
    index: &Option<IndexDef>,
    most: u32,
) -> Result<Follows, Memory>
    requires kind { spec.now.kind ≡ kinds.Limit most }
    ensures { IfOk result (λ f. Reads f spec.now index.now) }
{
    let follows = read_order(alloc, spec, index, most)?;
    Ok(follows)
}

/// What a request follows that is kept with an index: by the definition of what feeds follow, where a
/// term that is not of the request's kind, or that faults whatever the documents are, follows nothing.
pub fn read(alloc: Global, spec: &FeedSpec, index: &Option<IndexDef>) -> Result<Follows, Memory>
    ensures { IfOk result (λ f. Reads f spec.now index.now) }
{
    match spec.kind {
        FeedKind::Point => follows_key(alloc, spec, index),
        FeedKind::Range => follows_shape(alloc, spec, index),
        FeedKind::Limit(most) => follows_order(alloc, spec, index, most),
    }
}
