// The order that the request of a limit feed follows.
ghost use Rattle.std.specs.Prelude.{◌≡◌, IfOk, None, Some};
ghost use Rattle.reql_datum.specs.Members.{find};
ghost use Rattle.reql_feed_spec.specs.declared.kind.FeedKind.TheVariants as kinds;
ghost use Rattle.reql_feed_read.specs.Asked.{by_asked, first_in, kept_if, kept_index, kept_ordered, watch_if};
ghost use Rattle.reql_feed_read.specs.Follows.{OrderReads, indexes_in};
ghost use Rattle.reql_feed_read.specs.Seen.{order_of, ordered_of, part_of};
ghost use Rattle.reql_term.specs.Views.{index_of};

use crate::first::{Ordered, first_of};
use crate::follows::Follows;
use crate::index::is_same;
use crate::order::Order;
use reql_datum::Memory;
use reql_operand::same_text;
use reql_table::IndexDef;
use reql_table_spec::FeedSpec;
use std::alloc::Global;

// By primary keys.
fn primary(ordered: &Ordered, most: u32) -> Result<Order, Memory>
    ensures order { IfOk result (λ o. order_of o ≡ record { index = None; part = part_of ordered.now.part; down = ordered.now.down; most = most }) }
    ensures index { IfOk result (λ o. o.index ≡ None) }
{
    Ok(Order {
        index: None,
        part: ordered.part.copy()?,
        down: ordered.down,
        most,
    })
}

// By an index.
fn filed(def: &IndexDef, ordered: &Ordered, most: u32) -> Result<Order, Memory>
    ensures order { IfOk result (λ o. order_of o ≡ record { index = Some (index_of def.now); part = part_of ordered.now.part; down = ordered.now.down; most = most }) }
    ensures index { IfOk result (λ o. o.index ≡ Some def.now) }
{
    Ok(Order {
        index: Some(def.copy()?),
        part: ordered.part.copy()?,
        down: ordered.down,
        most,
    })
}

#[tactic(auto, using(crate::proofs::Orders::not_found, crate::proofs::Orders::is_multi, crate::proofs::Orders::by_its_index))]
fn by_index(def: &IndexDef, ordered: &Ordered, most: u32) -> Result<Follows, Memory>
    ensures { IfOk result (λ f. OrderReads f (Some def.now) (kinds.Limit most)
        (watch_if (kinds.Limit most) (kept_index (ordered_of ordered.now) most
        (find ordered.now.name (indexes_in (Some def.now)))))) }
{
    if !same_text(ordered.name.as_str(), def.name.as_str()) {
        return Ok(Follows::Nothing);
    }
    if def.multi {
        return Ok(Follows::Nothing);
    }
    let order = filed(def, ordered, most)?;
    Ok(Follows::First(order))
}

#[tactic(auto, using(crate::proofs::Orders::by_primary_keys, crate::proofs::Orders::by_no_index, crate::proofs::Orders::by_index))]
fn by_order(
    spec: &FeedSpec,
    index: &Option<IndexDef>,
    ordered: &Ordered,
    most: u32,
) -> Result<Follows, Memory>
    ensures { IfOk result (λ f. OrderReads f index.now (kinds.Limit most)
        (watch_if (kinds.Limit most) (kept_ordered spec.now.key (indexes_in index.now) most
        (ordered_of ordered.now)))) }
{
    if same_text(ordered.name.as_str(), spec.key.as_str()) {
        let order = primary(ordered, most)?;
        return Ok(Follows::First(order));
    }
    match index {
        None => Ok(Follows::Nothing),
        Some(def) => {
            let follows = by_index(def, ordered, most)?;
            Ok(follows)
        }
    }
}

// Where it is by the index of the request.
fn if_asked(
    spec: &FeedSpec,
    index: &Option<IndexDef>,
    ordered: &Ordered,
    most: u32,
) -> Result<Follows, Memory>
    ensures { IfOk result (λ f. OrderReads f index.now (kinds.Limit most)
        (watch_if (kinds.Limit most) (kept_if spec.now.key (indexes_in index.now) most
        (by_asked spec.now.index (Some (ordered_of ordered.now)))))) }
{
    if !is_same(Some(&ordered.name), spec.index.as_ref()) {
        return Ok(Follows::Nothing);
    }
    let follows = by_order(spec, index, ordered, most)?;
    Ok(follows)
}

/// What a request for the first so many follows that is kept with an index.
pub(crate) fn read_order(
    alloc: Global,
    spec: &FeedSpec,
    index: &Option<IndexDef>,
    most: u32,
) -> Result<Follows, Memory>
    ensures { IfOk result (λ f. OrderReads f index.now (kinds.Limit most)
        (watch_if (kinds.Limit most) (kept_if spec.now.key (indexes_in index.now) most
        (by_asked spec.now.index (first_in spec.now.key most spec.now.shape))))) }
{
    match first_of(alloc, &spec.key, most, spec.shape.term())? {
        None => Ok(Follows::Nothing),
        Some(ordered) => {
            let follows = if_asked(spec, index, &ordered, most)?;
            Ok(follows)
        }
    }
}
