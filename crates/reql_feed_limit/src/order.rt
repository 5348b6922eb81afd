// The bounds of an order, as two pairs.
ghost use Rattle.std.specs.Prelude.{◌≡◌, false, is_some, IfOk};
ghost use Rattle.reql_datum.specs.Plain.{low, high};
ghost use Rattle.reql_datum.specs.View.{plain};
ghost use Rattle.reql_table.specs.Keys.{before as before_of, after as after_of, low_end as low_end_of, high_end as high_end_of};
ghost use Rattle.reql_feed_limit.specs.Bounded.{bounds_of};
ghost use Rattle.reql_feed_limit.specs.Order.{bounds_at, bounds_in};
ghost use Rattle.reql_feed_limit.specs.Seen.{order_of, part_of};

use crate::bounds::Bounds;
use reql_datum::{Datum, Items, Memory};
use reql_feed_read::{Order, Part};
use std::alloc::Global;

/// The pairs between which the part of an order lies.
pub(crate) fn bounds(alloc: Global, order: &Order) -> Result<Bounds, Memory>
    ensures { IfOk result (λ b. bounds_of b ≡ bounds_in (order_of order.now)) }
{
    bounds_at(alloc, order.index.is_some(), &order.part)
}

fn bounds_at(alloc: Global, filed: bool, part: &Part) -> Result<Bounds, Memory>
    ensures { IfOk result (λ b. bounds_of b ≡ bounds_at filed (part_of part.now)) }
{
    match part {
        Part::Whole => Ok(whole()),
        Part::Between {
            bottom,
            bottom_open,
            top,
            top_open,
        } => {
            if filed {
                return filed_between(alloc, bottom, *bottom_open, top, *top_open);
            }
            Ok(Bounds {
                bottom: bottom.copy()?,
                bottom_open: *bottom_open,
                top: top.copy()?,
                top_open: *top_open,
            })
        }
    }
}

fn whole() -> Bounds
    ensures { bounds_of result ≡ record { bottom = low; bottom_open = false; top = high; top_open = false } }
{
    Bounds {
        bottom: Datum::Low,
        bottom_open: false,
        top: Datum::High,
        top_open: false,
    }
}

// Of an index: a pair has the value and the primary key, so the ends stand before or after all of them.
fn filed_between(
    alloc: Global,
    bottom: &Datum,
    bottom_open: bool,
    top: &Datum,
    top_open: bool,
) -> Result<Bounds, Memory>
    ensures { IfOk result (λ b. bounds_of b ≡ record { bottom = low_end_of bottom_open (plain bottom.now); bottom_open = false; top = high_end_of top_open (plain top.now); top_open = false }) }
{
    Ok(Bounds {
        bottom: low_end(alloc, bottom_open, bottom)?,
        bottom_open: false,
        top: high_end(alloc, top_open, top)?,
        top_open: false,
    })
}

// Before the pairs of a value.
fn before(alloc: Global, value: &Datum) -> Result<Datum, Memory>
    ensures { IfOk result (λ d. plain d ≡ before_of (plain value.now)) }
{
    let mut parts = Items::with_room(alloc, 1)?;
    parts.push(value.copy()?)?;
    Ok(Datum::List(parts))
}

// After the pairs of a value.
fn after(alloc: Global, value: &Datum) -> Result<Datum, Memory>
    ensures { IfOk result (λ d. plain d ≡ after_of (plain value.now)) }
{
    let mut parts = Items::with_room(alloc, 3)?;
    parts.push(value.copy()?)?;
    parts.push(Datum::High)?;
    parts.push(Datum::Null)?;
    Ok(Datum::List(parts))
}

fn low_end(alloc: Global, is_open: bool, value: &Datum) -> Result<Datum, Memory>
    ensures { IfOk result (λ d. plain d ≡ low_end_of is_open (plain value.now)) }
{
    if is_open {
        after(alloc, value)
    } else {
        before(alloc, value)
    }
}

fn high_end(alloc: Global, is_open: bool, value: &Datum) -> Result<Datum, Memory>
    ensures { IfOk result (λ d. plain d ≡ high_end_of is_open (plain value.now)) }
{
    if is_open {
        before(alloc, value)
    } else {
        after(alloc, value)
    }
}
