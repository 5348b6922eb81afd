// What a feed is told of a change.
ghost use Rattle.std.specs.Prelude.{◌≡◌, [], ◌&&◌, not, map, IfOk, Some, None, option_map, if◌then◌else◌};
ghost use Rattle.reql_datum.specs.View.{plain};
ghost use Rattle.reql_rules.specs.Types.{same};
ghost use Rattle.reql_feed_spec.specs.Items.{point_items, range_items, present};
ghost use Rattle.reql_feed_spec.specs.Shown.{shown, or_null as or_null_of};
ghost use Rattle.reql_feed_spec.specs.Value.{contribution_at};
ghost use Rattle.reql_feed_read.specs.Follows.{shape_of};
ghost use Rattle.reql_feed_range.specs.Printed.{shows, behind};

use crate::alone::contribution_at;
use crate::printed::Printer;
use reql_bag::difference;
use reql_datum::{Datum, Items, Memory, compare};
use reql_feed_read::RangeShape;
use reql_table::Change;
use std::alloc::Global;

fn lent(doc: &Option<Datum>) -> Option<&Datum>
    ensures { option_map (λ d. plain d.now) result ≡ option_map plain doc.now }
{
    match doc {
        Some(doc) => Some(doc),
        None => None,
    }
}

// Whether two documents are equal, where null stands for none.
fn are_same(old: Option<&Datum>, new: Option<&Datum>) -> bool
    ensures { result ≡ same (or_null_of (option_map (λ d. plain d.now) old.entry))
        (or_null_of (option_map (λ d. plain d.now) new.entry)) }
{
    let null = Datum::Null;
    compare(old.unwrap_or(&null), new.unwrap_or(&null)).is_eq()
}

fn not_null<'a>(doc: Option<&'a Datum>) -> Option<&'a Datum>
    ensures { option_map (λ d. plain d.now) result
        ≡ present (or_null_of (option_map (λ d. plain d.now) doc.entry)) }
{
    match doc {
        Some(Datum::Null) => None,
        _ => doc,
    }
}

// The item of a document that became another.
fn shown_change(
    alloc: Global,
    printer: &Printer,
    old: Option<&Datum>,
    new: Option<&Datum>,
) -> Result<Items, Memory>
    ensures { IfOk result (λ r. r ≡ map (shown (shows printer.now.offsets printer.now.types))
        (point_items (or_null_of (option_map (λ d. plain d.now) old.entry))
        (or_null_of (option_map (λ d. plain d.now) new.entry)))) }
{
    let mut items = Items::new(alloc);
    if are_same(old, new) {
        return Ok(items);
    }
    let item = printer.item(alloc, not_null(old), not_null(new))?;
    items.push(item)?;
    Ok(items)
}

/// What the feed of a key is told: nothing of another key.
pub(crate) fn point_change(
    alloc: Global,
    printer: &Printer,
    key: &Datum,
    change: &Change,
) -> Result<Items, Memory>
    ensures { IfOk result (λ r. r ≡ (if same (plain key.now) (plain change.now.key)
        then map (shown (shows printer.now.offsets printer.now.types)) (point_items
        (or_null_of (option_map plain change.now.old))
        (or_null_of (option_map plain change.now.new))) else [])) }
{
    if compare(key, &change.key).is_eq() {
        return shown_change(alloc, printer, lent(&change.old), lent(&change.new));
    }
    Ok(Items::new(alloc))
}

// The key that items are queued behind.
fn key_of<'a>(printer: &Printer, squash: bool, change: &'a Change) -> Option<&'a Datum>
    ensures { option_map (λ d. plain d.now) result
        ≡ (if squash && not printer.now.offsets then Some (plain change.now.key) else None) }
{
    if squash && !printer.offsets {
        return Some(&change.key);
    }
    None
}

/// What the feed of a range is told: the difference of what the document added and what it adds.
pub(crate) fn range_change(
    alloc: Global,
    printer: &Printer,
    squash: bool,
    shape: &RangeShape,
    change: &Change,
) -> Result<Items, Memory>
    ensures { IfOk result (λ r. r ≡ map (behind (shows printer.now.offsets printer.now.types)
        (if squash && not printer.now.offsets then Some (plain change.now.key) else None))
        (range_items
        (contribution_at (shape_of shape.now) (plain change.now.key)
        (option_map plain change.now.old))
        (contribution_at (shape_of shape.now) (plain change.now.key)
        (option_map plain change.now.new)))) }
{
    let olds = contribution_at(alloc, shape, &change.key, lent(&change.old))?;
    let news = contribution_at(alloc, shape, &change.key, lent(&change.new))?;
    let parted = difference(alloc, &olds, &news)?;
    let key = key_of(printer, squash, change);
    let items = printer.pairs(alloc, key, &parted.left, &parted.came)?;
    Ok(items)
}
