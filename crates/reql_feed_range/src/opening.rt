// The value of a range feed on a whole table.
ghost use Rattle.std.specs.Prelude.{◌≡◌, [], ◌∷◌, ◌++◌, ◌+◌, ◌<◌, ◌^◌, drop, IfOk, MatchOption, OnSome, List, option_map};
ghost use Rattle.std.specs.List.{flat_map, zip};
ghost use Rattle.reql_datum.specs.View.{plain};
ghost use Rattle.reql_feed_spec.specs.Feeds.{one_key, all_given, nothing, opened_from, opening_items};
ghost use Rattle.reql_feed_spec.specs.Shown.{opening, or_null};
ghost use Rattle.reql_feed_spec.specs.Value.{contribution, range_value};
ghost use Rattle.reql_feed_range.specs.Feed.{GivesAll};
ghost use Rattle.reql_feed_read.specs.Follows.{shape_of};
ghost use Rattle.reql_feed_range.specs.Printed.{shows};
ghost use Rattle.reql_table.specs.Seen.{documents_of};
ghost use Rattle.reql_term.specs.Views.{Document};

use crate::alone::contribution;
use crate::printed::Printer;
use reql_bag::in_order;
use reql_datum::{Datum, Items, Memory};
use reql_feed_read::RangeShape;
use reql_table::{Entries, Range, Table, TableView};
use reql_table_spec::FeedKind;
use reql_term::Bound;
use std::alloc::Global;

// The range of all keys.
fn all_keys() -> Range
    ensures { GivesAll result }
{
    Range {
        index: None,
        low: Bound {
            value: Datum::Low,
            is_open: false,
        },
        high: Bound {
            value: Datum::High,
            is_open: false,
        },
        down: false,
    }
}

// The keys of a range of all, with their documents.
fn keyed(alloc: Global, table: &Table, range: &Range) -> Result<Entries, Memory>
    requires all { GivesAll range.now }
    ensures { IfOk result (λ e. zip e.values e.documents ≡ documents_of table.now) }
{
    match table.entries_between(alloc, range) {
        Ok(found) => Ok(found),
        Err(_) => Err(Memory),
    }
}

// All keys, with their documents.
fn all_documents(alloc: Global, table: &Table) -> Result<Entries, Memory>
    ensures { IfOk result (λ e. zip e.values e.documents ≡ documents_of table.now) }
{
    let range = all_keys();
    let found = keyed(alloc, table, &range)?;
    Ok(found)
}

#[tactic(auto, using(crate::proofs::Documents::zip_ends, crate::proofs::Documents::zip_stops, crate::proofs::Documents::zip_goes))]
fn document_at(all: &Entries, place: usize) -> Option<(&Datum, &Datum)>
    ensures rest { MatchOption result (drop place (zip all.now.values all.now.documents) ≡ [])
        (λ m. drop place (zip all.now.values all.now.documents)
        ≡ (plain m.0.now, plain m.1.now) ∷ drop (place + 1) (zip all.now.values all.now.documents)) }
    ensures place_fits { OnSome result (place < 2 ^ 63) }
{
    let Some(key) = all.values.at(place) else {
        return None;
    };
    let Some(doc) = all.documents.at(place) else {
        return None;
    };
    Some((key, doc))
}

#[tactic(auto, using(reql_datum::proofs::Walks::walks))]
fn append(all: &mut Items, part: &Items) -> Result<(), Memory>
    ensures { IfOk result (λ _. all.new ≡ all.old ++ part.now) }
{
    let mut place = 0;
    while let Some(item) = part.at(place) {
        all.push(item.copy()?)?;
        place += 1;
    }
    Ok(())
}

// What all documents add.
#[tactic(auto, using(crate::proofs::Documents::part_more, reql_datum::proofs::Walks::walks))]
fn parts_of(alloc: Global, shape: &RangeShape, all: &Entries) -> Result<Items, Memory>
    ensures { IfOk result (λ r. r ≡ flat_map (contribution (shape_of shape.now))
        (zip all.now.values all.now.documents)) }
{
    let mut parts = Items::new(alloc);
    let mut place = 0;
    while let Some((key, doc)) = document_at(all, place) {
        let part = contribution(alloc, shape, key, doc)?;
        append(&mut parts, &part)?;
        place += 1;
    }
    Ok(parts)
}

// All that a range shape gives of a table, each document by itself, in order.
#[tactic(auto, using(crate::proofs::Documents::value_found))]
fn value_of(alloc: Global, shape: &RangeShape, table: &Table) -> Result<Items, Memory>
    ensures { IfOk result (λ r. r ≡ range_value (shape_of shape.now) (documents_of table.now)) }
{
    let all = all_documents(alloc, table)?;
    let parts = parts_of(alloc, shape, &all)?;
    let value = in_order(alloc, parts)?;
    Ok(value)
}

// Adds the opening item of a value.
fn open_with(
    alloc: Global,
    printer: &Printer,
    items: &mut Items,
    place: usize,
    value: &Datum,
) -> Result<(), Memory>
    ensures { IfOk result (λ _. items.new ≡ items.old
        ++ opening (shows printer.now.offsets printer.now.types) place (plain value.now) ∷ []) }
{
    let item = printer.opening(alloc, place, value)?;
    items.push(item)?;
    Ok(())
}

// The opening items of values.
#[tactic(auto, using(crate::proofs::Documents::opened_more, reql_datum::proofs::Walks::walks))]
fn openings(alloc: Global, printer: &Printer, values: &Items) -> Result<Items, Memory>
    ensures { IfOk result (λ r. r ≡ opened_from (shows printer.now.offsets printer.now.types) 0 values.now) }
{
    let mut items = Items::with_room(alloc, values.len())?;
    let mut place = 0;
    while let Some(value) = values.at(place) {
        open_with(alloc, printer, &mut items, place, value)?;
        place += 1;
    }
    Ok(items)
}

fn open_one(alloc: Global, printer: &Printer, doc: Option<&Datum>) -> Result<Items, Memory>
    ensures { IfOk result (λ r. r ≡ opening (shows printer.now.offsets printer.now.types) 0
        (or_null (option_map (λ d. plain d.now) doc.entry)) ∷ []) }
{
    let null = Datum::Null;
    let mut items = Items::new(alloc);
    open_with(alloc, printer, &mut items, 0, doc.unwrap_or(&null))?;
    Ok(items)
}

/// What the feed of a key opens with: the document, or null.
pub(crate) fn open_key(
    alloc: Global,
    printer: &Printer,
    key: &Datum,
    table: &Table,
) -> Result<Items, Memory>
    ensures { IfOk result (λ r. r ≡ opening_items (one_key (plain key.now))
        (shows printer.now.offsets printer.now.types) (documents_of table.now)) }
{
    let items = open_one(alloc, printer, table.get(key))?;
    Ok(items)
}

/// What the feed of a range opens with: each of its values, in order.
pub(crate) fn open_shape(
    alloc: Global,
    printer: &Printer,
    shape: &RangeShape,
    table: &Table,
) -> Result<Items, Memory>
    ensures { IfOk result (λ r. r ≡ opening_items (all_given (shape_of shape.now))
        (shows printer.now.offsets printer.now.types) (documents_of table.now)) }
{
    let value = value_of(alloc, shape, table)?;
    let items = openings(alloc, printer, &value)?;
    Ok(items)
}

/// What a feed of nothing opens with: null where it is one of a key.
pub(crate) fn open_nothing(
    alloc: Global,
    printer: &Printer,
    kind: FeedKind,
) -> Result<Items, Memory>
    ensures { IfOk result (λ r. (docs : List Document) → r ≡ opening_items (nothing kind)
        (shows printer.now.offsets printer.now.types) docs) }
{
    if let FeedKind::Point = kind {
        let items = open_one(alloc, printer, None)?;
        return Ok(items);
    }
    Ok(Items::new(alloc))
}
