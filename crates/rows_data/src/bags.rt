// Bags of documents.
use reql_bag::{Parted, difference, in_order};
use reql_datum::{Datum, Items, Memory};
use rows_reader::{list, shown};
use std::alloc::Global;

fn parted(alloc: Global, olds: Items, news: Items) -> Result<Parted, Memory> {
    let olds = in_order(alloc, olds)?;
    let news = in_order(alloc, news)?;
    difference(alloc, &olds, &news)
}

fn told(alloc: Global, args: &Items) -> Option<String> {
    let olds = list(args.at(0)?)?.copy().ok()?;
    let news = list(args.at(1)?)?.copy().ok()?;
    let parted = parted(alloc, olds, news).ok()?;
    let left = shown(alloc, &Datum::List(parted.left))?;
    let came = shown(alloc, &Datum::List(parted.came))?;
    format!(in alloc; "left {left}, came {came}").ok()
}

fn rising(alloc: Global, args: &Items) -> Option<String> {
    let items = in_order(alloc, args.copy().ok()?).ok()?;
    shown(alloc, &Datum::List(items))
}

/// `in_order`, the documents in order with repeats; `difference` of two lists, what left the one and
/// what came with the other, counted with repeats.
pub(crate) fn bag_call(alloc: Global, call: &str, args: &Items) -> Option<String> {
    match call {
        "in_order" => rising(alloc, args),
        "difference" => told(alloc, args),
        _ => None,
    }
}
