// What the call of a row gives.
use crate::bags::bag_call;
use crate::documents::document_call;
use crate::edits::edit_call;
use crate::reading::reading_call;
use crate::scalars::{scalar_call, whole_call};
use crate::sizes::size_call;
use crate::spread::spread_call;
use crate::terms::term_call;
use crate::trees::tree_call;
use reql_bag::bag_laws;
use reql_datum::{Items, order_laws, zone_laws};
use reql_json::json_laws;
use rows_reader::{Answers, Row, arguments, word};
use std::alloc::Global;

/// The calls of the crates of data.
pub(crate) struct Calls;

impl Answers for Calls {
    fn answer(&self, alloc: Global, row: &Row<'_>) -> Option<String> {
        if row.call == "laws" {
            return laws(alloc, row.arguments);
        }
        if let Some(told) = reading_call(alloc, row.call, row.arguments) {
            return Some(told);
        }
        if let Some(told) = whole_call(alloc, row.call, row.arguments) {
            return Some(told);
        }
        let args = arguments(alloc, row.arguments)?;
        if let Some(told) = plain_call(alloc, row.call, &args) {
            return Some(told);
        }
        made_call(alloc, row.call, &args)
    }
}

// Calls on what the arguments are.
fn plain_call(alloc: Global, call: &str, args: &Items) -> Option<String> {
    if let Some(told) = scalar_call(alloc, call, args) {
        return Some(told);
    }
    if let Some(told) = document_call(alloc, call, args) {
        return Some(told);
    }
    bag_call(alloc, call, args)
}

// Calls on what is made by the arguments.
fn made_call(alloc: Global, call: &str, args: &Items) -> Option<String> {
    if let Some(told) = edit_call(alloc, call, args) {
        return Some(told);
    }
    if let Some(told) = size_call(alloc, call, args) {
        return Some(told);
    }
    if let Some(told) = spread_call(alloc, call, args) {
        return Some(told);
    }
    if let Some(told) = term_call(alloc, call, args) {
        return Some(told);
    }
    tree_call(alloc, call, args)
}

// Calls the laws of a kind, which give nothing: a call says that they are there.
fn laws(alloc: Global, kind: &str) -> Option<String> {
    match kind {
        "order" => order_laws(),
        "zones" => zone_laws(),
        "json" => json_laws(),
        "bags" => bag_laws(),
        _ => return None,
    }
    word(alloc, "hold")
}
