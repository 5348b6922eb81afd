// What kind of sequence a term gives, by what its first argument is.
ghost use Rattle.std.specs.Prelude.{◌≡◌};
ghost use Rattle.reql_value_spec.specs.Meant.{meant_of};
ghost use Rattle.reql_value_spec.specs.Sequenced.{like as like_of, alike as alike_of, in_order as in_order_of, selected as selected_of};
ghost use Rattle.reql_value_spec.specs.World.{World as Seen};
ghost use Rattle.reql_operand.specs.Seen.{meant, shown, rows as rows_of};

use crate::value::{Arg, Rows, Value};
use crate::wanted::value_of;
use reql_datum::{Datum, Items};

fn like_value(source: &Value, items: Items) -> Value
    ensures { (w : Seen) → meant w result ≡ like_of (meant w source.now) items }
{
    match source {
        Value::One(_) => Value::One(Datum::List(items)),
        _ => Value::Stream(items),
    }
}

/// An array where the first argument is one value, else a stream.
pub fn like(source: &Arg, items: Items) -> Value
    ensures { (w : Seen) → meant w result ≡ like_of (meant_of (shown w source.now)) items }
{
    match value_of(source) {
        Some(value) => like_value(value, items),
        None => Value::Stream(items),
    }
}

fn selected(rows: Rows) -> Rows
    ensures { rows_of result ≡ selected_of (rows_of rows) }
{
    rows
}

fn alike_value(source: &Value, items: Items) -> Value
    ensures { (w : Seen) → meant w result ≡ alike_of (meant w source.now) items }
{
    match source {
        Value::One(_) => Value::One(Datum::List(items)),
        Value::Selection {
            slot,
            rows,
            list: _,
        } => Value::Selection {
            slot: *slot,
            rows: selected(*rows),
            list: items,
        },
        Value::Unread {
            slot,
            slice: _,
            range: _,
        } => Value::Selection {
            slot: *slot,
            rows: Rows::InSequence,
            list: items,
        },
        Value::Table(slot) => Value::Selection {
            slot: *slot,
            rows: Rows::InSequence,
            list: items,
        },
        _ => Value::Stream(items),
    }
}

/// The same, but a selection stays one.
pub fn alike(source: &Arg, items: Items) -> Value
    ensures { (w : Seen) → meant w result ≡ alike_of (meant_of (shown w source.now)) items }
{
    match value_of(source) {
        Some(value) => alike_value(value, items),
        None => Value::Stream(items),
    }
}

fn ordered_value(source: &Value, items: Items) -> Value
    ensures { (w : Seen) → meant w result ≡ in_order_of (meant w source.now) items }
{
    match source {
        Value::Selection {
            slot,
            rows: _,
            list: _,
        } => Value::Selection {
            slot: *slot,
            rows: Rows::InArray,
            list: items,
        },
        Value::Unread {
            slot,
            slice: _,
            range: _,
        } => Value::Selection {
            slot: *slot,
            rows: Rows::InArray,
            list: items,
        },
        Value::Table(slot) => Value::Selection {
            slot: *slot,
            rows: Rows::InArray,
            list: items,
        },
        _ => Value::One(Datum::List(items)),
    }
}

/// Rows that print as an array where the first argument has rows, else an array.
pub fn in_order(source: &Arg, items: Items) -> Value
    ensures { (w : Seen) → meant w result ≡ in_order_of (meant_of (shown w source.now)) items }
{
    match value_of(source) {
        Some(value) => ordered_value(value, items),
        None => Value::One(Datum::List(items)),
    }
}
