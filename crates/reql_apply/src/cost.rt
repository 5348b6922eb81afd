// What an operator costs by what its arguments gave, in units of a purse: what is counted of it beside
// the terms that are evaluated and the rows that are read.
use crate::kinds::{Kind, OnArray, OnFields, OnGroups, OnPart, OnSequence, Scalar};
use reql_datum::{Datum, Memory};
use reql_operand::{Arg, Value, World, count_elements, size_of};
use reql_term::TableView;
use std::alloc::Global;

fn size_of_value(value: &Value) -> u64 {
    match value {
        Value::One(d) => size_of(d),
        Value::Stream(items) => items.len() as u64,
        Value::Selection {
            slot: _,
            rows: _,
            list,
        } => list.len() as u64,
        Value::Grouped(groups) => groups.len() as u64,
        Value::Row {
            slot: _,
            key: _,
            document,
        } => match document {
            Some(d) => size_of(d),
            None => 1,
        },
        _ => 1,
    }
}

// How much it has that has been read.
fn size(arg: &Arg) -> u64 {
    match arg {
        Arg::Value(value) => size_of_value(value),
        _ => 1,
    }
}

fn sizes(args: &[Arg]) -> u64 {
    let mut sum: u64 = 0;
    for arg in args {
        sum = sum.saturating_add(size(arg));
    }
    sum
}

fn rows_there<V: TableView>(alloc: Global, value: &Value, world: &World<V>) -> u64 {
    match count_elements(alloc, value, world) {
        Ok(count) => count,
        Err(_) => 0,
    }
}

fn elements_of<V: TableView>(alloc: Global, value: &Value, world: &World<V>) -> u64 {
    match value {
        Value::One(d) => match d {
            Datum::List(items) => items.len() as u64,
            _ => 1,
        },
        Value::Table(_) => rows_there(alloc, value, world),
        Value::Unread {
            slot: _,
            slice: _,
            range: _,
        } => rows_there(alloc, value, world),
        Value::Row {
            slot: _,
            key: _,
            document: _,
        } => 1,
        _ => size_of_value(value),
    }
}

// How many elements it has, and rows that haven't been read; of what is no sequence 1.
fn elements<V: TableView>(alloc: Global, arg: &Arg, world: &World<V>) -> u64 {
    match arg {
        Arg::Value(value) => elements_of(alloc, value, world),
        _ => 1,
    }
}

// Each element of the first, with all others.
fn each_with_others<V: TableView>(alloc: Global, args: &[Arg], world: &World<V>) -> u64 {
    match args {
        [] => 1,
        [first, others @ ..] => elements(alloc, first, world).saturating_mul(sizes(others)),
    }
}

// The elements of the first, so many times.
fn each_element<V: TableView>(alloc: Global, args: &[Arg], world: &World<V>, times: u64) -> u64 {
    match args {
        [] => 1,
        [first, ..] => elements(alloc, first, world).saturating_mul(times),
    }
}

// No more is looked at of two than the lesser has.
fn lesser(args: &[Arg]) -> u64 {
    match args {
        [] => 1,
        [first, others @ ..] => size(first).min(sizes(others)),
    }
}

fn number(arg: &Arg) -> i64 {
    match arg {
        Arg::Value(value) => match value {
            Value::One(d) => match d {
                Datum::Num(n) => n.get(),
                _ => 0,
            },
            _ => 0,
        },
        _ => 0,
    }
}

// How many numbers a range has, where it isn't refused for having too many.
fn numbers(args: &[Arg]) -> u64 {
    let far = match args {
        [to] => number(to),
        [from, to] => number(to).saturating_sub(number(from)),
        _ => 0,
    };
    if far < 0 || far > 1_000_000 {
        return 0;
    }
    far as u64
}

fn is_number(arg: &Arg) -> bool {
    match arg {
        Arg::Value(value) => match value {
            Value::One(d) => match d {
                Datum::Num(_) => true,
                _ => false,
            },
            _ => false,
        },
        _ => false,
    }
}

// Brackets with a number take one element.
fn of_bracket<V: TableView>(alloc: Global, args: &[Arg], world: &World<V>) -> u64 {
    match args {
        [first, at] => {
            if is_number(at) {
                return 1;
            }
            elements(alloc, first, world)
        }
        _ => 1,
    }
}

// Edits of one object, or of each element: by what there is in it, and in those that are named.
fn of_edits<V: TableView>(alloc: Global, args: &[Arg], world: &World<V>) -> u64 {
    sizes(args)
        .max(each_with_others(alloc, args, world))
        .saturating_mul(2)
}

fn of_fields<V: TableView>(alloc: Global, op: OnFields, args: &[Arg], world: &World<V>) -> u64 {
    match op {
        OnFields::GetField | OnFields::Bracket => of_bracket(alloc, args, world),
        OnFields::Keys | OnFields::Values | OnFields::Object => sizes(args),
        _ => of_edits(alloc, args, world),
    }
}

// A count of one argument reads none of its elements, but the characters of a text.
fn of_count<V: TableView>(alloc: Global, args: &[Arg], world: &World<V>) -> u64 {
    match args {
        [only] => match only {
            Arg::Value(Value::One(Datum::Text(_))) => size(only),
            _ => 1,
        },
        _ => each_with_others(alloc, args, world),
    }
}

// An order by an index alone reads nothing.
fn of_order<V: TableView>(alloc: Global, args: &[Arg], world: &World<V>) -> u64 {
    if args.len() < 2 {
        return 1;
    }
    each_element(alloc, args, world, (args.len() as u64).saturating_mul(4))
}

fn of_sequence<V: TableView>(alloc: Global, op: OnSequence, args: &[Arg], world: &World<V>) -> u64 {
    match op {
        OnSequence::Contains | OnSequence::OffsetsOf | OnSequence::Filter => {
            each_with_others(alloc, args, world)
        }
        OnSequence::Count => of_count(alloc, args, world),
        OnSequence::OrderBy => of_order(alloc, args, world),
        _ => sizes(args),
    }
}

fn of_part<V: TableView>(alloc: Global, op: OnPart, args: &[Arg], world: &World<V>) -> u64 {
    match op {
        OnPart::Nth | OnPart::IsEmpty => 1,
        OnPart::Range => numbers(args).saturating_mul(2),
        OnPart::Distinct => each_element(alloc, args, world, 4),
        _ => sizes(args),
    }
}

fn of_groups<V: TableView>(alloc: Global, op: OnGroups, args: &[Arg], world: &World<V>) -> u64 {
    match op {
        OnGroups::Group => each_element(alloc, args, world, 8),
        _ => sizes(args),
    }
}

fn of_scalar(op: Scalar, args: &[Arg]) -> u64 {
    match op {
        Scalar::Comparison(_) => lesser(args),
        Scalar::Arithmetic(_) | Scalar::CoerceTo => sizes(args),
        Scalar::MakeArray => args.len() as u64,
        _ => 1,
    }
}

fn of_array(op: OnArray, args: &[Arg]) -> u64 {
    match op {
        OnArray::SetInsert | OnArray::AsSets(_) => sizes(args).saturating_mul(4),
        _ => sizes(args),
    }
}

fn cost<V: TableView>(alloc: Global, kind: Kind, args: &[Arg], world: &World<V>) -> u64 {
    match kind {
        Kind::Scalar(op) => of_scalar(op, args),
        Kind::OnArray(op) => of_array(op, args),
        Kind::OnFields(op) => of_fields(alloc, op, args, world),
        Kind::OnTable(_) => args.len() as u64,
        Kind::OnSequence(op) => of_sequence(alloc, op, args, world),
        Kind::OnPart(op) => of_part(alloc, op, args, world),
        Kind::OnGroups(op) => of_groups(alloc, op, args, world),
        Kind::Misplaced => 1,
    }
}

/// Pays for an operator on what its arguments gave. Memory where the purse of the request has less in it.
pub(crate) fn pay<V: TableView>(
    alloc: Global,
    kind: Kind,
    args: &[Arg],
    world: &World<V>,
) -> Result<(), Memory> {
    world.purse.spend(cost(alloc, kind, args, world))
}
