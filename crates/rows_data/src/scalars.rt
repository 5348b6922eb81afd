// Numbers, bytes and times.
use reql_datum::{Blob, Datum, Items, Memory, Moment, NumFault, Seq, Whole};
use rows_reader::{number, shown, word};
use std::alloc::Global;

fn whole_at(args: &Items, place: usize) -> Option<Whole> {
    Whole::new(number(args.at(place)?)?)
}

fn refusal(fault: NumFault) -> &'static str {
    match fault {
        NumFault::OverRange => "OverRange",
        NumFault::NotWhole => "NotWhole",
        NumFault::ZeroDivisor => "ZeroDivisor",
    }
}

fn told(alloc: Global, outcome: Result<Whole, NumFault>) -> Option<String> {
    match outcome {
        Ok(n) => format!(in alloc; "{}", n.get()).ok(),
        Err(fault) => word(alloc, refusal(fault)),
    }
}

fn arithmetic(alloc: Global, call: &str, a: Whole, b: Whole) -> Option<String> {
    match call {
        "add" => told(alloc, a.add(b)),
        "sub" => told(alloc, a.sub(b)),
        "mul" => told(alloc, a.mul(b)),
        "div" => told(alloc, a.div(b)),
        "rem" => told(alloc, a.rem(b)),
        _ => None,
    }
}

fn byte(document: &Datum) -> Option<u8> {
    u8::try_from(number(document)?).ok()
}

fn blob(alloc: Global, seq: Seq<u8>) -> Result<Blob, Memory> {
    Blob::of(alloc, seq.into_vec().as_slice())
}

fn bytes(alloc: Global, args: &Items) -> Option<String> {
    let mut seq = Seq::new(alloc);
    for item in args.as_slice() {
        seq.push(byte(item)?).ok()?;
    }
    shown(alloc, &Datum::Binary(blob(alloc, seq).ok()?))
}

fn time(alloc: Global, args: &Items) -> Option<String> {
    let zone = i16::try_from(number(args.at(1)?)?).ok()?;
    match Moment::of(whole_at(args, 0)?, zone) {
        Some(moment) => shown(alloc, &Datum::Time(moment)),
        None => word(alloc, "none"),
    }
}

/// `add`, `sub`, `mul`, `div` and `rem` of two numbers; `bytes` of bytes that are pushed to a list, as
/// a binary; `time` of seconds and minutes of a zone.
pub(crate) fn scalar_call(alloc: Global, call: &str, args: &Items) -> Option<String> {
    match call {
        "bytes" => bytes(alloc, args),
        "time" => time(alloc, args),
        _ => arithmetic(alloc, call, whole_at(args, 0)?, whole_at(args, 1)?),
    }
}

/// `whole` of a number of 64 bits: itself, or `none` outside the range.
pub(crate) fn whole_call(alloc: Global, call: &str, source: &str) -> Option<String> {
    if call != "whole" {
        return None;
    }
    match Whole::new(source.parse::<i64>().ok()?) {
        Some(n) => format!(in alloc; "{}", n.get()).ok(),
        None => word(alloc, "none"),
    }
}
