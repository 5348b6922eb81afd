// What is tested of a term before its arguments are read.
ghost use Rattle.std.specs.Prelude.{◌≡◌};
ghost use Rattle.reql_read.specs.Apart.{names_in};
ghost use Rattle.reql_read.specs.Outcome.{Understands};
ghost use Rattle.reql_read.specs.Reading.{op_named, counted, all_taken, checked};
ghost use Rattle.reql_read.specs.Seen.{seen, optional, option_names};

use crate::fault::ReadFault;
use reql_datum::Name;
use reql_term::Op;
use serde_json::{Map, Value};
use std::alloc::Global;

/// The operator of a number.
#[tactic(auto, unfolding(crate::specs::Reading::op_named))]
pub(crate) fn op_named(number: u64) -> Result<Op, ReadFault>
    ensures { Understands (λ op. op) result (op_named number) }
{
    if number < 1 || number > 255 {
        return Err(ReadFault::UnknownTerm(number));
    }
    match Op::of(number as u32) {
        Some(op) => Ok(op),
        None => Err(ReadFault::LeftOut(number as u32)),
    }
}

/// Refuses a wrong count of arguments.
#[tactic(auto, unfolding(crate::specs::Reading::counted))]
pub(crate) fn counted(op: Op, count: usize) -> Result<(), ReadFault>
    ensures { Understands (λ t. t) result (counted op count) }
{
    if op.fits(count) {
        return Ok(());
    }
    let shown = if count > 0xffff_ffff {
        0xffff_ffff
    } else {
        count as u32
    };
    Err(ReadFault::Arity(op.number(), shown))
}

/// Refuses the first name that is none of the operator's optional arguments.
pub(crate) fn all_taken(
    alloc: Global,
    op: Op,
    options: Option<&Map<String, Value>>,
) -> Result<(), ReadFault>
    ensures { Understands (λ t. t) result (all_taken op (names_in (optional options.entry))) }
{
    match options {
        Some(members) => members_taken(alloc, op, members),
        None => Ok(()),
    }
}

fn members_taken(alloc: Global, op: Op, members: &Map<String, Value>) -> Result<(), ReadFault>
    ensures { Understands (λ t. t) result (all_taken op (names_in (seen members.now))) }
{
    for (key, _) in members.iter() {
        if !op.takes(key.as_str()) {
            return Err(ReadFault::BadOptarg(Name::of(alloc, key.as_str())?));
        }
    }
    Ok(())
}

/// The operator of a term with so many arguments and these optional ones.
pub(crate) fn checked(
    alloc: Global,
    number: u64,
    count: usize,
    options: Option<&Map<String, Value>>,
) -> Result<Op, ReadFault>
    ensures { Understands (λ op. op) result (checked number count (option_names options.entry)) }
{
    let op = op_named(number)?;
    counted(op, count)?;
    all_taken(alloc, op, options)?;
    Ok(op)
}
