// Arithmetic on whole numbers, step by step from the left.
ghost use Rattle.std.specs.Prelude.{◌≡◌, drop};
ghost use Rattle.reql_datum.specs.Answer.{query_logic};
ghost use Rattle.reql_datum.specs.Outcome.{Gives};
ghost use Rattle.reql_rules.specs.Faults.{number_fault, misplaced};
ghost use Rattle.reql_rules.specs.Numbers.{exact};
ghost use Rattle.reql_scalar.specs.Steps.{step_of, onward, all_on};
ghost use Rattle.reql_scalar.specs.Told.{Tells};

use crate::wanted::as_number;
use reql_datum::{Fault, Items, Name, NumFault, Whole};
use reql_rules::Arith;
use std::alloc::Global;

/// The fault with a text.
pub(crate) fn query_logic(alloc: Global, text: &str) -> Fault
    ensures { Tells result (query_logic text.now) }
{
    match Name::of(alloc, text) {
        Ok(text) => Fault::QueryLogic(text),
        Err(_) => Fault::Memory,
    }
}

pub(crate) fn misplaced(alloc: Global) -> Fault
    ensures { Tells result misplaced }
{
    query_logic(alloc, "Misplaced term.")
}

/// What a client is told of arithmetic that gives no number.
pub(crate) fn number_fault(alloc: Global, fault: NumFault) -> Fault
    ensures { Tells result (number_fault fault) }
{
    match fault {
        NumFault::OverRange => query_logic(alloc, "Number outside the range of whole numbers."),
        NumFault::ZeroDivisor => query_logic(alloc, "Cannot divide by zero."),
        NumFault::NotWhole => query_logic(alloc, "Quotient is not a whole number."),
    }
}

fn step(op: Arith, left: Whole, right: Whole) -> Result<Whole, NumFault>
    ensures { result ≡ step_of op left right }
{
    match op {
        Arith::Add => left.add(right),
        Arith::Sub => left.sub(right),
        Arith::Mul => left.mul(right),
        Arith::Div => left.div(right),
        Arith::Mod => left.rem(right),
    }
}

/// One step more, where no step has failed yet.
pub(crate) fn onward(
    op: Arith,
    so_far: Result<Whole, NumFault>,
    next: Whole,
) -> Result<Whole, NumFault>
    ensures { result ≡ onward (step_of op) so_far next }
{
    match so_far {
        Ok(left) => step(op, left, next),
        Err(fault) => Err(fault),
    }
}

/// What the steps came to.
pub(crate) fn exact(alloc: Global, so_far: Result<Whole, NumFault>) -> Result<Whole, Fault>
    ensures { Gives (λ n. n) result (exact so_far) }
{
    match so_far {
        Ok(n) => Ok(n),
        Err(fault) => Err(number_fault(alloc, fault)),
    }
}

/// The steps from a number on, over the documents from a place on. A document that is no number is
/// told before any step that fails.
pub(crate) fn run_from(
    alloc: Global,
    op: Arith,
    start: Whole,
    args: &Items,
    from: usize,
) -> Result<Whole, Fault>
    ensures { Gives (λ n. n) result (all_on (step_of op) (Ok start) (drop from args.now)) }
{
    let mut so_far = Ok(start);
    let mut place = from;
    while let Some(item) = args.at(place) {
        so_far = onward(op, so_far, as_number(alloc, item)?);
        place += 1;
    }
    exact(alloc, so_far)
}
