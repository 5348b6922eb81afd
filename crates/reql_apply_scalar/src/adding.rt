// ADD, SUB, MUL, DIV and MOD.
ghost use Rattle.std.specs.Prelude.{◌≡◌, option_map};
ghost use Rattle.reql_datum.specs.Outcome.{Gives};
ghost use Rattle.reql_datum.specs.View.{plain};
ghost use Rattle.reql_value_spec.specs.Meant.{Calls, Options};
ghost use Rattle.reql_value_spec.specs.Scalars.{arithmetic as arithmetic_of};
ghost use Rattle.reql_value_spec.specs.Wanted.{seen as seen_of};
ghost use Rattle.reql_value_spec.specs.World.{World as Seen};
ghost use Rattle.reql_operand.specs.Seen.{shown, all_shown};
ghost use Rattle.reql_apply_scalar.specs.declared.adding.Want.TheVariants.{OneTime, TwoTimes};
ghost use Rattle.reql_apply_scalar.specs.Operands.{added_to, taken_from, want_of as want_of_of, after_time as after_time_of, after as after_of, operand as operand_of, operands as operands_of, run as run_of, on_operands as on_operands_of};

use reql_datum::{Datum, Fault, Items};
use reql_operand::{Arg, as_array, as_number, as_text, misplaced, time_in_arg, value_in, value_of};
use reql_rules::Arith;
use reql_scalar::arith;
use std::alloc::Global;

/// What arithmetic wants of its arguments.
#[derive(Clone, Copy)]
pub(crate) enum Want {
    Numbers,
    Texts,
    Arrays,
    /// A time or numbers, and after the time numbers alone.
    OneTime,
    TwoTimes,
}

fn datum_in(arg: &Arg) -> Option<&Datum>
    ensures { (w : Seen) → option_map (λ d. plain d.now) result ≡ seen_of (shown w arg.now) }
{
    match value_of(arg) {
        Some(value) => value_in(value),
        None => None,
    }
}

fn added_to(first: &Arg) -> Want
    ensures { (w : Seen) → result ≡ added_to (seen_of (shown w first.now)) }
{
    match datum_in(first) {
        Some(Datum::Text(_)) => Want::Texts,
        Some(Datum::List(_)) => Want::Arrays,
        Some(Datum::Time(_)) => Want::OneTime,
        _ => Want::Numbers,
    }
}

fn taken_from(first: &Arg) -> Want
    ensures { (w : Seen) → result ≡ taken_from (seen_of (shown w first.now)) }
{
    match datum_in(first) {
        Some(Datum::Time(_)) => Want::TwoTimes,
        _ => Want::Numbers,
    }
}

fn want_of(op: Arith, first: &Arg) -> Want
    ensures { (w : Seen) → result ≡ want_of_of op (seen_of (shown w first.now)) }
{
    match op {
        Arith::Add => added_to(first),
        Arith::Sub => taken_from(first),
        Arith::Mul | Arith::Div | Arith::Mod => Want::Numbers,
    }
}

fn after_time(want: Want) -> Want
    ensures { result ≡ after_time_of want }
{
    match want {
        Want::TwoTimes => Want::OneTime,
        _ => Want::Numbers,
    }
}

fn after(want: Want, d: &Datum) -> Want
    ensures { result ≡ after_of want (plain d.now) }
{
    match d {
        Datum::Time(_) => after_time(want),
        _ => want,
    }
}

fn timed(alloc: Global, arg: &Arg) -> Result<Datum, Fault>
    ensures one { (w : Seen) → Gives plain result (operand_of OneTime (shown w arg.now)) }
    ensures two { (w : Seen) → Gives plain result (operand_of TwoTimes (shown w arg.now)) }
{
    match time_in_arg(arg) {
        Some(moment) => Ok(Datum::Time(moment)),
        None => Ok(Datum::Num(as_number(alloc, arg)?)),
    }
}

// The document that an argument is, where it is of the type that is wanted.
fn operand(alloc: Global, want: Want, arg: &Arg) -> Result<Datum, Fault>
    ensures { (w : Seen) → Gives plain result (operand_of want (shown w arg.now)) }
{
    match want {
        Want::Numbers => Ok(Datum::Num(as_number(alloc, arg)?)),
        Want::Texts => Ok(Datum::Text(as_text(alloc, arg)?.copy()?)),
        Want::Arrays => Ok(Datum::List(as_array(alloc, arg)?.copy()?)),
        Want::OneTime => timed(alloc, arg),
        Want::TwoTimes => timed(alloc, arg),
    }
}

fn operands(alloc: Global, want: Want, args: &[Arg]) -> Result<Items, Fault>
    ensures { (w : Seen) → Gives (λ items. items) result
        (operands_of want (all_shown w args.now)) }
{
    let mut items = Items::with_room(alloc, args.len())?;
    let mut next = want;
    for arg in args {
        let d = operand(alloc, next, arg)?;
        next = after(next, &d);
        items.push(d)?;
    }
    Ok(items)
}

fn run(alloc: Global, op: Arith, want: Want, args: &[Arg]) -> Result<Datum, Fault>
    ensures { (w : Seen) → Gives plain result (run_of op want (all_shown w args.now)) }
{
    let items = operands(alloc, want, args)?;
    arith(alloc, op, &items)
}

fn on_operands(alloc: Global, op: Arith, args: &[Arg]) -> Result<Datum, Fault>
    ensures { (w : Seen) → Gives plain result (on_operands_of op (all_shown w args.now)) }
{
    match args {
        [] => Err(Fault::QueryLogic(misplaced(alloc)?)),
        [first, ..] => run(alloc, op, want_of(op, first), args),
    }
}

/// ADD, SUB, MUL, DIV and MOD. An argument of another type than the first asks for is a fault
/// before any arithmetic.
pub fn arithmetic(alloc: Global, op: Arith, args: &[Arg]) -> Result<Datum, Fault>
    ensures { (w : Seen) (calls : Calls) (opts : Options) → Gives plain result
        (arithmetic_of op w calls (all_shown w args.now) opts) }
{
    on_operands(alloc, op, args)
}
