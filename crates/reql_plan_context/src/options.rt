// The optional arguments of a command.
ghost use Rattle.std.specs.Prelude.{◌≡◌, Some, map, option_and_then};
ghost use Rattle.reql_datum.specs.Outcome.{Gives};
ghost use Rattle.reql_term.specs.Form.{named_of};
ghost use Rattle.reql_operand.specs.Seen.{choice, meant, shown};
ghost use Rattle.reql_operand.specs.Tables.{seen};
ghost use Rattle.reql_value_spec.specs.Wanted.{seen as seen_of, value_in};
ghost use Rattle.reql_value_spec.specs.World.{World as Seen};
ghost use Rattle.reql_plan_spec.specs.Settled.{truth_in, options_given as options_given_of, truth_given as truth_given_of, truth_option as truth_option_of};

use crate::evaluated::meant_of;
use reql_datum::{Datum, Fault};
use reql_operand::{Arg, Choice, Value, World, bad_option, find_choice, value_of};
use reql_term::{TableView, TermFields};
use std::alloc::Global;

/// The optional arguments, evaluated by rising name.
#[tactic(auto, using(reql_datum::proofs::Walks::walks))]
pub fn options_given<V: TableView>(
    alloc: Global,
    world: &World<V>,
    opts: &TermFields,
) -> Result<Vec<Choice>, Fault>
    ensures { let w = seen V.documents V.indexes V.entries world.now in
        Gives (λ os. map (choice w) os.items) result (options_given_of w (named_of opts.now)) }
{
    let mut given = Vec::new(alloc);
    let mut place = 0;
    while let Some((name, term)) = opts.at(place) {
        let value = meant_of(alloc, world, term)?;
        given.push(Choice {
            name: name.copy()?,
            arg: Arg::Value(value),
        })?;
        place += 1;
    }
    Ok(given)
}

// The truth value that a value is.
fn truth_of(value: &Value) -> Option<bool>
    ensures { (w : Seen) → result ≡ option_and_then truth_in (value_in (meant w value.now)) }
{
    match value {
        Value::One(d) => match d {
            Datum::Bool(truth) => Some(*truth),
            _ => None,
        },
        _ => None,
    }
}

fn truth_in_arg(arg: &Arg) -> Option<bool>
    ensures { (w : Seen) → result ≡ option_and_then truth_in (seen_of (shown w arg.now)) }
{
    match value_of(arg) {
        Some(value) => truth_of(value),
        None => None,
    }
}

fn truth_given(alloc: Global, name: &str, arg: &Arg) -> Result<bool, Fault>
    ensures { (w : Seen) → Gives (λ b. b) result
        (truth_given_of name.now (Some (shown w arg.now))) }
{
    match truth_in_arg(arg) {
        Some(truth) => Ok(truth),
        None => Err(Fault::QueryLogic(bad_option(alloc, name)?)),
    }
}

/// The truth value that an optional argument is, false where it isn't given.
pub fn truth_option(alloc: Global, name: &str, opts: &[Choice]) -> Result<bool, Fault>
    ensures { (w : Seen) → Gives (λ b. b) result
        (truth_option_of name.now (map (choice w) opts.now)) }
{
    match find_choice(opts, name) {
        None => Ok(false),
        Some(arg) => truth_given(alloc, name, arg),
    }
}
