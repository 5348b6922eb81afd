// What terms give that read no table and no variable from outside.
ghost use Rattle.std.specs.Prelude.{◌≡◌, [], Bool, IfOk, option_map};
ghost use Rattle.reql_datum.specs.Answer.{Answer};
ghost use Rattle.reql_datum.specs.Outcome.{Gives, Fails};
ghost use Rattle.reql_datum.specs.Plain.{Plain};
ghost use Rattle.reql_datum.specs.View.{plain};
ghost use Rattle.reql_feed_read.specs.Asked.{as_bound, bound_in, closed_meaning, sides_in};
ghost use Rattle.reql_feed_read.specs.Shapes.{given};
ghost use Rattle.reql_table_spec.specs.Followed.{closed_options, options};
ghost use Rattle.reql_operand.specs.Seen.{all_chosen, meant};
ghost use Rattle.reql_term.specs.Form.{named_of};
ghost use Rattle.reql_term.specs.View.{form_of};
ghost use Rattle.reql_value_spec.specs.Meaning.{value};
ghost use Rattle.reql_value_spec.specs.Tables.{key_if, may_bound as may_bound_of};
ghost use Rattle.reql_value_spec.specs.Wanted.{left_is_open as left_is_open_of, right_is_open as right_is_open_of};
ghost use Rattle.reql_value_spec.specs.World.{bare_world};

use crate::free::{Scope, is_free};
use crate::point::{datum_of, nothing};
use reql_datum::{Datum, Fault, Memory};
use reql_eval::eval;
use reql_operand::{Arg, Choice, Value, left_is_open, misplaced, right_is_open};
use reql_term::{Term, TermFields};
use reql_term_analysis::Vars;
use std::alloc::Global;

fn given_alone(alloc: Global, term: &Term) -> Result<Value, Fault>
    ensures { Gives (meant bare_world) result (value (form_of term.now) bare_world []) }
{
    let world = nothing(alloc);
    let found = eval(alloc, term, &world, &Vars::Empty)?;
    Ok(found)
}

// What a term gives where it reads nothing from outside.
fn closed(alloc: Global, term: &Term) -> Result<Value, Fault>
    ensures { Gives (meant bare_world) result (closed_meaning (form_of term.now)) }
{
    if !is_free(term, &Scope::Outside) {
        return Err(Fault::QueryLogic(misplaced(alloc)?));
    }
    given_alone(alloc, term)
}

// What options give, each by itself.
#[tactic(auto, using(crate::proofs::Choices::choices, reql_datum::proofs::Walks::walks))]
fn closed_all(alloc: Global, opts: &TermFields) -> Result<Vec<Choice>, Fault>
    ensures { Gives (λ v. all_chosen bare_world v.items) result
        (closed_options (options (named_of opts.now))) }
{
    let mut choices = Vec::new(alloc);
    let mut place = 0;
    while let Some((name, term)) = opts.at(place) {
        let value = closed(alloc, term)?;
        choices.push(Choice {
            name: name.copy()?,
            arg: Arg::Value(value),
        })?;
        place += 1;
    }
    Ok(choices)
}

fn bottom_is_open(alloc: Global, choices: &[Choice]) -> Result<bool, Fault>
    ensures { Gives (λ b. b) result (left_is_open_of (all_chosen bare_world choices.now)) }
{
    left_is_open(alloc, choices)
}

fn top_is_open(alloc: Global, choices: &[Choice]) -> Result<bool, Fault>
    ensures { Gives (λ b. b) result (right_is_open_of (all_chosen bare_world choices.now)) }
{
    right_is_open(alloc, choices)
}

#[tactic(auto, using(crate::proofs::Choices::sides))]
fn sides_of(alloc: Global, opts: &TermFields) -> Result<(bool, bool), Fault>
    ensures { Gives (λ s. s) result (sides_in (options (named_of opts.now))) }
{
    let choices = closed_all(alloc, opts)?;
    let bottom_open = bottom_is_open(alloc, &choices)?;
    let top_open = top_is_open(alloc, &choices)?;
    Ok((bottom_open, top_open))
}

// A fault gives no sides; want of memory is handed on.
fn no_sides(fault: &Fault) -> Result<Option<(bool, bool)>, Memory>
    ensures { (a : Answer (Bool × Bool)) → Fails fault.now a → IfOk result (λ o. o ≡ given a) }
{
    match fault {
        Fault::Memory => Err(Memory),
        _ => Ok(None),
    }
}

/// Whether BETWEEN leaves its bottom out, and whether its top; none where its options fault.
pub(crate) fn sides(alloc: Global, opts: &TermFields) -> Result<Option<(bool, bool)>, Memory>
    ensures { IfOk result (λ o. o ≡ given (sides_in (options (named_of opts.now)))) }
{
    match sides_of(alloc, opts) {
        Ok(sides) => Ok(Some(sides)),
        Err(fault) => {
            let none = no_sides(&fault);
            drop(fault);
            none
        }
    }
}

fn may_bound(value: &Datum) -> bool
    ensures { result ≡ may_bound_of (plain value.now) }
{
    match value {
        Datum::Null => false,
        _ => true,
    }
}

fn if_bound(value: &Datum) -> Result<Option<Datum>, Memory>
    ensures { IfOk result (λ o. option_map plain o
        ≡ given (key_if may_bound_of (plain value.now))) }
{
    if may_bound(value) {
        return Ok(Some(value.copy()?));
    }
    Ok(None)
}

fn no_bound(fault: &Fault) -> Result<Option<Datum>, Memory>
    ensures { (a : Answer Plain) → Fails fault.now a
        → IfOk result (λ o. option_map plain o ≡ given (as_bound a)) }
{
    match fault {
        Fault::Memory => Err(Memory),
        _ => Ok(None),
    }
}

fn bound_of(answer: &Result<Datum, Fault>) -> Result<Option<Datum>, Memory>
    ensures { (a : Answer Plain) → Gives plain answer.now a
        → IfOk result (λ o. option_map plain o ≡ given (as_bound a)) }
{
    match answer {
        Ok(value) => if_bound(value),
        Err(fault) => no_bound(fault),
    }
}

/// The bound that a term is; none where it faults, reads something from outside, or is null.
pub(crate) fn bound(alloc: Global, term: &Term) -> Result<Option<Datum>, Memory>
    ensures { IfOk result (λ o. option_map plain o ≡ given (bound_in (form_of term.now))) }
{
    if !is_free(term, &Scope::Outside) {
        return Ok(None);
    }
    let answer = datum_of(alloc, term);
    bound_of(&answer)
}
