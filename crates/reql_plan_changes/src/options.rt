// The options of CHANGES.
ghost use Rattle.std.specs.Prelude.{map, option_map, codes};
ghost use Rattle.reql_datum.specs.Members.{find};
ghost use Rattle.reql_datum.specs.Outcome.{Gives};
ghost use Rattle.reql_term.specs.Form.{named_of};
ghost use Rattle.reql_term.specs.View.{form_of};
ghost use Rattle.reql_operand.specs.Seen.{choice};
ghost use Rattle.reql_value_spec.specs.World.{World as Seen};
ghost use Rattle.reql_plan_spec.specs.Feeding.{literal_truth as literal_truth_of, size_given as size_given_of, told as told_of};
ghost use Rattle.reql_plan_results.specs.Seen.{told as told_seen};
ghost use Rattle.reql_plan_changes.specs.Tests.{size_in as size_in_of};

use reql_datum::{Datum, Fault, Whole};
use reql_operand::{Choice, bad_option, find_choice, number_in_arg};
use reql_plan_context::{option_at, truth_option};
use reql_plan_results::Told;
use reql_term::{Term, TermFields};
use std::alloc::Global;

// The truth value that a literal option is, false where it isn't given.
fn literal_truth(alloc: Global, name: &str, term: Option<&Term>) -> Result<bool, Fault>
    ensures { Gives (λ b. b) result
        (literal_truth_of name.now (option_map (λ t. form_of t.now) term.entry)) }
{
    match term {
        None => Ok(false),
        Some(Term::Lit(Datum::Bool(truth))) => Ok(*truth),
        Some(_) => Err(Fault::QueryLogic(bad_option(alloc, name)?)),
    }
}

fn size_in(alloc: Global, number: Option<Whole>) -> Result<u32, Fault>
    ensures { Gives (λ n. n) result (size_in_of number) }
{
    let Some(given) = number else {
        return Err(Fault::QueryLogic(bad_option(alloc, "changefeed_queue_size")?));
    };
    let size = given.get();
    if 1 <= size && size <= 1_000_000 {
        return Ok(size as u32);
    }
    Err(Fault::QueryLogic(bad_option(alloc, "changefeed_queue_size")?))
}

// How many items wait at most.
#[tactic(auto, using(crate::proofs::Sizes::size_by_number))]
fn size_given(alloc: Global, opts: &[Choice]) -> Result<u32, Fault>
    ensures { (w : Seen) → Gives (λ n. n) result
        (size_given_of (find (codes "changefeed_queue_size") (map (choice w) opts.now))) }
{
    match find_choice(opts, "changefeed_queue_size") {
        None => Ok(100_000),
        Some(arg) => size_in(alloc, number_in_arg(arg)),
    }
}

/// How the items of the feed are given.
pub(crate) fn told(alloc: Global, fields: &TermFields, opts: &[Choice]) -> Result<Told, Fault>
    ensures { (w : Seen) → Gives told_seen result
        (told_of (named_of fields.now) (map (choice w) opts.now)) }
{
    let squash = literal_truth(alloc, "squash", option_at(fields, "squash"))?;
    let size = size_given(alloc, opts)?;
    let initial = truth_option(alloc, "include_initial", opts)?;
    let states = truth_option(alloc, "include_states", opts)?;
    let offsets = literal_truth(
        alloc,
        "include_offsets",
        option_at(fields, "include_offsets"),
    )?;
    let types = truth_option(alloc, "include_types", opts)?;
    Ok(Told {
        size,
        initial,
        states,
        types,
        offsets,
        squash,
    })
}
