// The counts of limit feeds.
ghost use Rattle.std.specs.Prelude.{◌≡◌, map};
ghost use Rattle.reql_datum.specs.Outcome.{Gives};
ghost use Rattle.reql_term.specs.View.{form_of};
ghost use Rattle.reql_plan_spec.specs.Feeding.{natural as natural_of, count_in as count_in_of, limit_test as limit_test_of};
ghost use Rattle.reql_plan_changes.specs.Tests.{count_tested};

use crate::literals::number_in;
use crate::texts::over_limit;
use reql_datum::{Fault, Whole};
use reql_operand::{misplaced, negative_count};
use reql_term::Term;
use std::alloc::Global;

// A count that a limit feed may have.
fn natural(alloc: Global, number: Whole) -> Result<u32, Fault>
    ensures { Gives (λ n. n) result (natural_of number) }
{
    let count = number.get();
    if count < 0 {
        return Err(Fault::QueryLogic(negative_count(alloc)?));
    }
    if count <= 100_000 {
        return Ok(count as u32);
    }
    Err(Fault::ResourceLimit(over_limit(alloc)?))
}

/// The count of a limit feed.
pub(crate) fn count_in(alloc: Global, term: &Term) -> Result<u32, Fault>
    ensures { Gives (λ n. n) result (count_in_of (form_of term.now)) }
{
    let number = number_in(alloc, term)?;
    natural(alloc, number)
}

fn count_test(alloc: Global, count: &Term) -> Result<(), Fault>
    ensures { Gives (λ u. u) result (count_tested (form_of count.now)) }
{
    let _count = count_in(alloc, count)?;
    Ok(())
}

/// The test of LIMIT.
pub(crate) fn limit_test(alloc: Global, terms: &[Term]) -> Result<(), Fault>
    ensures { Gives (λ u. u) result (limit_test_of (map form_of terms.now)) }
{
    match terms {
        [] => Err(Fault::QueryLogic(misplaced(alloc)?)),
        [_] => Err(Fault::QueryLogic(misplaced(alloc)?)),
        [_, count] => count_test(alloc, count),
        [_, _, _, ..] => Err(Fault::QueryLogic(misplaced(alloc)?)),
    }
}
