// Counts and places as numbers.
ghost use Rattle.std.specs.Prelude.{◌≡◌, ◌≤◌, ◌<◌, ◌^◌, pos, negsuc, IfOk, MatchResult};
ghost use Rattle.reql_datum.specs.Outcome.{Gives};
ghost use Rattle.reql_datum.specs.View.{plain};
ghost use Rattle.reql_rules.specs.Places.{as_count as as_count_of, counted_as as counted_as_of};

use reql_datum::{Datum, Fault, Whole};
use reql_operand::negative_count;
use std::alloc::Global;

/// A number from 0 on as it is, and a negative one as the place from the end that it stands for: of
/// -1 it is 0.
pub(crate) fn front_or_back(n: Whole) -> Result<usize, usize>
    ensures { MatchResult result (λ k. n ≡ pos k) (λ k. n ≡ negsuc k) }
{
    let n = n.get();
    if n >= 0 {
        return Ok(n as usize);
    }
    Err((-(n + 1)) as usize)
}

/// How many are taken or passed over.
pub(crate) fn as_count(alloc: Global, n: Whole) -> Result<usize, Fault>
    ensures { Gives (λ k. k) result (as_count_of n) }
{
    match front_or_back(n) {
        Ok(count) => Ok(count),
        Err(_) => Err(Fault::QueryLogic(negative_count(alloc)?)),
    }
}

/// A count or a place as a number; above the range it is the greatest number.
pub(crate) fn counted_as(count: u64) -> Datum
    ensures { plain result ≡ counted_as_of count }
{
    let within = count.min(9007199254740992) as i64;
    match Whole::new(within) {
        Some(n) => Datum::Num(n),
        None => unreachable!(),
    }
}
