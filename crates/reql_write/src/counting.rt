// How many of the documents that a write treated came to each outcome, and its first error.
ghost use Rattle.std.specs.Prelude.{◌≡◌, ◌∷◌, [], ◌≤◌, IfOk, map};
ghost use Rattle.reql_write_spec.specs.Write.{count as count_of, errors_in, first};
ghost use Rattle.reql_write.specs.Counting.{is_of};
ghost use Rattle.reql_write.specs.Seen.{seen};

use crate::treated::Treated;
use reql_datum::{Memory, Name};

/// What counts by itself in a summary.
#[derive(Clone, Copy, Drop)]
pub(crate) enum Outcome {
    Deleted,
    Failed,
    Inserted,
    Replaced,
    Skipped,
    Unchanged,
}

// 1 where it came to this outcome, else 0.
fn one_if(treated: &Treated, outcome: Outcome) -> u64
    ensures counted { result ≡ count_of (is_of outcome) (seen treated.now ∷ []) }
    ensures at_most_one { result ≤ 1 }
{
    match (treated, outcome) {
        (Treated::Deleted { key: _, old: _ }, Outcome::Deleted) => 1,
        (Treated::Failed { why: _, old: _ }, Outcome::Failed) => 1,
        (Treated::Inserted { key: _, new: _ }, Outcome::Inserted) => 1,
        (
            Treated::Replaced {
                key: _,
                old: _,
                new: _,
            },
            Outcome::Replaced,
        ) => 1,
        (Treated::Skipped, Outcome::Skipped) => 1,
        (Treated::Unchanged(_), Outcome::Unchanged) => 1,
        _ => 0,
    }
}

/// How many came to an outcome.
#[tactic(auto, using(crate::proofs::Counts::counts_on))]
pub(crate) fn count(treated: &[Treated], outcome: Outcome) -> u64
    ensures { result ≡ count_of (is_of outcome) (map seen treated.now) }
{
    let mut sum = 0;
    for one in treated {
        sum += one_if(one, outcome);
    }
    sum
}

/// The text of the first error.
pub(crate) fn first_error(treated: &[Treated]) -> Result<Option<Name>, Memory>
    ensures { IfOk result (λ e. e ≡ first (errors_in (map seen treated.now))) }
{
    for one in treated {
        if let Some(why) = one.error() {
            return Ok(Some(why.copy()?));
        }
    }
    Ok(None)
}
