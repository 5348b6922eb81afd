// Looks for a key: its value, its neighbours, and how many keys are below it.
ghost use Rattle.std.specs.Prelude.{◌≡◌, ◌+◌, ◌≤◌, length, option_map};
ghost use Rattle.std.specs.List.{count_by};
ghost use Rattle.reql_datum.specs.View.{plain};
ghost use Rattle.reql_ptree.specs.Next.{behind, next_of, prev_of};
ghost use Rattle.reql_ptree.specs.Pairs.{find};
ghost use Rattle.reql_ptree.specs.Seen.{pair_seen};
ghost use Rattle.reql_ptree.specs.Tall.{tall};

use crate::around::way_to;
use crate::seek::{chunk_cut, chunk_next, chunk_prev, chunk_value, first_pair};
use crate::side::Side;
use crate::steps::Steps;
use reql_datum::Datum;

pub(crate) fn value_in<'a, L>(
    side: &'a Side,
    key: &Datum,
    steps: &mut Steps<L>,
) -> Option<&'a Datum>
    ensures found { option_map (λ d. plain d.now) result ≡ find (plain key.now) side.now.0 }
    ensures counted { steps.new ≤ steps.old + tall (length side.now.0) }
{
    let _facts = side.height();
    let around = way_to(side, key, true, steps);
    match around.below {
        None => None,
        Some(chunk) => chunk_value(chunk, key, steps),
    }
}

pub(crate) fn next_in<'a, L>(
    side: &'a Side,
    key: &Datum,
    past: bool,
    steps: &mut Steps<L>,
) -> Option<(&'a Datum, &'a Datum)>
    ensures found { option_map pair_seen result ≡ next_of (plain key.now) past side.now.0 }
    ensures counted { steps.new ≤ steps.old + tall (length side.now.0) }
{
    let _facts = side.height();
    let around = way_to(side, key, past, steps);
    let Some(chunk) = around.below else {
        return first_pair(around.above);
    };
    match chunk_next(chunk, key, past, steps) {
        None => first_pair(around.above),
        Some(found) => Some(found),
    }
}

pub(crate) fn prev_in<'a, L>(
    side: &'a Side,
    key: &Datum,
    past: bool,
    steps: &mut Steps<L>,
) -> Option<(&'a Datum, &'a Datum)>
    ensures found { option_map pair_seen result ≡ prev_of (plain key.now) past side.now.0 }
    ensures counted { steps.new ≤ steps.old + tall (length side.now.0) }
{
    let _facts = side.height();
    let around = way_to(side, key, !past, steps);
    match around.below {
        None => None,
        Some(chunk) => chunk_prev(chunk, key, past, steps),
    }
}

pub(crate) fn count_in<L>(side: &Side, key: &Datum, at: bool, steps: &mut Steps<L>) -> u64
    ensures found { result ≡ count_by (behind (plain key.now) at) side.now.0 }
    ensures counted { steps.new ≤ steps.old + tall (length side.now.0) }
{
    let _facts = side.height();
    let around = way_to(side, key, at, steps);
    match around.below {
        None => around.passed,
        Some(chunk) => around.passed - chunk.len() + chunk_cut(chunk, key, at, steps),
    }
}
