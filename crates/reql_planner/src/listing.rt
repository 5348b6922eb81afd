// The arms of a feed, and its first items.
ghost use Rattle.std.specs.Prelude.{◌≡◌, IfOk, map};
ghost use Rattle.reql_plan_results.specs.Seen.{arm, item};
ghost use Rattle.reql_session_api.specs.Meant.{arm_of as arm_said, arms_of as arms_said};
ghost use Rattle.reql_query_session_spec.specs.Told.{arm_of as arm_told};
ghost use Rattle.reql_planner.specs.Items.{bare_of, bare_in};

use reql_datum::Memory;
use reql_plan_results::{Arm as OpenArm, Item};
use reql_session_api::{Arm, Shown, Sort};
use std::alloc::Global;

/// The arms of a feed that was opened.
pub(crate) fn arms_of(alloc: Global, known: &[OpenArm]) -> Result<Vec<Arm>, Memory>
    ensures { IfOk result (λ arms. arms_said arms.items ≡ map arm_told (map arm known.now)) }
{
    let mut arms = Vec::new(alloc);
    for one in known {
        arms.push(arm_of(one)?)?;
    }
    Ok(arms)
}

fn arm_of(known: &OpenArm) -> Result<Arm, Memory>
    ensures { IfOk result (λ a. arm_said a ≡ arm_told (arm known.now)) }
{
    Ok(Arm {
        slot: known.slot,
        feed: known.feed,
        dropped: known.dropped.copy()?,
    })
}

/// Its first items.
pub(crate) fn items_of(alloc: Global, first: &[Item]) -> Result<Vec<Shown>, Memory>
    ensures { IfOk result (λ items. map bare_of items.items ≡ map bare_in (map item first.now)) }
{
    let mut items = Vec::new(alloc);
    for one in first {
        items.push(item_of(one)?)?;
    }
    Ok(items)
}

// Places of more than 2^32 arms aren't made.
fn item_of(first: &Item) -> Result<Shown, Memory>
    ensures { IfOk result (λ x. bare_of x ≡ bare_in (item first.now)) }
{
    let at = place_of(first.arm)?;
    let shown = first.shown.copy()?;
    if first.is_state {
        return Ok(Shown {
            at,
            sort: Sort::State,
            stamp: first.stamp,
            item: shown,
        });
    }
    Ok(Shown {
        at,
        sort: Sort::Opening,
        stamp: first.stamp,
        item: shown,
    })
}

fn place_of(arm: u64) -> Result<u32, Memory>
    ensures { IfOk result (λ n. n ≡ arm) }
{
    match u32::try_from(arm) {
        Ok(place) => Ok(place),
        Err(_) => Err(Memory),
    }
}
