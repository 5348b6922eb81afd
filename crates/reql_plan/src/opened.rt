// A feed that was opened, and copies of what was asked for.
ghost use Rattle.std.specs.Prelude.{◌≡◌, ◌∷◌, ◌++◌, [], IfOk, map, cond};
ghost use Rattle.reql_plan_results.specs.Seen.{opened as seen};
ghost use Rattle.reql_plan_context.specs.Seen.{held};
ghost use Rattle.reql_plan_changes.specs.Seen.{asked};
ghost use Rattle.reql_plan_spec.specs.Course.{is_among, name_or_empty};
ghost use Rattle.reql_plan_spec.specs.Request.{give, refuse};
ghost use Rattle.reql_rules.specs.Faults.{misplaced};
ghost use Rattle.reql_plan_state.specs.Rest.{feeds_rest};
ghost use Rattle.reql_plan_state.specs.Turn.{Turns};

use crate::feeds::subscribe;
use reql_datum::{Memory, Name, Seq};
use reql_plan_changes::Feeding;
use reql_plan_context::Held;
use reql_plan_results::Open;
use reql_plan_spec::Opening;
use reql_plan_state::{Turn, lost};
use reql_table_spec::FeedSpec;
use reql_term::TableView;
use std::alloc::Global;

// A feed's number is its own: one that is open already never comes again.
pub(crate) fn opened_as<V: TableView + Drop>(
    alloc: Global,
    e: Held<V>,
    feeding: Feeding,
    before: Seq<Open>,
    place: usize,
    new: Open,
) -> Result<Turn<V>, Memory>
    ensures { let k = held V.documents V.indexes V.entries e in
        Turns V.documents V.indexes V.entries result
        (cond (is_among new.slot new.feed (map seen before)) (refuse misplaced)
        (give (seen new))
        (λ x. feeds_rest k (asked feeding) (map seen before ++ x ∷ []) place)) }
{
    if is_among(new.slot, new.feed, &before) {
        return lost(alloc);
    }
    let opened = with_open(before, new)?;
    subscribe(alloc, e, feeding, opened, place)
}

fn is_among(slot: u32, feed: u64, before: &Seq<Open>) -> bool
    ensures { result ≡ is_among slot feed (map seen before.now) }
{
    let mut place = 0;
    while let Some(known) = before.at(place) {
        if known.slot == slot && known.feed == feed {
            return true;
        }
        place += 1;
    }
    false
}

#[tactic(auto, using(crate::proofs::Closed::map_join))]
fn with_open(before: Seq<Open>, new: Open) -> Result<Seq<Open>, Memory>
    ensures { IfOk result (λ os. map seen os ≡ map seen before ++ seen new ∷ []) }
{
    let mut opened = before;
    match opened.push(new) {
        Ok(()) => Ok(opened),
        Err(_) => Err(Memory),
    }
}

pub(crate) fn copied_opening(opening: &Opening) -> Result<Opening, Memory>
    ensures { IfOk result (λ o. o ≡ opening.now) }
{
    Ok(Opening {
        slot: opening.slot,
        spec: copied_spec(&opening.spec)?,
    })
}

pub(crate) fn copied_spec(spec: &FeedSpec) -> Result<FeedSpec, Memory>
    ensures { IfOk result (λ s. s ≡ spec.now) }
{
    Ok(FeedSpec {
        key: spec.key.copy()?,
        shape: spec.shape.copy()?,
        index: copied_name(&spec.index)?,
        kind: spec.kind,
        size: spec.size,
        offsets: spec.offsets,
        types: spec.types,
        squash: spec.squash,
    })
}

fn copied_name(name: &Option<Name>) -> Result<Option<Name>, Memory>
    ensures { IfOk result (λ n. n ≡ name.now) }
{
    match name {
        None => Ok(None),
        Some(name) => Ok(Some(name.copy()?)),
    }
}

pub(crate) fn name_or_empty(alloc: Global, name: &Option<Name>) -> Result<Name, Memory>
    ensures { IfOk result (λ n. n ≡ name_or_empty name.now) }
{
    match name {
        None => Name::of(alloc, ""),
        Some(name) => name.copy(),
    }
}
