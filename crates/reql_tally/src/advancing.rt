// A table after changes.
ghost use Rattle.std.specs.Prelude.{◌≡◌, [], ◌∷◌, ◌+◌, map, drop, option_map, MatchOption, IfOk};
ghost use Rattle.reql_datum.specs.View.{plain};
ghost use Rattle.reql_feed_spec.specs.Feeds.{changed_by};
ghost use Rattle.reql_table_spec.specs.Engines.{kept_of};
ghost use Rattle.reql_table.specs.Edits.{told};
ghost use Rattle.reql_table.specs.Seen.{documents_of, indexes_of};
ghost use Rattle.reql_tally.specs.Views.{docs_after};

use reql_datum::Datum;
use reql_memory::Memory;
use reql_table::{Change, Table};
use reql_table_spec::Kept;

fn copy_of(value: &Option<Datum>) -> Result<Option<Datum>, Memory>
    ensures { IfOk result (λ copy. option_map plain copy ≡ option_map plain value.now) }
{
    match value {
        None => Ok(None),
        Some(value) => {
            let copy = value.copy()?;
            Ok(Some(copy))
        }
    }
}

// A change, for who needs nothing of what was there.
fn change_of(kept: &Kept) -> Result<Change, Memory>
    ensures { IfOk result (λ c. (plain c.key, option_map plain c.new) ≡ kept_of kept.now) }
{
    Ok(Change {
        key: kept.key.copy()?,
        old: None,
        new: copy_of(&kept.new)?,
    })
}

fn advance(table: &mut Table, kept: &Kept) -> Result<(), Memory>
    ensures documents { IfOk result (λ _. documents_of table.new
        ≡ changed_by (documents_of table.old) (kept_of kept.now ∷ [])) }
    ensures indexes { IfOk result (λ _. indexes_of table.new ≡ indexes_of table.old) }
{
    let change = change_of(kept)?;
    table.apply(&change)
}

fn kept_at(changes: &[Kept], place: u64) -> Option<&Kept>
    ensures { MatchOption result (drop place changes.now ≡ [])
        (λ k. drop place changes.now ≡ k.now ∷ drop (place + 1) changes.now) }
{
    changes.get(place as usize)
}

fn change_at(changes: &[Kept], place: u64) -> Option<&Kept>
    ensures { MatchOption result (drop place (map kept_of changes.now) ≡ [])
        (λ k. drop place (map kept_of changes.now)
        ≡ kept_of k.now ∷ drop (place + 1) (map kept_of changes.now)) }
{
    kept_at(changes, place)
}

/// The table after the changes that stand from one place to another.
#[tactic(auto, using(crate::proofs::Advances::at_the_end, crate::proofs::Advances::no_more))]
pub(crate) fn advanced(table: Table, changes: &[Kept], from: u64, to: u64) -> Result<Table, Memory>
    ensures documents { IfOk result (λ t. documents_of t
        ≡ docs_after (documents_of table) (map kept_of changes.now) from to) }
    ensures indexes { IfOk result (λ t. indexes_of t ≡ indexes_of table) }
{
    let mut now = table;
    let mut place = from;
    while place < to {
        let Some(kept) = change_at(changes, place) else {
            return Ok(now);
        };
        advance(&mut now, kept)?;
        place += 1;
    }
    Ok(now)
}
