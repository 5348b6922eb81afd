// Whether what was sent to a feed folds.
ghost use Rattle.std.specs.Prelude.{◌↔◌, map, IfOk, IsTrue};
ghost use Rattle.reql_table_spec.specs.Engines.{kept_of};
ghost use Rattle.reql_table_spec.specs.Table.{held};
ghost use Rattle.reql_table.specs.Seen.{documents_of, indexes_of};
ghost use Rattle.reql_tally.specs.Views.{FoldsOver, given};

use crate::advancing::advanced;
use crate::hearing::Heard;
use crate::sent::{Whose, latest, sent_to, skips};
use crate::values::value_on;
use reql_core::Opening;
use reql_load::fold_check;
use reql_memory::Memory;
use reql_table::Table;
use reql_table_spec::FeedSpec;
use std::alloc::Global;

/// Whether the items of a feed that was opened on the table, after so many changes, fold over its
/// value there to its value after the last change of which it was told.
pub(crate) fn folds<F: Opening>(
    alloc: Global,
    whose: Whose,
    spec: &FeedSpec,
    table: Table,
    stamp: u64,
    heard: &Heard,
) -> Result<bool, Memory>
    ensures { IfOk result (λ folds. IsTrue folds
        ↔ FoldsOver (held (indexes_of table) spec.now) (documents_of table)
        (map kept_of heard.now.changes.items) (map given heard.now.batches.items)
        whose.owner whose.number stamp) }
{
    if skips(whose, &heard.batches) {
        return Ok(false);
    }
    let items = sent_to(alloc, whose, &heard.batches)?;
    let last = latest(stamp, &items);
    let opening = value_on::<F>(alloc, spec, &table)?;
    let later = advanced(table, &heard.changes, stamp, last)?;
    let wanted = value_on::<F>(alloc, spec, &later)?;
    let folds = fold_check(alloc, &opening, &items, &wanted)?;
    Ok(folds)
}
