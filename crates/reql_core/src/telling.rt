// Changes of a write are made on a share of the table, and a draft of the feeds is told of each.
ghost use Rattle.std.specs.Prelude.{◌≡◌, ℕ, ◌+◌, ◌<◌, ◌^◌, map, length, suc, IfOk, IfSome};
ghost use Rattle.reql_datum.specs.Order.{order};
ghost use Rattle.reql_memory.specs.Sorted.{AreRisingBy, find_by};
ghost use Rattle.reql_table.specs.Seen.{documents_of};
ghost use Rattle.reql_table_machine_spec.specs.Feeds.{notice, after_changes};
ghost use Rattle.reql_write_spec.specs.Laws.{AllCome};
ghost use Rattle.reql_write_spec.specs.Treated.{changed as changed_of, changed_by};
ghost use Rattle.reql_table_spec.specs.Table.{feeding};
ghost use Rattle.reql_feeds.specs.Ahead.{all_ahead};
ghost use Rattle.reql_feeds.specs.Record.{kept_in, records, AllFit};
ghost use Rattle.reql_feeds.specs.Turn.{told};
ghost use Rattle.reql_core.specs.Writing.{AreAt, with_feeds};

use reql_feeds::{Draft, Feeds, feeds_laws};
use reql_memory::Memory;
use reql_opening::Opening;
use reql_ptree::Tree;
use reql_table::Table;
use reql_write_spec::Change;
use std::alloc::Global;

/// The table after one change.
pub(crate) fn changed(table: &Table, change: &Change) -> Result<Table, Memory>
    ensures rising { AreRisingBy order (documents_of table.now) }
    ensures documents { IfOk result (λ t. documents_of t
        ≡ changed_of (documents_of table.now) (told change.now)) }
    ensures same { IfOk result (λ t. t.1 ≡ table.now.1) }
{
    let _rising = table.tree();
    let mut after = table.share()?;
    after.apply(change)?;
    Ok(after)
}

// The table after changes; `documents` are those after them, where the plan made them.
fn changed_by_all(
    table: &Table,
    changes: &[Change],
    documents: Option<Tree>,
) -> Result<Table, Memory>
    requires come { AllCome (documents_of table.now) (map told changes.now) }
    requires documents { IfSome documents (λ after. after
        ≡ changed_by (documents_of table.now) (map told changes.now)) }
    ensures documents { IfOk result (λ t. documents_of t
        ≡ changed_by (documents_of table.now) (map told changes.now)) }
    ensures same { IfOk result (λ t. t.1 ≡ table.now.1) }
{
    match documents {
        Some(documents) => table.with_changes(changes, documents),
        None => {
            let mut after = table.share()?;
            let prepared = table.prepare(changes)?;
            after.install(prepared);
            Ok(after)
        }
    }
}

// Makes a change on a table, and tells it to a draft of the feeds.
fn tell_next<F: Opening>(
    alloc: Global,
    feeds: &Feeds<F>,
    table: &Table,
    draft: Draft<F>,
    change: &Change,
    stamp: u64,
) -> Result<(Table, Draft<F>), Memory>
    requires at { AreAt F.held F.fits F.reads feeds.now table.now draft }
    requires comes { find_by order (told change.now).key (documents_of table.now)
        ≡ (told change.now).old }
    requires stamp { suc stamp < 2 ^ 64 }
    ensures at { IfOk result (λ r. AreAt F.held F.fits F.reads feeds.now r.0 r.1) }
    ensures documents { IfOk result (λ r. documents_of r.0
        ≡ changed_of (documents_of table.now) (told change.now)) }
    ensures same { IfOk result (λ r. r.0.1 ≡ table.now.1) }
    ensures told { IfOk result (λ r. records F.held (all_ahead F.held feeds.now r.1)
        ≡ map (notice (feeding 0) (documents_of table.now) stamp (told change.now))
        (records F.held (all_ahead F.held feeds.now draft))) }
{
    feeds_laws();
    let after = changed(table, change)?;
    let heard = feeds.tell(alloc, draft, change, &after, stamp)?;
    Ok((after, heard))
}

/// Tells a draft of the feeds of each change, made on a share of the table. The feeds and the table
/// stay as they are.
pub(crate) fn tell_all<F: Opening>(
    alloc: Global,
    feeds: &Feeds<F>,
    table: &Table,
    changes: &[Change],
    stamp: u64,
) -> Result<(Table, Draft<F>), Memory>
    requires fits { AllFit F.fits (documents_of table.now) (kept_in feeds.now) }
    requires reads { AllFit F.reads table.now (kept_in feeds.now) }
    requires come { AllCome (documents_of table.now) (map told changes.now) }
    requires stamp { stamp + length changes.now < 2 ^ 64 }
    ensures at { IfOk result (λ r. AreAt F.held F.fits F.reads feeds.now r.0 r.1) }
    ensures leads { IfOk result (λ r. with_feeds r.0 (stamp + length changes.now)
        (records F.held (all_ahead F.held feeds.now r.1))
        ≡ after_changes (feeding 0) (with_feeds table.now stamp (records F.held feeds.now))
        (map told changes.now)) }
{
    let mut now = table.share()?;
    let mut draft = feeds.draft(alloc)?;
    for place in 0..changes.len() {
        let (after, heard) = tell_next(
            alloc,
            feeds,
            &now,
            draft,
            &changes[place],
            stamp + place as u64,
        )?;
        now = after;
        draft = heard;
    }
    Ok((now, draft))
}

/// The same where no feed is open; `documents` are those after the changes, where the plan made them.
pub(crate) fn tell_none<F: Opening>(
    alloc: Global,
    feeds: &Feeds<F>,
    table: &Table,
    changes: &[Change],
    documents: Option<Tree>,
) -> Result<(Table, Draft<F>), Memory>
    requires none { length feeds.now ≡ 0 }
    requires come { AllCome (documents_of table.now) (map told changes.now) }
    requires documents { IfSome documents (λ after. after
        ≡ changed_by (documents_of table.now) (map told changes.now)) }
    ensures at { IfOk result (λ r. AreAt F.held F.fits F.reads feeds.now r.0 r.1) }
    ensures leads { (stamp : ℕ) → IfOk result (λ r. with_feeds r.0 (stamp + length changes.now)
        (records F.held (all_ahead F.held feeds.now r.1))
        ≡ after_changes (feeding 0) (with_feeds table.now stamp (records F.held feeds.now))
        (map told changes.now)) }
{
    let after = changed_by_all(table, changes, documents)?;
    let draft = feeds.draft(alloc)?;
    Ok((after, draft))
}
