// A write planned: its changes and its summary.
ghost use Rattle.std.specs.Prelude.{◌≡◌, ◌≤◌, [], IfOk, IfSome, None, length, map, List};
ghost use Rattle.reql_datum.specs.Answer.{Answer};
ghost use Rattle.reql_datum.specs.Outcome.{Gives, Fails};
ghost use Rattle.reql_rules.specs.Lists.{joined};
ghost use Rattle.reql_table.specs.Edits.{told};
ghost use Rattle.reql_table.specs.Seen.{documents_of, indexes_of};
ghost use Rattle.reql_write_spec.specs.Treated.{Treated as Meant, changes_of, changed_by};
ghost use Rattle.reql_write_spec.specs.Write.{write, treated as treated_of, made_by as made_by_of, errors_in, summed as summed_of, summary_of, all_changes};
ghost use Rattle.reql_write.specs.Acting.{items_treated};
ghost use Rattle.reql_write.specs.Seen.{seen};

use crate::counting::{Outcome, count, first_error};
use crate::keyed::keyed;
use crate::listing::{change_list, listed};
use crate::selecting::selected;
use crate::treated::{Treated, text_of};
use crate::treating::treat_all;
use reql_datum::{Fault, Items, Memory};
use reql_operand::{BUDGET, Purse};
use reql_ptree::Tree;
use reql_table::Table;
use reql_write_spec::{Act, Change, Summary, WriteCmd};
use std::alloc::Global;

/// What a write will do to its table, and what it reports.
#[derive(Drop)]
pub struct Planned {
    /// The changes of the table that the write was planned on, in order.
    pub changes: Vec<Change>,
    pub summary: Summary,
    /// The documents after them, as a tree that shares what they leave as it is. None where one
    /// document was treated alone, or the rows have a fault: nothing had to be treated on such a tree.
    pub documents: Option<Tree>,
}

// The documents that are inserted, or the primary keys of the rows.
fn items_of(alloc: Global, table: &Table, cmd: &WriteCmd, purse: &Purse) -> Result<Items, Fault>
    ensures { Gives (λ items. items) result (items_treated cmd.now.key (documents_of table.now)
        (indexes_of table.now) cmd.now.act) }
{
    match &cmd.act {
        Act::Insert {
            docs,
            conflict: _,
            made,
        } => Ok(keyed(alloc, &cmd.key, docs, made)?),
        Act::Update { rows, change: _ } => selected(alloc, table, &cmd.key, rows, purse),
        Act::Replace { rows, change: _ } => selected(alloc, table, &cmd.key, rows, purse),
        Act::Delete { rows } => selected(alloc, table, &cmd.key, rows, purse),
    }
}

// What becomes of each document that the write treats, with the documents after it, or the fault of
// its rows.
#[tactic(auto, using(crate::proofs::Acting::treated_is))]
fn treat(
    alloc: Global,
    table: &Table,
    cmd: &WriteCmd,
) -> Result<(Vec<Treated>, Option<Tree>), Fault>
    ensures treated { Gives (λ r. map seen r.0.items) result (treated_of cmd.now.key
        (documents_of table.now) (indexes_of table.now) cmd.now.act) }
    ensures documents { IfOk result (λ r. IfSome r.1 (λ after. after
        ≡ changed_by (documents_of table.now) (joined (map changes_of (map seen r.0.items))))) }
    ensures alone { IfOk result (λ r. r.1 ≡ None
        → length (joined (map changes_of (map seen r.0.items))) ≤ 1) }
{
    let purse = Purse::new(BUDGET);
    let items = items_of(alloc, table, cmd, &purse)?;
    let all = treat_all(alloc, &cmd.key, &cmd.act, &items, table.tree(), &purse)?;
    Ok(all)
}

// The primary keys that were made for its documents.
fn made_by(alloc: Global, act: &Act) -> Result<Items, Memory>
    ensures { IfOk result (λ items. items ≡ made_by_of act.now) }
{
    match act {
        Act::Insert {
            docs: _,
            conflict: _,
            made,
        } => made.copy(),
        _ => Ok(Items::new(alloc)),
    }
}

#[tactic(auto, using(crate::proofs::Counts::errors_counted))]
fn summed(alloc: Global, cmd: &WriteCmd, treated: &[Treated]) -> Result<Summary, Memory>
    ensures { IfOk result (λ s. s ≡ summed_of cmd.now.returns (made_by_of cmd.now.act)
        (errors_in (map seen treated.now)) (map seen treated.now)) }
{
    Ok(Summary {
        deleted: count(treated, Outcome::Deleted),
        errors: count(treated, Outcome::Failed),
        inserted: count(treated, Outcome::Inserted),
        replaced: count(treated, Outcome::Replaced),
        skipped: count(treated, Outcome::Skipped),
        unchanged: count(treated, Outcome::Unchanged),
        first_error: first_error(treated)?,
        generated: made_by(alloc, &cmd.act)?,
        changes: listed(alloc, cmd.returns, treated)?,
    })
}

fn plan_of(
    alloc: Global,
    cmd: &WriteCmd,
    treated: &[Treated],
    documents: Option<Tree>,
) -> Result<Planned, Memory>
    ensures changes { IfOk result (λ p. map told p.changes.items
        ≡ joined (map changes_of (map seen treated.now))) }
    ensures summary { IfOk result (λ p. p.summary ≡ summed_of cmd.now.returns
        (made_by_of cmd.now.act) (errors_in (map seen treated.now)) (map seen treated.now)) }
    ensures documents { IfOk result (λ p. p.documents ≡ documents) }
{
    Ok(Planned {
        documents,
        changes: change_list(alloc, treated)?,
        summary: summed(alloc, cmd, treated)?,
    })
}

// The write whose rows can't be evaluated: that counts once, and changes nothing.
#[tactic(auto, using(crate::proofs::Told::told_summary, crate::proofs::Told::told_changes))]
fn refused(alloc: Global, cmd: &WriteCmd, fault: Fault) -> Result<Planned, Memory>
    ensures changes { (a : Answer (List Meant)) → Fails fault a
        → IfOk result (λ p. map told p.changes.items ≡ all_changes a) }
    ensures summary { (a : Answer (List Meant)) → Fails fault a
        → IfOk result (λ p. p.summary ≡ summary_of cmd.now.returns (made_by_of cmd.now.act) a) }
    ensures none { IfOk result (λ p. p.changes.items ≡ []) }
    ensures documents { IfOk result (λ p. p.documents ≡ None) }
{
    let Planned {
        changes,
        summary,
        documents,
    } = plan_of(alloc, cmd, &[], None)?;
    let first_error = Some(text_of(alloc, fault)?);
    Ok(Planned {
        changes,
        summary: Summary {
            errors: 1,
            first_error,
            ..summary
        },
        documents,
    })
}

/// What a write does to a table, and what it reports, by the table as it is. The rows of a write are
/// listed first; then each document is treated on what those before it made of the table. A document
/// that can't be written counts in the summary's errors, and so does, once, a fault in evaluating the
/// rows. The table stays as it is: `Table::apply`, `prepare` and `with_changes` take the changes.
/// Refused for want of memory alone.
pub fn plan_write(alloc: Global, table: &Table, cmd: &WriteCmd) -> Result<Planned, Memory>
    ensures changes { IfOk result (λ p. map told p.changes.items
        ≡ (write (documents_of table.now) (indexes_of table.now) cmd.now).changes) }
    ensures summary { IfOk result (λ p. p.summary
        ≡ (write (documents_of table.now) (indexes_of table.now) cmd.now).summary) }
    ensures documents { IfOk result (λ p. IfSome p.documents (λ after. after
        ≡ changed_by (documents_of table.now) (map told p.changes.items))) }
    ensures alone { IfOk result (λ p. p.documents ≡ None → length p.changes.items ≤ 1) }
{
    match treat(alloc, table, cmd) {
        Ok((treated, documents)) => plan_of(alloc, cmd, treated.as_slice(), documents),
        Err(fault) => refused(alloc, cmd, fault),
    }
}
