// A write. A single change is made on the table itself where no feed is open, and else on a share, of which the feeds are told
// as they are. Of other changes a draft of the feeds is told before any of them takes effect.
ghost use Rattle.std.specs.Prelude.{◌≡◌, ◌+◌, ◌<◌, ◌^◌, [], ◌∷◌, map, length, false, IfOk, IfSome, OnOk, OnErr};
ghost use Rattle.reql_table.specs.Seen.{documents_of, indexes_of};
ghost use Rattle.reql_table_machine_spec.specs.Fed.{changes_at};
ghost use Rattle.reql_table_machine_spec.specs.Feeds.{after_changes, one_more};
ghost use Rattle.reql_table_machine_spec.specs.declared.command.Cmd.TheVariants as known;
ghost use Rattle.reql_write_spec.specs.Laws.{AllCome};
ghost use Rattle.reql_write_spec.specs.Treated.{changed_by};
ghost use Rattle.reql_write_spec.specs.Write.{write};
ghost use Rattle.reql_table_spec.specs.Engines.{kept_of};
ghost use Rattle.reql_table_spec.specs.Table.{feeding, at_key};
ghost use Rattle.reql_feeds.specs.Ahead.{all_ahead};
ghost use Rattle.reql_feeds.specs.Record.{records};
ghost use Rattle.reql_feeds.specs.Turn.{told};
ghost use Rattle.reql_core.specs.Live.{table_of, Does};
ghost use Rattle.reql_core.specs.Writing.{AreAt, with_feeds, landed};

use crate::live::LiveTable;
use crate::telling::{changed, tell_all, tell_none};
use reql_feeds::{Draft, feeds_laws};
use reql_memory::Memory;
use reql_opening::Opening;
use reql_ptree::Tree;
use reql_table::Table;
use reql_table_spec::{Kept, Said, WriteCmd};
use reql_write::{Planned, plan_write};
use reql_write_spec::{Change, write_law};
use std::alloc::Global;

/// What a write was answered, and its changes as they are handed over.
#[derive(Drop)]
pub(crate) struct Wrote {
    pub(crate) said: Said,
    pub(crate) kept: Vec<Kept>,
}

// A change as it is handed over.
fn kept(change: &Change) -> Result<Kept, Memory>
    ensures { IfOk result (λ k. kept_of k ≡ at_key (told change.now)) }
{
    let key = change.key.copy()?;
    match &change.new {
        Some(document) => {
            let new = document.copy()?;
            Ok(Kept {
                key,
                new: Some(new),
            })
        }
        None => Ok(Kept { key, new: None }),
    }
}

// The changes as they are handed over.
fn kept_list(alloc: Global, changes: &[Change]) -> Result<Vec<Kept>, Memory>
    ensures { IfOk result (λ v. map kept_of v.items ≡ map at_key (map told changes.now)) }
{
    let mut list = Vec::new(alloc);
    for change in changes {
        let one = kept(change)?;
        list.push(one)?;
    }
    Ok(list)
}

impl<F: Opening> LiveTable<F> {
    // The table and the feeds as they will be after changes; `documents` are those after them, where the
    // plan made them.
    fn ahead(
        &self,
        changes: &[Change],
        documents: Option<Tree>,
    ) -> Result<(Table, Draft<F>), Memory>
        requires come { AllCome (documents_of self.now.moment.table) (map told changes.now) }
        requires documents { IfSome documents (λ after. after
            ≡ changed_by (documents_of self.now.moment.table) (map told changes.now)) }
        requires stamp { self.now.moment.stamp + length changes.now < 2 ^ 64 }
        ensures at { IfOk result (λ r. AreAt F.held F.fits F.reads self.now.feeds r.0 r.1) }
        ensures leads { IfOk result (λ r. with_feeds r.0 (self.now.moment.stamp + length changes.now)
            (records F.held (all_ahead F.held self.now.feeds r.1))
            ≡ after_changes (feeding 0) (with_feeds self.now.moment.table self.now.moment.stamp
            (records F.held self.now.feeds)) (map told changes.now)) }
    {
        if self.feeds.len() == 0 {
            return tell_none(
                self.alloc,
                &self.feeds,
                &self.moment.table,
                changes,
                documents,
            );
        }
        tell_all(
            self.alloc,
            &self.feeds,
            &self.moment.table,
            changes,
            self.moment.stamp,
        )
    }

    // Becomes what it will be.
    fn become_so(&mut self, table: Table, draft: Draft<F>, stamp: u64) -> Result<(), Memory>
        requires room { self.old.moment.place + 1 < 2 ^ 64 }
        requires at { AreAt F.held F.fits F.reads self.old.feeds table draft }
        ensures now { OnOk result (self.new ≡ landed F.held self.old table stamp draft) }
        ensures same { OnErr result (self.new ≡ self.old) }
    {
        self.feeds.commit(self.alloc, draft)?;
        self.moment.table = table;
        self.moment.stamp = stamp;
        self.moment.place += 1;
        Ok(())
    }

    // Lets one change take effect where no feed is open: the table itself is changed.
    fn land_unheard(&mut self, change: &Change) -> Result<(), Memory>
        requires none { length self.old.feeds ≡ 0 }
        requires room { self.old.moment.place + 1 < 2 ^ 64 }
        requires stamp { self.old.moment.stamp + 1 < 2 ^ 64 }
        requires alive { self.old.shut ≡ false }
        ensures leaves { OnOk result (table_of F.held self.new ≡ one_more (feeding self.old.most)
            (after_changes (feeding self.old.most) (table_of F.held self.old) (told change.now ∷ []))) }
        ensures place { OnOk result (self.new.moment.place < 2 ^ 64) }
        ensures stamp { OnOk result (self.new.moment.stamp < 2 ^ 64) }
        ensures most { self.new.most ≡ self.old.most }
        ensures same { OnErr result (self.new ≡ self.old) }
    {
        self.moment.table.apply(change)?;
        self.moment.stamp += 1;
        self.moment.place += 1;
        Ok(())
    }

    // Lets one change take effect: each feed is told of it as it is.
    fn land_heard(&mut self, change: &Change) -> Result<(), Memory>
        requires room { self.old.moment.place + 1 < 2 ^ 64 }
        requires stamp { self.old.moment.stamp + 1 < 2 ^ 64 }
        requires alive { self.old.shut ≡ false }
        requires come { AllCome (documents_of self.old.moment.table) (told change.now ∷ []) }
        ensures leaves { OnOk result (table_of F.held self.new ≡ one_more (feeding self.old.most)
            (after_changes (feeding self.old.most) (table_of F.held self.old) (told change.now ∷ []))) }
        ensures place { OnOk result (self.new.moment.place < 2 ^ 64) }
        ensures stamp { OnOk result (self.new.moment.stamp < 2 ^ 64) }
        ensures most { self.new.most ≡ self.old.most }
        ensures same { OnErr result (self.new ≡ self.old) }
    {
        feeds_laws();
        let after = changed(&self.moment.table, change)?;
        self.feeds
            .tell_one(self.alloc, change, &after, self.moment.stamp)?;
        self.moment.table = after;
        self.moment.stamp += 1;
        self.moment.place += 1;
        Ok(())
    }

    // Lets changes take effect: a draft of the feeds is told of each first. `documents` are those after
    // them, where the plan made them.
    fn land_many(&mut self, changes: &[Change], documents: Option<Tree>) -> Result<(), Memory>
        requires room { self.old.moment.place + 1 < 2 ^ 64 }
        requires stamp { self.old.moment.stamp + length changes.now < 2 ^ 64 }
        requires alive { self.old.shut ≡ false }
        requires come { AllCome (documents_of self.old.moment.table) (map told changes.now) }
        requires documents { IfSome documents (λ after. after
            ≡ changed_by (documents_of self.old.moment.table) (map told changes.now)) }
        ensures leaves { OnOk result (table_of F.held self.new ≡ one_more (feeding self.old.most)
            (after_changes (feeding self.old.most) (table_of F.held self.old) (map told changes.now))) }
        ensures place { OnOk result (self.new.moment.place < 2 ^ 64) }
        ensures stamp { OnOk result (self.new.moment.stamp < 2 ^ 64) }
        ensures most { self.new.most ≡ self.old.most }
        ensures same { OnErr result (self.new ≡ self.old) }
    {
        let (table, draft) = self.ahead(changes, documents)?;
        let stamp = self.stamp() + changes.len() as u64;
        self.become_so(table, draft, stamp)?;
        Ok(())
    }

    // Lets changes take effect; `documents` are those after them, where the plan made them. For a single
    // change they are let go first, since a share that is still there would have the way copied.
    fn land(&mut self, changes: &[Change], documents: Option<Tree>) -> Result<(), Memory>
        requires room { self.old.moment.place + 1 < 2 ^ 64 }
        requires stamp { self.old.moment.stamp + length changes.now < 2 ^ 64 }
        requires alive { self.old.shut ≡ false }
        requires come { AllCome (documents_of self.old.moment.table) (map told changes.now) }
        requires documents { IfSome documents (λ after. after
            ≡ changed_by (documents_of self.old.moment.table) (map told changes.now)) }
        ensures leaves { OnOk result (table_of F.held self.new ≡ one_more (feeding self.old.most)
            (after_changes (feeding self.old.most) (table_of F.held self.old) (map told changes.now))) }
        ensures place { OnOk result (self.new.moment.place < 2 ^ 64) }
        ensures stamp { OnOk result (self.new.moment.stamp < 2 ^ 64) }
        ensures most { self.new.most ≡ self.old.most }
        ensures same { OnErr result (self.new ≡ self.old) }
    {
        match changes {
            [change] => {
                drop(documents);
                if self.feeds.len() == 0 {
                    return self.land_unheard(change);
                }
                self.land_heard(change)
            }
            _ => self.land_many(changes, documents),
        }
    }

    // Lets what was planned take effect, where the stamp has room for it.
    #[tactic(auto, using(crate::proofs::Written::wrote, crate::proofs::Written::full, crate::proofs::Written::kept_none, crate::proofs::Written::kept_all))]
    fn perform(&mut self, by: u64, cmd: &WriteCmd, planned: Planned) -> Result<Wrote, Memory>
        requires room { self.old.moment.place + 1 < 2 ^ 64 }
        requires alive { self.old.shut ≡ false }
        requires changes { map told planned.changes.items ≡ (write
            (documents_of self.old.moment.table) (indexes_of self.old.moment.table) cmd.now).changes }
        requires summary { planned.summary ≡ (write
            (documents_of self.old.moment.table) (indexes_of self.old.moment.table) cmd.now).summary }
        requires documents { IfSome planned.documents (λ after. after
            ≡ changed_by (documents_of self.old.moment.table) (map told planned.changes.items)) }
        ensures does { IfOk result (λ w. Does F.held by (known.Write cmd.now) self.old self.new
            w.said) }
        ensures kept { IfOk result (λ w. map kept_of w.kept.items ≡ map at_key (changes_at
            (feeding self.old.most) (table_of F.held self.old) by (known.Write cmd.now))) }
        ensures same { OnErr result (self.new ≡ self.old) }
    {
        write_law();
        let Planned {
            changes,
            summary,
            documents,
        } = planned;
        if changes.len() as u64 > u64::MAX - self.stamp() {
            return Ok(Wrote {
                said: Said::HistoryFull { count: u64::MAX },
                kept: Vec::new(self.alloc()),
            });
        }
        let kept = kept_list(self.alloc(), &changes)?;
        self.land(&changes, documents)?;
        Ok(Wrote {
            said: Said::Done(summary),
            kept,
        })
    }

    /// Writes. The history has room for one entry.
    #[tactic(auto, using(crate::proofs::Written::gone, crate::proofs::Written::kept_none))]
    pub(crate) fn write(&mut self, by: u64, cmd: &WriteCmd) -> Result<Wrote, Memory>
        requires room { self.old.moment.place + 1 < 2 ^ 64 }
        ensures does { IfOk result (λ w. Does F.held by (known.Write cmd.now) self.old self.new
            w.said) }
        ensures kept { IfOk result (λ w. map kept_of w.kept.items ≡ map at_key (changes_at
            (feeding self.old.most) (table_of F.held self.old) by (known.Write cmd.now))) }
        ensures same { OnErr result (self.new ≡ self.old) }
    {
        if self.is_shut() {
            return Ok(Wrote {
                said: Said::Gone,
                kept: Vec::new(self.alloc()),
            });
        }
        let planned = plan_write(self.alloc(), self.table(), cmd)?;
        let wrote = self.perform(by, cmd, planned)?;
        Ok(wrote)
    }
}
