// A table after changes of its documents.
ghost use Rattle.std.specs.Prelude.{◌≡◌, map, is_ok, option_map, IfOk, if◌then◌else◌};
ghost use Rattle.std.specs.List.{AllByRecursion};
ghost use Rattle.reql_memory.specs.CopyOnWrite.{held_items};
ghost use Rattle.reql_memory.specs.Sorted.{AreRisingBy};
ghost use Rattle.reql_datum.specs.Members.{AreRising};
ghost use Rattle.reql_datum.specs.Order.{order};
ghost use Rattle.reql_datum.specs.View.{plain};
ghost use Rattle.reql_write_spec.specs.Laws.{AllCome};
ghost use Rattle.reql_write_spec.specs.Treated.{changed, changed_by};
ghost use Rattle.reql_table.specs.Edits.{key_at, seen_if, told};
ghost use Rattle.reql_table.specs.Seen.{documents_of, next_of, numbered, numbered_of, GivesNumbers, IsFiled, Keeps};
ghost use Rattle.reql_table.specs.Trees.{Follows};

use crate::filed::FiledIndex;
use crate::indexes::{copies_of, held};
use crate::refile::{Turn, all_refiled};
use crate::table::Table;
use reql_datum::{Datum, Memory};
use reql_ptree::{Steps, Tree};
use reql_write_spec::Change;
use std::marker::Model;
use std::sync::Arc;

/// A table after changes, ready to be installed.
#[derive(Drop)]
pub struct Prepared {
    table: Table,
}

impl Model for Prepared {
    ghost use Rattle.std.specs.Coded.{codes};
    ghost use Rattle.reql_datum.specs.Code.{plain_code};
    ghost use Rattle.reql_term.specs.FormCode.{form_code};
    ghost use Rattle.reql_table.specs.Seen.{Standing};

    ghost Value = { Standing };

    ghost coded = { Prim.hlevel (codes, plain_code, form_code) };

    ghost view = { λ p. p.table };
}

// Puts the document of a change, or leaves out its key, in place where nobody shares the tree. Without
// memory all is as it was.
fn change_document(documents: &mut Tree, change: &Change) -> Result<(), Memory>
    ensures { documents.new ≡ (if is_ok result then changed documents.old (told change.now)
        else documents.old) }
{
    let mut steps = Steps::start();
    match &change.new {
        None => documents.remove_own(&change.key, &mut steps),
        Some(document) => {
            let (key, document) = (change.key.copy()?, document.copy()?);
            match documents.put_own(key, document, &mut steps) {
                Ok(()) => Ok(()),
                Err(_) => Err(Memory),
            }
        }
    }
}

fn turn_of<'a>(change: &'a Change, old: Option<&'a Datum>) -> Turn<'a>
    ensures key { key_at result ≡ plain change.now.key }
    ensures old { seen_if result.old ≡ seen_if old.entry }
    ensures new { seen_if result.new ≡ option_map plain change.now.new }
{
    Turn {
        key: &change.key,
        old,
        new: change.new.as_ref(),
    }
}

impl Table {
    // Its indexes, which share their trees, to write to.
    fn copied_indexes(&self) -> Result<Vec<FiledIndex>, Memory>
        ensures indexes { IfOk result (λ is. map numbered is.items ≡ numbered_of self.now) }
        ensures names { IfOk result (λ is. AreRising (map numbered is.items)) }
        ensures filed { IfOk result (λ is.
            AllByRecursion (IsFiled (documents_of self.now)) is.items) }
        ensures numbers { GivesNumbers self.now }
    {
        copies_of(self.alloc, self.all_indexes())
    }

    // Its indexes after a change of a document.
    fn indexes_after(&self, change: &Change) -> Result<Option<Arc<Vec<FiledIndex>>>, Memory>
        ensures numbered { IfOk result (λ is. map numbered (held_items is) ≡ numbered_of self.now) }
        ensures keeps { IfOk result (λ is. Keeps (changed (documents_of self.now) (told change.now))
            (held_items is) (next_of self.now)) }
    {
        let documents = self.tree();
        if self.all_indexes().is_empty() {
            return Ok(None);
        }
        let mut steps = Steps::start();
        let turn = turn_of(change, documents.get(&change.key, &mut steps));
        let copies = self.copied_indexes()?;
        let indexes = all_refiled(self.alloc, copies, &turn)?;
        let all = held(self.alloc, indexes)?;
        Ok(all)
    }

    /// Changes a document: it is put, or none left, where the change says, and each index is as the
    /// new documents have it. The tree of documents is changed in place where nobody shares it, a tree
    /// of an index by copies of the ways to its entries. Refused for want of memory, the table is as
    /// it was.
    pub fn apply(&mut self, change: &Change) -> Result<(), Memory>
        ensures documents { documents_of self.new ≡ (if is_ok result
            then changed (documents_of self.old) (told change.now) else documents_of self.old) }
        ensures indexes { self.new.1 ≡ self.old.1 }
    {
        let indexes = self.indexes_after(change)?;
        change_document(&mut self.documents, change)?;
        self.indexes = indexes;
        Ok(())
    }

    /// The table after changes, to be installed: each document put, or none left, where its change
    /// says, and each index as the new documents have it. This table stays as it is.
    #[tactic(auto, using(crate::proofs::Given::same_follows))]
    pub fn prepare(&self, changes: &[Change]) -> Result<Prepared, Memory>
        ensures documents { IfOk result (λ p. documents_of p
            ≡ changed_by (documents_of self.now) (map told changes.now)) }
        ensures indexes { IfOk result (λ p. p.1 ≡ self.now.1) }
        ensures follows { IfOk result (λ p. Follows self.now p) }
    {
        let mut table = self.share()?;
        for change in changes {
            table.apply(change)?;
        }
        Ok(Prepared { table })
    }

    /// The table after changes that come in their order, with the documents that they leave: each
    /// index as the new documents have it. This table stays as it is.
    pub fn with_changes(&self, changes: &[Change], documents: Tree) -> Result<Table, Memory>
        requires come { AllCome (documents_of self.now) (map told changes.now) }
        requires documents { documents ≡ changed_by (documents_of self.now) (map told changes.now) }
        ensures rising { AreRisingBy order (documents_of self.now) }
        ensures documents { IfOk result (λ t. documents_of t
            ≡ changed_by (documents_of self.now) (map told changes.now)) }
        ensures indexes { IfOk result (λ t. t.1 ≡ self.now.1) }
    {
        let _documents = self.tree();
        let mut indexes = self.copied_indexes()?;
        for change in changes {
            let turn = turn_of(change, change.old.as_ref());
            indexes = all_refiled(self.alloc, indexes, &turn)?;
        }
        Ok(Table {
            alloc: self.alloc,
            documents,
            indexes: held(self.alloc, indexes)?,
            next: self.next,
        })
    }

    /// Becomes the table that was prepared, which takes no memory.
    pub fn install(&mut self, prepared: Prepared)
        ensures { self.new ≡ prepared }
    {
        let Prepared { table } = prepared;
        *self = table;
    }
}
