// A table over trees.
ghost use Rattle.std.specs.Prelude.{◌≡◌, List, [], map, ⊤, option_map, MatchOption, IfOk};
ghost use Rattle.std.specs.List.{AllByRecursion};
ghost use Rattle.reql_memory.specs.CopyOnWrite.{held_items};
ghost use Rattle.reql_memory.specs.Sorted.{AreRisingBy};
ghost use Rattle.reql_datum.specs.Members.{AreRising, find};
ghost use Rattle.reql_datum.specs.Order.{order};
ghost use Rattle.reql_term.specs.Views.{Document, index_of};
ghost use Rattle.reql_table.specs.Seen.{documents_of, indexes_of, numbered_of, next_of, unnumbered, numbered, numbered_in, GivesNumbers, IsFiled, Finds};

use crate::filed::FiledIndex;
use reql_datum::Memory;
use reql_memory::copy_on_write::{copied, shown};
use reql_ptree::Tree;
use std::alloc::Global;
use std::marker::Model;
use std::sync::Arc;

/// A table: its documents by rising key, and its indexes by rising name, each kept in a tree whose
/// number is its own for good.
#[derive(Drop)]
pub struct Table {
    pub(crate) alloc: Global,
    pub(crate) documents: Tree,
    pub(crate) indexes: Option<Arc<Vec<FiledIndex>>>,
    pub(crate) next: u128,
}

impl Model for Table {
    ghost use Rattle.std.specs.Prelude.{map};
    ghost use Rattle.std.specs.Coded.{codes};
    ghost use Rattle.reql_memory.specs.CopyOnWrite.{held_items};
    ghost use Rattle.reql_datum.specs.Code.{plain_code};
    ghost use Rattle.reql_term.specs.FormCode.{form_code};
    ghost use Rattle.reql_table.specs.Seen.{Standing, Keeps, numbered};

    ghost Value = { Standing };

    ghost coded = { Prim.hlevel (codes, plain_code, form_code) };

    ghost view = { λ t. (t.documents, (map numbered (held_items t.indexes), t.next)) };

    ghost invariant = { λ t. Keeps t.documents (held_items t.indexes) t.next };
}

// The index of a name among indexes.
#[tactic(auto, using(crate::proofs::Named::filed_on))]
fn find_in<'a>(indexes: &'a [FiledIndex], name: &str) -> Option<&'a FiledIndex>
    ensures found { option_map (λ i. index_of i.now.def) result
        ≡ find name.now (unnumbered (map numbered indexes.now)) }
    ensures numbered { numbered_in result ≡ find name.now (map numbered indexes.now) }
    ensures filed { MatchOption result ⊤ (λ i. (docs : List Document)
        → AllByRecursion (IsFiled docs) indexes.now → IsFiled docs i.now) }
{
    for index in indexes {
        if name.cmp(index.def.name.as_str()).is_eq() {
            return Some(index);
        }
    }
    None
}

impl Table {
    /// A table of nothing. The first index gets the tree of number 1; the documents lie in that of
    /// number 0.
    #[tactic(auto, using(crate::proofs::Owned::keeps_nothing))]
    pub fn new(alloc: Global) -> Table
        ensures documents { documents_of result ≡ [] }
        ensures indexes { indexes_of result ≡ [] }
        ensures next { next_of result ≡ 1 }
    {
        Table {
            alloc,
            documents: Tree::new(alloc),
            indexes: None,
            next: 1,
        }
    }

    /// An equal table that later edits of this one leave as it is: what a snapshot is. It shares all
    /// that this one holds, in a constant number of steps. Memory where a count of sharers is full.
    pub fn share(&self) -> Result<Table, Memory>
        ensures { IfOk result (λ t. t ≡ self.now) }
    {
        Ok(Table {
            alloc: self.alloc,
            documents: self.documents.share()?,
            indexes: copied(&self.indexes)?,
            next: self.next,
        })
    }

    /// The documents, rising by key: the table's own tree, which is lent, so that no share of it is made.
    pub fn tree(&self) -> &Tree
        ensures documents { result.now ≡ documents_of self.now }
        ensures rising { AreRisingBy order (documents_of self.now) }
    {
        &self.documents
    }

    /// The indexes, rising by name.
    #[tactic(auto, using(crate::proofs::Named::names_rise))]
    pub(crate) fn all_indexes(&self) -> &[FiledIndex]
        ensures indexes { map numbered result.now ≡ numbered_of self.now }
        ensures rising { AreRising (indexes_of self.now) }
        ensures names { AreRising (map numbered result.now) }
        ensures filed { AllByRecursion (IsFiled (documents_of self.now)) result.now }
        ensures numbers { GivesNumbers self.now }
    {
        shown(&self.indexes)
    }

    /// The index of a name.
    pub(crate) fn filed(&self, name: &str) -> Option<&FiledIndex>
        ensures found { Finds self.now name.now result }
        ensures numbered { numbered_in result ≡ find name.now (numbered_of self.now) }
    {
        find_in(shown(&self.indexes), name)
    }
}
