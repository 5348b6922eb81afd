// A table with an index more, one less, or one of another name.
ghost use Rattle.std.specs.Prelude.{◌≡◌, ◌+◌, map, Some, IfOk};
ghost use Rattle.std.specs.List.{AllByRecursion};
ghost use Rattle.reql_datum.specs.Members.{AreRising, find, put, without};
ghost use Rattle.reql_term.specs.Views.{index_of};
ghost use Rattle.reql_table.specs.Edits.{renamed};
ghost use Rattle.reql_table.specs.Seen.{documents_of, indexes_of, next_of, numbered_of, numbered, AreNumbered, IsFiled};
ghost use Rattle.reql_table.specs.Trees.{Follows};

use crate::filed::FiledIndex;
use crate::indexes::{copies_of, held, put_index, without_index};
use crate::indexing::built;
use crate::table::Table;
use reql_datum::{Memory, Name};
use reql_term::IndexDef;

impl Table {
    // The table with other indexes, filed by its documents.
    #[tactic(auto, using(crate::proofs::Listed::keeps_those))]
    fn with_indexes(&self, indexes: Vec<FiledIndex>, next: u128) -> Result<Table, Memory>
        requires rising { AreRising (map numbered indexes.items) }
        requires filed { AllByRecursion (IsFiled (documents_of self.now)) indexes.items }
        requires numbers { AreNumbered (map numbered indexes.items) next }
        ensures documents { IfOk result (λ t. documents_of t ≡ documents_of self.now) }
        ensures numbered { IfOk result (λ t. numbered_of t ≡ map numbered indexes.items) }
        ensures next { IfOk result (λ t. next_of t ≡ next) }
    {
        let documents = self.tree().share()?;
        Ok(Table {
            alloc: self.alloc,
            documents,
            indexes: held(self.alloc, indexes)?,
            next,
        })
    }

    /// The table with an index more, whose tree is built over all documents and gets the next
    /// number. An index of that name that is there gives way.
    #[tactic(auto, using(crate::proofs::Listed::put_unnumbered))]
    pub fn with_index(&self, def: &IndexDef) -> Result<Table, Memory>
        ensures documents { IfOk result (λ t. documents_of t ≡ documents_of self.now) }
        ensures indexes { IfOk result (λ t. indexes_of t
            ≡ put def.now.name (index_of def.now) (indexes_of self.now)) }
        ensures numbered { IfOk result (λ t. numbered_of t
            ≡ put def.now.name (next_of self.now, index_of def.now) (numbered_of self.now)) }
        ensures next { IfOk result (λ t. next_of t ≡ next_of self.now + 1) }
        ensures follows { IfOk result (λ t. Follows self.now t) }
    {
        let Some(next) = self.next.checked_add(1) else {
            return Err(Memory);
        };
        let index = FiledIndex {
            def: def.copy()?,
            number: self.next,
            entries: built(self.alloc, def, self.tree())?,
        };
        let copies = copies_of(self.alloc, self.all_indexes())?;
        let indexes = put_index(copies, index)?;
        let table = self.with_indexes(indexes, next)?;
        Ok(table)
    }

    /// The table without the index of a name.
    #[tactic(auto, using(crate::proofs::Listed::without_unnumbered))]
    pub fn without_index(&self, name: &str) -> Result<Table, Memory>
        ensures documents { IfOk result (λ t. documents_of t ≡ documents_of self.now) }
        ensures indexes { IfOk result (λ t. indexes_of t
            ≡ without name.now (indexes_of self.now)) }
        ensures numbered { IfOk result (λ t. numbered_of t
            ≡ without name.now (numbered_of self.now)) }
        ensures next { IfOk result (λ t. next_of t ≡ next_of self.now) }
        ensures follows { IfOk result (λ t. Follows self.now t) }
    {
        let copies = copies_of(self.alloc, self.all_indexes())?;
        let indexes = without_index(copies, name);
        let table = self.with_indexes(indexes, self.next)?;
        Ok(table)
    }

    // The table where an index that is there has another name.
    #[tactic(auto)]
    fn moved(&self, index: &FiledIndex, old: &str, new: &Name) -> Result<Table, Memory>
        requires filed { IsFiled (documents_of self.now) index.now }
        requires numbered { Some (numbered index.now).1 ≡ find old.now (numbered_of self.now) }
        ensures documents { IfOk result (λ t. documents_of t ≡ documents_of self.now) }
        ensures numbered { IfOk result (λ t. numbered_of t
            ≡ put new.now (numbered index.now).1 (without old.now (numbered_of self.now))) }
        ensures next { IfOk result (λ t. next_of t ≡ next_of self.now) }
        ensures follows { IfOk result (λ t. Follows self.now t) }
    {
        let copies = copies_of(self.alloc, self.all_indexes())?;
        let rest = without_index(copies, old);
        let indexes = put_index(rest, index.renamed(new)?)?;
        let table = self.with_indexes(indexes, self.next)?;
        Ok(table)
    }

    /// The table where the index of a name, if there is one, has another name and keeps its tree
    /// with its number. An index that has the other name gives way.
    #[tactic(auto, using(crate::proofs::Listed::renamed_unnumbered, crate::proofs::Given::same_follows))]
    pub fn with_renamed(&self, old: &str, new: &Name) -> Result<Table, Memory>
        ensures documents { IfOk result (λ t. documents_of t ≡ documents_of self.now) }
        ensures indexes { IfOk result (λ t. indexes_of t ≡ renamed old.now new.now
            (find old.now (indexes_of self.now)) (indexes_of self.now)) }
        ensures numbered { IfOk result (λ t. numbered_of t ≡ renamed old.now new.now
            (find old.now (numbered_of self.now)) (numbered_of self.now)) }
        ensures next { IfOk result (λ t. next_of t ≡ next_of self.now) }
        ensures follows { IfOk result (λ t. Follows self.now t) }
    {
        match self.filed(old) {
            None => self.share(),
            Some(index) => self.moved(index, old, new),
        }
    }
}
