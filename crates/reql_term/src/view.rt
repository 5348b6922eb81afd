// A table as it is read.
ghost use Rattle.std.specs.Prelude.{◌≡◌, List, ℕ, map, length, take, drop, option_map, IfOk, OnSome};
ghost use Rattle.reql_memory.specs.Sorted.{AreRisingBy, find_by};
ghost use Rattle.reql_datum.specs.Members.{find, AreRising};
ghost use Rattle.reql_datum.specs.Order.{order};
ghost use Rattle.reql_datum.specs.Plain.{Plain, text};
ghost use Rattle.reql_datum.specs.View.{plain};
ghost use Rattle.reql_term.specs.Views.{Document, Entry, Index, Views, AreInOrder, AreOf, index_of, entries_of, entries_in, documents_in, beside, seen_beside, all_of};

use crate::range::Range;
use crate::term::Body;
use reql_datum::{Datum, Items, Memory, Name};
use std::alloc::Global;

/// A secondary index: its name, the function that gives a document's value, and whether each member
/// of an array has an entry of its own.
#[derive(Drop)]
pub struct IndexDef {
    pub name: Name,
    pub func: Body,
    pub multi: bool,
}

impl IndexDef {
    /// An equal index that shares its name and its function. Memory where a count of sharers is full.
    pub fn copy(&self) -> Result<IndexDef, Memory>
        ensures { IfOk result (λ d. d ≡ self.now) }
    {
        Ok(IndexDef {
            name: self.name.copy()?,
            func: self.func.copy()?,
            multi: self.multi,
        })
    }
}

/// Entries of an index: their values, and beside each at the same place its document.
#[derive(Drop)]
pub struct Entries {
    pub values: Items,
    pub documents: Items,
}

/// Why a table gives no documents.
#[derive(Clone, Copy, PartialEq, Eq, Debug, Drop)]
pub enum ViewFault {
    /// No index has the name.
    IndexMissing,
    Memory,
}

impl From<Memory> for ViewFault {
    ghost use Rattle.reql_term.specs.declared.view.ViewFault.TheVariants.{Memory};

    ghost from_gives = { λ _ e. e ≡ Memory };

    fn from(_want: Memory) -> ViewFault {
        ViewFault::Memory
    }
}

/// A table as it is read.
///
/// It tells its documents, each with its primary key, rising by key; its indexes by name; and each
/// index's entries, in the order of their values, then of their primary keys. Where an index is asked
/// for, None is the primary order, in which the one entry of a document is its key. IndexMissing is
/// the answer exactly where no index has the name.
pub trait TableView {
    ghost documents: { Self → List Document };

    ghost indexes: { Self → List (List ℕ × Index) };

    ghost entries: { Self → List ℕ → List Entry };

    /// The document of a key.
    fn get(&self, key: &Datum) -> Option<&Datum>
        ensures { option_map (λ d. plain d.now) result
            ≡ find_by order (plain key.now) (documents self.now) };

    /// All documents, rising by key.
    fn scan(&self, alloc: Global) -> Result<Items, Memory>
        ensures documents { IfOk result (λ items. items ≡ map (λ m. m.1) (documents self.now)) }
        ensures rising { AreRisingBy order (documents self.now) };

    /// The documents of a range.
    fn between(&self, alloc: Global, range: &Range) -> Result<Items, ViewFault>
        ensures { Views (λ items. items) result (option_map documents_in
            (entries_in (documents self.now) (indexes self.now) (entries self.now) range.now)) };

    /// So many of the documents of a range at most, from the one at a place on, in the direction of
    /// the range. It takes no longer for those that come after.
    fn part(
        &self,
        alloc: Global,
        range: &Range,
        from: usize,
        most: usize,
    ) -> Result<Items, ViewFault>
        ensures { Views (λ items. items) result (option_map
            (λ es. take most (drop from (documents_in es)))
            (entries_in (documents self.now) (indexes self.now) (entries self.now) range.now)) };

    /// How many documents a range has, one that has several entries in it counted for each.
    fn count_between(&self, range: &Range) -> Result<u64, ViewFault>
        ensures { Views (λ n. n) result (option_map (λ es. length (documents_in es))
            (entries_in (documents self.now) (indexes self.now) (entries self.now) range.now)) };

    /// The values of a range's entries, and beside them their documents.
    fn entries_between(&self, alloc: Global, range: &Range) -> Result<Entries, ViewFault>
        ensures { Views seen_beside result (option_map beside
            (entries_in (documents self.now) (indexes self.now) (entries self.now) range.now)) };

    /// The documents of the entries that have each of the keys, in the order of the keys.
    fn get_all(&self, alloc: Global, index: Option<&Name>, keys: &Items) -> Result<Items, ViewFault>
        ensures { Views (λ items. items) result (option_map (all_of keys.now)
            (entries_of (documents self.now) (indexes self.now) (entries self.now)
            (option_map (λ n. n.now) index.entry))) };

    /// The index of a name. The entries of an index that is there are in order, and each is one of a
    /// document that is there.
    fn index(&self, name: &Name) -> Option<&IndexDef>
        ensures found { option_map (λ d. index_of d.now) result ≡ find name.now (indexes self.now) }
        ensures order { OnSome result (AreInOrder (entries self.now name.now)) }
        ensures held { OnSome result (AreOf (documents self.now) (entries self.now name.now)) };

    /// The names of the indexes, rising by their bytes.
    fn names(&self, alloc: Global) -> Result<Items, Memory>
        ensures names { IfOk result (λ items. items ≡ map (λ m. text m.0) (indexes self.now)) }
        ensures rising { AreRising (indexes self.now) };
}
