// An index over a tree.
ghost use Rattle.std.specs.Prelude.{◌≡◌, List, IfOk};
ghost use Rattle.reql_term.specs.Views.{Document};
ghost use Rattle.reql_table.specs.Seen.{numbered, IsFiled};

use reql_datum::{Memory, Name};
use reql_ptree::Tree;
use reql_term::IndexDef;

/// An index with the number of its tree, which keeps its entries in order.
#[derive(Drop)]
pub(crate) struct FiledIndex {
    pub(crate) def: IndexDef,
    pub(crate) number: u128,
    pub(crate) entries: Tree,
}

impl FiledIndex {
    /// An equal index that shares its tree. Memory where a count of sharers is full.
    pub(crate) fn share(&self) -> Result<FiledIndex, Memory>
        ensures { IfOk result (λ i. i ≡ self.now) }
    {
        Ok(FiledIndex {
            def: self.def.copy()?,
            number: self.number,
            entries: self.entries.share()?,
        })
    }

    /// The same index by another name.
    pub(crate) fn renamed(&self, name: &Name) -> Result<FiledIndex, Memory>
        ensures name { IfOk result (λ i. i.def.name ≡ name.now) }
        ensures numbered { IfOk result (λ i. (numbered i).1 ≡ (numbered self.now).1) }
        ensures filed { (docs : List Document) → IsFiled docs self.now
            → IfOk result (IsFiled docs) }
    {
        Ok(FiledIndex {
            def: IndexDef {
                name: name.copy()?,
                func: self.def.func.copy()?,
                multi: self.def.multi,
            },
            number: self.number,
            entries: self.entries.share()?,
        })
    }
}
