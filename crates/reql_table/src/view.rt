// A table as terms read it.
ghost use Rattle.std.specs.Prelude.{◌≡◌, ◌++◌, map, true, is_some, IfOk, option_map};
ghost use Rattle.reql_datum.specs.Plain.{text};
ghost use Rattle.reql_term.specs.Views.{Views, documents_in, entries_of as entries_of_view};
ghost use Rattle.reql_datum.specs.View.{plain};
ghost use Rattle.reql_table.specs.Inside.{inside};
ghost use Rattle.reql_table.specs.Seen.{documents_of, indexes_of, entries_at, of_value};

use crate::filed::FiledIndex;
use crate::slice::{Slice, count, documents, part};
use crate::table::Table;
use crate::walk::entries;
use reql_datum::{Datum, Items, Memory, Name};
use reql_ptree::Steps;
use reql_term::{Entries, IndexDef, Range, TableView, ViewFault};
use std::alloc::Global;

// The names of indexes.
fn names_in(alloc: Global, indexes: &[FiledIndex]) -> Result<Items, Memory>
    ensures { IfOk result (λ items. items ≡ map (λ i. text i.def.name) indexes.now) }
{
    let mut names = Items::with_room(alloc, indexes.len())?;
    for index in indexes {
        let name = index.def.name.copy()?;
        names.push(Datum::Text(name))?;
    }
    Ok(names)
}

// Adds the documents between the keys.
#[tactic(auto, using(reql_datum::proofs::Walks::walks))]
fn add_all(all: &mut Items, slice: &Slice<'_>) -> Result<(), Memory>
    ensures { IfOk result (λ _. all.new ≡ all.old ++ inside slice.now) }
{
    let found = documents(slice, false)?;
    let mut place = 0;
    while let Some(document) = found.at(place) {
        all.push(document.copy()?)?;
        place += 1;
    }
    Ok(())
}

impl Table {
    // Adds the documents of one value.
    #[tactic(auto, using(crate::proofs::Turned::added))]
    fn add_at(&self, all: &mut Items, index: Option<&Name>, key: &Datum) -> Result<(), ViewFault>
        ensures { Views (λ u. all.new) result
            (option_map (λ es. all.old ++ documents_in (of_value (plain key.now) es))
            (entries_of_view (documents_of self.now) (indexes_of self.now) (entries_at self.now)
            (option_map (λ n. n.now) index.entry))) }
    {
        let slice = self.at(index, key)?;
        Ok(add_all(all, &slice)?)
    }

    // Whether an index is there; the primary order is.
    fn has(&self, index: Option<&Name>) -> bool
        ensures { result ≡ is_some (entries_of_view (documents_of self.now) (indexes_of self.now)
            (entries_at self.now) (option_map (λ n. n.now) index.entry)) }
    {
        match index {
            None => true,
            Some(name) => self.filed(name.as_str()).is_some(),
        }
    }
}

impl TableView for Table {
    ghost documents = { documents_of };

    ghost indexes = { indexes_of };

    ghost entries = { entries_at };

    fn get(&self, key: &Datum) -> Option<&Datum> {
        let mut steps = Steps::start();
        self.tree().get(key, &mut steps)
    }

    #[tactic(auto, using(crate::proofs::Turned::all_kept))]
    fn scan(&self, alloc: Global) -> Result<Items, Memory> {
        let _alloc = alloc;
        let mut steps = Steps::start();
        self.tree()
            .range(&Datum::Low, false, &Datum::High, false, &mut steps)
    }

    #[tactic(auto, using(crate::proofs::Turned::between_is))]
    fn between(&self, alloc: Global, range: &Range) -> Result<Items, ViewFault> {
        let _alloc = alloc;
        let slice = self.slice(range)?;
        Ok(documents(&slice, range.down)?)
    }

    #[tactic(auto, using(crate::proofs::Turned::part_is))]
    fn part(
        &self,
        alloc: Global,
        range: &Range,
        from: usize,
        most: usize,
    ) -> Result<Items, ViewFault> {
        let _alloc = alloc;
        let slice = self.slice(range)?;
        Ok(part(&slice, range.down, from, most)?)
    }

    #[tactic(auto, using(crate::proofs::Turned::count_is))]
    fn count_between(&self, range: &Range) -> Result<u64, ViewFault> {
        let slice = self.slice(range)?;
        Ok(count(&slice)?)
    }

    fn entries_between(&self, alloc: Global, range: &Range) -> Result<Entries, ViewFault> {
        let slice = self.slice(range)?;
        Ok(entries(alloc, &slice, range.down)?)
    }

    #[tactic(auto, using(crate::proofs::Turned::more_all, crate::proofs::Turned::no_more))]
    fn get_all(
        &self,
        alloc: Global,
        index: Option<&Name>,
        keys: &Items,
    ) -> Result<Items, ViewFault> {
        if !self.has(index) {
            return Err(ViewFault::IndexMissing);
        }
        let mut all = Items::new(alloc);
        let mut place = 0;
        while let Some(key) = keys.at(place) {
            self.add_at(&mut all, index, key)?;
            place += 1;
        }
        Ok(all)
    }

    #[tactic(auto, using(crate::proofs::Named::there_order, crate::proofs::Named::there_held))]
    fn index(&self, name: &Name) -> Option<&IndexDef> {
        let _tree = self.tree();
        match self.filed(name.as_str()) {
            Some(index) => Some(&index.def),
            None => None,
        }
    }

    #[tactic(auto, using(crate::proofs::Named::names_seen))]
    fn names(&self, alloc: Global) -> Result<Items, Memory> {
        names_in(alloc, self.all_indexes())
    }
}
