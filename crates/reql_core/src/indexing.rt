// Commands on indexes.
ghost use Rattle.std.specs.Prelude.{◌≡◌, ◌+◌, ◌<◌, ◌^◌, true, false, IfOk, OnErr};
ghost use Rattle.reql_datum.specs.Members.{find, put, without};
ghost use Rattle.reql_rules.specs.Types.{same_text};
ghost use Rattle.reql_term.specs.Views.{index_of};
ghost use Rattle.reql_table.specs.Edits.{renamed};
ghost use Rattle.reql_table.specs.Seen.{documents_of, indexes_of};
ghost use Rattle.reql_table_machine_spec.specs.declared.command.Cmd.TheVariants as known;
ghost use Rattle.reql_table_spec.specs.Indexes.{create, drop, rename, is_there, is_taken};
ghost use Rattle.reql_core.specs.Live.{Does, moved, gone_on};
ghost use Rattle.reql_opening.specs.Opens.{Follows};

use crate::live::LiveTable;
use reql_datum::Name;
use reql_memory::Memory;
use reql_opening::Opening;
use reql_table::Table;
use reql_table_spec::Said;
use reql_term::{IndexDef, TableView};

// Whether two names are the same.
fn is_same(old: &Name, new: &Name) -> bool
    ensures { result ≡ same_text old.now new.now }
{
    old.as_str().cmp(&new.as_str()).is_eq()
}

// The table with an index more.
fn with_index(table: &Table, def: &IndexDef) -> Result<Table, Memory>
    ensures documents { IfOk result (λ t. documents_of t ≡ documents_of table.now) }
    ensures indexes { IfOk result (λ t. indexes_of t
        ≡ put def.now.name (index_of def.now) (indexes_of table.now)) }
    ensures follows { IfOk result (λ t. Follows table.now t) }
{
    let indexed = table.with_index(def)?;
    Ok(indexed)
}

// The table without an index.
fn without_index(table: &Table, name: &Name) -> Result<Table, Memory>
    ensures documents { IfOk result (λ t. documents_of t ≡ documents_of table.now) }
    ensures indexes { IfOk result (λ t. indexes_of t ≡ without name.now (indexes_of table.now)) }
    ensures follows { IfOk result (λ t. Follows table.now t) }
{
    let rest = table.without_index(name.as_str())?;
    Ok(rest)
}

// The table where an index has another name.
fn with_renamed(table: &Table, old: &Name, new: &Name) -> Result<Table, Memory>
    ensures documents { IfOk result (λ t. documents_of t ≡ documents_of table.now) }
    ensures indexes { IfOk result (λ t. indexes_of t ≡ renamed old.now new.now
        (find old.now (indexes_of table.now)) (indexes_of table.now)) }
    ensures follows { IfOk result (λ t. Follows table.now t) }
{
    let moved = table.with_renamed(old.as_str(), new)?;
    Ok(moved)
}

impl<F: Opening> LiveTable<F> {
    fn has_index(&self, name: &Name) -> bool
        ensures { result ≡ is_there name.now (indexes_of self.now.moment.table) }
    {
        self.moment.table.index(name).is_some()
    }

    // Whether an index has a name that may not be taken.
    fn is_taken(&self, name: &Name, overwrite: bool) -> bool
        ensures { result ≡ is_taken name.now overwrite (indexes_of self.now.moment.table) }
    {
        self.has_index(name) && !overwrite
    }

    // Goes on with other indexes over the same documents.
    #[tactic(auto, using(crate::proofs::Indexed::lives_on))]
    fn go_on(&mut self, table: Table)
        requires room { self.old.moment.place + 1 < 2 ^ 64 }
        requires documents { documents_of table ≡ documents_of self.old.moment.table }
        requires follows { Follows self.old.moment.table table }
        ensures now { self.new ≡ gone_on table self.old }
        ensures stamp { self.old.moment.stamp < 2 ^ 64 }
    {
        self.moment.table = table;
        self.moment.place += 1;
    }

    // An entry that changes nothing.
    #[tactic(auto, using(crate::proofs::Keeping::lives_moved))]
    fn pass_over(&mut self)
        requires room { self.old.moment.place + 1 < 2 ^ 64 }
        ensures now { self.new ≡ moved self.old }
        ensures stamp { self.old.moment.stamp < 2 ^ 64 }
    {
        self.moment.place += 1;
    }

    /// Makes an index over all documents. The history has room for one entry.
    pub(crate) fn create_index(&mut self, by: u64, def: &IndexDef) -> Result<Said, Memory>
        requires room { self.old.moment.place + 1 < 2 ^ 64 }
        ensures does { IfOk result (λ s. Does F.held by
            (known.Index (create def.now.name (index_of def.now))) self.old self.new s) }
        ensures same { OnErr result (self.new ≡ self.old) }
    {
        if self.is_shut() {
            return Ok(Said::Gone);
        }
        if self.has_index(&def.name) {
            self.pass_over();
            return Ok(Said::IndexExists);
        }
        let table = with_index(self.table(), def)?;
        self.go_on(table);
        Ok(Said::Changed)
    }

    /// Drops an index. The history has room for one entry.
    pub(crate) fn drop_index(&mut self, by: u64, name: &Name) -> Result<Said, Memory>
        requires room { self.old.moment.place + 1 < 2 ^ 64 }
        ensures does { IfOk result (λ s. Does F.held by (known.Index (drop name.now))
            self.old self.new s) }
        ensures same { OnErr result (self.new ≡ self.old) }
    {
        if self.is_shut() {
            return Ok(Said::Gone);
        }
        if self.has_index(name) {
            let table = without_index(self.table(), name)?;
            self.go_on(table);
            return Ok(Said::Changed);
        }
        self.pass_over();
        Ok(Said::IndexMissing)
    }

    // Gives an index that is there another name.
    fn rename_there(
        &mut self,
        by: u64,
        old: &Name,
        new: &Name,
        overwrite: bool,
    ) -> Result<Said, Memory>
        requires room { self.old.moment.place + 1 < 2 ^ 64 }
        requires alive { self.old.shut ≡ false }
        requires there { is_there old.now (indexes_of self.old.moment.table) ≡ true }
        ensures does { IfOk result (λ s. Does F.held by
            (known.Index (rename old.now new.now overwrite)) self.old self.new s) }
        ensures same { OnErr result (self.new ≡ self.old) }
    {
        if is_same(old, new) {
            self.pass_over();
            return Ok(Said::Changed);
        }
        if self.is_taken(new, overwrite) {
            self.pass_over();
            return Ok(Said::IndexExists);
        }
        let table = with_renamed(self.table(), old, new)?;
        self.go_on(table);
        Ok(Said::Changed)
    }

    /// Gives an index another name; an index that has it gives way if it may. The history has room for
    /// one entry.
    pub(crate) fn rename_index(
        &mut self,
        by: u64,
        old: &Name,
        new: &Name,
        overwrite: bool,
    ) -> Result<Said, Memory>
        requires room { self.old.moment.place + 1 < 2 ^ 64 }
        ensures does { IfOk result (λ s. Does F.held by
            (known.Index (rename old.now new.now overwrite)) self.old self.new s) }
        ensures same { OnErr result (self.new ≡ self.old) }
    {
        if self.is_shut() {
            return Ok(Said::Gone);
        }
        if self.has_index(old) {
            let said = self.rename_there(by, old, new, overwrite)?;
            return Ok(said);
        }
        self.pass_over();
        Ok(Said::IndexMissing)
    }
}
