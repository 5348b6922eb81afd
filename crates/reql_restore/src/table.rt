// A table that records lead to.
ghost use Rattle.std.specs.Prelude.{◌≡◌, map, option_map, IfOk, IfSome, is_some};
ghost use Rattle.reql_datum.specs.View.{plain};
ghost use Rattle.reql_datum.specs.Members.{find};
ghost use Rattle.reql_term.specs.View.{form_of};
ghost use Rattle.reql_table.specs.Seen.{documents_of, indexes_of};
ghost use Rattle.reql_table.specs.Edits.{told};
ghost use Rattle.reql_table_spec.specs.Engines.{kept_of};
ghost use Rattle.reql_table_spec.specs.Indexes.{is_there};
ghost use Rattle.reql_table_records.specs.Records.{record_of};
ghost use Rattle.reql_table_records.specs.Standing.{blank, is_object, leaves, fits, with_change, with_changes, function_in, with_index, without_index, with_renamed, after_open};
ghost use Rattle.reql_table_records.specs.Standing.{Leads};
ghost use Rattle.reql_restore.specs.Tables.{standing_of};

use reql_datum::{Datum, Memory, Name};
use reql_ptree::Steps;
use reql_read::{Query, ReadFault, read_query};
use reql_table::{Change, Table};
use reql_table_records::{Restores, TableRecord};
use reql_table_spec::Kept;
use reql_term::{Body, IndexDef, TableView, Term};
use std::alloc::Global;

/// A table as its journal tells it, and whether it was dropped.
#[derive(Drop)]
pub struct Recovered {
    pub table: Table,
    pub shut: bool,
}

fn is_object(document: &Datum) -> bool
    ensures { result ≡ is_object (plain document.now) }
{
    match document {
        Datum::Obj(_) => true,
        _ => false,
    }
}

fn is_held(table: &Table, key: &Datum) -> bool
    ensures { result ≡ leaves (documents_of table.now) (plain key.now) None }
{
    let mut steps = Steps::start();
    match table.tree().get(key, &mut steps) {
        Some(_) => true,
        None => false,
    }
}

fn leaves(table: &Table, key: &Datum, new: &Option<Datum>) -> bool
    ensures { result
        ≡ leaves (documents_of table.now) (plain key.now) (option_map plain new.now) }
{
    match new {
        Some(document) => is_object(document),
        None => is_held(table, key),
    }
}

// Whether a change fits the documents.
fn fits(table: &Table, change: &Kept) -> bool
    ensures { result ≡ fits (documents_of table.now) (kept_of change.now) }
{
    change.key.is_key() && leaves(table, &change.key, &change.new)
}

fn copy_of(document: &Option<Datum>) -> Result<Option<Datum>, Memory>
    ensures { IfOk result (λ copy. option_map plain copy ≡ option_map plain document.now) }
{
    match document {
        None => Ok(None),
        Some(document) => {
            let copy = document.copy()?;
            Ok(Some(copy))
        }
    }
}

// A change, for who needs nothing of what was there.
fn change_of(kept: &Kept) -> Result<Change, Memory>
    ensures { IfOk result (λ c. (plain c.key, option_map plain c.new) ≡ kept_of kept.now) }
{
    Ok(Change {
        key: kept.key.copy()?,
        old: None,
        new: copy_of(&kept.new)?,
    })
}

// Makes a change, where it fits.
fn make_change(table: &mut Table, kept: &Kept) -> Result<bool, Memory>
    ensures documents { IfOk result (λ done. Leads done
        (with_change (documents_of table.old) (kept_of kept.now)) (documents_of table.new)) }
    ensures indexes { IfOk result (λ done. indexes_of table.new ≡ indexes_of table.old) }
{
    if !fits(table, kept) {
        return Ok(false);
    }
    let change = change_of(kept)?;
    table.apply(&change)?;
    Ok(true)
}

// Makes changes one after another, as long as each fits.
fn make_changes(table: &mut Table, changes: &[Kept]) -> Result<bool, Memory>
    ensures documents { IfOk result (λ done. Leads done
        (with_changes (documents_of table.old) (map kept_of changes.now)) (documents_of table.new)) }
    ensures indexes { IfOk result (λ done. indexes_of table.new ≡ indexes_of table.old) }
{
    for change in changes {
        if !make_change(table, change)? {
            return Ok(false);
        }
    }
    Ok(true)
}

fn has_index(table: &Table, name: &Name) -> bool
    ensures { result ≡ is_there name.now (indexes_of table.now) }
{
    match table.index(name) {
        Some(_) => true,
        None => false,
    }
}

// The term that the text of a query starts, if it starts one.
fn function_in(alloc: Global, text: &Name) -> Result<Option<Term>, Memory>
    ensures { IfOk result (λ o. option_map form_of o ≡ function_in text.now) }
{
    match read_query(alloc, text.as_str().as_bytes()) {
        Ok(Query::Start { term, .. }) => Ok(Some(term)),
        Ok(_) => Ok(None),
        Err(unread) => match unread.fault {
            ReadFault::Memory => Err(Memory),
            _ => Ok(None),
        },
    }
}

fn body_of(alloc: Global, term: Term) -> Result<Body, Memory>
    ensures { IfOk result (λ body. body ≡ form_of term) }
{
    match Body::new(alloc, term) {
        Ok(body) => Ok(body),
        Err(_) => Err(Memory),
    }
}

fn definition(alloc: Global, name: Name, multi: bool, term: Term) -> Result<IndexDef, Memory>
    ensures name { IfOk result (λ d. d.name ≡ name) }
    ensures func { IfOk result (λ d. d.func ≡ form_of term) }
    ensures multi { IfOk result (λ d. d.multi ≡ multi) }
{
    Ok(IndexDef {
        name,
        func: body_of(alloc, term)?,
        multi,
    })
}

impl Recovered {
    /// A table of nothing.
    pub fn blank(alloc: Global) -> Recovered
        ensures { standing_of result ≡ blank }
    {
        Recovered {
            table: Table::new(alloc),
            shut: false,
        }
    }

    fn create_index(
        &mut self,
        alloc: Global,
        name: Name,
        multi: bool,
        text: &Name,
    ) -> Result<bool, Memory>
        ensures indexes { IfOk result (λ done. Leads done
            (with_index name multi text.now (indexes_of self.old.table))
            (indexes_of self.new.table)) }
        ensures documents { IfOk result (λ done.
            documents_of self.new.table ≡ documents_of self.old.table) }
        ensures shut { self.new.shut ≡ self.old.shut }
    {
        if has_index(&self.table, &name) {
            return Ok(false);
        }
        let Some(term) = function_in(alloc, text)? else {
            return Ok(false);
        };
        let def = definition(alloc, name, multi, term)?;
        self.table = self.table.with_index(&def)?;
        Ok(true)
    }

    fn drop_index(&mut self, name: &Name) -> Result<bool, Memory>
        ensures indexes { IfOk result (λ done. Leads done
            (without_index name.now (indexes_of self.old.table))
            (indexes_of self.new.table)) }
        ensures documents { IfOk result (λ done.
            documents_of self.new.table ≡ documents_of self.old.table) }
        ensures shut { self.new.shut ≡ self.old.shut }
    {
        if !has_index(&self.table, name) {
            return Ok(false);
        }
        self.table = self.table.without_index(name.as_str())?;
        Ok(true)
    }

    fn rename_index(&mut self, old: &Name, new: &Name) -> Result<bool, Memory>
        ensures indexes { IfOk result (λ done. Leads done
            (with_renamed old.now new.now (indexes_of self.old.table))
            (indexes_of self.new.table)) }
        ensures documents { IfOk result (λ done.
            documents_of self.new.table ≡ documents_of self.old.table) }
        ensures shut { self.new.shut ≡ self.old.shut }
    {
        if !has_index(&self.table, old) {
            return Ok(false);
        }
        self.table = self.table.with_renamed(old.as_str(), new)?;
        Ok(true)
    }

    fn write(&mut self, changes: &[Kept]) -> Result<bool, Memory>
        ensures documents { IfOk result (λ done. Leads done
            (with_changes (documents_of self.old.table) (map kept_of changes.now))
            (documents_of self.new.table)) }
        ensures indexes { IfOk result (λ done.
            indexes_of self.new.table ≡ indexes_of self.old.table) }
        ensures shut { self.new.shut ≡ self.old.shut }
    {
        make_changes(&mut self.table, changes)
    }

    // Makes what a record stands for, where it fits a table that wasn't dropped.
    fn make(&mut self, alloc: Global, made: TableRecord) -> Result<bool, Memory>
        ensures { IfOk result (λ done. Leads done
            (after_open (standing_of self.old) (record_of made)) (standing_of self.new)) }
    {
        match made {
            TableRecord::Write(changes) => self.write(&changes),
            TableRecord::IndexCreate { name, multi, text } => {
                self.create_index(alloc, name, multi, &text)
            }
            TableRecord::IndexDrop(name) => self.drop_index(&name),
            TableRecord::IndexRename { old, new } => self.rename_index(&old, &new),
            TableRecord::Shut => {
                self.shut = true;
                Ok(true)
            }
        }
    }
}

impl Restores for Recovered {
    ghost standing = { standing_of };

    fn apply(&mut self, alloc: Global, made: TableRecord) -> Result<bool, Memory> {
        if self.shut {
            return Ok(false);
        }
        self.make(alloc, made)
    }
}
