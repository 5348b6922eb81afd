// INDEX_LIST, INDEX_STATUS and INDEX_WAIT.
ghost use Rattle.std.specs.Prelude.{◌≡◌, ◌++◌, ◌∷◌, [], IfOk, Ok, map};
ghost use Rattle.reql_datum.specs.Outcome.{Gives};
ghost use Rattle.reql_datum.specs.Plain.{text};
ghost use Rattle.reql_datum.specs.View.{plain};
ghost use Rattle.reql_rules.specs.Lists.{each};
ghost use Rattle.reql_value_spec.specs.Meant.{Calls, Options};
ghost use Rattle.reql_value_spec.specs.Tables.{index_names as index_names_of, or_all, index_list_rule, index_statuses as index_statuses_of};
ghost use Rattle.reql_value_spec.specs.Wanted.{as_text as as_text_of};
ghost use Rattle.reql_value_spec.specs.World.{World as Seen};
ghost use Rattle.reql_operand.specs.Seen.{shown, all_shown};
ghost use Rattle.reql_operand.specs.Tables.{view, seen};
ghost use Rattle.reql_apply_table.specs.Indexes.{texts_in, status_in, statuses_asked};

use crate::admin::index_status;
use reql_datum::{Datum, Fault, Items, Memory, Name};
use reql_operand::{Arg, Viewed, World, as_table, as_text, misplaced, no_index};
use reql_term::TableView;
use std::alloc::Global;

/// The names of a table's indexes as texts, in order.
#[tactic(auto, using(crate::proofs::Texts::names_as_texts))]
pub(crate) fn index_names<V: TableView>(alloc: Global, table: &Viewed<V>) -> Result<Items, Memory>
    ensures { IfOk result (λ items. items
        ≡ map text (index_names_of (view V.documents V.indexes V.entries table.now))) }
{
    table.view.names(alloc)
}

/// INDEX_LIST: the names of a table's indexes, in order.
pub fn index_list<V: TableView>(
    alloc: Global,
    args: &[Arg],
    world: &World<V>,
) -> Result<Items, Fault>
    ensures { let w = seen V.documents V.indexes V.entries world.now in
        (calls : Calls) (opts : Options) → Gives (λ items. items) result
        (index_list_rule w calls (all_shown w args.now) opts) }
{
    match args {
        [] => Err(Fault::QueryLogic(misplaced(alloc)?)),
        [table] => {
            let found = as_table(alloc, table, world)?;
            Ok(index_names(alloc, found)?)
        }
        [_, _, ..] => Err(Fault::QueryLogic(misplaced(alloc)?)),
    }
}

// The texts that arguments are.
fn texts_of(alloc: Global, args: &[Arg]) -> Result<Vec<Name>, Fault>
    ensures { (w : Seen) → Gives (λ names. names.items) result
        (each as_text_of (all_shown w args.now)) }
{
    let mut names = Vec::new(alloc);
    for arg in args {
        let name = as_text(alloc, arg)?;
        names.push(name.copy()?)?;
    }
    Ok(names)
}

fn with_text(names: Vec<Name>, d: &Datum) -> Result<Vec<Name>, Memory>
    ensures { IfOk result (λ more. more.items ≡ names.items ++ texts_in (plain d.now ∷ [])) }
{
    let mut more = names;
    if let Datum::Text(name) = d {
        more.push(name.copy()?)?;
    }
    Ok(more)
}

// The texts among documents.
#[tactic(auto, using(crate::proofs::Texts::texts_apart))]
fn texts_among(alloc: Global, list: &[Datum]) -> Result<Vec<Name>, Memory>
    ensures { IfOk result (λ names. names.items ≡ texts_in (map plain list.now)) }
{
    let mut names = Vec::new(alloc);
    for d in list {
        names = with_text(names, d)?;
    }
    Ok(names)
}

// All indexes of a table where none is named.
#[tactic(auto, using(crate::proofs::Texts::texts_back))]
fn or_all<V: TableView>(
    alloc: Global,
    table: &Viewed<V>,
    names: Vec<Name>,
) -> Result<Vec<Name>, Memory>
    ensures { IfOk result (λ all. all.items
        ≡ or_all (index_names_of (view V.documents V.indexes V.entries table.now)) names.items) }
{
    if names.is_empty() {
        let all = index_names(alloc, table)?;
        return texts_among(alloc, all.as_slice());
    }
    Ok(names)
}

// What is told of the index of a name.
fn status_of<V: TableView>(alloc: Global, table: &Viewed<V>, name: &Name) -> Result<Datum, Fault>
    ensures { Gives plain result
        (status_in (view V.documents V.indexes V.entries table.now) name.now) }
{
    match table.view.index(name) {
        Some(found) => Ok(index_status(alloc, name, found.multi)?),
        None => Err(Fault::OpFailed(no_index(alloc, name.as_str())?)),
    }
}

fn statuses_of<V: TableView>(
    alloc: Global,
    table: &Viewed<V>,
    names: &[Name],
) -> Result<Items, Fault>
    ensures { Gives (λ items. items) result
        (each (status_in (view V.documents V.indexes V.entries table.now)) names.now) }
{
    let mut statuses = Items::new(alloc);
    for name in names {
        let status = status_of(alloc, table, name)?;
        statuses.push(status)?;
    }
    Ok(statuses)
}

// What is told of the indexes that arguments name, or of all.
fn statuses_in<V: TableView>(alloc: Global, table: &Viewed<V>, args: &[Arg]) -> Result<Items, Fault>
    ensures { (w : Seen) → Gives (λ items. items) result
        (statuses_asked (view V.documents V.indexes V.entries table.now) (all_shown w args.now)) }
{
    let named = texts_of(alloc, args)?;
    let names = or_all(alloc, table, named)?;
    statuses_of(alloc, table, &names)
}

/// INDEX_STATUS and INDEX_WAIT: what is told of the indexes of a table that are named, or of all.
pub fn index_statuses<V: TableView>(
    alloc: Global,
    table: &Arg,
    names: &[Arg],
    world: &World<V>,
) -> Result<Items, Fault>
    ensures { let w = seen V.documents V.indexes V.entries world.now in
        (calls : Calls) (opts : Options) → Gives (λ items. items) result
        (index_statuses_of w calls (shown w table.now ∷ all_shown w names.now) opts) }
{
    let found = as_table(alloc, table, world)?;
    statuses_in(alloc, found, names)
}
