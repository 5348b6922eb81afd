// The rows of a write, as their primary keys.
ghost use Rattle.std.specs.Prelude.{◌≡◌, ◌∷◌, [], IfOk};
ghost use Rattle.reql_datum.specs.Outcome.{Gives};
ghost use Rattle.reql_term.specs.View.{form_of};
ghost use Rattle.reql_operand.specs.Tables.{seen as seen_world};
ghost use Rattle.reql_table.specs.Seen.{documents_of, indexes_of, entries_at};
ghost use Rattle.reql_write_spec.specs.Selecting.{selected as selected_of};
ghost use Rattle.reql_write.specs.Selecting.{world_of, selected_at, SelectsIn};

use crate::selection::keys_of_value;
use crate::slots::{is_chain, slots};
use reql_datum::{Fault, Items, Memory, Name};
use reql_eval::eval;
use reql_operand::{Purse, Viewed, World};
use reql_table::Table;
use reql_term::{Body, Term};
use reql_term_analysis::Vars;
use std::alloc::Global;

// The slot of the one table of which a term selects rows, if it is such a term.
#[tactic(auto, using(crate::proofs::Rows::no_chain, crate::proofs::Rows::one_slot))]
fn selected_slot(alloc: Global, term: &Term) -> Result<Option<u32>, Memory>
    ensures { IfOk result (SelectsIn (form_of term.now)) }
{
    if !is_chain(term) {
        return Ok(None);
    }
    let found = slots(alloc, term)?;
    match found.as_slice() {
        [slot] => Ok(Some(*slot)),
        _ => Ok(None),
    }
}

// The table as its own rows are read.
fn own_world(
    alloc: Global,
    table: &Table,
    field: &Name,
    slot: u32,
    left: u64,
) -> Result<World<Table>, Memory>
    ensures { IfOk result (λ w. seen_world documents_of indexes_of entries_at w
        ≡ world_of field.now (documents_of table.now) (indexes_of table.now) (slot ∷ [])) }
{
    let mut tables = Vec::new(alloc);
    tables.push(Viewed {
        slot,
        db: Name::of(alloc, "")?,
        db_number: 0,
        name: Name::of(alloc, "")?,
        key: field.copy()?,
        view: table.share()?,
    })?;
    Ok(World {
        tables,
        databases: Vec::new(alloc),
        array_limit: 100_000,
        purse: Purse::new(left),
    })
}

// The primary keys of the rows that a term selects in the world of the table in a slot.
fn keys_in(
    alloc: Global,
    table: &Table,
    field: &Name,
    term: &Term,
    slot: u32,
    world: &World<Table>,
) -> Result<Items, Fault>
    ensures { seen_world documents_of indexes_of entries_at world.now
        ≡ world_of field.now (documents_of table.now) (indexes_of table.now) (slot ∷ [])
        → Gives (λ items. items) result (selected_at field.now (documents_of table.now)
        (indexes_of table.now) (slot ∷ []) (form_of term.now)) }
{
    let value = eval(alloc, term, world, &Vars::Empty)?;
    keys_of_value(alloc, table, field, world, &value)
}

// The primary keys of the rows that a term selects of the table in a slot, which are paid for.
fn keys_at(
    alloc: Global,
    table: &Table,
    field: &Name,
    term: &Term,
    slot: u32,
    purse: &Purse,
) -> Result<Items, Fault>
    ensures { Gives (λ items. items) result (selected_at field.now (documents_of table.now)
        (indexes_of table.now) (slot ∷ []) (form_of term.now)) }
{
    let world = own_world(alloc, table, field, slot, purse.left())?;
    let keys = keys_in(alloc, table, field, term, slot, &world);
    purse.settle(&world.purse);
    keys
}

/// The primary keys of the rows, or the fault in evaluating them. What is no selection of a table
/// has none.
#[tactic(auto, using(crate::proofs::Rows::none_selected, crate::proofs::Rows::some_selected))]
pub(crate) fn selected(
    alloc: Global,
    table: &Table,
    field: &Name,
    rows: &Body,
    purse: &Purse,
) -> Result<Items, Fault>
    ensures { Gives (λ items. items) result (selected_of field.now (documents_of table.now)
        (indexes_of table.now) rows.now) }
{
    let term = rows.term();
    match selected_slot(alloc, term)? {
        None => Ok(Items::new(alloc)),
        Some(slot) => keys_at(alloc, table, field, term, slot, purse),
    }
}
