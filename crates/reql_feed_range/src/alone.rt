// What one document adds to what a range shape gives.
ghost use Rattle.std.specs.Prelude.{◌≡◌, [], ◌∷◌, length, List, IfOk, cond, option_map};
ghost use Rattle.reql_bag.specs.Bag.{IsRising};
ghost use Rattle.reql_datum.specs.Answer.{Answer};
ghost use Rattle.reql_datum.specs.Kinds.{are_storable};
ghost use Rattle.reql_datum.specs.Outcome.{Gives, Fails};
ghost use Rattle.reql_datum.specs.Plain.{Plain, items_of};
ghost use Rattle.reql_datum.specs.View.{plain};
ghost use Rattle.reql_feed_spec.specs.Value.{is_showable, shown_alone as shown_alone_of, contribution as contribution_of, contribution_at as contribution_at_of};
ghost use Rattle.reql_feed_range.specs.Feed.{coming, rows_given, world_with};
ghost use Rattle.reql_feed_read.specs.Follows.{shape_of};
ghost use Rattle.reql_operand.specs.Tables.{seen, slotted};
ghost use Rattle.reql_table.specs.Seen.{documents_of, indexes_of, entries_at};
ghost use Rattle.reql_value_spec.specs.Index.{plain_view};
ghost use Rattle.reql_table.specs.Edits.{told};
ghost use Rattle.reql_value_spec.specs.Shapes.{answered};
ghost use Rattle.reql_write_spec.specs.Treated.{changed_by};

use reql_bag::in_order;
use reql_datum::{Datum, Fault, Items, Memory, Name};
use reql_eval::eval;
use reql_feed_read::RangeShape;
use reql_operand::{Purse, STAGE, Viewed, World, to_sequence};
use reql_table::{Change, Prepared, Table};
use reql_term::Body;
use reql_term_analysis::Vars;
use std::alloc::Global;
use std::slice;

fn change_of(key: &Datum, doc: &Datum) -> Result<Change, Memory>
    ensures { IfOk result (λ c. told c ≡ coming (plain key.now) (plain doc.now)) }
{
    Ok(Change {
        key: key.copy()?,
        old: None,
        new: Some(doc.copy()?),
    })
}

fn prepared_with(empty: &Table, change: &Change) -> Result<Prepared, Memory>
    ensures documents { IfOk result (λ p. documents_of p
        ≡ changed_by (documents_of empty.now) (told change.now ∷ [])) }
    ensures indexes { IfOk result (λ p. p.1 ≡ empty.now.1) }
{
    let prepared = empty.prepare(slice::from_ref(change))?;
    Ok(prepared)
}

// The table that holds one document.
#[tactic(auto, using(crate::proofs::OneDocument::installed_documents, crate::proofs::OneDocument::installed_indexes))]
fn holding(empty: &Table, key: &Datum, doc: &Datum) -> Result<Table, Memory>
    requires empty { length (documents_of empty.now) ≡ 0 }
    ensures documents { IfOk result (λ t. documents_of t ≡ (plain key.now, plain doc.now) ∷ []) }
    ensures indexes { IfOk result (λ t. indexes_of t ≡ indexes_of empty.now) }
{
    let change = change_of(key, doc)?;
    let prepared = prepared_with(empty, &change)?;
    let mut table = empty.share()?;
    table.install(prepared);
    Ok(table)
}

// A table as the term of a shape reads it.
#[tactic(auto, using(crate::proofs::OneDocument::viewed_is))]
fn viewed(alloc: Global, shape: &RangeShape, table: Table) -> Result<Viewed<Table>, Memory>
    requires indexes { indexes_of table ≡ indexes_of shape.now.empty }
    ensures { IfOk result (λ v. slotted documents_of indexes_of entries_at v
        ≡ (
          shape.now.slot,
          plain_view [] 0 [] shape.now.key (documents_of table)
              (indexes_of shape.now.empty),
        )) }
{
    let db = Name::of(alloc, "")?;
    let name = Name::of(alloc, "")?;
    let key = shape.key.copy()?;
    Ok(Viewed {
        slot: shape.slot,
        db,
        db_number: 0,
        name,
        key,
        view: table,
    })
}

// The world of one table.
fn world_of(alloc: Global, viewed: Viewed<Table>) -> Result<World<Table>, Memory>
    ensures { IfOk result (λ w. seen documents_of indexes_of entries_at w
        ≡ world_with (slotted documents_of indexes_of entries_at viewed)) }
{
    let mut tables = Vec::new(alloc);
    tables.push(viewed)?;
    Ok(World {
        tables,
        databases: Vec::new(alloc),
        array_limit: 100_000,
        purse: Purse::new(STAGE),
    })
}

// What a term gives in a world, as a sequence.
fn rows_in(alloc: Global, term: &Body, world: &World<Table>) -> Result<Items, Fault>
    ensures { let w = seen documents_of indexes_of entries_at world.now in
        Gives (λ items. items) result (rows_given term.now w) }
{
    let found = eval(alloc, term.term(), world, &Vars::Empty)?;
    let rows = to_sequence(alloc, &found, world)?;
    Ok(rows)
}

// What the term of a shape gives of a table.
#[tactic(auto, using(crate::proofs::OneDocument::rows_over_shape))]
fn rows(alloc: Global, shape: &RangeShape, table: Table) -> Result<Items, Fault>
    requires indexes { indexes_of table ≡ indexes_of shape.now.empty }
    ensures { Gives (λ items. items) result (shape_of shape.now (documents_of table)) }
{
    let viewed = viewed(alloc, shape, table)?;
    let world = world_of(alloc, viewed)?;
    rows_in(alloc, &shape.term, &world)
}

// What may be shown.
fn if_storable(alloc: Global, items: &Items) -> Result<Items, Memory>
    ensures { IfOk result (λ r. r ≡ cond (are_storable (items_of items.now)) items.now []) }
{
    if items.is_storable() {
        return items.copy();
    }
    Ok(Items::new(alloc))
}

// A fault shows nothing; want of memory is handed on.
fn of_fault(alloc: Global, fault: &Fault) -> Result<Items, Memory>
    ensures { (a : Answer (List Plain)) → Fails fault.now a
        → IfOk result (λ r. r ≡ cond (is_showable a) (answered a) []) }
{
    match fault {
        Fault::Memory => Err(Memory),
        _ => Ok(Items::new(alloc)),
    }
}

fn showable(alloc: Global, answer: &Result<Items, Fault>) -> Result<Items, Memory>
    ensures { (a : Answer (List Plain)) → Gives (λ items. items) answer.now a
        → IfOk result (λ r. r ≡ cond (is_showable a) (answered a) []) }
{
    match answer {
        Ok(items) => if_storable(alloc, items),
        Err(fault) => of_fault(alloc, fault),
    }
}

// What a shape gives of a document by itself, where that can be shown. Of one that its source leaves
// out that is nothing, and costs comparisons of its key with the bounds or the keys that are asked for,
// or the index's function on it and as many for each of its entries.
#[tactic(auto, using(crate::proofs::OneDocument::left_out))]
fn shown_alone(alloc: Global, shape: &RangeShape, key: &Datum, doc: &Datum) -> Result<Items, Memory>
    ensures { IfOk result (λ r. r
        ≡ shown_alone_of (shape_of shape.now) (plain key.now, plain doc.now)) }
{
    let is_read = shape.source.may_hold(alloc, key, doc)?;
    if !is_read {
        return Ok(Items::new(alloc));
    }
    let table = holding(&shape.empty, key, doc)?;
    let answer = rows(alloc, shape, table);
    showable(alloc, &answer)
}

/// What a document adds to what a shape gives.
pub(crate) fn contribution(
    alloc: Global,
    shape: &RangeShape,
    key: &Datum,
    doc: &Datum,
) -> Result<Items, Memory>
    ensures adds { IfOk result (λ r. r
        ≡ contribution_of (shape_of shape.now) (plain key.now, plain doc.now)) }
    ensures rising { IfOk result (λ r. IsRising r) }
{
    let shown = shown_alone(alloc, shape, key, doc)?;
    in_order(alloc, shown)
}

/// What the document at a key adds, where there is one.
pub(crate) fn contribution_at(
    alloc: Global,
    shape: &RangeShape,
    key: &Datum,
    doc: Option<&Datum>,
) -> Result<Items, Memory>
    ensures adds { IfOk result (λ r. r ≡ contribution_at_of (shape_of shape.now)
        (plain key.now) (option_map (λ d. plain d.now) doc.entry)) }
    ensures rising { IfOk result (λ r. IsRising r) }
{
    match doc {
        None => Ok(Items::new(alloc)),
        Some(doc) => contribution(alloc, shape, key, doc),
    }
}
