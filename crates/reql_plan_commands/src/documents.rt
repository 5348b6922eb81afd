// The documents of an INSERT.
ghost use Rattle.std.specs.Prelude.{◌≡◌, ◌≤◌, ◌+◌, ℕ, option_map};
ghost use Rattle.reql_datum.specs.Outcome.{Gives};
ghost use Rattle.reql_datum.specs.View.{plain};
ghost use Rattle.reql_rules.specs.Lists.{each};
ghost use Rattle.reql_rules.specs.Types.{as_object as as_object_of, object_in};
ghost use Rattle.reql_operand.specs.Seen.{meant};
ghost use Rattle.reql_operand.specs.Tables.{seen};
ghost use Rattle.reql_value_spec.specs.Meant.{table};
ghost use Rattle.reql_value_spec.specs.World.{World as Seen};
ghost use Rattle.reql_write_spec.specs.Treating.{field_in as field_in_of};
ghost use Rattle.reql_plan_spec.specs.Writes.{document as document_of, docs_in as docs_in_of, one_more_if, lacking as lacking_of};
ghost use Rattle.reql_plan_commands.specs.Documents.{only};

use reql_datum::{Datum, Fault, Fields, Items};
use reql_operand::{Value, World, table_at, to_object, to_sequence};
use reql_term::TableView;
use std::alloc::Global;

// The members of a document that is to be an object.
fn members_of(alloc: Global, datum: &Datum) -> Result<Fields, Fault>
    ensures { Gives (λ fields. fields) result (as_object_of (plain datum.now)) }
{
    let value = Value::One(datum.copy()?);
    let members = to_object(alloc, &value);
    drop(value);
    members
}

// A document that is to be inserted: an object.
fn document(alloc: Global, datum: &Datum) -> Result<Datum, Fault>
    ensures { Gives plain result (document_of (plain datum.now)) }
{
    let _members = members_of(alloc, datum)?;
    Ok(datum.copy()?)
}

// The elements of a sequence, where each is an object.
#[tactic(auto, using(reql_datum::proofs::Walks::walks))]
fn all_documents(alloc: Global, items: &Items) -> Result<Items, Fault>
    ensures { Gives (λ docs. docs) result (each document_of items.now) }
{
    let mut docs = Items::with_room(alloc, items.len())?;
    let mut place = 0;
    while let Some(datum) = items.at(place) {
        let one = document(alloc, datum)?;
        docs.push(one)?;
        place += 1;
    }
    Ok(docs)
}

// The one document that a value is.
fn only_document(alloc: Global, value: &Value) -> Result<Items, Fault>
    ensures { (w : Seen) → Gives (λ docs. docs) result (only (meant w value.now)) }
{
    let members = to_object(alloc, value)?;
    let mut docs = Items::with_room(alloc, 1)?;
    docs.push(Datum::Obj(members))?;
    Ok(docs)
}

// The documents of a table.
fn docs_at<V: TableView>(alloc: Global, world: &World<V>, slot: u32) -> Result<Items, Fault>
    ensures { let w = seen V.documents V.indexes V.entries world.now in
        Gives (λ docs. docs) result (docs_in_of w (table slot)) }
{
    let table = table_at(alloc, world, slot)?;
    let items = table.view.scan(alloc)?;
    all_documents(alloc, &items)
}

/// The documents that are to be inserted: an object, or a sequence of objects.
#[tactic(auto, using(reql_datum::proofs::Back::back))]
pub(crate) fn docs_in<V: TableView>(
    alloc: Global,
    world: &World<V>,
    value: &Value,
) -> Result<Items, Fault>
    ensures { let w = seen V.documents V.indexes V.entries world.now in
        Gives (λ docs. docs) result (docs_in_of w (meant w value.now)) }
{
    match value {
        Value::One(d) => match d {
            Datum::List(items) => all_documents(alloc, items),
            _ => only_document(alloc, value),
        },
        Value::Stream(items) => all_documents(alloc, items),
        Value::Selection {
            slot: _,
            rows: _,
            list,
        } => all_documents(alloc, list),
        Value::Unread {
            slot: _,
            slice: _,
            range: _,
        } => {
            let items = to_sequence(alloc, value, world)?;
            all_documents(alloc, &items)
        }
        Value::Table(slot) => docs_at(alloc, world, *slot),
        Value::Row {
            slot: _,
            key: _,
            document: _,
        } => only_document(alloc, value),
        Value::Grouped(_) => only_document(alloc, value),
        Value::Database(_) => only_document(alloc, value),
        Value::Function => only_document(alloc, value),
    }
}

// The members of an object; a LITERAL is none.
#[tactic(auto, using(reql_datum::proofs::Back::back))]
fn members_in(document: &Datum) -> Option<&Fields>
    ensures { option_map (λ fields. fields.now) result ≡ object_in (plain document.now) }
{
    match document {
        Datum::Obj(fields) => {
            if fields.is_literal() {
                return None;
            }
            Some(fields)
        }
        _ => None,
    }
}

// The value of a field of an object.
fn field_in<'a>(field: &str, document: &'a Datum) -> Option<&'a Datum>
    ensures { option_map (λ d. plain d.now) result ≡ field_in_of field.now (plain document.now) }
{
    match members_in(document) {
        Some(fields) => fields.get(field),
        None => None,
    }
}

// Whether a document lacks a field, as 1 or 0.
fn lacks(field: &str, document: &Datum) -> u64
    ensures count { (n : ℕ) → result + n ≡ one_more_if (field_in_of field.now (plain document.now)) n }
    ensures at_most_one { result ≤ 1 }
{
    match field_in(field, document) {
        Some(_) => 0,
        None => 1,
    }
}

/// How many of the documents lack a field.
#[tactic(auto, using(reql_datum::proofs::Walks::walks))]
pub(crate) fn lacking(field: &str, docs: &Items) -> u64
    ensures { result ≡ lacking_of field.now docs.now }
{
    let mut count = 0;
    let mut place = 0;
    while let Some(document) = docs.at(place) {
        count += lacks(field, document);
        place += 1;
    }
    count
}
