// What a request is answered with.
ghost use Rattle.std.specs.Prelude.{◌≡◌, Err, IfOk, map, option_map, codes};
ghost use Rattle.std.specs.Option.{unwrap_or};
ghost use Rattle.reql_datum.specs.Kinds.{is_storable, are_storable};
ghost use Rattle.reql_datum.specs.Outcome.{Gives};
ghost use Rattle.reql_datum.specs.Answer.{query_logic};
ghost use Rattle.reql_datum.specs.Plain.{null, items_of};
ghost use Rattle.reql_datum.specs.View.{plain};
ghost use Rattle.reql_rules.specs.Faults.{unshowable as unshowable_fault};
ghost use Rattle.reql_term.specs.View.{form_of};
ghost use Rattle.reql_operand.specs.Seen.{meant, group, rows};
ghost use Rattle.reql_operand.specs.Tables.{seen};
ghost use Rattle.reql_value_spec.specs.Meant.{callable, table};
ghost use Rattle.reql_value_spec.specs.Wanted.{wrong as wrong_of};
ghost use Rattle.reql_value_spec.specs.Shown.{shown as shown_of, rows_shown as rows_shown_of, as_atom as as_atom_of, as_sequence as as_sequence_of, as_groups as as_groups_of, group_pair};
ghost use Rattle.reql_plan_context.specs.Shown.{shown_as, shown_term};

use crate::evaluated::meant_of;
use reql_datum::{Datum, Fault, Items, Memory, Name};
use reql_operand::{Group, Rows, Value, World, misplaced, read_slice, table_at, wrong};
use reql_term::{TableView, Term};
use std::alloc::Global;

/// What a request is answered with: a document, groups, or the elements of a sequence.
#[derive(Drop)]
pub enum Shown {
    Atom(Datum),
    Groups(Vec<Group>),
    Sequence(Items),
}

/// What a request is answered with that is this term.
pub fn show<V: TableView>(alloc: Global, world: &World<V>, term: &Term) -> Result<Shown, Fault>
    ensures { Gives shown_as result (shown_term (seen V.documents V.indexes V.entries world.now)
        (form_of term.now)) }
{
    let value = meant_of(alloc, world, term)?;
    showing_of(alloc, world, value)
}

#[tactic(auto, using(crate::proofs::Storable::slice_shown))]
fn showing_of<V: TableView>(alloc: Global, world: &World<V>, value: Value) -> Result<Shown, Fault>
    ensures { let w = seen V.documents V.indexes V.entries world.now in
        Gives shown_as result (shown_of w (meant w value)) }
{
    match value {
        Value::One(datum) => as_atom(alloc, datum),
        Value::Stream(items) => as_sequence(alloc, items),
        Value::Selection {
            slot: _,
            rows,
            list,
        } => rows_shown(alloc, rows, list),
        Value::Unread { slot, slice, range } => as_sequence(
            alloc,
            read_slice(alloc, world, slot, &slice, &range)?,
        ),
        Value::Row {
            slot: _,
            key: _,
            document,
        } => as_atom(alloc, or_null(document)),
        Value::Table(slot) => table_shown(alloc, world, slot),
        Value::Grouped(groups) => as_groups(alloc, groups),
        Value::Database(_) => Err(Fault::QueryLogic(misplaced(alloc)?)),
        Value::Function => no_document(alloc),
    }
}

// A selection is shown as a sequence or as an array.
fn rows_shown(alloc: Global, kind: Rows, list: Items) -> Result<Shown, Fault>
    ensures { Gives shown_as result (rows_shown_of (rows kind) list) }
{
    match kind {
        Rows::InSequence => as_sequence(alloc, list),
        Rows::InArray => as_atom(alloc, Datum::List(list)),
    }
}

fn table_shown<V: TableView>(alloc: Global, world: &World<V>, slot: u32) -> Result<Shown, Fault>
    ensures { let w = seen V.documents V.indexes V.entries world.now in
        Gives shown_as result (shown_of w (table slot)) }
{
    let found = table_at(alloc, world, slot)?;
    let items = found.view.scan(alloc)?;
    as_sequence(alloc, items)
}

fn or_null(document: Option<Datum>) -> Datum
    ensures { plain result ≡ unwrap_or (option_map plain document) null }
{
    match document {
        Some(datum) => datum,
        None => Datum::Null,
    }
}

// That a value can't be shown.
fn unshowable(alloc: Global) -> Result<Name, Memory>
    ensures { IfOk result (λ text. query_logic text ≡ unshowable_fault) }
{
    Name::of(alloc, "Value cannot be shown or stored.")
}

fn as_atom(alloc: Global, datum: Datum) -> Result<Shown, Fault>
    ensures { Gives shown_as result (as_atom_of (plain datum)) }
{
    if datum.is_storable() {
        return Ok(Shown::Atom(datum));
    }
    Err(Fault::QueryLogic(unshowable(alloc)?))
}

#[tactic(auto, using(crate::proofs::Storable::storable))]
fn as_sequence(alloc: Global, items: Items) -> Result<Shown, Fault>
    ensures { Gives shown_as result (as_sequence_of items) }
{
    if items.is_storable() {
        return Ok(Shown::Sequence(items));
    }
    Err(Fault::QueryLogic(unshowable(alloc)?))
}

// Whether a group may be shown.
#[tactic(auto, using(crate::proofs::Storable::groups))]
fn is_shown(one: &Group) -> bool
    ensures { result ≡ is_storable (group_pair (group one.now)) }
{
    if one.group.is_storable() {
        return one.value.is_storable();
    }
    false
}

// Whether all groups may be shown.
fn are_shown(groups: &[Group]) -> bool
    ensures { result ≡ are_storable (items_of (map group_pair (map group groups.now))) }
{
    for one in groups {
        if !is_shown(one) {
            return false;
        }
    }
    true
}

#[tactic(auto, using(crate::proofs::Storable::storable))]
fn as_groups(alloc: Global, groups: Vec<Group>) -> Result<Shown, Fault>
    ensures { Gives shown_as result (as_groups_of (map group groups.items)) }
{
    if are_shown(&groups) {
        return Ok(Shown::Groups(groups));
    }
    Err(Fault::QueryLogic(unshowable(alloc)?))
}

// The fault that a function is no document.
fn no_document(alloc: Global) -> Result<Shown, Fault>
    ensures { Gives shown_as result (Err (wrong_of (codes "DATUM") callable)) }
{
    match wrong(alloc, "DATUM", &Value::Function) {
        Err(fault) => Err(fault),
        Ok(_) => unreachable!(),
    }
}
