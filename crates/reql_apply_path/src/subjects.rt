// What fields are taken of: an object, or each element of a sequence.
ghost use Rattle.std.specs.Prelude.{◌≡◌, IfOk, Err, is_ok, false, codes, option_map};
ghost use Rattle.std.specs.Option.{unwrap_or};
ghost use Rattle.reql_datum.specs.Answer.{non_existence};
ghost use Rattle.reql_datum.specs.Outcome.{Gives};
ghost use Rattle.reql_datum.specs.Plain.{null};
ghost use Rattle.reql_datum.specs.View.{plain};
ghost use Rattle.reql_rules.specs.Faults.{field_of_null as field_of_null_of};
ghost use Rattle.reql_value_spec.specs.Fields.{datum_subject as datum_subject_of, subject_of as subject_of_of, subject as subject_rule, field_subject as field_subject_of};
ghost use Rattle.reql_value_spec.specs.Meant.{is_nothing as is_nothing_of, meant_of};
ghost use Rattle.reql_value_spec.specs.Wanted.{wrong as wrong_of};
ghost use Rattle.reql_value_spec.specs.World.{World as Seen};
ghost use Rattle.reql_operand.specs.Seen.{meant, shown};
ghost use Rattle.reql_operand.specs.Tables.{seen};
ghost use Rattle.reql_apply_path.specs.Subjects.{seen_subject};

use reql_datum::{Datum, Fault, Items, Memory, Name};
use reql_operand::{Arg, Value, World, is_nothing, read_slice, to_sequence, value_of, wrong};
use reql_term::TableView;
use std::alloc::Global;

/// What fields are taken of.
#[derive(Drop)]
pub(crate) enum Subject {
    Object(Datum),
    Elements(Items),
}

fn no_subject(alloc: Global, value: &Value) -> Result<Subject, Fault>
    ensures fault { is_ok result ≡ false }
    ensures which { (w : Seen) → Gives seen_subject result
        (Err (wrong_of (codes "OBJECT") (meant w value.now))) }
{
    match wrong(alloc, "OBJECT", value) {
        Err(fault) => Err(fault),
        Ok(_) => unreachable!(),
    }
}

// The subject that a document is, which is the value or its row.
#[tactic(auto, using(reql_datum::proofs::Back::back))]
fn datum_subject(alloc: Global, value: &Value, d: &Datum) -> Result<Subject, Fault>
    ensures { (w : Seen) → Gives seen_subject result
        (datum_subject_of (meant w value.now) (plain d.now)) }
{
    match d {
        Datum::Obj(fields) => {
            if fields.is_literal() {
                return no_subject(alloc, value);
            }
            Ok(Subject::Object(Datum::Obj(fields.copy()?)))
        }
        Datum::List(items) => Ok(Subject::Elements(items.copy()?)),
        _ => no_subject(alloc, value),
    }
}

fn row_subject(alloc: Global, value: &Value, row: &Option<Datum>) -> Result<Subject, Fault>
    ensures { (w : Seen) → Gives seen_subject result
        (datum_subject_of (meant w value.now) (unwrap_or (option_map plain row.now) null)) }
{
    match row {
        Some(d) => datum_subject(alloc, value, d),
        None => no_subject(alloc, value),
    }
}

fn subject_of<V: TableView>(
    alloc: Global,
    value: &Value,
    world: &World<V>,
) -> Result<Subject, Fault>
    ensures { Gives seen_subject result
        (subject_of_of (seen V.documents V.indexes V.entries world.now)
        (meant (seen V.documents V.indexes V.entries world.now) value.now)) }
{
    match value {
        Value::One(d) => datum_subject(alloc, value, d),
        Value::Row {
            slot: _,
            key: _,
            document,
        } => row_subject(alloc, value, document),
        Value::Stream(items) => Ok(Subject::Elements(items.copy()?)),
        Value::Selection {
            slot: _,
            rows: _,
            list,
        } => Ok(Subject::Elements(list.copy()?)),
        Value::Unread { slot, slice, range } => Ok(Subject::Elements(read_slice(
            alloc, world, *slot, slice, range,
        )?)),
        Value::Table(_) => Ok(Subject::Elements(to_sequence(alloc, value, world)?)),
        _ => no_subject(alloc, value),
    }
}

/// The object, or the elements of the sequence, that an argument is.
pub(crate) fn subject_in<V: TableView>(
    alloc: Global,
    arg: &Arg,
    world: &World<V>,
) -> Result<Subject, Fault>
    ensures { Gives seen_subject result
        (subject_rule (seen V.documents V.indexes V.entries world.now)
        (shown (seen V.documents V.indexes V.entries world.now) arg.now)) }
{
    match arg {
        Arg::Value(value) => subject_of(alloc, value, world),
        Arg::Function(_) => no_subject(alloc, &Value::Function),
        Arg::Directed { down: _, key: _ } => no_subject(alloc, &Value::Function),
        Arg::Late {
            texted: _,
            outcome: _,
        } => no_subject(alloc, &Value::Function),
    }
}

fn field_of_null(alloc: Global) -> Result<Name, Memory>
    ensures { IfOk result (λ text. non_existence text ≡ field_of_null_of) }
{
    Name::of(alloc, "Cannot take a field of null.")
}

fn is_null(arg: &Arg) -> bool
    ensures { (w : Seen) → result ≡ is_nothing_of (meant_of (shown w arg.now)) }
{
    match value_of(arg) {
        Some(value) => is_nothing(value),
        None => false,
    }
}

/// The same where a field of null is a fault of its own.
pub(crate) fn field_subject<V: TableView>(
    alloc: Global,
    arg: &Arg,
    world: &World<V>,
) -> Result<Subject, Fault>
    ensures { Gives seen_subject result
        (field_subject_of (seen V.documents V.indexes V.entries world.now)
        (shown (seen V.documents V.indexes V.entries world.now) arg.now)) }
{
    if is_null(arg) {
        return Err(Fault::NonExistence(field_of_null(alloc)?));
    }
    subject_in(alloc, arg, world)
}
