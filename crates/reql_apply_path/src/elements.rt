// What works on an object, or on each object of a sequence.
ghost use Rattle.std.specs.Prelude.{◌≡◌, IfOk, codes};
ghost use Rattle.reql_datum.specs.Answer.{Answer};
ghost use Rattle.reql_datum.specs.Called.{Means};
ghost use Rattle.reql_datum.specs.Outcome.{Gives};
ghost use Rattle.reql_datum.specs.Plain.{Plain};
ghost use Rattle.reql_datum.specs.View.{plain};
ghost use Rattle.reql_rules.specs.Faults.{type_text as type_text_of};
ghost use Rattle.reql_rules.specs.Fields.{on_objects as on_objects_of, on_each as on_each_of};
ghost use Rattle.reql_rules.specs.Types.{as_object as as_object_of};
ghost use Rattle.reql_value_spec.specs.Fields.{on_subject as on_subject_of};
ghost use Rattle.reql_value_spec.specs.Meant.{meant_of};
ghost use Rattle.reql_value_spec.specs.World.{World as Seen};
ghost use Rattle.reql_operand.specs.Seen.{meant, shown};
ghost use Rattle.reql_apply_path.specs.Subjects.{seen_subject};

use crate::subjects::Subject;
use reql_datum::{Datum, Fault, Fields, Items, Memory, Name};
use reql_operand::{Arg, Value, like};
use std::alloc::Global;

fn no_object(alloc: Global, found: &str) -> Result<Name, Memory>
    ensures { IfOk result (λ text. text ≡ type_text_of (codes "OBJECT") found.now) }
{
    match format!(in alloc; "Expected type OBJECT but found {}.", found) {
        Ok(text) => Name::of(alloc, text.as_str()),
        Err(_) => Err(Memory),
    }
}

/// The members of a document, where an object is wanted: a LITERAL is none.
#[tactic(auto, using(reql_datum::proofs::Back::back))]
pub(crate) fn as_fields(alloc: Global, d: &Datum) -> Result<&Fields, Fault>
    ensures { Gives (λ fields. fields.now) result (as_object_of (plain d.now)) }
{
    match d {
        Datum::Obj(fields) => {
            if fields.is_literal() {
                return Err(Fault::QueryLogic(no_object(alloc, "PTYPE<LITERAL>")?));
            }
            Ok(fields)
        }
        Datum::Null => Err(Fault::NonExistence(no_object(alloc, "NULL")?)),
        _ => Err(Fault::QueryLogic(no_object(alloc, d.type_name())?)),
    }
}

// What the function answers on an object, or on each object of an array.
#[cycle(each)]
#[tactic(auto, using(reql_datum::proofs::Walks::walks))]
fn on_objects<F: Fn(&Datum) -> Result<Datum, Fault>>(
    alloc: Global,
    d: &Datum,
    f: &F,
) -> Result<Datum, Fault>
    requires { F.IsAlwaysCallable f.now }
    ensures { (m : Plain → Answer Plain) → Means F.Fn f.now m
        → Gives plain result (on_objects_of m (plain d.now)) }
{
    match d {
        Datum::List(items) => Ok(Datum::List(on_each(alloc, items, f)?)),
        _ => {
            let _fields = as_fields(alloc, d)?;
            f(d)
        }
    }
}

/// What the function answers on each object of a list, also on those in its arrays.
#[cycle(each)]
#[tactic(auto, using(reql_datum::proofs::Walks::walks))]
pub(crate) fn on_each<F: Fn(&Datum) -> Result<Datum, Fault>>(
    alloc: Global,
    items: &Items,
    f: &F,
) -> Result<Items, Fault>
    requires { F.IsAlwaysCallable f.now }
    ensures { (m : Plain → Answer Plain) → Means F.Fn f.now m
        → Gives (λ answers. answers) result (on_each_of m items.now) }
{
    let mut answers = Items::with_room(alloc, items.len())?;
    let mut place = 0;
    while let Some(item) = items.at(place) {
        let answer = on_objects(alloc, item, f)?;
        answers.push(answer)?;
        place += 1;
    }
    Ok(answers)
}

/// What the function answers on the object, or on each object of the sequence.
pub(crate) fn on_subject<F: Fn(&Datum) -> Result<Datum, Fault>>(
    alloc: Global,
    arg: &Arg,
    subject: &Subject,
    f: &F,
) -> Result<Value, Fault>
    requires { F.IsAlwaysCallable f.now }
    ensures { (w : Seen) (m : Plain → Answer Plain) → Means F.Fn f.now m
        → Gives (meant w) result
        (on_subject_of m (meant_of (shown w arg.now)) (seen_subject subject.now)) }
{
    match subject {
        Subject::Object(d) => Ok(Value::One(f(d)?)),
        Subject::Elements(items) => Ok(like(arg, on_each(alloc, items, f)?)),
    }
}
