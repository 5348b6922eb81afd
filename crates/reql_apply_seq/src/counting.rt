// COUNT.
ghost use Rattle.std.specs.Prelude.{◌≡◌, Some, length, chars};
ghost use Rattle.reql_datum.specs.Outcome.{Gives};
ghost use Rattle.reql_datum.specs.Plain.{object, pairs_of};
ghost use Rattle.reql_datum.specs.View.{plain};
ghost use Rattle.reql_value_spec.specs.Meant.{Calls, Options, meant_of};
ghost use Rattle.reql_value_spec.specs.Sequences.{count_elements as count_elements_of, count_datum as count_datum_of, count_rule};
ghost use Rattle.reql_value_spec.specs.Wanted.{datum_in};
ghost use Rattle.reql_operand.specs.Called.{Answers};
ghost use Rattle.reql_operand.specs.Seen.{meant, shown, all_shown};
ghost use Rattle.reql_operand.specs.Tables.{seen};

use crate::passing::count_passing;
use crate::places::counted_as;
use crate::source::{size, source_in};
use reql_datum::{Datum, Fault, Fields};
use reql_operand::{Arg, Value, World, as_sequence, count_elements, misplaced};
use reql_term::TableView;
use std::alloc::Global;

/// COUNT: of one argument how much it has, of two how many elements equal the constant, or on how
/// many the function is true.
pub fn count<V: TableView, F: Fn(usize, &[Datum]) -> Result<Value, Fault>>(
    alloc: Global,
    args: &[Arg],
    world: &World<V>,
    call: &F,
) -> Result<Datum, Fault>
    requires { F.IsAlwaysCallable call.now }
    ensures { let w = seen V.documents V.indexes V.entries world.now in
        (calls : Calls) → Answers w F.Fn call.now calls → (opts : Options)
        → Gives plain result (count_rule w calls (all_shown w args.now) opts) }
{
    match args {
        [source] => Ok(counted_as(count_arg(alloc, source, world)?)),
        [source, f] => {
            let all = as_sequence(alloc, source, world)?;
            count_passing(alloc, &all, f, call)
        }
        _ => Err(Fault::QueryLogic(misplaced(alloc)?)),
    }
}

// How much an argument has: characters of a text, bytes of a binary, names of an object, elements of
// a sequence. No table is read for it.
fn count_arg<V: TableView>(alloc: Global, arg: &Arg, world: &World<V>) -> Result<u64, Fault>
    ensures { Gives (λ n. n) result
        (count_datum_of (seen V.documents V.indexes V.entries world.now)
        (meant_of (shown (seen V.documents V.indexes V.entries world.now) arg.now))
        (datum_in (meant_of (shown (seen V.documents V.indexes V.entries world.now) arg.now)))) }
{
    match arg {
        Arg::Value(value) => count_value(alloc, value, world),
        _ => count_value(alloc, &Value::Function, world),
    }
}

fn count_value<V: TableView>(alloc: Global, value: &Value, world: &World<V>) -> Result<u64, Fault>
    ensures { Gives (λ n. n) result
        (count_datum_of (seen V.documents V.indexes V.entries world.now)
        (meant (seen V.documents V.indexes V.entries world.now) value.now)
        (datum_in (meant (seen V.documents V.indexes V.entries world.now) value.now))) }
{
    match value {
        Value::One(d) => count_datum(alloc, d, value, world),
        Value::Row {
            slot: _,
            key: _,
            document,
        } => match document {
            Some(d) => count_datum(alloc, d, value, world),
            None => count_elements(alloc, value, world),
        },
        _ => {
            let all = source_in(alloc, value, world)?;
            size(alloc, world, &all)
        }
    }
}

fn count_datum<V: TableView>(
    alloc: Global,
    d: &Datum,
    value: &Value,
    world: &World<V>,
) -> Result<u64, Fault>
    ensures { Gives (λ n. n) result
        (count_datum_of (seen V.documents V.indexes V.entries world.now)
        (meant (seen V.documents V.indexes V.entries world.now) value.now) (Some (plain d.now))) }
{
    match d {
        Datum::Text(text) => Ok(count_chars(text.as_str())),
        Datum::Binary(blob) => Ok(blob.as_bytes().len() as u64),
        Datum::Obj(fields) => count_members(alloc, fields, value, world),
        _ => count_elements(alloc, value, world),
    }
}

fn count_chars(text: &str) -> u64
    ensures { result ≡ length (chars text.now) }
{
    text.chars().count() as u64
}

#[tactic(auto, using(reql_datum::proofs::Back::back))]
fn count_members<V: TableView>(
    alloc: Global,
    fields: &Fields,
    value: &Value,
    world: &World<V>,
) -> Result<u64, Fault>
    ensures { Gives (λ n. n) result
        (count_datum_of (seen V.documents V.indexes V.entries world.now)
        (meant (seen V.documents V.indexes V.entries world.now) value.now)
        (Some (object (pairs_of fields.now)))) }
{
    if fields.is_literal() {
        return count_elements(alloc, value, world);
    }
    Ok(fields.len() as u64)
}
