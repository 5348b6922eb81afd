// COERCE_TO.
ghost use Rattle.std.specs.Prelude.{◌≡◌, IfOk, Err, option_map};
ghost use Rattle.std.specs.Option.{unwrap_or};
ghost use Rattle.reql_datum.specs.Answer.{query_logic};
ghost use Rattle.reql_datum.specs.Outcome.{Gives};
ghost use Rattle.reql_datum.specs.Plain.{null};
ghost use Rattle.reql_datum.specs.View.{plain};
ghost use Rattle.reql_rules.specs.Lists.{array_of as array_of_of};
ghost use Rattle.reql_rules.specs.Faults.{cannot_coerce as cannot_coerce_of, unshowable as unshowable_of};
ghost use Rattle.reql_value_spec.specs.Coercions.{json_text as json_text_of, to_string as to_string_of, datum_coerced as datum_coerced_of, sequence_coerced as sequence_coerced_of, coerced as coerced_of, coerce_to as coerce_to_of};
ghost use Rattle.reql_value_spec.specs.Meant.{Calls, Options, meant_of, name_of, row_name};
ghost use Rattle.reql_value_spec.specs.Wanted.{by_rows};
ghost use Rattle.reql_value_spec.specs.World.{World as Seen};
ghost use Rattle.reql_operand.specs.Seen.{meant, shown, all_shown};
ghost use Rattle.reql_operand.specs.Tables.{seen};

use reql_datum::{Datum, Fault, Memory, Name};
use reql_json::{ShowFault, to_value};
use reql_operand::{
    Arg, Value, World, as_text, misplaced, read_slice, same_text, to_sequence, type_name,
};
use reql_scalar::coerce_named;
use reql_term::TableView;
use std::alloc::Global;

fn cannot_coerce(alloc: Global, kind: &str, to: &str) -> Result<Name, Memory>
    ensures { IfOk result (λ text. query_logic text ≡ cannot_coerce_of kind.now to.now) }
{
    match format!(in alloc; "Cannot coerce {} to {}.", kind, to) {
        Ok(text) => Name::of(alloc, text.as_str()),
        Err(_) => Err(Memory),
    }
}

fn unshowable(alloc: Global) -> Result<Name, Memory>
    ensures { IfOk result (λ text. query_logic text ≡ unshowable_of) }
{
    Name::of(alloc, "Value cannot be shown or stored.")
}

fn json_text(alloc: Global, d: &Datum) -> Result<Datum, Fault>
    ensures { Gives plain result (json_text_of (plain d.now)) }
{
    match to_value(alloc, d) {
        Ok(value) => {
            let text = value.to_string(alloc)?;
            Ok(Datum::Text(Name::of(alloc, text.as_str())?))
        }
        Err(ShowFault::Unshowable) => Err(Fault::QueryLogic(unshowable(alloc)?)),
        Err(ShowFault::Memory) => Err(Fault::Memory),
    }
}

// Texts and binaries are coerced as such, others are written as JSON.
fn to_string(alloc: Global, kind: &str, d: &Datum) -> Result<Datum, Fault>
    ensures { Gives plain result (to_string_of kind.now (plain d.now)) }
{
    match d {
        Datum::Text(_) => coerce_named(alloc, kind, d, "string"),
        Datum::Binary(_) => coerce_named(alloc, kind, d, "string"),
        _ => json_text(alloc, d),
    }
}

fn datum_coerced(alloc: Global, kind: &str, d: &Datum, to: &str) -> Result<Datum, Fault>
    ensures { Gives plain result (datum_coerced_of kind.now (plain d.now) to.now) }
{
    if same_text(to, "string") {
        return to_string(alloc, kind, d);
    }
    coerce_named(alloc, kind, d, to)
}

// A row as its document, or as null where there is none.
fn row_coerced(alloc: Global, document: &Option<Datum>, to: &str) -> Result<Datum, Fault>
    ensures { Gives plain result (datum_coerced_of (row_name (option_map plain document.now))
        (unwrap_or (option_map plain document.now) null) to.now) }
{
    match document {
        None => datum_coerced(alloc, "NULL", &Datum::Null, to),
        Some(d) => datum_coerced(alloc, "SELECTION<OBJECT>", d, to),
    }
}

fn refused(alloc: Global, value: &Value, to: &str) -> Result<Datum, Fault>
    ensures { (w : Seen) → Gives plain result
        (Err (cannot_coerce_of (name_of (meant w value.now)) to.now)) }
{
    let text = cannot_coerce(alloc, type_name(value), to)?;
    Err(Fault::QueryLogic(text))
}

// The array of a sequence that is none yet.
fn array_of<V: TableView>(
    alloc: Global,
    value: &Value,
    world: &World<V>,
    to: &str,
) -> Result<Datum, Fault>
    ensures { Gives plain result (by_rows (seen V.documents V.indexes V.entries world.now)
        array_of_of (Err (cannot_coerce_of
        (name_of (meant (seen V.documents V.indexes V.entries world.now) value.now)) to.now))
        (meant (seen V.documents V.indexes V.entries world.now) value.now)) }
{
    match value {
        Value::Stream(items) => Ok(Datum::List(items.copy()?)),
        Value::Selection {
            slot: _,
            rows: _,
            list,
        } => Ok(Datum::List(list.copy()?)),
        Value::Unread { slot, slice, range } => Ok(Datum::List(read_slice(
            alloc, world, *slot, slice, range,
        )?)),
        Value::Table(_) => Ok(Datum::List(to_sequence(alloc, value, world)?)),
        Value::One(_) => refused(alloc, value, to),
        Value::Row {
            slot: _,
            key: _,
            document: _,
        } => refused(alloc, value, to),
        Value::Grouped(_) => refused(alloc, value, to),
        Value::Database(_) => refused(alloc, value, to),
        Value::Function => refused(alloc, value, to),
    }
}

fn sequence_coerced<V: TableView>(
    alloc: Global,
    value: &Value,
    world: &World<V>,
    to: &str,
) -> Result<Datum, Fault>
    ensures { Gives plain result
        (sequence_coerced_of (seen V.documents V.indexes V.entries world.now)
        (meant (seen V.documents V.indexes V.entries world.now) value.now) to.now) }
{
    if same_text(to, "array") {
        return array_of(alloc, value, world, to);
    }
    refused(alloc, value, to)
}

fn coerced<V: TableView>(
    alloc: Global,
    value: &Value,
    world: &World<V>,
    to: &str,
) -> Result<Datum, Fault>
    ensures { Gives plain result (coerced_of (seen V.documents V.indexes V.entries world.now)
        (meant (seen V.documents V.indexes V.entries world.now) value.now) to.now) }
{
    match value {
        Value::One(d) => datum_coerced(alloc, d.type_name(), d, to),
        Value::Row {
            slot: _,
            key: _,
            document,
        } => row_coerced(alloc, document, to),
        _ => sequence_coerced(alloc, value, world, to),
    }
}

fn arg_coerced<V: TableView>(
    alloc: Global,
    arg: &Arg,
    world: &World<V>,
    to: &str,
) -> Result<Datum, Fault>
    ensures { Gives plain result (coerced_of (seen V.documents V.indexes V.entries world.now)
        (meant_of (shown (seen V.documents V.indexes V.entries world.now) arg.now)) to.now) }
{
    match arg {
        Arg::Value(value) => coerced(alloc, value, world, to),
        Arg::Function(_) => coerced(alloc, &Value::Function, world, to),
        Arg::Directed { down: _, key: _ } => coerced(alloc, &Value::Function, world, to),
        Arg::Late {
            texted: _,
            outcome: _,
        } => coerced(alloc, &Value::Function, world, to),
    }
}

/// COERCE_TO: the value as one of another type, or the fault that there is none. As a string a
/// value that is neither a text nor a binary is its JSON text; a sequence gives an array alone.
pub fn coerce_to<V: TableView>(
    alloc: Global,
    args: &[Arg],
    world: &World<V>,
) -> Result<Datum, Fault>
    ensures { (calls : Calls) (opts : Options) → Gives plain result
        (coerce_to_of (seen V.documents V.indexes V.entries world.now) calls
        (all_shown (seen V.documents V.indexes V.entries world.now) args.now) opts) }
{
    match args {
        [value, target] => {
            let to = as_text(alloc, target)?;
            arg_coerced(alloc, value, world, to.as_str())
        }
        _ => Err(Fault::QueryLogic(misplaced(alloc)?)),
    }
}
