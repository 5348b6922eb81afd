// MAKE_ARRAY, FUNCALL, LITERAL, MINVAL, MAXVAL and comparisons.
ghost use Rattle.std.specs.Prelude.{◌≡◌, List, IfOk};
ghost use Rattle.reql_datum.specs.Members.{put};
ghost use Rattle.reql_datum.specs.Outcome.{Gives};
ghost use Rattle.reql_datum.specs.View.{plain};
ghost use Rattle.reql_value_spec.specs.Meant.{Calls, Given, Options};
ghost use Rattle.reql_value_spec.specs.Scalars.{make_array as make_array_of, funcall as funcall_of, comparison as comparison_of, constant as constant_of, literal as literal_of};
ghost use Rattle.reql_value_spec.specs.World.{World as Seen};
ghost use Rattle.reql_operand.specs.Called.{Answers};
ghost use Rattle.reql_operand.specs.Seen.{meant, shown, all_shown};
ghost use Rattle.reql_apply_scalar.specs.Operands.{called_with};

use reql_datum::{Datum, Fault, Fields, Items, Memory, Name};
use reql_operand::{Arg, Value, answer, as_data, as_datum, misplaced};
use reql_rules::Relate;
use reql_scalar::relate;
use std::alloc::Global;

/// MAKE_ARRAY.
pub fn make_array(alloc: Global, args: &[Arg]) -> Result<Items, Fault>
    ensures { (w : Seen) (calls : Calls) (opts : Options) → Gives (λ items. items) result
        (make_array_of w calls (all_shown w args.now) opts) }
{
    as_data(alloc, args)
}

fn called<F: Fn(usize, &[Datum]) -> Result<Value, Fault>>(
    alloc: Global,
    function: &Arg,
    args: &[Arg],
    call: &F,
) -> Result<Value, Fault>
    requires { F.IsAlwaysCallable call.now }
    ensures { (w : Seen) (calls : Calls) → Answers w F.Fn call.now calls → Gives (meant w) result
        (called_with calls (shown w function.now) (all_shown w args.now)) }
{
    let items = as_data(alloc, args)?;
    answer(alloc, function, items.as_slice(), call)
}

/// FUNCALL: what the first argument answers on the others.
pub fn funcall<F: Fn(usize, &[Datum]) -> Result<Value, Fault>>(
    alloc: Global,
    args: &[Arg],
    call: &F,
) -> Result<Value, Fault>
    requires { F.IsAlwaysCallable call.now }
    ensures { (w : Seen) (calls : Calls) (opts : Options) → Answers w F.Fn call.now calls
        → Gives (meant w) result (funcall_of w calls (all_shown w args.now) opts) }
{
    match args {
        [] => Err(Fault::QueryLogic(misplaced(alloc)?)),
        [function, ..] => called(alloc, function, &args[1..], call),
    }
}

/// EQ, NE, LT, LE, GT and GE, each on all neighbours.
pub fn comparison(alloc: Global, op: Relate, args: &[Arg]) -> Result<Datum, Fault>
    ensures { (w : Seen) (calls : Calls) (opts : Options) → Gives plain result
        (comparison_of op w calls (all_shown w args.now) opts) }
{
    let items = as_data(alloc, args)?;
    Ok(Datum::Bool(relate(op, &items)))
}

/// MINVAL and MAXVAL.
pub fn constant(d: Datum) -> Result<Datum, Fault>
    ensures { (w : Seen) (calls : Calls) (gs : List Given) (opts : Options) → Gives plain result
        (constant_of (plain d) w calls gs opts) }
{
    Ok(d)
}

fn put(alloc: Global, fields: &mut Fields, name: &str, value: Datum) -> Result<(), Memory>
    ensures { IfOk result (λ _. fields.new ≡ put name.now (plain value) fields.old) }
{
    let key = Name::of(alloc, name)?;
    fields.set(key, value)?;
    Ok(())
}

/// LITERAL: a mark for MERGE, of a document or of nothing.
pub fn literal(alloc: Global, args: &[Arg]) -> Result<Datum, Fault>
    ensures { (w : Seen) (calls : Calls) (opts : Options) → Gives plain result
        (literal_of w calls (all_shown w args.now) opts) }
{
    match args {
        [] => {
            let mut fields = Fields::new(alloc);
            put(
                alloc,
                &mut fields,
                "$reql_type$",
                Datum::Text(Name::of(alloc, "LITERAL")?),
            )?;
            Ok(Datum::Obj(fields))
        }
        [arg] => {
            let d = as_datum(alloc, arg)?;
            let mut fields = Fields::with_room(alloc, 2)?;
            put(
                alloc,
                &mut fields,
                "$reql_type$",
                Datum::Text(Name::of(alloc, "LITERAL")?),
            )?;
            put(alloc, &mut fields, "value", d)?;
            Ok(Datum::Obj(fields))
        }
        _ => Err(Fault::QueryLogic(misplaced(alloc)?)),
    }
}
