// MERGE.
ghost use Rattle.std.specs.Prelude.{◌≡◌};
ghost use Rattle.reql_datum.specs.Outcome.{Gives};
ghost use Rattle.reql_datum.specs.View.{plain};
ghost use Rattle.reql_value_spec.specs.Fields.{on_subject as on_subject_of, merge_rule as merge_rule_of};
ghost use Rattle.reql_value_spec.specs.Meant.{Calls, Options, meant_of};
ghost use Rattle.reql_value_spec.specs.World.{World as Seen};
ghost use Rattle.reql_operand.specs.Called.{Answers};
ghost use Rattle.reql_operand.specs.Seen.{meant, shown, all_shown};
ghost use Rattle.reql_operand.specs.Tables.{seen};
ghost use Rattle.reql_apply_path.specs.Merged.{object_answered as object_answered_of, one_merged, merging};
ghost use Rattle.reql_apply_path.specs.Subjects.{seen_subject};

use crate::elements::on_subject;
use crate::subjects::{Subject, subject_in};
use reql_datum::{Datum, Fault, Fields};
use reql_operand::{Arg, Value, World, answer, as_object, misplaced, to_object};
use reql_path::merge;
use reql_term::TableView;
use std::alloc::Global;
use std::slice;

// The object that a function answers on a value, or the constant.
fn object_answered<F: Fn(usize, &[Datum]) -> Result<Value, Fault>>(
    alloc: Global,
    arg: &Arg,
    d: &Datum,
    call: &F,
) -> Result<Fields, Fault>
    requires { F.IsAlwaysCallable call.now }
    ensures { (w : Seen) (calls : Calls) → Answers w F.Fn call.now calls
        → Gives (λ fields. fields) result
        (object_answered_of calls (shown w arg.now) (plain d.now)) }
{
    match arg {
        Arg::Function(_) => {
            let value = answer(alloc, arg, slice::from_ref(d), call)?;
            to_object(alloc, &value)
        }
        _ => as_object(alloc, arg),
    }
}

fn merged_once<F: Fn(usize, &[Datum]) -> Result<Value, Fault>>(
    alloc: Global,
    d: &Datum,
    arg: &Arg,
    call: &F,
) -> Result<Datum, Fault>
    requires { F.IsAlwaysCallable call.now }
    ensures { (w : Seen) (calls : Calls) → Answers w F.Fn call.now calls
        → Gives plain result (one_merged calls (shown w arg.now) (plain d.now)) }
{
    let fields = object_answered(alloc, arg, d, call)?;
    Ok(merge(alloc, d, &Datum::Obj(fields))?)
}

// Each is merged in, from left to right; a function gets the value so far.
fn merged_on<F: Fn(usize, &[Datum]) -> Result<Value, Fault>>(
    alloc: Global,
    d: &Datum,
    args: &[Arg],
    call: &F,
) -> Result<Datum, Fault>
    requires { F.IsAlwaysCallable call.now }
    ensures { (w : Seen) (calls : Calls) → Answers w F.Fn call.now calls
        → Gives plain result (merging calls (all_shown w args.now) (plain d.now)) }
{
    let mut so_far = d.copy()?;
    for arg in args {
        let next = merged_once(alloc, &so_far, arg, call)?;
        so_far = next;
    }
    Ok(so_far)
}

fn merged<F: Fn(usize, &[Datum]) -> Result<Value, Fault>>(
    alloc: Global,
    arg: &Arg,
    subject: &Subject,
    args: &[Arg],
    call: &F,
) -> Result<Value, Fault>
    requires { F.IsAlwaysCallable call.now }
    ensures { (w : Seen) (calls : Calls) → Answers w F.Fn call.now calls
        → Gives (meant w) result (on_subject_of (merging calls (all_shown w args.now))
        (meant_of (shown w arg.now)) (seen_subject subject.now)) }
{
    on_subject(
        alloc,
        arg,
        subject,
        &|d: &Datum|
            requires { F.IsAlwaysCallable call.now }
        { merged_on(alloc, d, args, call) },
    )
}

/// MERGE: an object, or each object of a sequence, with the others merged in, from left to right. A
/// function is called once on each object, with what has been merged so far.
pub fn merge_rule<V: TableView, F: Fn(usize, &[Datum]) -> Result<Value, Fault>>(
    alloc: Global,
    args: &[Arg],
    world: &World<V>,
    call: &F,
) -> Result<Value, Fault>
    requires { F.IsAlwaysCallable call.now }
    ensures { let w = seen V.documents V.indexes V.entries world.now in
        (calls : Calls) (opts : Options) → Answers w F.Fn call.now calls
        → Gives (meant w) result (merge_rule_of w calls (all_shown w args.now) opts) }
{
    match args {
        [arg, rest @ ..] => {
            let of = subject_in(alloc, arg, world)?;
            merged(alloc, arg, &of, rest, call)
        }
        [] => Err(Fault::QueryLogic(misplaced(alloc)?)),
    }
}
