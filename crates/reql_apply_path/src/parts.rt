// PLUCK and WITHOUT.
ghost use Rattle.std.specs.Prelude.{◌≡◌, IfOk};
ghost use Rattle.reql_datum.specs.Outcome.{Gives};
ghost use Rattle.reql_datum.specs.View.{plain};
ghost use Rattle.reql_rules.specs.Patterns.{pluck as pluck_of, without as without_of};
ghost use Rattle.reql_path.specs.Normal.{IfArray};
ghost use Rattle.reql_value_spec.specs.Fields.{on_subject as on_subject_of, by_patterns};
ghost use Rattle.reql_value_spec.specs.Meant.{Calls, Options, meant_of};
ghost use Rattle.reql_value_spec.specs.World.{World as Seen};
ghost use Rattle.reql_operand.specs.Seen.{meant, shown, all_shown};
ghost use Rattle.reql_operand.specs.Tables.{seen};
ghost use Rattle.reql_apply_path.specs.Merged.{plucking, leaving};
ghost use Rattle.reql_apply_path.specs.Subjects.{seen_subject};

use crate::elements::on_subject;
use crate::having::patterns;
use crate::subjects::{Subject, subject_in};
use reql_datum::{Datum, Fault, Memory};
use reql_operand::{Arg, Value, World, misplaced};
use reql_path::{Pattern, pluck, without};
use reql_term::TableView;
use std::alloc::Global;

/// What a pattern names of an object.
pub(crate) fn pluck_one(alloc: Global, pattern: &Pattern, d: &Datum) -> Result<Datum, Memory>
    ensures { IfArray pattern.now (λ ps. IfOk result (λ r. plain r ≡ pluck_of ps (plain d.now))) }
{
    match d {
        Datum::Obj(fields) => Ok(Datum::Obj(pluck(alloc, fields, pattern)?)),
        _ => d.copy(),
    }
}

fn plucking(alloc: Global, pattern: &Pattern, d: &Datum) -> Result<Datum, Fault>
    ensures { IfArray pattern.now (λ ps. Gives plain result (plucking ps (plain d.now))) }
{
    Ok(pluck_one(alloc, pattern, d)?)
}

fn leaving(alloc: Global, pattern: &Pattern, d: &Datum) -> Result<Datum, Fault>
    ensures { IfArray pattern.now (λ ps. Gives plain result (leaving ps (plain d.now))) }
{
    match d {
        Datum::Obj(fields) => Ok(Datum::Obj(without(alloc, fields, pattern)?)),
        _ => Ok(d.copy()?),
    }
}

fn plucked(alloc: Global, arg: &Arg, pattern: &Pattern, subject: &Subject) -> Result<Value, Fault>
    ensures { (w : Seen) → IfArray pattern.now (λ ps. Gives (meant w) result
        (on_subject_of (plucking ps) (meant_of (shown w arg.now)) (seen_subject subject.now))) }
{
    on_subject(
        alloc,
        arg,
        subject,
        &|d: &Datum| plucking(alloc, pattern, d),
    )
}

fn left(alloc: Global, arg: &Arg, pattern: &Pattern, subject: &Subject) -> Result<Value, Fault>
    ensures { (w : Seen) → IfArray pattern.now (λ ps. Gives (meant w) result
        (on_subject_of (leaving ps) (meant_of (shown w arg.now)) (seen_subject subject.now))) }
{
    on_subject(alloc, arg, subject, &|d: &Datum| leaving(alloc, pattern, d))
}

/// PLUCK: the parts of an object, or of each object of a sequence, that the patterns name.
pub fn pluck_rule<V: TableView>(
    alloc: Global,
    args: &[Arg],
    world: &World<V>,
) -> Result<Value, Fault>
    ensures { let w = seen V.documents V.indexes V.entries world.now in
        (calls : Calls) (opts : Options) → Gives (meant w) result
        (by_patterns pluck_of w calls (all_shown w args.now) opts) }
{
    match args {
        [arg, rest @ ..] => {
            let of = subject_in(alloc, arg, world)?;
            let pattern = patterns(alloc, rest)?;
            plucked(alloc, arg, &pattern, &of)
        }
        [] => Err(Fault::QueryLogic(misplaced(alloc)?)),
    }
}

/// WITHOUT: an object, or each object of a sequence, without the parts that the patterns name.
pub fn without_rule<V: TableView>(
    alloc: Global,
    args: &[Arg],
    world: &World<V>,
) -> Result<Value, Fault>
    ensures { let w = seen V.documents V.indexes V.entries world.now in
        (calls : Calls) (opts : Options) → Gives (meant w) result
        (by_patterns without_of w calls (all_shown w args.now) opts) }
{
    match args {
        [arg, rest @ ..] => {
            let of = subject_in(alloc, arg, world)?;
            let pattern = patterns(alloc, rest)?;
            left(alloc, arg, &pattern, &of)
        }
        [] => Err(Fault::QueryLogic(misplaced(alloc)?)),
    }
}
