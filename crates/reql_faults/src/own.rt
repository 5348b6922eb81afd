// The faults of a term itself, whatever its parts are.
ghost use Rattle.std.specs.Prelude.{◌≡◌, option_map};
ghost use Rattle.reql_term.specs.Form.{forms_of, named_of};
ghost use Rattle.reql_term.specs.View.{form_of};
ghost use Rattle.reql_faults.specs.Faults.{unless, offsets_fault, feed_faults, changes_faults, task_faults, own};
ghost use Rattle.reql_faults.specs.Finds.{Finds};

use crate::fault::CompileFault;
use crate::names::are_literal;
use crate::places::{first, is_true_at, option};
use crate::shape::{Shape, shape_at};
use crate::standing::Place;
use crate::task::fits_task;
use reql_term::{Op, Task, TermFields, Terms};

/// Nothing where it is so, else the fault.
pub(crate) fn unless(is: bool, fault: CompileFault) -> Result<(), CompileFault>
    ensures { Finds result (unless is fault) }
{
    if is {
        return Ok(());
    }
    Err(fault)
}

fn offsets_fault(shape: Shape, offsets: bool) -> Result<(), CompileFault>
    ensures { Finds result (offsets_fault shape offsets) }
{
    match shape {
        Shape::Limit => Ok(()),
        _ => {
            if offsets {
                return Err(CompileFault::OffsetsNeedLimit);
            }
            Ok(())
        }
    }
}

fn feed_fault(shape: Option<Shape>, offsets: bool) -> Result<(), CompileFault>
    ensures { Finds result (feed_faults shape offsets) }
{
    match shape {
        Some(shape) => offsets_fault(shape, offsets),
        None => Err(CompileFault::FeedShape),
    }
}

fn changes_fault(place: Place, args: &Terms, opts: &TermFields) -> Result<(), CompileFault>
    ensures { Finds result (changes_faults place (forms_of args.now) (named_of opts.now)) }
{
    match place {
        Place::Root => feed_fault(
            shape_at(first(args)),
            is_true_at(option(opts, "include_offsets")),
        ),
        _ => Err(CompileFault::FeedShape),
    }
}

fn task_fault(place: Place, task: Task, args: &Terms, opts: &TermFields) -> Result<(), CompileFault>
    ensures { Finds result (task_faults place task (forms_of args.now) (named_of opts.now)) }
{
    match task {
        Task::Feed => changes_fault(place, args, opts),
        _ => Ok(()),
    }
}

/// The first fault of a term of this operator, with no look at its parts' own.
#[tactic(auto, using(crate::proofs::Firsts::firsts), unfolding(crate::specs::Faults::own))]
pub(crate) fn own_fault(
    place: Place,
    op: Op,
    args: &Terms,
    opts: &TermFields,
) -> Result<(), CompileFault>
    ensures { Finds result (own place op (forms_of args.now) (named_of opts.now)) }
{
    let task = op.task();
    unless(place.may_hold(task), CompileFault::WriteNested)?;
    unless(fits_task(task, args), CompileFault::WriteNested)?;
    unless(
        are_literal(op.naming(), args, opts),
        CompileFault::TableNotLiteral,
    )?;
    let found = task_fault(place, task, args, opts)?;
    Ok(found)
}
