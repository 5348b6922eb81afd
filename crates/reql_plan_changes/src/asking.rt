// The feeds that CHANGES asks for.
ghost use Rattle.std.specs.Prelude.{◌≡◌, IfOk, map};
ghost use Rattle.reql_datum.specs.Outcome.{Gives};
ghost use Rattle.reql_term.specs.Form.{forms_of, named_of};
ghost use Rattle.reql_plan_spec.specs.Course.{arm_of as arm_of_open, notes_of as notes_of_feeding};
ghost use Rattle.reql_plan_spec.specs.Feeding.{feeding as feeding_of, shape_there as shape_there_of, note_of as note_of_shape};
ghost use Rattle.reql_plan_results.specs.Seen.{opened, arm};
ghost use Rattle.reql_plan_context.specs.Seen.{held};
ghost use Rattle.reql_plan_changes.specs.Seen.{asked};

use crate::openings::openings;
use crate::options::told;
use crate::shapes::followed;
use reql_datum::{Fault, Memory, Seq};
use reql_faults::{Shape, shape_of};
use reql_operand::misplaced;
use reql_plan_context::{Held, first, options_given};
use reql_plan_results::{Arm, Open, Told, arm_of};
use reql_plan_spec::Opening;
use reql_term::{TableView, TermFields, Terms};
use std::alloc::Global;

/// The feeds that are asked for, one for each arm; the note of their shape (`ql2.proto`,
/// Response.ResponseNote); and how their items are given.
#[derive(Drop)]
pub struct Feeding {
    pub openings: Seq<Opening>,
    pub note: u8,
    pub told: Told,
}

fn shape_there(alloc: Global, shape: Option<Shape>) -> Result<Shape, Fault>
    ensures { Gives (λ s. s) result (shape_there_of shape) }
{
    match shape {
        Some(shape) => Ok(shape),
        None => Err(Fault::QueryLogic(misplaced(alloc)?)),
    }
}

fn note_of(shape: Shape) -> u8
    ensures { result ≡ note_of_shape shape }
{
    match shape {
        Shape::Range => 1,
        Shape::Point => 2,
        Shape::Limit => 3,
        Shape::United => 4,
    }
}

/// The feeds that CHANGES asks for with its arguments.
pub fn feeds_asked<V: TableView>(
    alloc: Global,
    request: &Held<V>,
    args: &Terms,
    opts: &TermFields,
) -> Result<Feeding, Fault>
    ensures { Gives asked result (feeding_of (held V.documents V.indexes V.entries request.now)
        (forms_of args.now) (named_of opts.now)) }
{
    let term = first(alloc, args)?;
    let shape = shape_there(alloc, shape_of(term))?;
    let terms = followed(alloc, request, shape, term)?;
    let given = options_given(alloc, &request.world, opts)?;
    let options = told(alloc, opts, &given)?;
    let list = openings(alloc, request, options, shape, &terms)?;
    Ok(Feeding {
        openings: Seq::from_vec(list),
        note: note_of(shape),
        told: options,
    })
}

/// The notes of its answers: that of its shape, and 5 where states are told.
pub fn notes_of(alloc: Global, feeding: &Feeding) -> Result<Vec<u8>, Memory>
    ensures { IfOk result (λ notes. notes.items ≡ notes_of_feeding (asked feeding.now)) }
{
    let mut notes = Vec::new(alloc);
    notes.push(feeding.note)?;
    if feeding.told.states {
        notes.push(5)?;
        return Ok(notes);
    }
    Ok(notes)
}

/// The arms of feeds that were opened.
pub fn arms_of<V: TableView>(
    alloc: Global,
    request: &Held<V>,
    open: &[Open],
) -> Result<Vec<Arm>, Memory>
    ensures { IfOk result (λ arms. map arm arms.items
        ≡ map (arm_of_open (held V.documents V.indexes V.entries request.now))
        (map opened open.now)) }
{
    let mut arms = Vec::new(alloc);
    for one in open {
        arms.push(arm_of(alloc, &request.names, one)?)?;
    }
    Ok(arms)
}
