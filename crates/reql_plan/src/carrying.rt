// A request after its snapshots: what stands at its root, or in an arm of a BRANCH there.
ghost use Rattle.std.specs.Prelude.{◌≡◌, ◌<◌, IfOk};
ghost use Rattle.reql_datum.specs.Outcome.{Gives};
ghost use Rattle.reql_term.specs.Form.{forms_of, weight, list_weight};
ghost use Rattle.reql_term.specs.View.{form_of};
ghost use Rattle.reql_operand.specs.Tables.{seen};
ghost use Rattle.reql_plan_context.specs.Seen.{held};
ghost use Rattle.reql_plan_spec.specs.Course.{carried, is_command_task, is_command, any_command};
ghost use Rattle.reql_plan_spec.specs.Request.{ends};
ghost use Rattle.reql_plan.specs.Chosen.{chosen};
ghost use Rattle.reql_plan_state.specs.Turn.{Turns};

use crate::catalogue::change;
use crate::feeds::changes;
use crate::indexing::change_table;
use crate::shown::shown;
use reql_datum::{Fault, Memory, Name};
use reql_operand::{World, is_true};
use reql_plan_context::{Held, datum_of};
use reql_plan_state::{Then, Turn, for_each, refused, write};
use reql_term::{TableView, Task, Term, Terms};
use std::alloc::Global;

#[cycle(carry)]
#[tactic(auto, using(crate::proofs::Chosen::arms))]
pub(crate) fn carried<V: TableView + Drop>(
    alloc: Global,
    e: Held<V>,
    term: &Term,
) -> Result<Turn<V>, Memory>
    ensures { let k = held V.documents V.indexes V.entries e in
        Turns V.documents V.indexes V.entries result (carried k (form_of term.now) ends) }
{
    match term {
        Term::Op { op, args, opts } => match op.task() {
            Task::Value => shown(alloc, e, term),
            Task::Branch => {
                if !any_command(args) {
                    return shown(alloc, e, term);
                }
                match chosen(alloc, &e.world, args) {
                    Ok(arm) => carried(alloc, e, arm),
                    Err(why) => refused(why),
                }
            }
            Task::ForEach => for_each(alloc, e, args),
            Task::Write => write(alloc, e, term, Then::Once),
            Task::Catalogue => change(alloc, e, *op, args, opts),
            Task::Index => change_table(alloc, e, *op, args, opts),
            Task::Sync => change_table(alloc, e, *op, args, opts),
            Task::Feed => changes(alloc, e, args, opts),
        },
        Term::Lit(_) => shown(alloc, e, term),
        Term::Arr(_) => shown(alloc, e, term),
        Term::Obj(_) => shown(alloc, e, term),
        Term::Var(_) => shown(alloc, e, term),
        Term::Row => shown(alloc, e, term),
        Term::Func(_, _) => shown(alloc, e, term),
        Term::Slot(_) => shown(alloc, e, term),
    }
}

// The arm of a BRANCH: tests up to the first that is true, then its arm, else the last.
#[tactic(auto, using(crate::proofs::Chosen::form_below))]
fn chosen<'a, V: TableView + Drop>(
    alloc: Global,
    world: &World<V>,
    args: &'a Terms,
) -> Result<&'a Term, Fault>
    ensures arm { Gives (λ t. form_of t.now) result
        (chosen (seen V.documents V.indexes V.entries world.now) (forms_of args.now)) }
    ensures below { IfOk result (λ t. weight (form_of t.now) < list_weight args.now) }
{
    let mut place = 0;
    while let Some(test) = args.at(place) {
        let next = place + 1;
        let Some(arm) = args.at(next) else {
            return Ok(test);
        };
        let found = datum_of(alloc, world, test)?;
        if is_true(&found) {
            return Ok(arm);
        }
        place = next + 1;
    }
    Err(Fault::QueryLogic(Name::of(alloc, "Misplaced term.")?))
}

fn any_command(args: &Terms) -> bool
    ensures { result ≡ any_command (forms_of args.now) }
{
    let mut place = 0;
    while let Some(term) = args.at(place) {
        if is_command(term) {
            return true;
        }
        place += 1;
    }
    false
}

fn is_command(term: &Term) -> bool
    ensures { result ≡ is_command (form_of term.now) }
{
    match term {
        Term::Op {
            op,
            args: _,
            opts: _,
        } => is_command_task(op.task()),
        Term::Lit(_) | Term::Arr(_) | Term::Obj(_) | Term::Var(_) => false,
        Term::Row | Term::Func(_, _) | Term::Slot(_) => false,
    }
}

fn is_command_task(task: Task) -> bool
    ensures { result ≡ is_command_task task }
{
    match task {
        Task::Value | Task::Branch | Task::Feed => false,
        Task::ForEach | Task::Write | Task::Catalogue | Task::Index | Task::Sync => true,
    }
}
