// Values: a sequence longer than a batch needs a cursor.
ghost use Rattle.std.specs.Prelude.{◌≡◌};
ghost use Rattle.reql_term.specs.View.{form_of};
ghost use Rattle.reql_plan_context.specs.Seen.{held};
ghost use Rattle.reql_plan_context.specs.Shown.{shown_as as seen};
ghost use Rattle.reql_plan_spec.specs.Course.{shown, shown_as};
ghost use Rattle.reql_plan_spec.specs.Request.{ends};
ghost use Rattle.reql_plan_state.specs.Rest.{counts_fit};
ghost use Rattle.reql_plan_state.specs.Turn.{Turns};

use reql_datum::{Fault, Memory, Name};
use reql_plan_context::{Held, Shown, show};
use reql_plan_state::{Turn, refused};
use reql_plan_steps::Answered;
use reql_term::{TableView, Term};
use std::alloc::Global;

// The value of a term is the answer.
#[tactic(auto, using(crate::proofs::Showing::shows))]
pub(crate) fn shown<V: TableView + Drop>(
    alloc: Global,
    e: Held<V>,
    term: &Term,
) -> Result<Turn<V>, Memory>
    ensures { let k = held V.documents V.indexes V.entries e in
        Turns V.documents V.indexes V.entries result (shown k (form_of term.now) ends) }
{
    match show(alloc, &e.world, term) {
        Ok(found) => shown_as(alloc, &e, found),
        Err(why) => refused(why),
    }
}

fn shown_as<V: TableView + Drop>(
    alloc: Global,
    e: &Held<V>,
    found: Shown,
) -> Result<Turn<V>, Memory>
    ensures { let k = held V.documents V.indexes V.entries e.now in
        Turns V.documents V.indexes V.entries result (shown_as k (seen found) ends) }
{
    match found {
        Shown::Atom(document) => Ok(Turn::Done(Answered::Atom(document))),
        Shown::Groups(groups) => Ok(Turn::Done(Answered::Grouped(groups))),
        Shown::Sequence(items) => {
            if fits_in(e, items.len()) {
                return Ok(Turn::Done(Answered::Sequence(items)));
            }
            drop(items);
            let text = Name::of(alloc, "Too many cursors.")?;
            Ok(Turn::Done(Answered::Fault(Fault::ResourceLimit(text))))
        }
    }
}

fn fits_in<V: TableView + Drop>(e: &Held<V>, count: usize) -> bool
    ensures { let k = held V.documents V.indexes V.entries e.now in
        result ≡ counts_fit k count }
{
    count <= e.batch as usize || e.setting.opened < e.setting.cursors
}
