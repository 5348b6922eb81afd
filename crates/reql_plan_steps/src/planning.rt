// Terms that have a plan.
ghost use Rattle.std.specs.Prelude.{◌≡◌, IfOk};
ghost use Rattle.reql_term.specs.View.{form_of};
ghost use Rattle.reql_faults.specs.Faults.{faults, around_root};
ghost use Rattle.reql_faults.specs.Finds.{Finds};

use reql_datum::Name;
use reql_faults::{CompileFault, plan_fault};
use reql_plan_spec::Plan;
use reql_term::{Body, Term};
use std::alloc::Global;

/// The plan of a term, with the default database of its query, how long an array may be, and how many
/// items an answer holds at most; or the first fault of the term in preorder.
#[tactic(auto, using(crate::proofs::Planned::finds_as))]
pub fn plan(
    alloc: Global,
    term: Term,
    db: Name,
    array_limit: u64,
    batch: u32,
) -> Result<Plan, CompileFault>
    ensures finds { Finds result (faults around_root (form_of term)) }
    ensures plan { IfOk result (λ p. p ≡ record {
      term = form_of term;
      db = db;
      array_limit = array_limit;
      batch = batch;
    }) }
{
    match plan_fault(alloc, &term) {
        Ok(()) => match Body::new(alloc, term) {
            Ok(body) => Ok(Plan {
                term: body,
                db,
                array_limit,
                batch,
            }),
            Err(_) => Err(CompileFault::Memory),
        },
        Err(why) => Err(why),
    }
}
