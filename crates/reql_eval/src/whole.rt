// A term as a whole, and a function outside of any request.
ghost use Rattle.std.specs.Prelude.{map};
ghost use Rattle.reql_datum.specs.Outcome.{Gives};
ghost use Rattle.reql_datum.specs.View.{plain};
ghost use Rattle.reql_term.specs.View.{form_of};
ghost use Rattle.reql_value_spec.specs.Meaning.{value, function_value};
ghost use Rattle.reql_operand.specs.Seen.{meant};
ghost use Rattle.reql_operand.specs.Tables.{seen};
ghost use Rattle.reql_term_analysis.specs.Bound.{bound};

use crate::cycle::{eval_term, give_to};
use reql_datum::{Datum, Fault};
use reql_operand::{Value, World};
use reql_term::{TableView, Term};
use reql_term_analysis::{Vars, settled};
use std::alloc::Global;

/// What a term gives, or its first fault.
pub fn eval<V: TableView>(
    alloc: Global,
    term: &Term,
    world: &World<V>,
    vars: &Vars,
) -> Result<Value, Fault>
    ensures { let w = seen V.documents V.indexes V.entries world.now in
        Gives (meant w) result (value (form_of term.now) w (bound vars.now)) }
{
    settled(alloc, eval_term(alloc, term, world, vars))
}

/// What a term gives as a function of these values, outside of any request. A term that is no
/// function is constant.
pub fn call_function<V: TableView>(
    alloc: Global,
    term: &Term,
    values: &[Datum],
    world: &World<V>,
) -> Result<Value, Fault>
    ensures { let w = seen V.documents V.indexes V.entries world.now in
        Gives (meant w) result (function_value (form_of term.now) w (map plain values.now)) }
{
    settled(alloc, give_to(alloc, term, values, world, &Vars::Empty))
}
