// What no term inside is evaluated for.
ghost use Rattle.std.specs.Prelude.{[]};
ghost use Rattle.reql_datum.specs.Answer.{Answer};
ghost use Rattle.reql_datum.specs.Outcome.{Gives};
ghost use Rattle.reql_value_spec.specs.Meaning.{bound as bound_to, table_of};
ghost use Rattle.reql_value_spec.specs.Meant.{Meant};
ghost use Rattle.reql_value_spec.specs.World.{World as Seen, variable_at, implicit_at};
ghost use Rattle.reql_operand.specs.Seen.{meant};
ghost use Rattle.reql_operand.specs.Tables.{seen};
ghost use Rattle.reql_term_analysis.specs.Bound.{bound};
ghost use Rattle.reql_eval.specs.Taken.{out_of_order as out_of_order_of};

use reql_datum::Fault;
use reql_operand::{Value, World, misplaced_order, sized, table_at};
use reql_term::TableView;
use reql_term_analysis::{Vars, find, implicit, reach};
use std::alloc::Global;

/// The value of a variable, within the limits.
pub(crate) fn variable<V: TableView>(
    alloc: Global,
    id: u64,
    world: &World<V>,
    vars: &Vars,
) -> Result<Value, Fault>
    ensures { let w = seen V.documents V.indexes V.entries world.now in
        Gives (meant w) result (bound_to (variable_at id) w (bound vars.now)) }
{
    world.purse.spend(reach(vars))?;
    let d = find(alloc, id, vars)?;
    sized(alloc, world.array_limit, Value::One(d))
}

/// The parameter of the nearest function of one, within the limits.
pub(crate) fn parameter<V: TableView>(
    alloc: Global,
    world: &World<V>,
    vars: &Vars,
) -> Result<Value, Fault>
    ensures { let w = seen V.documents V.indexes V.entries world.now in
        Gives (meant w) result (bound_to implicit_at w (bound vars.now)) }
{
    world.purse.spend(reach(vars))?;
    let d = implicit(alloc, vars)?;
    sized(alloc, world.array_limit, Value::One(d))
}

/// The table in a slot, where there is one.
pub(crate) fn table<V: TableView>(
    alloc: Global,
    slot: u32,
    world: &World<V>,
) -> Result<Value, Fault>
    ensures { let w = seen V.documents V.indexes V.entries world.now in
        Gives (meant w) result (table_of slot w []) }
{
    match table_at(alloc, world, slot) {
        Ok(_) => Ok(Value::Table(slot)),
        Err(fault) => Err(fault),
    }
}

/// A key with its direction, which is no value.
pub(crate) fn out_of_order(alloc: Global, found: Result<Value, Fault>) -> Result<Value, Fault>
    ensures { (w : Seen) (a : Answer Meant) → Gives (meant w) found a
        → Gives (meant w) result (out_of_order_of a) }
{
    match found {
        Ok(value) => {
            drop(value);
            Err(Fault::QueryLogic(misplaced_order(alloc)?))
        }
        Err(first) => Err(first),
    }
}
