// The table that a command is run on.
ghost use Rattle.std.specs.Prelude.{◌≡◌, Err, is_ok, false, codes};
ghost use Rattle.reql_datum.specs.Outcome.{Gives};
ghost use Rattle.reql_term.specs.View.{form_of};
ghost use Rattle.reql_operand.specs.Seen.{meant};
ghost use Rattle.reql_operand.specs.Tables.{seen};
ghost use Rattle.reql_value_spec.specs.Wanted.{wrong as wrong_of};
ghost use Rattle.reql_value_spec.specs.World.{World as Seen};
ghost use Rattle.reql_plan_spec.specs.Settled.{target as target_of, slot_in as slot_in_of};

use crate::evaluated::meant_of;
use reql_datum::Fault;
use reql_operand::{Value, World, wrong};
use reql_term::{TableView, Term};
use std::alloc::Global;

/// What stands where a command wants a table: a TABLE term isn't looked at, any other is evaluated.
pub fn target<V: TableView>(alloc: Global, world: &World<V>, term: &Term) -> Result<Value, Fault>
    ensures { let w = seen V.documents V.indexes V.entries world.now in
        Gives (meant w) result (target_of w (form_of term.now)) }
{
    match term {
        Term::Slot(slot) => Ok(Value::Table(*slot)),
        _ => meant_of(alloc, world, term),
    }
}

// The fault that a table was wanted.
fn no_table(alloc: Global, value: &Value) -> Result<u32, Fault>
    ensures fault { is_ok result ≡ false }
    ensures which { (w : Seen) → Gives (λ n. n) result
        (Err (wrong_of (codes "TABLE") (meant w value.now))) }
{
    match wrong(alloc, "TABLE", value) {
        Err(fault) => Err(fault),
        Ok(_) => unreachable!(),
    }
}

/// The slot of the table that it is.
pub fn slot_in(alloc: Global, value: &Value) -> Result<u32, Fault>
    ensures { (w : Seen) → Gives (λ n. n) result (slot_in_of (meant w value.now)) }
{
    match value {
        Value::Table(slot) => Ok(*slot),
        _ => no_table(alloc, value),
    }
}
