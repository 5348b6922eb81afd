// Functions outside of any request: those of indexes, and the changes of writes.
ghost use Rattle.std.specs.Prelude.{◌≡◌, map};
ghost use Rattle.reql_datum.specs.Outcome.{Gives};
ghost use Rattle.reql_datum.specs.View.{plain};
ghost use Rattle.reql_term.specs.View.{form_of};
ghost use Rattle.reql_value_spec.specs.World.{bare_world};
ghost use Rattle.reql_operand.specs.Tables.{seen};
ghost use Rattle.reql_eval.specs.Bare.{function_datum};

use crate::whole::call_function;
use reql_datum::{Datum, Fault};
use reql_operand::{Purse, World, into_datum};
use reql_term::{TableView, Term};
use std::alloc::Global;

// The world of no table, to whatever kind of table one asks for.
fn nothing<V: TableView>(alloc: Global, left: u64) -> World<V>
    ensures { seen V.documents V.indexes V.entries result ≡ bare_world }
{
    World {
        tables: Vec::new(alloc),
        databases: Vec::new(alloc),
        array_limit: 100_000,
        purse: Purse::new(left),
    }
}

// The document that a term gives in a world.
fn datum_in<V: TableView>(
    alloc: Global,
    term: &Term,
    values: &[Datum],
    world: &World<V>,
) -> Result<Datum, Fault>
    ensures { seen V.documents V.indexes V.entries world.now ≡ bare_world
        → Gives plain result (function_datum (form_of term.now) (map plain values.now)) }
{
    let value = call_function(alloc, term, values, world)?;
    into_datum(alloc, value)
}

/// The document that a term gives as a function of these values, outside of any request, where it
/// reads no table. A term that is no function is constant. It is the same for every kind `V` of
/// tables, since none is there. It is paid for out of the purse.
pub fn function_datum<V: TableView + Drop>(
    alloc: Global,
    term: &Term,
    values: &[Datum],
    purse: &Purse,
) -> Result<Datum, Fault>
    ensures { Gives plain result (function_datum (form_of term.now) (map plain values.now)) }
{
    let world = nothing::<V>(alloc, purse.left());
    let found = datum_in(alloc, term, values, &world);
    purse.settle(&world.purse);
    found
}
