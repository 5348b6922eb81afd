// What a term gives.
ghost use Rattle.std.specs.Prelude.{option_map};
ghost use Rattle.reql_datum.specs.Outcome.{Gives};
ghost use Rattle.reql_datum.specs.View.{plain};
ghost use Rattle.reql_term.specs.View.{form_of};
ghost use Rattle.reql_operand.specs.Seen.{meant};
ghost use Rattle.reql_operand.specs.Tables.{seen};
ghost use Rattle.reql_plan_spec.specs.Settled.{there as there_of, meant_of as meant_of_form, datum_of as datum_of_form, sequence_of as sequence_of_form};

use reql_datum::{Datum, Fault, Items};
use reql_eval::eval;
use reql_operand::{Value, World, into_datum, misplaced, to_sequence};
use reql_term::{TableView, Term};
use reql_term_analysis::Vars;
use std::alloc::Global;

/// An argument that has to be there.
pub fn there<'a>(alloc: Global, term: Option<&'a Term>) -> Result<&'a Term, Fault>
    ensures { Gives (λ t. form_of t.now) result
        (there_of (option_map (λ t. form_of t.now) term.entry)) }
{
    match term {
        Some(term) => Ok(term),
        None => Err(Fault::QueryLogic(misplaced(alloc)?)),
    }
}

/// What a term gives, with no variable bound.
pub fn meant_of<V: TableView>(alloc: Global, world: &World<V>, term: &Term) -> Result<Value, Fault>
    ensures { let w = seen V.documents V.indexes V.entries world.now in
        Gives (meant w) result (meant_of_form w (form_of term.now)) }
{
    eval(alloc, term, world, &Vars::Empty)
}

/// The document that it gives.
pub fn datum_of<V: TableView>(alloc: Global, world: &World<V>, term: &Term) -> Result<Datum, Fault>
    ensures { Gives plain result (datum_of_form (seen V.documents V.indexes V.entries world.now)
        (form_of term.now)) }
{
    let value = meant_of(alloc, world, term)?;
    into_datum(alloc, value)
}

/// The elements of the sequence that it gives.
pub fn sequence_of<V: TableView>(
    alloc: Global,
    world: &World<V>,
    term: &Term,
) -> Result<Items, Fault>
    ensures { Gives (λ items. items) result
        (sequence_of_form (seen V.documents V.indexes V.entries world.now) (form_of term.now)) }
{
    let value = meant_of(alloc, world, term)?;
    to_sequence(alloc, &value, world)
}
