// The key that a point feed follows.
ghost use Rattle.std.specs.Prelude.{◌≡◌, None, IfOk, option_map};
ghost use Rattle.reql_datum.specs.Answer.{Answer};
ghost use Rattle.reql_datum.specs.Keys.{is_key};
ghost use Rattle.reql_datum.specs.Outcome.{Gives, Fails};
ghost use Rattle.reql_datum.specs.Plain.{Plain};
ghost use Rattle.reql_datum.specs.View.{plain};
ghost use Rattle.reql_value_spec.specs.Tables.{key_if};
ghost use Rattle.reql_value_spec.specs.World.{bare_world};
ghost use Rattle.reql_operand.specs.Tables.{seen};
ghost use Rattle.reql_table.specs.Seen.{documents_of, indexes_of, entries_at};
ghost use Rattle.reql_feed_read.specs.Shapes.{as_key, datum_given, given, is_slot as is_slot_of};
ghost use Rattle.reql_table_spec.specs.Followed.{arguments, is_get as is_get_of, closed_value, key_of_get, point_key};
ghost use Rattle.reql_term.specs.Form.{operation, forms_of, named_of};
ghost use Rattle.reql_term.specs.View.{form_of};

use crate::free::{Scope, is_free};
use reql_datum::{Datum, Fault, Memory};
use reql_eval::eval;
use reql_operand::{Purse, STAGE, World, into_datum};
use reql_table::Table;
use reql_table_spec::FeedSpec;
use reql_term::{Op, Term, TermFields, Terms};
use reql_term_analysis::Vars;
use std::alloc::Global;

fn is_get(op: Op) -> bool
    ensures { result ≡ is_get_of op }
{
    match op {
        Op::Get => true,
        _ => false,
    }
}

/// The world of no table.
pub(crate) fn nothing(alloc: Global) -> World<Table>
    ensures { seen documents_of indexes_of entries_at result ≡ bare_world }
{
    World {
        tables: Vec::new(alloc),
        databases: Vec::new(alloc),
        array_limit: 100_000,
        purse: Purse::new(STAGE),
    }
}

/// What a term gives where it reads no table.
pub(crate) fn datum_of(alloc: Global, term: &Term) -> Result<Datum, Fault>
    ensures { Gives plain result (datum_given (form_of term.now)) }
{
    let world = nothing(alloc);
    let found = eval(alloc, term, &world, &Vars::Empty)?;
    let datum = into_datum(alloc, found)?;
    Ok(datum)
}

fn if_key(value: &Datum) -> Result<Option<Datum>, Memory>
    ensures { IfOk result (λ o. option_map plain o ≡ given (key_if is_key (plain value.now))) }
{
    if value.is_key() {
        return Ok(Some(value.copy()?));
    }
    Ok(None)
}

// A fault gives no key; want of memory is handed on.
fn of_fault(fault: &Fault) -> Result<Option<Datum>, Memory>
    ensures { (a : Answer Plain) → Fails fault.now a
        → IfOk result (λ o. option_map plain o ≡ given (as_key a)) }
{
    match fault {
        Fault::Memory => Err(Memory),
        _ => Ok(None),
    }
}

fn key_in(answer: &Result<Datum, Fault>) -> Result<Option<Datum>, Memory>
    ensures { (a : Answer Plain) → Gives plain answer.now a
        → IfOk result (λ o. option_map plain o ≡ given (as_key a)) }
{
    match answer {
        Ok(value) => if_key(value),
        Err(fault) => of_fault(fault),
    }
}

fn closed_key(alloc: Global, term: &Term) -> Result<Option<Datum>, Memory>
    ensures { IfOk result (λ o. option_map plain o
        ≡ given (as_key (closed_value (form_of term.now)))) }
{
    if !is_free(term, &Scope::Outside) {
        return Ok(None);
    }
    let answer = datum_of(alloc, term);
    key_in(&answer)
}

/// Whether a term is a table.
pub(crate) fn is_slot(term: &Term) -> bool
    ensures { result ≡ is_slot_of (form_of term.now) }
{
    match term {
        Term::Slot(_) => true,
        _ => false,
    }
}

// The key that GET is given with a table.
#[tactic(auto, using(crate::proofs::Gets::gets))]
fn key_of(alloc: Global, args: &Terms) -> Result<Option<Datum>, Memory>
    ensures { IfOk result (λ o. option_map plain o
        ≡ given (key_of_get (arguments (forms_of args.now)))) }
{
    let Some(first) = args.at(0) else {
        return Ok(None);
    };
    let Some(key) = args.at(1) else {
        return Ok(None);
    };
    let None = args.at(2) else {
        return Ok(None);
    };
    if !is_slot(first) {
        return Ok(None);
    }
    let found = closed_key(alloc, key)?;
    Ok(found)
}

#[tactic(auto, using(crate::proofs::Gets::get_at, crate::proofs::Gets::no_get, crate::proofs::Gets::named_get))]
fn key_of_op(
    alloc: Global,
    op: Op,
    args: &Terms,
    opts: &TermFields,
) -> Result<Option<Datum>, Memory>
    ensures { IfOk result (λ o. option_map plain o
        ≡ given (point_key None (operation op (forms_of args.now) (named_of opts.now)))) }
{
    if !opts.is_empty() {
        return Ok(None);
    }
    if !is_get(op) {
        return Ok(None);
    }
    let found = key_of(alloc, args)?;
    Ok(found)
}

fn key_of_term(alloc: Global, term: &Term) -> Result<Option<Datum>, Memory>
    ensures { IfOk result (λ o. option_map plain o ≡ given (point_key None (form_of term.now))) }
{
    match term {
        Term::Op { op, args, opts } => key_of_op(alloc, *op, args, opts),
        Term::Lit(_)
        | Term::Arr(_)
        | Term::Obj(_)
        | Term::Var(_)
        | Term::Row
        | Term::Func(_, _)
        | Term::Slot(_) => Ok(None),
    }
}

/// The key of the GET that a request asks for; None where it asks for none, or names an index.
pub(crate) fn asked_key(alloc: Global, spec: &FeedSpec) -> Result<Option<Datum>, Memory>
    ensures { IfOk result (λ o. option_map plain o
        ≡ given (point_key spec.now.index spec.now.shape)) }
{
    match &spec.index {
        None => key_of_term(alloc, spec.shape.term()),
        Some(_) => Ok(None),
    }
}
