// Arguments as the literals that they give.
ghost use Rattle.std.specs.Prelude.{◌≡◌, IfOk, drop};
ghost use Rattle.reql_datum.specs.Members.{put};
ghost use Rattle.reql_datum.specs.Outcome.{Gives};
ghost use Rattle.reql_term.specs.Form.{forms_of, named_of};
ghost use Rattle.reql_term.specs.View.{form_of};
ghost use Rattle.reql_operand.specs.Tables.{seen};
ghost use Rattle.reql_plan_spec.specs.Settled.{nothing_kept, evaluated as evaluated_of, argument as argument_of, arguments as arguments_of, named_arguments as named_arguments_of};
ghost use Rattle.reql_plan_context.specs.Keeping.{kept_by, over_literals as over_literals_of};

use crate::evaluated::datum_of;
use crate::keeping::Keeps;
use reql_datum::{Fault, Memory, Name};
use reql_operand::World;
use reql_term::{Op, TableView, Term, TermFields, Terms};
use std::alloc::Global;

/// An argument that is no function as the literal that it gives.
pub fn argument<V: TableView>(alloc: Global, world: &World<V>, term: &Term) -> Result<Term, Fault>
    ensures { Gives form_of result (argument_of nothing_kept
        (seen V.documents V.indexes V.entries world.now) (form_of term.now)) }
{
    placed(alloc, Keeps::Nothing, world, term)
}

fn evaluated<V: TableView>(alloc: Global, world: &World<V>, term: &Term) -> Result<Term, Fault>
    ensures { Gives form_of result (evaluated_of (seen V.documents V.indexes V.entries world.now)
        (form_of term.now)) }
{
    let datum = datum_of(alloc, world, term)?;
    Ok(Term::Lit(datum))
}

// An argument as a literal, or an operator that keeps its place over literals.
#[cycle(placed)]
fn placed<V: TableView>(
    alloc: Global,
    keeps: Keeps,
    world: &World<V>,
    term: &Term,
) -> Result<Term, Fault>
    ensures { Gives form_of result (argument_of (kept_by keeps)
        (seen V.documents V.indexes V.entries world.now) (form_of term.now)) }
{
    match term {
        Term::Func(_, _) => Ok(term.copy()?),
        Term::Op { op, args, opts } => {
            if keeps.keeps(*op) {
                return over_literals(alloc, world, *op, args, opts);
            }
            evaluated(alloc, world, term)
        }
        Term::Lit(_) | Term::Arr(_) | Term::Obj(_) | Term::Var(_) | Term::Row | Term::Slot(_) =>
            evaluated(alloc, world, term),
    }
}

// An operator with its arguments as literals.
#[cycle(placed)]
fn over_literals<V: TableView>(
    alloc: Global,
    world: &World<V>,
    op: Op,
    args: &Terms,
    opts: &TermFields,
) -> Result<Term, Fault>
    ensures { Gives form_of result (over_literals_of
        (seen V.documents V.indexes V.entries world.now) op (forms_of args.now)
        (named_of opts.now)) }
{
    let args = arguments(alloc, Keeps::Nothing, world, args, 0)?;
    let opts = opts.copy()?;
    Ok(Term::Op { op, args, opts })
}

/// The arguments from a place on, settled.
#[cycle(placed)]
#[tactic(auto, using(reql_faults::proofs::Below::below, reql_datum::proofs::Walks::walks))]
pub(crate) fn arguments<V: TableView>(
    alloc: Global,
    keeps: Keeps,
    world: &World<V>,
    terms: &Terms,
    from: usize,
) -> Result<Terms, Fault>
    ensures { Gives (λ list. list) result (arguments_of (kept_by keeps)
        (seen V.documents V.indexes V.entries world.now) (forms_of (drop from terms.now))) }
{
    let mut list = Terms::new(alloc);
    let mut place = from;
    while let Some(term) = terms.at(place) {
        let literal = placed(alloc, keeps, world, term)?;
        list.push(literal)?;
        place += 1;
    }
    Ok(list)
}

// The optional arguments with one of them settled.
fn with_literal(fields: TermFields, name: &Name, literal: Term) -> Result<TermFields, Memory>
    ensures { IfOk result (λ map. map ≡ put name.now (form_of literal) fields) }
{
    let mut fields = fields;
    drop(fields.put(name.copy()?, literal)?);
    Ok(fields)
}

/// The optional arguments, settled by rising name.
pub(crate) fn named_arguments<V: TableView>(
    alloc: Global,
    keeps: Keeps,
    world: &World<V>,
    fields: &TermFields,
) -> Result<TermFields, Fault>
    ensures { Gives (λ map. map) result (named_arguments_of (kept_by keeps)
        (seen V.documents V.indexes V.entries world.now) (named_of fields.now)) }
{
    let mut settled = fields.copy()?;
    let mut place = 0;
    while let Some((name, term)) = fields.at(place) {
        let literal = placed(alloc, keeps, world, term)?;
        settled = with_literal(settled, name, literal)?;
        place += 1;
    }
    Ok(settled)
}
