// Terms whose arguments have their data in their places.
ghost use Rattle.std.specs.Prelude.{◌≡◌, ◌∷◌, IfOk};
ghost use Rattle.reql_datum.specs.Outcome.{Gives};
ghost use Rattle.reql_term.specs.Form.{forms_of, named_of};
ghost use Rattle.reql_term.specs.View.{form_of};
ghost use Rattle.reql_operand.specs.Tables.{seen};
ghost use Rattle.reql_plan_spec.specs.Settled.{Test as TestOf, no_test, settled as settled_of, first_settled as first_settled_of};
ghost use Rattle.reql_plan_context.specs.Settling.{tested as tested_of};

use crate::keeping::Keeps;
use crate::placed::{arguments, named_arguments};
use reql_datum::{Fault, Memory};
use reql_operand::World;
use reql_term::{Op, TableView, Term, TermFields, Terms, Way};
use std::alloc::Global;

/// A test of a term's arguments and optional arguments, as they are settled.
pub trait Test {
    ghost test: { Self → TestOf };

    fn check(&self, alloc: Global, op: Op, args: &Terms, opts: &TermFields) -> Result<(), Fault>
        ensures { Gives (λ u. u) result (test self.now op args.now opts.now) };
}

/// The test that all pass.
#[derive(Drop)]
pub struct NoTest;

impl Test for NoTest {
    ghost test = { λ t. no_test };

    fn check(
        &self,
        _alloc: Global,
        _op: Op,
        _args: &Terms,
        _opts: &TermFields,
    ) -> Result<(), Fault> {
        Ok(())
    }
}

/// Terms one on another over a table, each with its arguments settled, and then tested.
#[cycle(settled)]
pub fn settled<V: TableView, T: Test>(
    alloc: Global,
    test: &T,
    world: &World<V>,
    term: &Term,
) -> Result<Term, Fault>
    ensures { Gives form_of result (settled_of (T.test test.now)
        (seen V.documents V.indexes V.entries world.now) (form_of term.now)) }
{
    match term {
        Term::Op { op, args, opts } => {
            let list = first_settled(alloc, test, world, op.way(), args)?;
            tested(alloc, test, world, *op, list, opts)
        }
        Term::Lit(_)
        | Term::Arr(_)
        | Term::Obj(_)
        | Term::Var(_)
        | Term::Row
        | Term::Func(_, _)
        | Term::Slot(_) => Ok(term.copy()?),
    }
}

// An operator over settled arguments, with its optional ones settled, and then tested.
fn tested<V: TableView, T: Test>(
    alloc: Global,
    test: &T,
    world: &World<V>,
    op: Op,
    args: Terms,
    fields: &TermFields,
) -> Result<Term, Fault>
    ensures { Gives form_of result (tested_of (T.test test.now)
        (seen V.documents V.indexes V.entries world.now) op args (named_of fields.now)) }
{
    let opts = named_arguments(alloc, Keeps::Chosen(op.way()), world, fields)?;
    test.check(alloc, op, &args, &opts)?;
    Ok(Term::Op { op, args, opts })
}

// The first argument as such a term, and the others as arguments of an operator that takes them so.
#[cycle(settled)]
fn first_settled<V: TableView, T: Test>(
    alloc: Global,
    test: &T,
    world: &World<V>,
    by: Way,
    terms: &Terms,
) -> Result<Terms, Fault>
    ensures { Gives (λ list. list) result (first_settled_of (T.test test.now)
        (seen V.documents V.indexes V.entries world.now) by (forms_of terms.now)) }
{
    match terms.at(0) {
        Some(term) => {
            let first = settled(alloc, test, world, term)?;
            let others = arguments(alloc, Keeps::Argument(by), world, terms, 1)?;
            Ok(in_front(alloc, first, &others)?)
        }
        None => Ok(Terms::new(alloc)),
    }
}

// The terms with one in front of them.
#[tactic(auto, using(reql_datum::proofs::Walks::walks))]
fn in_front(alloc: Global, first: Term, others: &Terms) -> Result<Terms, Memory>
    ensures { IfOk result (λ list. list ≡ form_of first ∷ others.now) }
{
    let mut list = Terms::with_room(alloc, 1)?;
    list.push(first)?;
    let mut place = 0;
    while let Some(term) = others.at(place) {
        list.push(term.copy()?)?;
        place += 1;
    }
    Ok(list)
}
