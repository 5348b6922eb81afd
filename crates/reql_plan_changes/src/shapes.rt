// The terms that feeds follow, with the data of their arguments in their places.
ghost use Rattle.reql_datum.specs.Outcome.{Gives};
ghost use Rattle.reql_term.specs.Form.{forms_of, named_of};
ghost use Rattle.reql_term.specs.View.{form_of};
ghost use Rattle.reql_plan_spec.specs.Feeding.{feed_settled as feed_settled_of, all_settled as all_settled_of, followed as followed_of};
ghost use Rattle.reql_plan_spec.specs.Reads.{args_of, options_of};
ghost use Rattle.reql_plan_context.specs.Seen.{held};
ghost use Rattle.reql_plan_changes.specs.Followed.{united as united_of, alone as alone_of};

use crate::rows::RowTest;
use reql_datum::Fault;
use reql_faults::Shape;
use reql_plan_context::{Held, options_given, settled};
use reql_term::{TableView, Term, TermFields, Terms};
use std::alloc::Global;

fn feed_settled<V: TableView>(alloc: Global, request: &Held<V>, term: &Term) -> Result<Term, Fault>
    ensures { Gives form_of result (feed_settled_of (held V.documents V.indexes V.entries
        request.now) (form_of term.now)) }
{
    settled(alloc, &RowTest, &request.world, term)
}

// The arms of a united feed, in order.
#[tactic(auto, using(reql_datum::proofs::Walks::walks))]
fn all_settled<V: TableView>(
    alloc: Global,
    request: &Held<V>,
    terms: &Terms,
) -> Result<Terms, Fault>
    ensures { Gives (λ list. list) result (all_settled_of (held V.documents V.indexes V.entries
        request.now) (forms_of terms.now)) }
{
    let mut list = Terms::new(alloc);
    let mut place = 0;
    while let Some(term) = terms.at(place) {
        let arm = feed_settled(alloc, request, term)?;
        list.push(arm)?;
        place += 1;
    }
    Ok(list)
}

// The arms of a united feed, and then the options of its UNION.
fn united<V: TableView>(
    alloc: Global,
    request: &Held<V>,
    args: &Terms,
    opts: &TermFields,
) -> Result<Terms, Fault>
    ensures { Gives (λ list. list) result (united_of (held V.documents V.indexes V.entries
        request.now) (forms_of args.now) (named_of opts.now)) }
{
    let arms = all_settled(alloc, request, args)?;
    let _given = options_given(alloc, &request.world, opts)?;
    Ok(arms)
}

fn united_in<V: TableView>(alloc: Global, request: &Held<V>, term: &Term) -> Result<Terms, Fault>
    ensures { Gives (λ list. list) result (united_of (held V.documents V.indexes V.entries
        request.now) (args_of (form_of term.now)) (options_of (form_of term.now))) }
{
    match term {
        Term::Op { op: _, args, opts } => united(alloc, request, args, opts),
        _ => Ok(Terms::new(alloc)),
    }
}

fn alone<V: TableView>(alloc: Global, request: &Held<V>, term: &Term) -> Result<Terms, Fault>
    ensures { Gives (λ list. list) result (alone_of (held V.documents V.indexes V.entries
        request.now) (form_of term.now)) }
{
    let one = feed_settled(alloc, request, term)?;
    let mut list = Terms::with_room(alloc, 1)?;
    list.push(one)?;
    Ok(list)
}

/// The terms that the feeds follow, one for each arm.
pub(crate) fn followed<V: TableView>(
    alloc: Global,
    request: &Held<V>,
    shape: Shape,
    term: &Term,
) -> Result<Terms, Fault>
    ensures { Gives (λ list. list) result (followed_of (held V.documents V.indexes V.entries
        request.now) shape (form_of term.now)) }
{
    match shape {
        Shape::United => united_in(alloc, request, term),
        Shape::Point => alone(alloc, request, term),
        Shape::Range => alone(alloc, request, term),
        Shape::Limit => alone(alloc, request, term),
    }
}
