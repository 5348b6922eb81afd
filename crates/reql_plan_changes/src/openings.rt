// The requests of feeds, one for each arm.
ghost use Rattle.std.specs.Prelude.{◌≡◌, ◌∷◌, [], IfOk, map};
ghost use Rattle.reql_datum.specs.Outcome.{Gives};
ghost use Rattle.reql_term.specs.Form.{forms_of};
ghost use Rattle.reql_term.specs.View.{form_of};
ghost use Rattle.reql_faults.specs.declared.shape.Shape.TheVariants as shapes;
ghost use Rattle.reql_plan_spec.specs.Feeding.{opening as opening_of, range_opening as range_opening_of, range_openings as range_openings_of, limit_opening as limit_opening_of, openings as openings_of};
ghost use Rattle.reql_plan_context.specs.Seen.{held};
ghost use Rattle.reql_plan_results.specs.Seen.{told};
ghost use Rattle.reql_plan_changes.specs.Followed.{limit_over as limit_over_of};

use crate::counts::count_in;
use crate::index::shape_index;
use crate::orders::limit_index;
use reql_datum::{Fault, Memory, Name};
use reql_faults::Shape;
use reql_feed_spec::FeedKind;
use reql_operand::misplaced;
use reql_plan_context::{Held, first, second};
use reql_plan_results::{Told, key_field};
use reql_plan_spec::Opening;
use reql_reads::first_slot;
use reql_table_spec::FeedSpec;
use reql_term::{Body, TableView, Term, Terms};
use std::alloc::Global;

// A feed that is to be opened.
fn opening<V: TableView>(
    alloc: Global,
    request: &Held<V>,
    options: Told,
    term: &Term,
    index: Option<Name>,
    kind: FeedKind,
) -> Result<Opening, Memory>
    ensures { IfOk result (λ o. o ≡ opening_of (held V.documents V.indexes V.entries request.now)
        (told options) (form_of term.now) index kind) }
{
    let slot = first_slot(alloc, term)?;
    let key = key_field(alloc, &request.names, slot)?;
    let shape = Body::new(alloc, term.copy()?)?;
    Ok(Opening {
        slot,
        spec: FeedSpec {
            key,
            shape,
            index,
            kind,
            size: options.size,
            offsets: options.offsets,
            types: options.types,
            squash: options.squash,
        },
    })
}

fn range_opening<V: TableView>(
    alloc: Global,
    request: &Held<V>,
    options: Told,
    term: &Term,
) -> Result<Opening, Fault>
    ensures { Gives (λ o. o) result (range_opening_of (held V.documents V.indexes V.entries
        request.now) (told options) (form_of term.now)) }
{
    let index = shape_index(alloc, term)?;
    Ok(opening(alloc, request, options, term, index, FeedKind::Range)?)
}

fn range_openings<V: TableView>(
    alloc: Global,
    request: &Held<V>,
    options: Told,
    terms: &[Term],
) -> Result<Vec<Opening>, Fault>
    ensures { Gives (λ os. os.items) result (range_openings_of (held V.documents V.indexes
        V.entries request.now) (told options) (map form_of terms.now)) }
{
    let mut list = Vec::new(alloc);
    for term in terms {
        let one = range_opening(alloc, request, options, term)?;
        list.push(one)?;
    }
    Ok(list)
}

// A limit feed over an order, with so many rows at most.
fn limit_over<V: TableView>(
    alloc: Global,
    request: &Held<V>,
    options: Told,
    term: &Term,
    args: &Terms,
) -> Result<Opening, Fault>
    ensures { Gives (λ o. o) result (limit_over_of (held V.documents V.indexes V.entries
        request.now) (told options) (form_of term.now) (forms_of args.now)) }
{
    let order = first(alloc, args)?;
    let name = limit_index(alloc, request, order)?;
    let count = second(alloc, args)?;
    let most = count_in(alloc, count)?;
    let kind = FeedKind::Limit(most);
    Ok(opening(alloc, request, options, term, Some(name), kind)?)
}

fn limit_opening<V: TableView>(
    alloc: Global,
    request: &Held<V>,
    options: Told,
    term: &Term,
) -> Result<Opening, Fault>
    ensures { Gives (λ o. o) result (limit_opening_of (held V.documents V.indexes V.entries
        request.now) (told options) (form_of term.now)) }
{
    match term {
        Term::Op {
            op: _,
            args,
            opts: _,
        } => limit_over(alloc, request, options, term, args),
        _ => Err(Fault::QueryLogic(misplaced(alloc)?)),
    }
}

// The one opening as a list.
fn only(alloc: Global, one: Opening) -> Result<Vec<Opening>, Memory>
    ensures { IfOk result (λ os. os.items ≡ one ∷ []) }
{
    let mut list = Vec::new(alloc);
    list.push(one)?;
    Ok(list)
}

fn point_openings<V: TableView>(
    alloc: Global,
    request: &Held<V>,
    options: Told,
    terms: &[Term],
) -> Result<Vec<Opening>, Fault>
    ensures { Gives (λ os. os.items) result (openings_of (held V.documents V.indexes
        V.entries request.now) (told options) shapes.Point (map form_of terms.now)) }
{
    match terms {
        [term] => {
            let one = opening(alloc, request, options, term, None, FeedKind::Point)?;
            Ok(only(alloc, one)?)
        }
        [] => range_openings(alloc, request, options, terms),
        [_, _, ..] => range_openings(alloc, request, options, terms),
    }
}

fn limit_openings<V: TableView>(
    alloc: Global,
    request: &Held<V>,
    options: Told,
    terms: &[Term],
) -> Result<Vec<Opening>, Fault>
    ensures { Gives (λ os. os.items) result (openings_of (held V.documents V.indexes
        V.entries request.now) (told options) shapes.Limit (map form_of terms.now)) }
{
    match terms {
        [term] => {
            let one = limit_opening(alloc, request, options, term)?;
            Ok(only(alloc, one)?)
        }
        [] => range_openings(alloc, request, options, terms),
        [_, _, ..] => range_openings(alloc, request, options, terms),
    }
}

/// The requests of the feeds of a shape, one for each arm.
pub(crate) fn openings<V: TableView>(
    alloc: Global,
    request: &Held<V>,
    options: Told,
    shape: Shape,
    terms: &Terms,
) -> Result<Vec<Opening>, Fault>
    ensures { Gives (λ os. os.items) result (openings_of (held V.documents V.indexes
        V.entries request.now) (told options) shape terms.now) }
{
    match shape {
        Shape::Point => point_openings(alloc, request, options, terms.as_slice()),
        Shape::Limit => limit_openings(alloc, request, options, terms.as_slice()),
        Shape::Range => range_openings(alloc, request, options, terms.as_slice()),
        Shape::United => range_openings(alloc, request, options, terms.as_slice()),
    }
}
