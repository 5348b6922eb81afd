// FOR_EACH: the writes of its body for each element, each a command of its own.
ghost use Rattle.std.specs.Prelude.{◌≡◌, ◌+◌, ◌<◌, ◌^◌, drop};
ghost use Rattle.reql_datum.specs.Answer.{Answer};
ghost use Rattle.reql_datum.specs.Outcome.{Gives};
ghost use Rattle.reql_datum.specs.View.{plain};
ghost use Rattle.reql_term.specs.Form.{Form};
ghost use Rattle.reql_term.specs.View.{form_of};
ghost use Rattle.reql_plan_context.specs.Seen.{held};
ghost use Rattle.reql_plan_spec.specs.Course.{round, rounds, write};
ghost use Rattle.reql_plan_spec.specs.Request.{from};
ghost use Rattle.reql_plan_state.specs.Rest.{rest_of_rounds, counted};
ghost use Rattle.reql_plan_state.specs.Turn.{Turns};

use crate::ending::refused;
use crate::stage::{Rounds, Then, Turn};
use crate::writing::{finished, write};
use reql_datum::{Datum, Fault, Memory};
use reql_plan_context::Held;
use reql_reads::with_element;
use reql_table_spec::Summary;
use reql_term::{TableView, Term};
use std::alloc::Global;

// The next write of an element, or the next element.
pub(crate) fn round<V: TableView + Drop>(
    alloc: Global,
    e: Held<V>,
    r: Rounds,
) -> Result<Turn<V>, Memory>
    ensures { let k = held V.documents V.indexes V.entries e in
        Turns V.documents V.indexes V.entries result
        (round k r.id (plain r.element) r.total (drop r.next r.writes)
        (λ t. rounds k r.id r.writes t (drop r.place r.elements) counted)) }
{
    match r.writes.at(r.next) {
        Some(write) => {
            let term = with_element(alloc, r.id, &r.element, write);
            let Rounds {
                id,
                element,
                writes,
                next,
                elements,
                place,
                total,
            } = r;
            let left = Rounds {
                id,
                element,
                writes,
                next: next + 1,
                elements,
                place,
                total,
            };
            placed(alloc, e, term, left)
        }
        None => next_element(alloc, e, r),
    }
}

// A write of an element, where it was put in its place.
#[tactic(auto, using(crate::proofs::Turns::turns))]
fn placed<V: TableView + Drop>(
    alloc: Global,
    e: Held<V>,
    term: Result<Term, Fault>,
    r: Rounds,
) -> Result<Turn<V>, Memory>
    ensures { let k = held V.documents V.indexes V.entries e in
        (meant : Answer Form) → Gives form_of term meant → Turns V.documents V.indexes V.entries result
        (from meant (λ f. write k f (rest_of_rounds k r))) }
{
    match term {
        Ok(term) => write(alloc, e, &term, Then::Each(Box::new(alloc, r)?)),
        Err(why) => refused(why),
    }
}

fn total_of(r: Rounds) -> Summary
    ensures { result ≡ r.total }
{
    let Rounds {
        id: _,
        element: _,
        writes: _,
        next: _,
        elements: _,
        place: _,
        total,
    } = r;
    total
}

// The next element, or the end.
pub(crate) fn next_element<V: TableView + Drop>(
    alloc: Global,
    e: Held<V>,
    r: Rounds,
) -> Result<Turn<V>, Memory>
    ensures { let k = held V.documents V.indexes V.entries e in
        Turns V.documents V.indexes V.entries result
        (rounds k r.id r.writes r.total (drop r.place r.elements) counted) }
{
    match r.elements.at(r.place) {
        Some(element) => {
            let element = element.copy()?;
            begin(alloc, e, r, element)
        }
        None => finished(alloc, total_of(r)),
    }
}

// The first write of an element. Where there is none, no element has one.
#[tactic(auto, using(crate::proofs::Elements::no_writes, crate::proofs::Elements::first_round))]
fn begin<V: TableView + Drop>(
    alloc: Global,
    e: Held<V>,
    r: Rounds,
    element: Datum,
) -> Result<Turn<V>, Memory>
    requires { r.place < 2 ^ 63 }
    ensures { let k = held V.documents V.indexes V.entries e in
        Turns V.documents V.indexes V.entries result
        (round k r.id (plain element) r.total r.writes
        (λ t. rounds k r.id r.writes t (drop (r.place + 1) r.elements) counted)) }
{
    match r.writes.at(0) {
        Some(write) => {
            let term = with_element(alloc, r.id, &element, write);
            let Rounds {
                id,
                element: _,
                writes,
                next: _,
                elements,
                place,
                total,
            } = r;
            let left = Rounds {
                id,
                element,
                writes,
                next: 1,
                elements,
                place: place + 1,
                total,
            };
            placed(alloc, e, term, left)
        }
        None => finished(alloc, total_of(r)),
    }
}
