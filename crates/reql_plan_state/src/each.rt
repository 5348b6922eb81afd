// The start of a FOR_EACH: its elements, and the writes of its body.
ghost use Rattle.std.specs.Prelude.{◌≡◌, ◌∷◌, [], option_map, IfOk};
ghost use Rattle.reql_term.specs.Form.{forms_of};
ghost use Rattle.reql_term.specs.View.{form_of};
ghost use Rattle.reql_faults.specs.Places.{first, second};
ghost use Rattle.reql_plan_context.specs.Seen.{held};
ghost use Rattle.reql_plan_spec.specs.Course.{for_each, first_id, rounds, writes_of};
ghost use Rattle.reql_plan_spec.specs.Request.{ends, from};
ghost use Rattle.reql_plan_spec.specs.Settled.{sequence_of, there};
ghost use Rattle.reql_plan_spec.specs.Summed.{nothing_done};
ghost use Rattle.reql_plan_state.specs.Rest.{counted, each_rest};
ghost use Rattle.reql_plan_state.specs.Turn.{Turns};

use crate::ending::{lost, refused};
use crate::rounds::next_element;
use crate::stage::{Rounds, Turn};
use reql_datum::{Datum, Items, Memory};
use reql_plan_context::{Held, sequence_of};
use reql_plan_results::nothing_done;
use reql_term::{Params, TableView, Term, Terms};
use std::alloc::Global;

/// FOR_EACH: the writes of its body for each element, each a command of its own.
#[tactic(auto, using(crate::proofs::Firsts::arguments))]
pub fn for_each<V: TableView + Drop>(
    alloc: Global,
    e: Held<V>,
    args: &Terms,
) -> Result<Turn<V>, Memory>
    ensures { let k = held V.documents V.indexes V.entries e in
        Turns V.documents V.indexes V.entries result (for_each k (forms_of args.now) ends) }
{
    match first_term(args) {
        Some(source) => gathered(alloc, e, args, source),
        None => lost(alloc),
    }
}

#[tactic(auto, using(crate::proofs::Firsts::places))]
fn first_term(args: &Terms) -> Option<&Term>
    ensures { option_map (λ t. form_of t.now) result ≡ first (forms_of args.now) }
{
    args.at(0)
}

#[tactic(auto, using(crate::proofs::Firsts::places))]
fn second_term(args: &Terms) -> Option<&Term>
    ensures { option_map (λ t. form_of t.now) result ≡ second (forms_of args.now) }
{
    args.at(1)
}

// The elements.
#[tactic(auto, using(crate::proofs::Turns::turns))]
fn gathered<V: TableView + Drop>(
    alloc: Global,
    e: Held<V>,
    args: &Terms,
    source: &Term,
) -> Result<Turn<V>, Memory>
    ensures { let k = held V.documents V.indexes V.entries e in
        Turns V.documents V.indexes V.entries result
        (from (sequence_of k.world (form_of source.now))
        (λ ds. from (there (second (forms_of args.now))) (each_rest k ds))) }
{
    match sequence_of(alloc, &e.world, source) {
        Ok(elements) => bodied(alloc, e, args, elements),
        Err(why) => refused(why),
    }
}

// The body.
#[tactic(auto, using(crate::proofs::Firsts::arguments))]
fn bodied<V: TableView + Drop>(
    alloc: Global,
    e: Held<V>,
    args: &Terms,
    elements: Items,
) -> Result<Turn<V>, Memory>
    ensures { let k = held V.documents V.indexes V.entries e in
        Turns V.documents V.indexes V.entries result
        (from (there (second (forms_of args.now))) (each_rest k elements)) }
{
    match second_term(args) {
        Some(function) => each_of(alloc, e, function, elements),
        None => lost(alloc),
    }
}

fn each_of<V: TableView + Drop>(
    alloc: Global,
    e: Held<V>,
    function: &Term,
    elements: Items,
) -> Result<Turn<V>, Memory>
    ensures { let k = held V.documents V.indexes V.entries e in
        Turns V.documents V.indexes V.entries result
        (each_rest k elements (form_of function.now)) }
{
    match function {
        Term::Func(params, body) => {
            let writes = writes_of(alloc, body.term())?;
            begun(alloc, e, first_id(params), writes, elements)
        }
        Term::Lit(_) => lost(alloc),
        Term::Arr(_) => lost(alloc),
        Term::Obj(_) => lost(alloc),
        Term::Var(_) => lost(alloc),
        Term::Row => lost(alloc),
        Term::Slot(_) => lost(alloc),
        Term::Op {
            op: _,
            args: _,
            opts: _,
        } => lost(alloc),
    }
}

fn begun<V: TableView + Drop>(
    alloc: Global,
    e: Held<V>,
    id: u64,
    writes: Terms,
    elements: Items,
) -> Result<Turn<V>, Memory>
    ensures { let k = held V.documents V.indexes V.entries e in
        Turns V.documents V.indexes V.entries result
        (rounds k id writes nothing_done elements counted) }
{
    let rounds = Rounds {
        id,
        element: Datum::Null,
        writes,
        next: 0,
        elements,
        place: 0,
        total: nothing_done(alloc),
    };
    next_element(alloc, e, rounds)
}

fn first_id(params: &Params) -> u64
    ensures { result ≡ first_id params.now }
{
    match params.as_slice() {
        [] => 0,
        [first, ..] => *first,
    }
}

// A body that is an array is several writes, any other is one.
#[tactic(auto, using(crate::proofs::Firsts::places))]
fn writes_of(alloc: Global, body: &Term) -> Result<Terms, Memory>
    ensures { IfOk result (λ ws. ws ≡ writes_of (form_of body.now)) }
{
    match body {
        Term::Arr(terms) => terms.copy(),
        Term::Lit(_) => one_write(alloc, body),
        Term::Obj(_) => one_write(alloc, body),
        Term::Var(_) => one_write(alloc, body),
        Term::Row => one_write(alloc, body),
        Term::Func(_, _) => one_write(alloc, body),
        Term::Slot(_) => one_write(alloc, body),
        Term::Op {
            op: _,
            args: _,
            opts: _,
        } => one_write(alloc, body),
    }
}

fn one_write(alloc: Global, write: &Term) -> Result<Terms, Memory>
    ensures { IfOk result (λ ws. ws ≡ form_of write.now ∷ []) }
{
    let mut writes = Terms::new(alloc);
    match writes.push(write.copy()?) {
        Ok(()) => Ok(writes),
        Err(_) => Err(Memory),
    }
}
