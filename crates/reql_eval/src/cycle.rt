// What terms give, by what they denote.
ghost use Rattle.std.specs.Prelude.{[], IfOk, map};
ghost use Rattle.std.specs.List.Sorted.{IsStrictlySortedBy};
ghost use Rattle.reql_datum.specs.Members.{text_order};
ghost use Rattle.reql_datum.specs.Outcome.{Gives};
ghost use Rattle.reql_datum.specs.View.{plain};
ghost use Rattle.reql_term.specs.View.{form_of};
ghost use Rattle.reql_value_spec.specs.Lazy.{default};
ghost use Rattle.reql_value_spec.specs.Meaning.{sense, sense_of, called, make_object};
ghost use Rattle.reql_value_spec.specs.Scalars.{make_array};
ghost use Rattle.reql_value_spec.specs.Sense.{value, argument, key_argument, arguments as arguments_of, option, index_option, default_option, options, strict, call_of, calls_of};
ghost use Rattle.reql_value_spec.specs.Sequenced.{array};
ghost use Rattle.reql_operand.specs.Seen.{meant, shown, key, all_shown, all_chosen};
ghost use Rattle.reql_operand.specs.Tables.{seen};
ghost use Rattle.reql_term_analysis.specs.Bound.{bound, listed, optional};
ghost use Rattle.reql_term_analysis.specs.Kinds.{sense_in, given_to};
ghost use Rattle.reql_term_analysis.specs.Ways.{taken_by, chosen, lazy, either};
ghost use Rattle.reql_argument_order.specs.Applied.{applied};
ghost use Rattle.reql_argument_order.specs.Lent.{value_at, taken_at};
ghost use Rattle.reql_eval.specs.Taken.{taking, key_value};

use crate::steps::{out_of_order, parameter, table, variable};
use reql_apply::{Kind, Scalar, kind_of};
use reql_argument_order::{apply_by, arguments, default_to, function_at, lazily};
use reql_datum::{Datum, Fault};
use reql_operand::{Arg, Choice, Key, Value, World, misplaced, wrong_count};
use reql_simple::{found, object_found};
use reql_term::{Op, TableView, Term, TermFields, Way};
use reql_term_analysis::{
    Vars, arg_of, callee, direction, function_in, is_fit, late, object_of, raising, takes_key,
};
use std::alloc::Global;

/// What a term gives in a value position.
#[cycle(eval)]
pub(crate) fn eval_term<V: TableView>(
    alloc: Global,
    term: &Term,
    world: &World<V>,
    vars: &Vars,
) -> Result<Value, Fault>
    ensures { let w = seen V.documents V.indexes V.entries world.now in
        Gives (meant w) result (value (sense (form_of term.now)) w (bound vars.now)) }
{
    world.purse.spend(2)?;
    match term {
        Term::Lit(d) => Ok(Value::One(d.copy()?)),
        Term::Arr(terms) => eval_array(alloc, terms.as_slice(), world, vars),
        Term::Obj(fields) => eval_object(alloc, fields, world, vars),
        Term::Var(id) => variable(alloc, *id, world, vars),
        Term::Row => parameter(alloc, world, vars),
        Term::Func(_, _) => Ok(Value::Function),
        Term::Slot(slot) => table(alloc, *slot, world),
        Term::Op { op, args, opts } => {
            eval_operation(alloc, *op, args.as_slice(), opts, world, vars)
        }
    }
}

// A term that is no part of a simple one, by what it stands for where it is simple.
#[cycle(eval)]
fn eval_simply<V: TableView>(
    alloc: Global,
    term: &Term,
    world: &World<V>,
    vars: &Vars,
) -> Result<Value, Fault>
    ensures { let w = seen V.documents V.indexes V.entries world.now in
        Gives (meant w) result (value (sense (form_of term.now)) w (bound vars.now)) }
{
    match found(term, world.array_limit, &world.purse, vars) {
        Some(x) => Ok(Value::One(x.to_datum()?)),
        None => eval_term(alloc, term, world, vars),
    }
}

// The array of what terms give.
#[cycle(eval)]
fn eval_array<V: TableView>(
    alloc: Global,
    terms: &[Term],
    world: &World<V>,
    vars: &Vars,
) -> Result<Value, Fault>
    ensures { let w = seen V.documents V.indexes V.entries world.now in
        Gives (meant w) result
        (strict (array make_array) (listed terms.now) [] w (bound vars.now)) }
{
    world.purse.spend((terms.len() as u64).saturating_mul(4))?;
    let none = TermFields::new(alloc);
    let kind = Kind::Scalar(Scalar::MakeArray);
    eval_all(alloc, Way::Strict, kind, terms, &none, world, vars)
}

// The object of what terms give, at once where each is simple.
#[cycle(eval)]
fn eval_object<V: TableView>(
    alloc: Global,
    fields: &TermFields,
    world: &World<V>,
    vars: &Vars,
) -> Result<Value, Fault>
    ensures { let w = seen V.documents V.indexes V.entries world.now in
        Gives (meant w) result (make_object (optional fields.now) w (bound vars.now)) }
{
    match object_found(alloc, fields, world.array_limit, &world.purse, vars) {
        Some(result) => result,
        None => {
            let choices = eval_options(alloc, Way::Strict, fields, world, vars)?;
            object_of(alloc, world.array_limit, &choices)
        }
    }
}

// An operator with its arguments.
#[cycle(eval)]
fn eval_operation<V: TableView>(
    alloc: Global,
    op: Op,
    terms: &[Term],
    opts: &TermFields,
    world: &World<V>,
    vars: &Vars,
) -> Result<Value, Fault>
    ensures { let w = seen V.documents V.indexes V.entries world.now in
        Gives (meant w) result
        (value (sense_of op (listed terms.now) (optional opts.now)) w (bound vars.now)) }
{
    if is_fit(op, terms, opts) {
        return eval_by(alloc, op.way(), op, terms, opts, world, vars);
    }
    Err(Fault::QueryLogic(misplaced(alloc)?))
}

// An operator whose counts are right.
#[cycle(eval)]
fn eval_by<V: TableView>(
    alloc: Global,
    way: Way,
    op: Op,
    terms: &[Term],
    opts: &TermFields,
    world: &World<V>,
    vars: &Vars,
) -> Result<Value, Fault>
    ensures { let w = seen V.documents V.indexes V.entries world.now in
        Gives (meant w) result
        (value (sense_in way op (listed terms.now) (optional opts.now)) w (bound vars.now)) }
{
    match way {
        Way::Strict | Way::Sorting | Way::Filtering | Way::Whole | Way::Raising => {
            eval_all(alloc, way, kind_of(op), terms, opts, world, vars)
        }
        Way::UntilTrue | Way::UntilFalse | Way::Branching => {
            eval_lazily(alloc, way, terms, world, vars)
        }
        Way::Defaulting => eval_default(alloc, terms, world, vars),
        Way::Rising | Way::Falling => eval_ordered(alloc, terms, world, vars),
    }
}

// An operator that evaluates all its arguments.
#[cycle(eval)]
#[tactic(auto, unfolding(crate::specs::Taken::taking))]
fn eval_all<V: TableView>(
    alloc: Global,
    way: Way,
    kind: Kind,
    terms: &[Term],
    opts: &TermFields,
    world: &World<V>,
    vars: &Vars,
) -> Result<Value, Fault>
    ensures { let w = seen V.documents V.indexes V.entries world.now in
        Gives (meant w) result
        (taking way kind (listed terms.now) (optional opts.now) w (bound vars.now)) }
{
    let args = eval_args(alloc, way, terms, world, vars)?;
    let choices = eval_options(alloc, way, opts, world, vars)?;
    apply_to(alloc, way, kind, args, &choices, terms, world, vars)
}

// The rule of an operator on what its arguments gave.
#[cycle(eval)]
fn apply_to<V: TableView>(
    alloc: Global,
    way: Way,
    kind: Kind,
    args: Vec<Arg>,
    choices: &[Choice],
    terms: &[Term],
    world: &World<V>,
    vars: &Vars,
) -> Result<Value, Fault>
    ensures { let w = seen V.documents V.indexes V.entries world.now in
        Gives (meant w) result
        (applied way kind w (calls_of (listed terms.now) w (bound vars.now))
        (all_chosen w choices.now) (all_shown w args.items)) }
{
    apply_by(
        alloc,
        way,
        kind,
        args,
        choices,
        world,
        &|at: usize, values: &[Datum]|
            ensures { let w = seen V.documents V.indexes V.entries world.entry.now in
                Gives (meant w) result (calls_of (listed terms.entry.now) w (bound vars.entry.now) at
                (map plain values.now)) }
        { call(alloc, terms, at, values, world, vars) },
    )
}

// The arguments, from left to right.
#[cycle(eval)]
#[tactic(auto, using(reql_term_analysis::proofs::Terms::length_listed))]
fn eval_args<V: TableView>(
    alloc: Global,
    way: Way,
    terms: &[Term],
    world: &World<V>,
    vars: &Vars,
) -> Result<Vec<Arg>, Fault>
    ensures { let w = seen V.documents V.indexes V.entries world.now in
        Gives (λ gs. all_shown w gs.items) result
        (arguments_of (taken_by way) 0 (listed terms.now) w (bound vars.now)) }
{
    arguments(
        alloc,
        terms.len(),
        &|at: usize|
            ensures { let w = seen V.documents V.indexes V.entries world.entry.now in
                Gives (shown w) result
                (taken_at (taken_by way) (listed terms.entry.now) at w (bound vars.entry.now)) }
        { eval_taken_at(alloc, way, terms, at, world, vars) },
    )
}

// The argument at a place.
#[cycle(eval)]
#[tactic(auto, using(reql_term_analysis::proofs::Terms::term_below, reql_term_analysis::proofs::Terms::slot_within, reql_term_analysis::proofs::Terms::slot_past))]
fn eval_taken_at<V: TableView>(
    alloc: Global,
    way: Way,
    terms: &[Term],
    at: usize,
    world: &World<V>,
    vars: &Vars,
) -> Result<Arg, Fault>
    ensures { let w = seen V.documents V.indexes V.entries world.now in
        Gives (shown w) result
        (taken_at (taken_by way) (listed terms.now) at w (bound vars.now)) }
{
    if at < terms.len() {
        return eval_taken(alloc, way, &terms[at], at, world, vars);
    }
    Err(Fault::QueryLogic(misplaced(alloc)?))
}

// A term as the argument at a place.
#[cycle(eval)]
fn eval_taken<V: TableView>(
    alloc: Global,
    way: Way,
    term: &Term,
    at: usize,
    world: &World<V>,
    vars: &Vars,
) -> Result<Arg, Fault>
    ensures { let w = seen V.documents V.indexes V.entries world.now in
        Gives (shown w) result
        (taken_by way at (sense (form_of term.now)) w (bound vars.now)) }
{
    if takes_key(way, at) {
        return eval_key(alloc, term, at, world, vars);
    }
    eval_arg(alloc, term, at, world, vars)
}

// A key of ORDER_BY.
#[cycle(eval)]
#[tactic(auto, using(reql_term_analysis::proofs::Senses::key_under, reql_term_analysis::proofs::Senses::key_here))]
fn eval_key<V: TableView>(
    alloc: Global,
    term: &Term,
    at: usize,
    world: &World<V>,
    vars: &Vars,
) -> Result<Arg, Fault>
    ensures { let w = seen V.documents V.indexes V.entries world.now in
        Gives (shown w) result
        (key_argument at (sense (form_of term.now)) w (bound vars.now)) }
{
    match direction(term) {
        Some((down, inner)) => {
            let key = eval_found(alloc, inner, at, world, vars)?;
            Ok(Arg::Directed { down, key })
        }
        None => eval_arg(alloc, term, at, world, vars),
    }
}

// An argument.
#[cycle(eval)]
fn eval_arg<V: TableView>(
    alloc: Global,
    term: &Term,
    at: usize,
    world: &World<V>,
    vars: &Vars,
) -> Result<Arg, Fault>
    ensures { let w = seen V.documents V.indexes V.entries world.now in
        Gives (shown w) result
        (argument at (sense (form_of term.now)) w (bound vars.now)) }
{
    let found = eval_found(alloc, term, at, world, vars)?;
    Ok(arg_of(found))
}

// A value, or the function that stands at the place.
#[cycle(eval)]
fn eval_found<V: TableView>(
    alloc: Global,
    term: &Term,
    at: usize,
    world: &World<V>,
    vars: &Vars,
) -> Result<Key, Fault>
    ensures { let w = seen V.documents V.indexes V.entries world.now in
        Gives (key w) result
        (argument at (sense (form_of term.now)) w (bound vars.now)) }
{
    match function_at(term, at) {
        Some(key) => Ok(key),
        None => {
            let value = eval_term(alloc, term, world, vars)?;
            Ok(Key::Value(value))
        }
    }
}

// The optional arguments, by rising name.
#[cycle(eval)]
#[tactic(auto, using(crate::proofs::Terms::named_rest))]
fn eval_options<V: TableView>(
    alloc: Global,
    way: Way,
    opts: &TermFields,
    world: &World<V>,
    vars: &Vars,
) -> Result<Vec<Choice>, Fault>
    ensures given { let w = seen V.documents V.indexes V.entries world.now in
        Gives (λ os. all_chosen w os.items) result
        (options (chosen way) (optional opts.now) w (bound vars.now)) }
    ensures rising { IfOk result (λ os. IsStrictlySortedBy text_order (map (λ o. o.name) os.items)) }
{
    let mut found = Vec::new(alloc);
    let mut place = 0;
    while let Some((name, term)) = opts.at(place) {
        let name = name.copy()?;
        let arg = eval_chosen(alloc, way, term, world, vars)?;
        found.push(Choice { name, arg })?;
        place += 1;
    }
    Ok(found)
}

// An optional argument.
#[cycle(eval)]
fn eval_chosen<V: TableView>(
    alloc: Global,
    way: Way,
    term: &Term,
    world: &World<V>,
    vars: &Vars,
) -> Result<Arg, Fault>
    ensures { let w = seen V.documents V.indexes V.entries world.now in
        Gives (shown w) result
        (chosen way (sense (form_of term.now)) w (bound vars.now)) }
{
    match way {
        Way::Sorting => eval_index(alloc, term, world, vars),
        Way::Filtering => eval_late(alloc, term, world, vars),
        _ => eval_option(alloc, term, world, vars),
    }
}

// The `index` of ORDER_BY.
#[cycle(eval)]
#[tactic(auto, using(reql_term_analysis::proofs::Senses::index_under, reql_term_analysis::proofs::Senses::index_here))]
fn eval_index<V: TableView>(
    alloc: Global,
    term: &Term,
    world: &World<V>,
    vars: &Vars,
) -> Result<Arg, Fault>
    ensures { let w = seen V.documents V.indexes V.entries world.now in
        Gives (shown w) result
        (index_option (sense (form_of term.now)) w (bound vars.now)) }
{
    match direction(term) {
        Some((down, inner)) => {
            let value = eval_term(alloc, inner, world, vars)?;
            let key = Key::Value(value);
            Ok(Arg::Directed { down, key })
        }
        None => eval_option(alloc, term, world, vars),
    }
}

// The `default` of FILTER.
#[cycle(eval)]
#[tactic(auto, using(reql_term_analysis::proofs::Senses::late_under, reql_term_analysis::proofs::Senses::late_here))]
fn eval_late<V: TableView>(
    alloc: Global,
    term: &Term,
    world: &World<V>,
    vars: &Vars,
) -> Result<Arg, Fault>
    ensures { let w = seen V.documents V.indexes V.entries world.now in
        Gives (shown w) result
        (default_option (sense (form_of term.now)) w (bound vars.now)) }
{
    match raising(term) {
        Some(texted) => late(texted, eval_term(alloc, term, world, vars)),
        None => eval_option(alloc, term, world, vars),
    }
}

// An optional argument that is a value.
#[cycle(eval)]
fn eval_option<V: TableView>(
    alloc: Global,
    term: &Term,
    world: &World<V>,
    vars: &Vars,
) -> Result<Arg, Fault>
    ensures { let w = seen V.documents V.indexes V.entries world.now in
        Gives (shown w) result
        (option (sense (form_of term.now)) w (bound vars.now)) }
{
    let value = eval_simply(alloc, term, world, vars)?;
    Ok(Arg::Value(value))
}

// The function at a place called.
#[cycle(eval)]
#[tactic(auto, using(reql_term_analysis::proofs::Terms::term_below, reql_term_analysis::proofs::Terms::slot_within, reql_term_analysis::proofs::Terms::slot_past))]
fn call<V: TableView>(
    alloc: Global,
    terms: &[Term],
    at: usize,
    values: &[Datum],
    world: &World<V>,
    vars: &Vars,
) -> Result<Value, Fault>
    ensures { let w = seen V.documents V.indexes V.entries world.now in
        Gives (meant w) result
        (calls_of (listed terms.now) w (bound vars.now) at (map plain values.now)) }
{
    if at < terms.len() {
        return call_term(alloc, &terms[at], values, world, vars);
    }
    Err(Fault::QueryLogic(misplaced(alloc)?))
}

// A function called; nothing else is.
#[cycle(eval)]
#[tactic(auto, using(reql_term_analysis::proofs::Senses::call_function, reql_term_analysis::proofs::Senses::call_other))]
fn call_term<V: TableView>(
    alloc: Global,
    term: &Term,
    values: &[Datum],
    world: &World<V>,
    vars: &Vars,
) -> Result<Value, Fault>
    ensures { let w = seen V.documents V.indexes V.entries world.now in
        Gives (meant w) result
        (call_of (sense (form_of term.now)) w (bound vars.now) (map plain values.now)) }
{
    match callee(term) {
        Some((params, body)) => {
            call_body(alloc, params.as_slice(), body.term(), values, world, vars)
        }
        None => Err(Fault::QueryLogic(misplaced(alloc)?)),
    }
}

// A body called with as many values as there are parameters.
#[cycle(eval)]
#[tactic(auto, using(reql_term_analysis::proofs::Frames::bind_fits, reql_term_analysis::proofs::Frames::bind_differs))]
fn call_body<V: TableView>(
    alloc: Global,
    ids: &[u64],
    body: &Term,
    values: &[Datum],
    world: &World<V>,
    vars: &Vars,
) -> Result<Value, Fault>
    ensures { let w = seen V.documents V.indexes V.entries world.now in
        Gives (meant w) result
        (called ids.now (sense (form_of body.now)) w (bound vars.now) (map plain values.now)) }
{
    world.purse.spend(6)?;
    if ids.len() == values.len() {
        let inner = Vars::Frame {
            ids,
            values,
            up: vars,
        };
        return eval_simply(alloc, body, world, &inner);
    }
    Err(Fault::QueryLogic(wrong_count(alloc, ids.len(), values.len())?))
}

/// What a function gives on values, or what another term gives.
#[cycle(eval)]
#[tactic(auto, using(reql_term_analysis::proofs::Senses::given_function, reql_term_analysis::proofs::Senses::given_other))]
pub(crate) fn give_to<V: TableView>(
    alloc: Global,
    term: &Term,
    values: &[Datum],
    world: &World<V>,
    vars: &Vars,
) -> Result<Value, Fault>
    ensures { let w = seen V.documents V.indexes V.entries world.now in
        Gives (meant w) result
        (given_to (sense (form_of term.now)) w (bound vars.now) (map plain values.now)) }
{
    match function_in(term) {
        Some((params, body)) => {
            call_body(alloc, params.as_slice(), body.term(), values, world, vars)
        }
        None => eval_term(alloc, term, world, vars),
    }
}

// ASC and DESC in a value position.
#[cycle(eval)]
#[tactic(auto, using(reql_term_analysis::proofs::Terms::term_below))]
fn eval_ordered<V: TableView>(
    alloc: Global,
    terms: &[Term],
    world: &World<V>,
    vars: &Vars,
) -> Result<Value, Fault>
    ensures { let w = seen V.documents V.indexes V.entries world.now in
        Gives (meant w) result (key_value (listed terms.now) w (bound vars.now)) }
{
    match terms {
        [] => Err(Fault::QueryLogic(misplaced(alloc)?)),
        [first, ..] => out_of_order(alloc, eval_term(alloc, first, world, vars)),
    }
}

// AND, OR and BRANCH.
#[cycle(eval)]
#[tactic(auto, using(reql_term_analysis::proofs::Terms::length_listed))]
fn eval_lazily<V: TableView>(
    alloc: Global,
    way: Way,
    terms: &[Term],
    world: &World<V>,
    vars: &Vars,
) -> Result<Value, Fault>
    ensures { let w = seen V.documents V.indexes V.entries world.now in
        Gives (meant w) result (lazy way (listed terms.now) w (bound vars.now)) }
{
    lazily(
        alloc,
        world.array_limit,
        way,
        terms.len(),
        &|at: usize|
            ensures { let w = seen V.documents V.indexes V.entries world.entry.now in
                Gives (meant w) result
                (value_at (listed terms.entry.now) at w (bound vars.entry.now)) }
        { eval_at(alloc, terms, at, world, vars) },
    )
}

// The value of the term at a place.
#[cycle(eval)]
#[tactic(auto, using(reql_term_analysis::proofs::Terms::term_below, reql_term_analysis::proofs::Terms::slot_within, reql_term_analysis::proofs::Terms::slot_past))]
fn eval_at<V: TableView>(
    alloc: Global,
    terms: &[Term],
    at: usize,
    world: &World<V>,
    vars: &Vars,
) -> Result<Value, Fault>
    ensures { let w = seen V.documents V.indexes V.entries world.now in
        Gives (meant w) result (value_at (listed terms.now) at w (bound vars.now)) }
{
    if at < terms.len() {
        return eval_term(alloc, &terms[at], world, vars);
    }
    Err(Fault::QueryLogic(misplaced(alloc)?))
}

// DEFAULT.
#[cycle(eval)]
#[tactic(auto, using(reql_term_analysis::proofs::Terms::two_below))]
fn eval_default<V: TableView>(
    alloc: Global,
    terms: &[Term],
    world: &World<V>,
    vars: &Vars,
) -> Result<Value, Fault>
    ensures { let w = seen V.documents V.indexes V.entries world.now in
        Gives (meant w) result (default (listed terms.now) w (bound vars.now)) }
{
    match terms {
        [first, second] => eval_either(alloc, first, second, world, vars),
        _ => Err(Fault::QueryLogic(misplaced(alloc)?)),
    }
}

// The first, or the second, which is told what is missing.
#[cycle(eval)]
fn eval_either<V: TableView>(
    alloc: Global,
    first: &Term,
    second: &Term,
    world: &World<V>,
    vars: &Vars,
) -> Result<Value, Fault>
    ensures { let w = seen V.documents V.indexes V.entries world.now in
        Gives (meant w) result
        (either (sense (form_of first.now)) (sense (form_of second.now)) w (bound vars.now)) }
{
    let found = eval_term(alloc, first, world, vars);
    default_to(
        alloc,
        world.array_limit,
        found,
        &|values: &[Datum]|
            ensures { let w = seen V.documents V.indexes V.entries world.entry.now in
                Gives (meant w) result
                (given_to (sense (form_of second.entry.now)) w (bound vars.entry.now)
                (map plain values.now)) }
        { give_to(alloc, second, values, world, vars) },
    )
}
