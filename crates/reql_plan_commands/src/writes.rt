// Writes as the commands that they give.
ghost use Rattle.std.specs.Prelude.{◌≡◌, map};
ghost use Rattle.reql_datum.specs.Outcome.{Gives};
ghost use Rattle.reql_term.specs.Form.{forms_of, named_of};
ghost use Rattle.reql_term.specs.View.{form_of};
ghost use Rattle.reql_operand.specs.Seen.{choice, meant};
ghost use Rattle.reql_plan_spec.specs.Writes.{inserting as inserting_of, prepared as prepared_of, prepared_by as prepared_by_of, act_with as act_with_of, with_keys as with_keys_of};
ghost use Rattle.reql_plan_context.specs.Seen.{held};
ghost use Rattle.reql_plan_commands.specs.Ready.{filling as filling_of, choosing as choosing_of, inserted as inserted_of};

use crate::changes::{deleting, prepare, replacing, updating};
use crate::documents::{docs_in, lacking};
use crate::options::{conflict_option, hard_option, returns_option};
use reql_datum::{Fault, Items};
use reql_operand::{Choice, Value, misplaced};
use reql_plan_context::{Held, first, meant_of, options_given, second, slot_in, target};
use reql_plan_results::key_field;
use reql_plan_spec::Prepared;
use reql_term::{Op, TableView, Term, TermFields, Terms};
use reql_write_spec::{Act, WriteCmd};
use std::alloc::Global;

/// A write that is ready but for the keys that are to be made.
pub fn prepared<V: TableView>(
    alloc: Global,
    request: &Held<V>,
    term: &Term,
) -> Result<Prepared, Fault>
    ensures { Gives (λ p. p) result (prepared_of (held V.documents V.indexes V.entries request.now)
        (form_of term.now)) }
{
    match term {
        Term::Op { op, args, opts } => prepared_by(alloc, request, *op, args, opts),
        _ => Err(Fault::QueryLogic(misplaced(alloc)?)),
    }
}

fn prepared_by<V: TableView>(
    alloc: Global,
    request: &Held<V>,
    op: Op,
    args: &Terms,
    opts: &TermFields,
) -> Result<Prepared, Fault>
    ensures { Gives (λ p. p) result (prepared_by_of
        (held V.documents V.indexes V.entries request.now) op (forms_of args.now)
        (named_of opts.now)) }
{
    match op {
        Op::Insert => inserting(alloc, request, args, opts),
        Op::Update => updating(alloc, request, args, opts),
        Op::Replace => replacing(alloc, request, args, opts),
        Op::Delete => deleting(alloc, request, args, opts),
        _ => Err(Fault::QueryLogic(misplaced(alloc)?)),
    }
}

fn inserting<V: TableView>(
    alloc: Global,
    request: &Held<V>,
    args: &Terms,
    opts: &TermFields,
) -> Result<Prepared, Fault>
    ensures { Gives (λ p. p) result (inserting_of (held V.documents V.indexes V.entries request.now)
        (forms_of args.now) (named_of opts.now)) }
{
    let place = first(alloc, args)?;
    let table = target(alloc, &request.world, place)?;
    let ready = filling(alloc, request, &table, args, opts);
    drop(table);
    ready
}

// An INSERT once its table is found.
fn filling<V: TableView>(
    alloc: Global,
    request: &Held<V>,
    table: &Value,
    args: &Terms,
    opts: &TermFields,
) -> Result<Prepared, Fault>
    ensures { let e = held V.documents V.indexes V.entries request.now in
        Gives (λ p. p) result (filling_of e (meant e.world table.now) (forms_of args.now)
        (named_of opts.now)) }
{
    let given = second(alloc, args)?;
    let value = meant_of(alloc, &request.world, given)?;
    let ready = choosing(alloc, request, table, &value, opts);
    drop(value);
    ready
}

// An INSERT once what it puts in is evaluated.
fn choosing<V: TableView>(
    alloc: Global,
    request: &Held<V>,
    table: &Value,
    value: &Value,
    opts: &TermFields,
) -> Result<Prepared, Fault>
    ensures { let e = held V.documents V.indexes V.entries request.now in
        Gives (λ p. p) result (choosing_of e (meant e.world table.now) (meant e.world value.now)
        (named_of opts.now)) }
{
    let chosen = options_given(alloc, &request.world, opts)?;
    inserted(alloc, request, table, value, &chosen)
}

// An INSERT once its arguments are evaluated.
fn inserted<V: TableView>(
    alloc: Global,
    request: &Held<V>,
    table: &Value,
    value: &Value,
    chosen: &[Choice],
) -> Result<Prepared, Fault>
    ensures { let e = held V.documents V.indexes V.entries request.now in
        Gives (λ p. p) result (inserted_of e (meant e.world table.now) (meant e.world value.now)
        (map (choice e.world) chosen.now)) }
{
    let slot = slot_in(alloc, table)?;
    let docs = docs_in(alloc, &request.world, value)?;
    let conflict = conflict_option(alloc, chosen)?;
    let returns = returns_option(alloc, chosen)?;
    let hard = hard_option(alloc, chosen)?;
    let key = key_field(alloc, &request.names, slot)?;
    let rolls = lacking(key.as_str(), &docs);
    let made = Items::new(alloc);
    let act = Act::Insert {
        docs,
        conflict,
        made,
    };
    Ok(prepare(alloc, request, slot, act, returns, hard, rolls)?)
}

// The act with the keys that were made for its documents.
fn act_with(made: Items, act: Act) -> Act
    ensures { result ≡ act_with_of made act }
{
    match act {
        Act::Insert {
            docs,
            conflict,
            made: _,
        } => Act::Insert {
            docs,
            conflict,
            made,
        },
        Act::Update { rows, change } => Act::Update { rows, change },
        Act::Replace { rows, change } => Act::Replace { rows, change },
        Act::Delete { rows } => Act::Delete { rows },
    }
}

/// The write with the keys that were made for its documents.
pub fn with_keys(made: Items, command: WriteCmd) -> WriteCmd
    ensures { result ≡ with_keys_of made command }
{
    let WriteCmd {
        key,
        act,
        returns,
        hard,
    } = command;
    WriteCmd {
        key,
        act: act_with(made, act),
        returns,
        hard,
    }
}
