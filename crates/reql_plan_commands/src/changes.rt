// Writes of rows: UPDATE, REPLACE and DELETE.
ghost use Rattle.std.specs.Prelude.{◌≡◌, IfOk};
ghost use Rattle.reql_datum.specs.Outcome.{Gives};
ghost use Rattle.reql_term.specs.Form.{forms_of, named_of};
ghost use Rattle.reql_term.specs.View.{form_of};
ghost use Rattle.reql_faults.specs.Places.{first as first_of};
ghost use Rattle.reql_write_spec.specs.declared.command.Act.TheVariants as act;
ghost use Rattle.reql_plan_spec.specs.Writes.{prepare as prepare_of, rows_in as rows_in_of, changing as changing_of, deleting as deleting_of};
ghost use Rattle.reql_plan_context.specs.Seen.{held};
ghost use Rattle.reql_plan_commands.specs.Ready.{changed as changed_of};

use crate::options::{hard_option, returns_option};
use crate::texts::no_selection;
use reql_datum::{Fault, Memory};
use reql_plan_context::{Held, NoTest, argument, first, options_given, second, settled};
use reql_plan_results::key_field;
use reql_plan_spec::Prepared;
use reql_reads::{first_slot, is_chain};
use reql_term::{Body, TableView, Term, TermFields, Terms};
use reql_write_spec::{Act, Returns, WriteCmd};
use std::alloc::Global;

/// A write that is ready for a slot.
pub(crate) fn prepare<V: TableView>(
    alloc: Global,
    request: &Held<V>,
    slot: u32,
    act: Act,
    returns: Returns,
    hard: bool,
    rolls: u64,
) -> Result<Prepared, Memory>
    ensures { IfOk result (λ p. p ≡ prepare_of (held V.documents V.indexes V.entries request.now)
        slot act returns hard rolls) }
{
    let key = key_field(alloc, &request.names, slot)?;
    Ok(Prepared {
        slot,
        cmd: WriteCmd {
            key,
            act,
            returns,
            hard,
        },
        rolls,
    })
}

// The rows of a write, which are refused where they are no selection.
fn rows_in<'a, V: TableView>(
    alloc: Global,
    _request: &Held<V>,
    args: &'a Terms,
) -> Result<&'a Term, Fault>
    ensures { Gives (λ t. form_of t.now) result
        (rows_in_of (held V.documents V.indexes V.entries _request.now)
        (first_of (forms_of args.now))) }
{
    let rows = first(alloc, args)?;
    if is_chain(rows) {
        return Ok(rows);
    }
    Err(Fault::QueryLogic(no_selection(alloc)?))
}

// A write of rows with its options.
fn changed<V: TableView>(
    alloc: Global,
    request: &Held<V>,
    slot: u32,
    act: Act,
    opts: &TermFields,
) -> Result<Prepared, Fault>
    ensures { Gives (λ p. p) result (changed_of (held V.documents V.indexes V.entries request.now)
        slot act (named_of opts.now)) }
{
    let given = options_given(alloc, &request.world, opts)?;
    let returns = returns_option(alloc, &given)?;
    let hard = hard_option(alloc, &given)?;
    Ok(prepare(alloc, request, slot, act, returns, hard, 0)?)
}

/// UPDATE of rows.
pub(crate) fn updating<V: TableView>(
    alloc: Global,
    request: &Held<V>,
    args: &Terms,
    opts: &TermFields,
) -> Result<Prepared, Fault>
    ensures { Gives (λ p. p) result (changing_of (held V.documents V.indexes V.entries request.now)
        act.Update (forms_of args.now) (named_of opts.now)) }
{
    let found = rows_in(alloc, request, args)?;
    let slot = first_slot(alloc, found)?;
    let rows = settled(alloc, &NoTest, &request.world, found)?;
    let rows = Body::new(alloc, rows)?;
    let given = second(alloc, args)?;
    let change = argument(alloc, &request.world, given)?;
    let change = Body::new(alloc, change)?;
    changed(alloc, request, slot, Act::Update { rows, change }, opts)
}

/// REPLACE of rows.
pub(crate) fn replacing<V: TableView>(
    alloc: Global,
    request: &Held<V>,
    args: &Terms,
    opts: &TermFields,
) -> Result<Prepared, Fault>
    ensures { Gives (λ p. p) result (changing_of (held V.documents V.indexes V.entries request.now)
        act.Replace (forms_of args.now) (named_of opts.now)) }
{
    let found = rows_in(alloc, request, args)?;
    let slot = first_slot(alloc, found)?;
    let rows = settled(alloc, &NoTest, &request.world, found)?;
    let rows = Body::new(alloc, rows)?;
    let given = second(alloc, args)?;
    let change = argument(alloc, &request.world, given)?;
    let change = Body::new(alloc, change)?;
    changed(alloc, request, slot, Act::Replace { rows, change }, opts)
}

/// DELETE of rows.
pub(crate) fn deleting<V: TableView>(
    alloc: Global,
    request: &Held<V>,
    args: &Terms,
    opts: &TermFields,
) -> Result<Prepared, Fault>
    ensures { Gives (λ p. p) result (deleting_of (held V.documents V.indexes V.entries request.now)
        (forms_of args.now) (named_of opts.now)) }
{
    let found = rows_in(alloc, request, args)?;
    let slot = first_slot(alloc, found)?;
    let rows = settled(alloc, &NoTest, &request.world, found)?;
    let rows = Body::new(alloc, rows)?;
    changed(alloc, request, slot, Act::Delete { rows }, opts)
}
