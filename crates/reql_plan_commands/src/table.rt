// Commands on a table's indexes, and SYNC.
ghost use Rattle.std.specs.Prelude.{◌≡◌, map};
ghost use Rattle.reql_datum.specs.Outcome.{Gives};
ghost use Rattle.reql_term.specs.Form.{forms_of, named_of};
ghost use Rattle.reql_faults.specs.Places.{second as second_of};
ghost use Rattle.reql_operand.specs.Seen.{choice, meant};
ghost use Rattle.reql_operand.specs.Tables.{seen};
ghost use Rattle.reql_plan_spec.specs.Commands.{name_at as name_at_of, times as times_of, creating_index as creating_index_of, dropping_index as dropping_index_of, renaming_index as renaming_index_of, syncing as syncing_of, table_command as table_command_of, cmd_of as cmd_of_command};
ghost use Rattle.reql_plan_context.specs.Seen.{held};
ghost use Rattle.reql_plan_commands.specs.Commands.{created as created_of, indexing as indexing_of, dropped as dropped_of, renamed as renamed_of, renaming as renaming_of, synced};

use crate::indexes::index_function;
use crate::names::{fresh, name_at, ruled};
use reql_datum::{Fault, Name};
use reql_operand::{Choice, Value, World, misplaced, same_text};
use reql_plan_context::{
    Held, first, options_given, second_at, slot_in, target, third_at, truth_option,
};
use reql_plan_results::key_field;
use reql_plan_spec::{Commanded, TableCmd};
use reql_table_spec::Cmd;
use reql_term::{Body, IndexDef, Op, TableView, TermFields, Terms};
use std::alloc::Global;

fn created<V: TableView>(
    alloc: Global,
    request: &Held<V>,
    table: &Value,
    name: &str,
    func: Body,
    given: &[Choice],
) -> Result<Commanded, Fault>
    ensures { let e = held V.documents V.indexes V.entries request.now in
        Gives (λ c. c) result (created_of e (meant e.world table.now) name.now func
        (map (choice e.world) given.now)) }
{
    let slot = slot_in(alloc, table)?;
    ruled(alloc, name)?;
    let key = key_field(alloc, &request.names, slot)?;
    fresh(alloc, key.as_str(), name)?;
    let multi = truth_option(alloc, "multi", given)?;
    let label = Name::of(alloc, "created")?;
    let present = Name::of(alloc, name)?;
    let missing = Name::of(alloc, "")?;
    let name = Name::of(alloc, name)?;
    Ok(Commanded {
        slot,
        cmd: TableCmd::IndexCreate(IndexDef { name, func, multi }),
        label,
        count: 1,
        present,
        missing,
    })
}

// INDEX_CREATE on a table.
fn indexing<V: TableView>(
    alloc: Global,
    request: &Held<V>,
    table: &Value,
    args: &Terms,
    opts: &TermFields,
) -> Result<Commanded, Fault>
    ensures { let e = held V.documents V.indexes V.entries request.now in
        Gives (λ c. c) result (indexing_of e (meant e.world table.now) (forms_of args.now)
        (named_of opts.now)) }
{
    let name = name_at(second_at(args));
    let func = index_function(alloc, &request.world, name, third_at(args))?;
    let given = options_given(alloc, &request.world, opts)?;
    created(alloc, request, table, name, func, &given)
}

fn creating_index<V: TableView>(
    alloc: Global,
    request: &Held<V>,
    args: &Terms,
    opts: &TermFields,
) -> Result<Commanded, Fault>
    ensures { Gives (λ c. c) result (creating_index_of (held V.documents V.indexes V.entries
        request.now) (forms_of args.now) (named_of opts.now)) }
{
    let place = first(alloc, args)?;
    let table = target(alloc, &request.world, place)?;
    let command = indexing(alloc, request, &table, args, opts);
    drop(table);
    command
}

// INDEX_DROP on a table.
fn dropped<V: TableView>(
    alloc: Global,
    _world: &World<V>,
    table: &Value,
    args: &Terms,
) -> Result<Commanded, Fault>
    ensures { Gives (λ c. c) result (dropped_of (meant
        (seen V.documents V.indexes V.entries _world.now) table.now)
        (name_at_of (second_of (forms_of args.now)))) }
{
    let slot = slot_in(alloc, table)?;
    let name = name_at(second_at(args));
    ruled(alloc, name)?;
    let label = Name::of(alloc, "dropped")?;
    let present = Name::of(alloc, "")?;
    let missing = Name::of(alloc, name)?;
    let name = Name::of(alloc, name)?;
    Ok(Commanded {
        slot,
        cmd: TableCmd::IndexDrop(name),
        label,
        count: 1,
        present,
        missing,
    })
}

fn dropping_index<V: TableView>(
    alloc: Global,
    request: &Held<V>,
    args: &Terms,
) -> Result<Commanded, Fault>
    ensures { Gives (λ c. c) result (dropping_index_of (held V.documents V.indexes V.entries
        request.now) (forms_of args.now)) }
{
    let place = first(alloc, args)?;
    let table = target(alloc, &request.world, place)?;
    let command = dropped(alloc, &request.world, &table, args);
    drop(table);
    command
}

// How many names change.
fn times(same: bool) -> u64
    ensures { result ≡ times_of same }
{
    if same {
        return 0;
    }
    1
}

fn renamed<V: TableView>(
    alloc: Global,
    request: &Held<V>,
    table: &Value,
    old: &str,
    new: &str,
    given: &[Choice],
) -> Result<Commanded, Fault>
    ensures { let e = held V.documents V.indexes V.entries request.now in
        Gives (λ c. c) result (renamed_of e (meant e.world table.now) old.now new.now
        (map (choice e.world) given.now)) }
{
    let slot = slot_in(alloc, table)?;
    ruled(alloc, old)?;
    ruled(alloc, new)?;
    let key = key_field(alloc, &request.names, slot)?;
    fresh(alloc, key.as_str(), new)?;
    let overwrite = truth_option(alloc, "overwrite", given)?;
    let count = times(same_text(old, new));
    let label = Name::of(alloc, "renamed")?;
    let present = Name::of(alloc, new)?;
    let missing = Name::of(alloc, old)?;
    let old = Name::of(alloc, old)?;
    let new = Name::of(alloc, new)?;
    Ok(Commanded {
        slot,
        cmd: TableCmd::IndexRename {
            old,
            new,
            overwrite,
        },
        label,
        count,
        present,
        missing,
    })
}

// INDEX_RENAME on a table.
fn renaming<V: TableView>(
    alloc: Global,
    request: &Held<V>,
    table: &Value,
    args: &Terms,
    opts: &TermFields,
) -> Result<Commanded, Fault>
    ensures { let e = held V.documents V.indexes V.entries request.now in
        Gives (λ c. c) result (renaming_of e (meant e.world table.now) (forms_of args.now)
        (named_of opts.now)) }
{
    let given = options_given(alloc, &request.world, opts)?;
    let old = name_at(second_at(args));
    let new = name_at(third_at(args));
    renamed(alloc, request, table, old, new, &given)
}

fn renaming_index<V: TableView>(
    alloc: Global,
    request: &Held<V>,
    args: &Terms,
    opts: &TermFields,
) -> Result<Commanded, Fault>
    ensures { Gives (λ c. c) result (renaming_index_of (held V.documents V.indexes V.entries
        request.now) (forms_of args.now) (named_of opts.now)) }
{
    let place = first(alloc, args)?;
    let table = target(alloc, &request.world, place)?;
    let command = renaming(alloc, request, &table, args, opts);
    drop(table);
    command
}

// SYNC of a table.
fn sync_of<V: TableView>(
    alloc: Global,
    _world: &World<V>,
    table: &Value,
) -> Result<Commanded, Fault>
    ensures { Gives (λ c. c) result (synced (meant
        (seen V.documents V.indexes V.entries _world.now) table.now)) }
{
    let slot = slot_in(alloc, table)?;
    let label = Name::of(alloc, "synced")?;
    let present = Name::of(alloc, "")?;
    let missing = Name::of(alloc, "")?;
    Ok(Commanded {
        slot,
        cmd: TableCmd::Sync,
        label,
        count: 1,
        present,
        missing,
    })
}

fn syncing<V: TableView>(alloc: Global, request: &Held<V>, args: &Terms) -> Result<Commanded, Fault>
    ensures { Gives (λ c. c) result (syncing_of (held V.documents V.indexes V.entries request.now)
        (forms_of args.now)) }
{
    let place = first(alloc, args)?;
    let table = target(alloc, &request.world, place)?;
    let command = sync_of(alloc, &request.world, &table);
    drop(table);
    command
}

/// The command on a table that an operator gives with its arguments.
pub fn table_command<V: TableView>(
    alloc: Global,
    request: &Held<V>,
    op: Op,
    args: &Terms,
    opts: &TermFields,
) -> Result<Commanded, Fault>
    ensures { Gives (λ c. c) result (table_command_of (held V.documents V.indexes V.entries
        request.now) op (forms_of args.now) (named_of opts.now)) }
{
    match op {
        Op::IndexCreate => creating_index(alloc, request, args, opts),
        Op::IndexDrop => dropping_index(alloc, request, args),
        Op::IndexRename => renaming_index(alloc, request, args, opts),
        Op::Sync => syncing(alloc, request, args),
        _ => Err(Fault::QueryLogic(misplaced(alloc)?)),
    }
}

/// Such a command as a table is given it.
pub fn cmd_of(command: TableCmd) -> Cmd
    ensures { result ≡ cmd_of_command command }
{
    match command {
        TableCmd::IndexCreate(index) => Cmd::IndexCreate(index),
        TableCmd::IndexDrop(name) => Cmd::IndexDrop(name),
        TableCmd::IndexRename {
            old,
            new,
            overwrite,
        } => Cmd::IndexRename {
            old,
            new,
            overwrite,
        },
        TableCmd::Sync => Cmd::Sync,
    }
}
