// Commands on names.
ghost use Rattle.std.specs.Prelude.{◌≡◌, IfOk};
ghost use Rattle.reql_datum.specs.Outcome.{Gives};
ghost use Rattle.reql_term.specs.Form.{forms_of, named_of};
ghost use Rattle.reql_plan_spec.specs.Commands.{key_option as key_option_of, cat_command as cat_command_of};
ghost use Rattle.reql_plan_context.specs.Seen.{held};
ghost use Rattle.reql_plan_commands.specs.Commands.{creating_table};

use crate::names::literal_text;
use crate::options::hard_option;
use reql_catalog::CatCmd;
use reql_datum::{Fault, Memory, Name};
use reql_naming::{first_name, pair_of};
use reql_operand::misplaced;
use reql_plan_context::{Held, option_at, options_given};
use reql_term::{Op, TableView, TermFields, Terms};
use std::alloc::Global;

// The name of the primary key field that is asked for.
fn key_option(alloc: Global, opts: &TermFields) -> Result<Name, Memory>
    ensures { IfOk result (λ name. name ≡ key_option_of (named_of opts.now)) }
{
    match literal_text(option_at(opts, "primary_key")) {
        Some(name) => name.copy(),
        None => Name::of(alloc, "id"),
    }
}

// A command that makes a table, once its options are looked at.
fn creating<V: TableView>(
    alloc: Global,
    request: &Held<V>,
    args: &Terms,
    opts: &TermFields,
) -> Result<CatCmd, Fault>
    ensures { Gives (λ c. c) result (creating_table (held V.documents V.indexes V.entries
        request.now) (forms_of args.now) (named_of opts.now)) }
{
    let given = options_given(alloc, &request.world, opts)?;
    let _hard = hard_option(alloc, &given)?;
    let pair = pair_of(request.db.as_str(), args);
    Ok(CatCmd::TableCreate {
        db: Name::of(alloc, pair.db)?,
        table: Name::of(alloc, pair.table)?,
        key: key_option(alloc, opts)?,
    })
}

/// The command on names that an operator gives with its arguments.
pub fn cat_command<V: TableView>(
    alloc: Global,
    request: &Held<V>,
    op: Op,
    args: &Terms,
    opts: &TermFields,
) -> Result<CatCmd, Fault>
    ensures { Gives (λ c. c) result (cat_command_of (held V.documents V.indexes V.entries
        request.now) op (forms_of args.now) (named_of opts.now)) }
{
    match op {
        Op::DbCreate => Ok(CatCmd::DbCreate(Name::of(alloc, first_name(args))?)),
        Op::DbDrop => Ok(CatCmd::DbDrop(Name::of(alloc, first_name(args))?)),
        Op::TableCreate => creating(alloc, request, args, opts),
        Op::TableDrop => {
            let pair = pair_of(request.db.as_str(), args);
            Ok(CatCmd::TableDrop {
                db: Name::of(alloc, pair.db)?,
                table: Name::of(alloc, pair.table)?,
            })
        }
        _ => Err(Fault::QueryLogic(misplaced(alloc)?)),
    }
}
