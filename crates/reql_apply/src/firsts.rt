// Rules of a first argument and of those that follow it.
ghost use Rattle.std.specs.Prelude.{map};
ghost use Rattle.reql_datum.specs.Outcome.{Gives};
ghost use Rattle.reql_value_spec.specs.Fields.{with_fields as with_fields_of};
ghost use Rattle.reql_value_spec.specs.Groups.{group_rule as group_of};
ghost use Rattle.reql_value_spec.specs.Meant.{Calls, Options};
ghost use Rattle.reql_value_spec.specs.Orders.{order_by as order_by_of};
ghost use Rattle.reql_value_spec.specs.Sequenced.{like_first, alike_first};
ghost use Rattle.reql_value_spec.specs.Sequences.{slice_rule as slice_rule_of};
ghost use Rattle.reql_value_spec.specs.Tables.{get_all_rule as get_all_of, index_statuses as index_statuses_of};
ghost use Rattle.reql_operand.specs.Called.{Answers};
ghost use Rattle.reql_operand.specs.Seen.{meant, group as group_seen, all_shown, all_chosen};
ghost use Rattle.reql_operand.specs.Tables.{seen};

use crate::wrapped::like_source;
use reql_apply_group::group;
use reql_apply_path::with_fields;
use reql_apply_seq::{order_by, slice};
use reql_apply_table::{get_all, index_statuses};
use reql_datum::{Datum, Fault, Items};
use reql_operand::{Arg, Choice, Group, Value, World, misplaced};
use reql_term::TableView;
use std::alloc::Global;

/// WITH_FIELDS, of a sequence of the kind that the first argument is.
pub(crate) fn with_fields_rule<V: TableView>(
    alloc: Global,
    args: &[Arg],
    world: &World<V>,
) -> Result<Value, Fault>
    ensures { let w = seen V.documents V.indexes V.entries world.now in
        (calls : Calls) (opts : Options) → Gives (meant w) result
        (like_first with_fields_of w calls (all_shown w args.now) opts) }
{
    match args {
        [source, ..] => like_source(source, with_fields(alloc, args, world)),
        [] => Err(Fault::QueryLogic(misplaced(alloc)?)),
    }
}

/// GET_ALL, of a table and its keys.
pub(crate) fn get_all_rule<V: TableView>(
    alloc: Global,
    args: &[Arg],
    opts: &[Choice],
    world: &World<V>,
) -> Result<Value, Fault>
    ensures { let w = seen V.documents V.indexes V.entries world.now in
        (calls : Calls) → Gives (meant w) result
        (get_all_of w calls (all_shown w args.now) (all_chosen w opts.now)) }
{
    match args {
        [table, keys @ ..] => get_all(alloc, table, keys, opts, world),
        [] => Err(Fault::QueryLogic(misplaced(alloc)?)),
    }
}

/// INDEX_STATUS and INDEX_WAIT, of a table and the names of indexes.
pub(crate) fn index_statuses_rule<V: TableView>(
    alloc: Global,
    args: &[Arg],
    world: &World<V>,
) -> Result<Items, Fault>
    ensures { let w = seen V.documents V.indexes V.entries world.now in
        (calls : Calls) (opts : Options) → Gives (λ items. items) result
        (index_statuses_of w calls (all_shown w args.now) opts) }
{
    match args {
        [table, names @ ..] => index_statuses(alloc, table, names, world),
        [] => Err(Fault::QueryLogic(misplaced(alloc)?)),
    }
}

/// GROUP, of a sequence and its keys.
pub(crate) fn group_rule<V: TableView, F: Fn(usize, &[Datum]) -> Result<Value, Fault>>(
    alloc: Global,
    args: &[Arg],
    opts: &[Choice],
    world: &World<V>,
    call: &F,
) -> Result<Vec<Group>, Fault>
    requires { F.IsAlwaysCallable call.now }
    ensures { let w = seen V.documents V.indexes V.entries world.now in
        (calls : Calls) → Answers w F.Fn call.now calls
        → Gives (λ gs. map group_seen gs.items) result
        (group_of w calls (all_shown w args.now) (all_chosen w opts.now)) }
{
    match args {
        [source, keys @ ..] => group(alloc, source, keys, opts, world, call),
        [] => Err(Fault::QueryLogic(misplaced(alloc)?)),
    }
}

/// ORDER_BY, of a sequence and its keys.
pub(crate) fn order_by_rule<V: TableView, F: Fn(usize, &[Datum]) -> Result<Value, Fault>>(
    alloc: Global,
    args: &[Arg],
    opts: &[Choice],
    world: &World<V>,
    call: &F,
) -> Result<Value, Fault>
    requires { F.IsAlwaysCallable call.now }
    ensures { let w = seen V.documents V.indexes V.entries world.now in
        (calls : Calls) → Answers w F.Fn call.now calls → Gives (meant w) result
        (order_by_of w calls (all_shown w args.now) (all_chosen w opts.now)) }
{
    match args {
        [source, keys @ ..] => order_by(alloc, source, keys, opts, world, call),
        [] => Err(Fault::QueryLogic(misplaced(alloc)?)),
    }
}

/// SLICE, of a sequence and its places.
pub(crate) fn slice_rule<V: TableView>(
    alloc: Global,
    args: &[Arg],
    opts: &[Choice],
    world: &World<V>,
) -> Result<Value, Fault>
    ensures { let w = seen V.documents V.indexes V.entries world.now in
        (calls : Calls) → Gives (meant w) result
        (alike_first slice_rule_of w calls (all_shown w args.now) (all_chosen w opts.now)) }
{
    match args {
        [source, places @ ..] => slice(alloc, source, places, opts, world),
        [] => Err(Fault::QueryLogic(misplaced(alloc)?)),
    }
}
