// DISTINCT.
ghost use Rattle.std.specs.Prelude.{option_map};
ghost use Rattle.reql_datum.specs.Outcome.{Gives};
ghost use Rattle.reql_value_spec.specs.Meant.{Calls, meant_of};
ghost use Rattle.reql_value_spec.specs.Orders.{distinct_in as distinct_in_of, distinct_rule};
ghost use Rattle.reql_operand.specs.Seen.{meant, shown, all_shown, all_chosen};
ghost use Rattle.reql_operand.specs.Tables.{seen};
ghost use Rattle.reql_apply_seq.specs.Sources.{elements};
ghost use Rattle.reql_apply_seq.specs.Indexes.{distinct_given, distinct_values as distinct_values_of, distinct_named};

use crate::indexed::table_values;
use crate::source::{Source, all_of, source_of};
use reql_datum::{Fault, Name};
use reql_operand::{
    Arg, Choice, Value, World, index_text, like, misplaced, misplaced_order, value_of,
};
use reql_term::TableView;
use std::alloc::Global;

/// DISTINCT: the elements, or the values of an index of a table, in order and each once.
pub fn distinct<V: TableView>(
    alloc: Global,
    args: &[Arg],
    opts: &[Choice],
    world: &World<V>,
) -> Result<Value, Fault>
    ensures { let w = seen V.documents V.indexes V.entries world.now in
        (calls : Calls) → Gives (meant w) result
        (distinct_rule w calls (all_shown w args.now) (all_chosen w opts.now)) }
{
    match args {
        [source] => distinct_of(alloc, source, opts, world),
        _ => Err(Fault::QueryLogic(misplaced(alloc)?)),
    }
}

fn distinct_of<V: TableView>(
    alloc: Global,
    source: &Arg,
    opts: &[Choice],
    world: &World<V>,
) -> Result<Value, Fault>
    ensures { let w = seen V.documents V.indexes V.entries world.now in
        Gives (meant w) result (distinct_given w (shown w source.now) (all_chosen w opts.now)) }
{
    let all = source_of(alloc, source, world)?;
    let name = index_text(alloc, opts)?;
    distinct_in(alloc, source, all, name, world)
}

fn distinct_in<V: TableView>(
    alloc: Global,
    source: &Arg,
    all: Source,
    name: Option<&Name>,
    world: &World<V>,
) -> Result<Value, Fault>
    ensures { let w = seen V.documents V.indexes V.entries world.now in
        Gives (meant w) result (distinct_in_of w (meant_of (shown w source.now)) (elements w all)
        (option_map (λ n. n.now) name.entry)) }
{
    match name {
        None => {
            let items = all_of(alloc, world, all)?;
            Ok(like(source, reql_seq::distinct(alloc, &items)?))
        }
        Some(name) => {
            drop(all);
            distinct_by_index(alloc, source, name, world)
        }
    }
}

fn distinct_by_index<V: TableView>(
    alloc: Global,
    source: &Arg,
    name: &Name,
    world: &World<V>,
) -> Result<Value, Fault>
    ensures { let w = seen V.documents V.indexes V.entries world.now in
        Gives (meant w) result (distinct_named w name.now (meant_of (shown w source.now))) }
{
    distinct_values(alloc, source, name, world)
}

fn distinct_values<V: TableView>(
    alloc: Global,
    source: &Arg,
    name: &Name,
    world: &World<V>,
) -> Result<Value, Fault>
    ensures { let w = seen V.documents V.indexes V.entries world.now in
        Gives (meant w) result (distinct_values_of w name.now (meant_of (shown w source.now))) }
{
    match value_of(source) {
        Some(value) => {
            let values = table_values(alloc, value, name, world)?;
            Ok(Value::Stream(reql_seq::distinct(alloc, &values)?))
        }
        None => Err(Fault::QueryLogic(misplaced_order(alloc)?)),
    }
}
