// SUM, AVG, MIN and MAX.
ghost use Rattle.reql_datum.specs.Outcome.{Gives};
ghost use Rattle.reql_datum.specs.View.{plain};
ghost use Rattle.reql_rules.specs.Totals.{total as total_in};
ghost use Rattle.reql_value_spec.specs.Called.{answer_key as answer_key_of};
ghost use Rattle.reql_value_spec.specs.Groups.{total_rule};
ghost use Rattle.reql_value_spec.specs.Meant.{Calls, Options};
ghost use Rattle.reql_value_spec.specs.World.{World as Seen};
ghost use Rattle.reql_operand.specs.Called.{Answers};
ghost use Rattle.reql_operand.specs.Seen.{shown, all_shown};
ghost use Rattle.reql_operand.specs.Tables.{seen};
ghost use Rattle.reql_apply_group.specs.Keyed.{itself, total_by};

use reql_datum::{Datum, Fault, Items};
use reql_operand::{Arg, Value, World, answer_key, as_sequence, misplaced};
use reql_rules::Total;
use reql_term::TableView;
use std::alloc::Global;

/// SUM, AVG, MIN and MAX: of the elements, or of what a key gives of them.
pub fn total<V: TableView, F: Fn(usize, &[Datum]) -> Result<Value, Fault>>(
    alloc: Global,
    op: Total,
    args: &[Arg],
    world: &World<V>,
    call: &F,
) -> Result<Datum, Fault>
    requires { F.IsAlwaysCallable call.now }
    ensures { let w = seen V.documents V.indexes V.entries world.now in
        (calls : Calls) → Answers w F.Fn call.now calls → (opts : Options)
        → Gives plain result (total_rule op w calls (all_shown w args.now) opts) }
{
    match args {
        [] => Err(Fault::QueryLogic(misplaced(alloc)?)),
        [source] => {
            let items = as_sequence(alloc, source, world)?;
            Ok(total_of_items(alloc, op, &items)?)
        }
        [source, key] => {
            let total = total_by_key(alloc, op, source, key, world, call)?;
            Ok(total)
        }
        [_, _, _, ..] => Err(Fault::QueryLogic(misplaced(alloc)?)),
    }
}

// The total of what a key gives of the elements.
fn total_by_key<V: TableView, F: Fn(usize, &[Datum]) -> Result<Value, Fault>>(
    alloc: Global,
    op: Total,
    source: &Arg,
    key: &Arg,
    world: &World<V>,
    call: &F,
) -> Result<Datum, Fault>
    requires { F.IsAlwaysCallable call.now }
    ensures { let w = seen V.documents V.indexes V.entries world.now in
        (calls : Calls) → Answers w F.Fn call.now calls → Gives plain result
        (total_by op w calls (shown w source.now) (shown w key.now)) }
{
    let items = as_sequence(alloc, source, world)?;
    total_of_keys(alloc, op, &items, key, call)
}

fn copy_of(d: &Datum) -> Result<Datum, Fault>
    ensures { Gives plain result (itself (plain d.now)) }
{
    Ok(d.copy()?)
}

fn total_of_items(alloc: Global, op: Total, items: &Items) -> Result<Datum, Fault>
    ensures { Gives plain result (total_in op itself items.now) }
{
    reql_seq::total(alloc, op, items, &|d: &Datum| copy_of(d))
}

fn total_of_keys<F: Fn(usize, &[Datum]) -> Result<Value, Fault>>(
    alloc: Global,
    op: Total,
    items: &Items,
    key: &Arg,
    call: &F,
) -> Result<Datum, Fault>
    requires { F.IsAlwaysCallable call.now }
    ensures { (w : Seen) (calls : Calls) → Answers w F.Fn call.now calls
        → Gives plain result (total_in op (answer_key_of calls (shown w key.now)) items.now) }
{
    reql_seq::total(
        alloc,
        op,
        items,
        &|d: &Datum|
            requires { F.IsAlwaysCallable call.now }
        { answer_key(alloc, key, d, call) },
    )
}
