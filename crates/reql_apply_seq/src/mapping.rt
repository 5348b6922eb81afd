// MAP, CONCAT_MAP and REDUCE.
ghost use Rattle.std.specs.Prelude.{[], ◌∷◌};
ghost use Rattle.reql_datum.specs.Outcome.{Gives};
ghost use Rattle.reql_datum.specs.View.{plain};
ghost use Rattle.reql_rules.specs.Lists.{each};
ghost use Rattle.reql_rules.specs.Mapping.{concat_all, reduce_all};
ghost use Rattle.reql_value_spec.specs.Called.{answer_one as answer_one_of, answer_two as answer_two_of, answer_items as answer_items_of};
ghost use Rattle.reql_value_spec.specs.Meant.{Calls, Options};
ghost use Rattle.reql_value_spec.specs.Sequenced.{like_first};
ghost use Rattle.reql_value_spec.specs.Sequences.{map_rule, concat_map as concat_map_rule, reduce_rule};
ghost use Rattle.reql_value_spec.specs.World.{World as Seen};
ghost use Rattle.reql_operand.specs.Called.{Answers};
ghost use Rattle.reql_operand.specs.Seen.{meant, shown, all_shown};
ghost use Rattle.reql_operand.specs.Tables.{seen};

use crate::offsets::liked;
use reql_datum::{Datum, Fault, Items};
use reql_operand::{
    Arg, Value, World, answer_items, answer_one, answer_two, as_sequence, like, misplaced,
};
use reql_term::TableView;
use std::alloc::Global;

/// MAP: what the function answers of each element, in order.
pub fn map<V: TableView, F: Fn(usize, &[Datum]) -> Result<Value, Fault>>(
    alloc: Global,
    args: &[Arg],
    world: &World<V>,
    call: &F,
) -> Result<Value, Fault>
    requires { F.IsAlwaysCallable call.now }
    ensures { let w = seen V.documents V.indexes V.entries world.now in
        (calls : Calls) → Answers w F.Fn call.now calls → (opts : Options)
        → Gives (meant w) result (like_first map_rule w calls (all_shown w args.now) opts) }
{
    match args {
        [source, f] => {
            let all = as_sequence(alloc, source, world)?;
            let answers = map_items(alloc, &all, f, call)?;
            Ok(like(source, answers))
        }
        _ => Err(Fault::QueryLogic(misplaced(alloc)?)),
    }
}

fn map_items<F: Fn(usize, &[Datum]) -> Result<Value, Fault>>(
    alloc: Global,
    items: &Items,
    f: &Arg,
    call: &F,
) -> Result<Items, Fault>
    requires { F.IsAlwaysCallable call.now }
    ensures { (w : Seen) (calls : Calls) → Answers w F.Fn call.now calls
        → Gives (λ items. items) result (each (answer_one_of calls (shown w f.now)) items.now) }
{
    reql_seq::map(
        alloc,
        items,
        &|d: &Datum|
            requires { F.IsAlwaysCallable call.now }
        { answer_one(alloc, f, d, call) },
    )
}

/// CONCAT_MAP: the sequences that the function answers of each element, joined in order.
pub fn concat_map<V: TableView, F: Fn(usize, &[Datum]) -> Result<Value, Fault>>(
    alloc: Global,
    args: &[Arg],
    world: &World<V>,
    call: &F,
) -> Result<Value, Fault>
    requires { F.IsAlwaysCallable call.now }
    ensures { let w = seen V.documents V.indexes V.entries world.now in
        (calls : Calls) → Answers w F.Fn call.now calls → (opts : Options)
        → Gives (meant w) result (like_first concat_map_rule w calls (all_shown w args.now) opts) }
{
    match args {
        [source, f] => concat_in(alloc, source, f, world, call),
        _ => Err(Fault::QueryLogic(misplaced(alloc)?)),
    }
}

fn concat_in<V: TableView, F: Fn(usize, &[Datum]) -> Result<Value, Fault>>(
    alloc: Global,
    source: &Arg,
    f: &Arg,
    world: &World<V>,
    call: &F,
) -> Result<Value, Fault>
    requires { F.IsAlwaysCallable call.now }
    ensures { let w = seen V.documents V.indexes V.entries world.now in
        (calls : Calls) → Answers w F.Fn call.now calls → (opts : Options)
        → Gives (meant w) result
        (like_first concat_map_rule w calls (shown w source.now ∷ shown w f.now ∷ []) opts) }
{
    let joined = all_joined(alloc, source, f, world, call);
    liked(source, joined)
}

fn all_joined<V: TableView, F: Fn(usize, &[Datum]) -> Result<Value, Fault>>(
    alloc: Global,
    source: &Arg,
    f: &Arg,
    world: &World<V>,
    call: &F,
) -> Result<Items, Fault>
    requires { F.IsAlwaysCallable call.now }
    ensures { let w = seen V.documents V.indexes V.entries world.now in
        (calls : Calls) → Answers w F.Fn call.now calls → (opts : Options)
        → Gives (λ items. items) result
        (concat_map_rule w calls (shown w source.now ∷ shown w f.now ∷ []) opts) }
{
    let all = as_sequence(alloc, source, world)?;
    concat_items(alloc, &all, f, world, call)
}

fn concat_items<V: TableView, F: Fn(usize, &[Datum]) -> Result<Value, Fault>>(
    alloc: Global,
    items: &Items,
    f: &Arg,
    world: &World<V>,
    call: &F,
) -> Result<Items, Fault>
    requires { F.IsAlwaysCallable call.now }
    ensures { let w = seen V.documents V.indexes V.entries world.now in
        (calls : Calls) → Answers w F.Fn call.now calls → Gives (λ items. items) result
        (concat_all (answer_items_of w calls (shown w f.now)) items.now) }
{
    reql_seq::concat_map(
        alloc,
        items,
        &|d: &Datum|
            requires { F.IsAlwaysCallable call.now }
        { answer_items(alloc, f, d, world, call) },
    )
}

/// REDUCE: the function of two applied from the left. One element is itself, and of none it is
/// NON_EXISTENCE.
pub fn reduce<V: TableView, F: Fn(usize, &[Datum]) -> Result<Value, Fault>>(
    alloc: Global,
    args: &[Arg],
    world: &World<V>,
    call: &F,
) -> Result<Datum, Fault>
    requires { F.IsAlwaysCallable call.now }
    ensures { let w = seen V.documents V.indexes V.entries world.now in
        (calls : Calls) → Answers w F.Fn call.now calls → (opts : Options)
        → Gives plain result (reduce_rule w calls (all_shown w args.now) opts) }
{
    match args {
        [source, f] => {
            let all = as_sequence(alloc, source, world)?;
            reduce_items(alloc, &all, f, call)
        }
        _ => Err(Fault::QueryLogic(misplaced(alloc)?)),
    }
}

fn reduce_items<F: Fn(usize, &[Datum]) -> Result<Value, Fault>>(
    alloc: Global,
    items: &Items,
    f: &Arg,
    call: &F,
) -> Result<Datum, Fault>
    requires { F.IsAlwaysCallable call.now }
    ensures { (w : Seen) (calls : Calls) → Answers w F.Fn call.now calls
        → Gives plain result (reduce_all (answer_two_of calls (shown w f.now)) items.now) }
{
    reql_seq::reduce(
        alloc,
        items,
        &|d: &Datum, e: &Datum|
            requires { F.IsAlwaysCallable call.now }
        { answer_two(alloc, f, d, e, call) },
    )
}
