// INNER_JOIN, OUTER_JOIN, EQ_JOIN and ZIP.
ghost use Rattle.std.specs.Prelude.{◌≡◌, List, [], ◌∷◌, Ok};
ghost use Rattle.reql_datum.specs.Outcome.{Gives};
ghost use Rattle.reql_datum.specs.Plain.{Plain};
ghost use Rattle.reql_datum.specs.View.{plain};
ghost use Rattle.reql_term.specs.Views.{Entry};
ghost use Rattle.reql_rules.specs.Joining.{join_all, eq_join_all};
ghost use Rattle.reql_value_spec.specs.Called.{answer_key as answer_key_of, answer_two as answer_two_of};
ghost use Rattle.reql_value_spec.specs.Joins.{join_rule, eq_join as eq_join_rule, having as having_of, zip_rule};
ghost use Rattle.reql_value_spec.specs.Meant.{Calls, Options};
ghost use Rattle.reql_value_spec.specs.Sequenced.{like_first};
ghost use Rattle.reql_value_spec.specs.World.{World as Seen, entries_named};
ghost use Rattle.reql_operand.specs.Called.{Answers};
ghost use Rattle.reql_operand.specs.Seen.{meant, shown, all_shown, all_chosen};
ghost use Rattle.reql_operand.specs.Tables.{view, seen};
ghost use Rattle.reql_group.specs.Called.{MeansRows};
ghost use Rattle.reql_apply_table.specs.Sources.{having as having_named};
ghost use Rattle.reql_apply_group.specs.Joined.{joined_by};

use reql_apply_table::{documents_having, entries_source, index_or_key};
use reql_datum::{Datum, Fault, Items, Name};
use reql_operand::{
    Arg, Choice, Purse, Value, Viewed, World, answer_key, answer_two, as_sequence, as_table,
    index_text, is_true, like, misplaced, paid,
};
use reql_term::TableView;
use std::alloc::Global;

/// INNER_JOIN, or OUTER_JOIN where `outer` is set: the pairs of elements on which the function is
/// true. In an outer join a left element of no pair stands alone.
pub fn join<V: TableView, F: Fn(usize, &[Datum]) -> Result<Value, Fault>>(
    alloc: Global,
    outer: bool,
    args: &[Arg],
    world: &World<V>,
    call: &F,
) -> Result<Value, Fault>
    requires { F.IsAlwaysCallable call.now }
    ensures { let w = seen V.documents V.indexes V.entries world.now in
        (calls : Calls) → Answers w F.Fn call.now calls → (opts : Options)
        → Gives (meant w) result
        (like_first (join_rule outer) w calls (all_shown w args.now) opts) }
{
    match args {
        [left, right, f] => {
            let lefts = as_sequence(alloc, left, world)?;
            let rights = as_sequence(alloc, right, world)?;
            let pairs = join_items(alloc, outer, &lefts, &rights, f, &world.purse, call)?;
            Ok(like(left, pairs))
        }
        _ => Err(Fault::QueryLogic(misplaced(alloc)?)),
    }
}

// What the function answers on a pair, which is paid for, and dearer where the pair is made.
fn answer_paid<F: Fn(usize, &[Datum]) -> Result<Value, Fault>>(
    alloc: Global,
    f: &Arg,
    left: &Datum,
    right: &Datum,
    purse: &Purse,
    call: &F,
) -> Result<Datum, Fault>
    requires { F.IsAlwaysCallable call.now }
    ensures { (w : Seen) (calls : Calls) → Answers w F.Fn call.now calls
        → Gives plain result (answer_two_of calls (shown w f.now) (plain left.now) (plain right.now)) }
{
    let answer = answer_two(alloc, f, left, right, call)?;
    purse.spend(if is_true(&answer) { 20 } else { 2 })?;
    Ok(answer)
}

fn join_items<F: Fn(usize, &[Datum]) -> Result<Value, Fault>>(
    alloc: Global,
    outer: bool,
    lefts: &Items,
    rights: &Items,
    f: &Arg,
    purse: &Purse,
    call: &F,
) -> Result<Items, Fault>
    requires { F.IsAlwaysCallable call.now }
    ensures { (w : Seen) (calls : Calls) → Answers w F.Fn call.now calls
        → Gives (λ items. items) result
        (join_all outer (answer_two_of calls (shown w f.now)) lefts.now rights.now) }
{
    reql_group::join(
        alloc,
        lefts,
        rights,
        &|l: &Datum, r: &Datum|
            requires { F.IsAlwaysCallable call.now }
        { answer_paid(alloc, f, l, r, purse, call) },
        outer,
    )
}

/// EQ_JOIN: the pairs of each element with the documents of a table that have its key, by the primary
/// key or by an index. An element whose key is missing or null has none.
pub fn eq_join<V: TableView, F: Fn(usize, &[Datum]) -> Result<Value, Fault>>(
    alloc: Global,
    args: &[Arg],
    opts: &[Choice],
    world: &World<V>,
    call: &F,
) -> Result<Value, Fault>
    requires { F.IsAlwaysCallable call.now }
    ensures { let w = seen V.documents V.indexes V.entries world.now in
        (calls : Calls) → Answers w F.Fn call.now calls → Gives (meant w) result
        (like_first eq_join_rule w calls (all_shown w args.now) (all_chosen w opts.now)) }
{
    match args {
        [source, key, right] => {
            let lefts = as_sequence(alloc, source, world)?;
            let table = as_table(alloc, right, world)?;
            let named = index_text(alloc, opts)?;
            let name = index_or_key(table, named);
            let pairs = join_by_name(alloc, &lefts, key, table, name, &world.purse, call)?;
            Ok(like(source, pairs))
        }
        _ => Err(Fault::QueryLogic(misplaced(alloc)?)),
    }
}

fn join_by_name<V: TableView, F: Fn(usize, &[Datum]) -> Result<Value, Fault>>(
    alloc: Global,
    lefts: &Items,
    key: &Arg,
    table: &Viewed<V>,
    name: &Name,
    purse: &Purse,
    call: &F,
) -> Result<Items, Fault>
    requires { F.IsAlwaysCallable call.now }
    ensures { (w : Seen) (calls : Calls) → Answers w F.Fn call.now calls
        → Gives (λ items. items) result
        (joined_by (view V.documents V.indexes V.entries table.now) name.now calls
        (shown w key.now) lefts.now) }
{
    let _index = entries_source(alloc, table, name)?;
    join_entries(alloc, lefts, key, table, name, purse, call)
}

fn join_entries<V: TableView, F: Fn(usize, &[Datum]) -> Result<Value, Fault>>(
    alloc: Global,
    lefts: &Items,
    key: &Arg,
    table: &Viewed<V>,
    name: &Name,
    purse: &Purse,
    call: &F,
) -> Result<Items, Fault>
    requires { F.IsAlwaysCallable call.now }
    ensures { (es : List Entry)
        → entries_named (view V.documents V.indexes V.entries table.now) name.now ≡ Ok es
        → (w : Seen) (calls : Calls) → Answers w F.Fn call.now calls
        → Gives (λ items. items) result
        (eq_join_all (answer_key_of calls (shown w key.now)) (having_of es) lefts.now) }
{
    join_keyed(
        alloc,
        lefts,
        key,
        call,
        &|k: &Datum| having(alloc, table, name, k, purse),
    )
}

fn join_keyed<
    F: Fn(usize, &[Datum]) -> Result<Value, Fault>,
    H: Fn(&Datum) -> Result<Items, Fault>,
>(alloc: Global, lefts: &Items, key: &Arg, call: &F, having: &H) -> Result<Items, Fault>
    requires call { F.IsAlwaysCallable call.now }
    requires having { H.IsAlwaysCallable having.now }
    ensures { (w : Seen) (calls : Calls) → Answers w F.Fn call.now calls
        → (h : Plain → List Plain) → MeansRows H.Fn having.now h
        → Gives (λ items. items) result
        (eq_join_all (answer_key_of calls (shown w key.now)) h lefts.now) }
{
    reql_group::eq_join(
        alloc,
        lefts,
        &|d: &Datum|
            requires { F.IsAlwaysCallable call.now }
        { answer_key(alloc, key, d, call) },
        having,
    )
}

// The documents of the entries that have a key, by an index of a name, which are paid for with their
// pairs.
fn having<V: TableView>(
    alloc: Global,
    table: &Viewed<V>,
    name: &Name,
    key: &Datum,
    purse: &Purse,
) -> Result<Items, Fault>
    ensures { Gives (λ items. items) result
        (having_named (view V.documents V.indexes V.entries table.now) name.now
        (plain key.now ∷ [])) }
{
    let mut keys = Items::new(alloc);
    keys.push(key.copy()?)?;
    let found = documents_having(alloc, table, name, &keys)?;
    Ok(paid(purse, found, 20)?)
}

/// ZIP: the left side of each pair merged with its right side.
pub fn zip<V: TableView>(alloc: Global, args: &[Arg], world: &World<V>) -> Result<Value, Fault>
    ensures { let w = seen V.documents V.indexes V.entries world.now in
        (calls : Calls) (opts : Options)
        → Gives (meant w) result (like_first zip_rule w calls (all_shown w args.now) opts) }
{
    match args {
        [source] => {
            let pairs = as_sequence(alloc, source, world)?;
            let zipped = reql_group::zip(alloc, &pairs)?;
            Ok(like(source, zipped))
        }
        _ => Err(Fault::QueryLogic(misplaced(alloc)?)),
    }
}
