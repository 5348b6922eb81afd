// UNION.
ghost use Rattle.std.specs.Prelude.{◌≡◌, ◌++◌, IfOk};
ghost use Rattle.std.specs.List.{list_all};
ghost use Rattle.reql_datum.specs.Outcome.{Gives};
ghost use Rattle.reql_rules.specs.Lists.{each, joined as joined_of};
ghost use Rattle.reql_value_spec.specs.Meant.{Calls, Options};
ghost use Rattle.reql_value_spec.specs.Sequences.{union_rule};
ghost use Rattle.reql_value_spec.specs.Wanted.{as_sequence as as_sequence_of};
ghost use Rattle.reql_value_spec.specs.World.{World as Seen};
ghost use Rattle.reql_operand.specs.Seen.{meant, all_shown};
ghost use Rattle.reql_operand.specs.Tables.{seen};
ghost use Rattle.reql_apply_seq.specs.Sources.{kind_of, is_one as is_one_of, is_plain as is_plain_of};

use reql_datum::{Datum, Fault, Items, Memory};
use reql_operand::{Arg, Value, World, as_sequence};
use reql_term::TableView;
use std::alloc::Global;

/// UNION: the elements of each argument after those of the one before. Of arrays alone it is an
/// array, else a stream.
pub fn union<V: TableView>(alloc: Global, args: &[Arg], world: &World<V>) -> Result<Value, Fault>
    ensures { (calls : Calls) (opts : Options)
        → Gives (meant (seen V.documents V.indexes V.entries world.now)) result
        (union_rule (seen V.documents V.indexes V.entries world.now) calls
        (all_shown (seen V.documents V.indexes V.entries world.now) args.now) opts) }
{
    let sequences = sequences_of(alloc, args, world)?;
    let all = joined(alloc, &sequences)?;
    Ok(in_kind(args, all))
}

// An array where all arguments are plain values, else a stream.
fn in_kind(args: &[Arg], items: Items) -> Value
    ensures { (w : Seen) → meant w result ≡ kind_of (list_all is_plain_of args.now) items }
{
    if are_plain(args) {
        return Value::One(Datum::List(items));
    }
    Value::Stream(items)
}

fn sequences_of<V: TableView>(
    alloc: Global,
    args: &[Arg],
    world: &World<V>,
) -> Result<Vec<Items>, Fault>
    ensures { Gives (λ sequences. sequences.items) result
        (each (as_sequence_of (seen V.documents V.indexes V.entries world.now))
        (all_shown (seen V.documents V.indexes V.entries world.now) args.now)) }
{
    let mut sequences = Vec::new(alloc);
    for arg in args {
        let items = as_sequence(alloc, arg, world)?;
        sequences.push(items)?;
    }
    Ok(sequences)
}

fn joined(alloc: Global, sequences: &[Items]) -> Result<Items, Memory>
    ensures { IfOk result (λ items. items ≡ joined_of sequences.now) }
{
    let mut all = Items::new(alloc);
    for items in sequences {
        append(&mut all, items)?;
    }
    Ok(all)
}

// The items of another list at the end of one.
fn append(all: &mut Items, items: &Items) -> Result<(), Memory>
    ensures { IfOk result (λ _. all.new ≡ all.old ++ items.now) }
{
    let mut place = 0;
    while let Some(item) = items.at(place) {
        let copied = item.copy()?;
        all.push(copied)?;
        place += 1;
    }
    Ok(())
}

fn are_plain(args: &[Arg]) -> bool
    ensures { result ≡ list_all is_plain_of args.now }
{
    for arg in args {
        if !is_plain(arg) {
            return false;
        }
    }
    true
}

// Whether an argument is a plain value.
fn is_plain(arg: &Arg) -> bool
    ensures { result ≡ is_plain_of arg.now }
{
    match arg {
        Arg::Value(value) => is_one(value),
        _ => false,
    }
}

fn is_one(value: &Value) -> bool
    ensures { result ≡ is_one_of value.now }
{
    match value {
        Value::One(_) => true,
        _ => false,
    }
}
