// OFFSETS_OF.
ghost use Rattle.std.specs.Prelude.{◌≡◌, ◌++◌, List, [], ◌∷◌, IfOk, if◌then◌else◌};
ghost use Rattle.reql_datum.specs.Answer.{Answer};
ghost use Rattle.reql_datum.specs.Outcome.{Gives};
ghost use Rattle.reql_datum.specs.Plain.{Plain};
ghost use Rattle.reql_rules.specs.Mapping.{places_from};
ghost use Rattle.reql_rules.specs.Places.{counted_as as counted_as_of};
ghost use Rattle.reql_value_spec.specs.Called.{passes as passes_of};
ghost use Rattle.reql_value_spec.specs.Meant.{Calls, Options};
ghost use Rattle.reql_value_spec.specs.Sequenced.{like_first};
ghost use Rattle.reql_value_spec.specs.Sequences.{offsets_of as offsets_of_rule};
ghost use Rattle.reql_value_spec.specs.World.{World as Seen};
ghost use Rattle.reql_operand.specs.Called.{Answers};
ghost use Rattle.reql_operand.specs.Seen.{meant, shown, all_shown};
ghost use Rattle.reql_operand.specs.Tables.{seen};
ghost use Rattle.reql_apply_seq.specs.Passing.{like_any};

use crate::places::counted_as;
use reql_datum::{Datum, Fault, Items, Memory};
use reql_operand::{Arg, Value, World, as_sequence, like, misplaced, passes};
use reql_term::TableView;
use std::alloc::Global;

/// OFFSETS_OF: the places of the elements that equal the constant, or on which the function is true.
pub fn offsets_of<V: TableView, F: Fn(usize, &[Datum]) -> Result<Value, Fault>>(
    alloc: Global,
    args: &[Arg],
    world: &World<V>,
    call: &F,
) -> Result<Value, Fault>
    requires { F.IsAlwaysCallable call.now }
    ensures { let w = seen V.documents V.indexes V.entries world.now in
        (calls : Calls) → Answers w F.Fn call.now calls → (opts : Options)
        → Gives (meant w) result (like_first offsets_of_rule w calls (all_shown w args.now) opts) }
{
    match args {
        [source, f] => offsets_in(alloc, source, f, world, call),
        _ => Err(Fault::QueryLogic(misplaced(alloc)?)),
    }
}

fn offsets_in<V: TableView, F: Fn(usize, &[Datum]) -> Result<Value, Fault>>(
    alloc: Global,
    source: &Arg,
    f: &Arg,
    world: &World<V>,
    call: &F,
) -> Result<Value, Fault>
    requires { F.IsAlwaysCallable call.now }
    ensures { let w = seen V.documents V.indexes V.entries world.now in
        (calls : Calls) → Answers w F.Fn call.now calls → (opts : Options)
        → Gives (meant w) result
        (like_first offsets_of_rule w calls (shown w source.now ∷ shown w f.now ∷ []) opts) }
{
    let places = all_places(alloc, source, f, world, call);
    liked(source, places)
}

/// What was answered, as a sequence of the first argument's kind.
pub(crate) fn liked(source: &Arg, answer: Result<Items, Fault>) -> Result<Value, Fault>
    ensures { (w : Seen) (a : Answer (List Plain)) → Gives (λ items. items) answer a
        → Gives (meant w) result (like_any (shown w source.now) a) }
{
    match answer {
        Ok(items) => Ok(like(source, items)),
        Err(fault) => Err(fault),
    }
}

fn all_places<V: TableView, F: Fn(usize, &[Datum]) -> Result<Value, Fault>>(
    alloc: Global,
    source: &Arg,
    f: &Arg,
    world: &World<V>,
    call: &F,
) -> Result<Items, Fault>
    requires { F.IsAlwaysCallable call.now }
    ensures { let w = seen V.documents V.indexes V.entries world.now in
        (calls : Calls) → Answers w F.Fn call.now calls → (opts : Options)
        → Gives (λ items. items) result
        (offsets_of_rule w calls (shown w source.now ∷ shown w f.now ∷ []) opts) }
{
    let all = as_sequence(alloc, source, world)?;
    places_of(alloc, &all, f, call)
}

fn places_of<F: Fn(usize, &[Datum]) -> Result<Value, Fault>>(
    alloc: Global,
    items: &Items,
    f: &Arg,
    call: &F,
) -> Result<Items, Fault>
    requires { F.IsAlwaysCallable call.now }
    ensures { (w : Seen) (calls : Calls) → Answers w F.Fn call.now calls → Gives (λ items. items)
        result (places_from 0 (passes_of calls (shown w f.now)) items.now) }
{
    let mut places = Items::new(alloc);
    let mut place = 0;
    while let Some(item) = items.at(place) {
        let held = passes(alloc, f, item, call)?;
        keep_place(&mut places, held, place)?;
        place += 1;
    }
    Ok(places)
}

// The place at the end of those that are kept, where its element passes.
fn keep_place(places: &mut Items, held: bool, place: usize) -> Result<(), Memory>
    ensures { IfOk result (λ _. places.new
        ≡ (if held then places.old ++ counted_as_of place ∷ [] else places.old)) }
{
    if held {
        places.push(counted_as(place as u64))?;
    }
    Ok(())
}
