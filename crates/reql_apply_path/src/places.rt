// NTH.
ghost use Rattle.std.specs.Prelude.{◌≡◌, IfOk};
ghost use Rattle.reql_datum.specs.Answer.{non_existence};
ghost use Rattle.reql_datum.specs.Outcome.{Gives};
ghost use Rattle.reql_datum.specs.View.{plain};
ghost use Rattle.reql_rules.specs.Faults.{out_of_bounds as out_of_bounds_of};
ghost use Rattle.reql_value_spec.specs.Fields.{nth_rule as nth_rule_of};
ghost use Rattle.reql_value_spec.specs.Meant.{Calls, Options};
ghost use Rattle.reql_operand.specs.Seen.{meant, shown, all_shown};
ghost use Rattle.reql_operand.specs.Tables.{seen};
ghost use Rattle.reql_apply_path.specs.Places.{number_of, nth as nth_of, reached as reached_of, from_end as from_end_of, counted_from_end as counted_from_end_of, nth_at as nth_at_of};

use reql_datum::{Datum, Fault, Memory, Name};
use reql_operand::{
    Arg, Value, World, count_elements, element_at, misplaced, number_in_arg, value_of, wrong_arg,
};
use reql_term::TableView;
use std::alloc::Global;

/// A place counted from the front, or back from the last element.
#[derive(Clone, Copy)]
pub(crate) enum Place {
    FromFront(u64),
    FromEnd(u64),
}

fn place_of(at: i64) -> Place
    ensures { number_of result ≡ at }
{
    if 0 <= at {
        return Place::FromFront(at as u64);
    }
    Place::FromEnd((-(at + 1)) as u64)
}

fn out_of_bounds(alloc: Global, at: i64) -> Result<Name, Memory>
    ensures { IfOk result (λ text. non_existence text ≡ out_of_bounds_of at) }
{
    match format!(in alloc; "Index out of bounds: {}.", at) {
        Ok(text) => Name::of(alloc, text.as_str()),
        Err(_) => Err(Memory),
    }
}

// The element at a place, for which no other is read of a table or a slice of one.
fn reached<V: TableView>(
    alloc: Global,
    value: &Value,
    world: &World<V>,
    place: u64,
    at: i64,
) -> Result<Datum, Fault>
    ensures { Gives plain result (reached_of (seen V.documents V.indexes V.entries world.now) place
        at (meant (seen V.documents V.indexes V.entries world.now) value.now)) }
{
    match element_at(alloc, value, world, place as usize)? {
        Some(d) => Ok(d),
        None => Err(Fault::NonExistence(out_of_bounds(alloc, at)?)),
    }
}

fn from_end<V: TableView>(
    alloc: Global,
    value: &Value,
    world: &World<V>,
    back: u64,
    at: i64,
    size: u64,
) -> Result<Datum, Fault>
    ensures { Gives plain result (from_end_of (seen V.documents V.indexes V.entries world.now) back
        at (meant (seen V.documents V.indexes V.entries world.now) value.now) size) }
{
    if back < size {
        return reached(alloc, value, world, size - (back + 1), at);
    }
    Err(Fault::NonExistence(out_of_bounds(alloc, at)?))
}

fn counted_from_end<V: TableView>(
    alloc: Global,
    value: &Value,
    world: &World<V>,
    back: u64,
    at: i64,
) -> Result<Datum, Fault>
    ensures { Gives plain result (counted_from_end_of
        (seen V.documents V.indexes V.entries world.now) back at
        (meant (seen V.documents V.indexes V.entries world.now) value.now)) }
{
    let size = count_elements(alloc, value, world)?;
    from_end(alloc, value, world, back, at, size)
}

#[tactic(auto, using(crate::proofs::Reached::from_front_is, crate::proofs::Reached::from_end_is))]
fn nth<V: TableView>(
    alloc: Global,
    value: &Value,
    world: &World<V>,
    at: i64,
) -> Result<Datum, Fault>
    ensures { Gives plain result (nth_of (seen V.documents V.indexes V.entries world.now) at
        (meant (seen V.documents V.indexes V.entries world.now) value.now)) }
{
    match place_of(at) {
        Place::FromFront(place) => reached(alloc, value, world, place, at),
        Place::FromEnd(back) => counted_from_end(alloc, value, world, back, at),
    }
}

// The fault of the sequence comes before that of the place, and no element is read for it.
#[tactic(auto, using(crate::proofs::Reached::place_is, crate::proofs::Reached::no_place_is))]
fn nth_at<V: TableView>(
    alloc: Global,
    value: &Value,
    world: &World<V>,
    place: &Arg,
) -> Result<Datum, Fault>
    ensures { Gives plain result (nth_at_of (seen V.documents V.indexes V.entries world.now)
        (meant (seen V.documents V.indexes V.entries world.now) value.now)
        (shown (seen V.documents V.indexes V.entries world.now) place.now)) }
{
    match number_in_arg(place) {
        Some(at) => nth(alloc, value, world, at.get()),
        None => {
            let _size = count_elements(alloc, value, world)?;
            wrong_arg(alloc, "NUMBER", place)
        }
    }
}

/// NTH: the element at a place, where -1 is the last. Of a table or a slice of one no other is
/// read.
pub fn nth_rule<V: TableView>(alloc: Global, args: &[Arg], world: &World<V>) -> Result<Datum, Fault>
    ensures { let w = seen V.documents V.indexes V.entries world.now in
        (calls : Calls) (opts : Options) → Gives plain result
        (nth_rule_of w calls (all_shown w args.now) opts) }
{
    match args {
        [source, place] => match value_of(source) {
            Some(value) => nth_at(alloc, value, world, place),
            None => nth_at(alloc, &Value::Function, world, place),
        },
        _ => Err(Fault::QueryLogic(misplaced(alloc)?)),
    }
}
