// APPEND, PREPEND, INSERT_AT, DELETE_AT, CHANGE_AT and SPLICE_AT.
ghost use Rattle.std.specs.Prelude.{◌≡◌, ◌+◌, ◌++◌, ◌∷◌, ◌<◌, ◌^◌, [], suc, take, drop, length, pos, IfOk, slice_range};
ghost use Rattle.reql_datum.specs.Answer.{non_existence};
ghost use Rattle.reql_datum.specs.Outcome.{Gives};
ghost use Rattle.reql_datum.specs.View.{plain};
ghost use Rattle.reql_rules.specs.Edits.{exchanged, put_between, delete_one, delete_range, delete, change, splice, edit};
ghost use Rattle.reql_rules.specs.Faults.{out_of_bounds};
ghost use Rattle.reql_rules.specs.Places.{counted, place, item_place, gap_place, boundary};
ghost use Rattle.reql_scalar.specs.Told.{Tells};

use crate::parts::{add, exchanged, only};
use crate::wanted::{as_items, as_number};
use reql_datum::{Datum, Fault, Items, Memory, Name};
use reql_rules::Edit;
use std::alloc::Global;

fn bounds_text(alloc: Global, at: i64) -> Result<Name, Memory>
    ensures { IfOk result (λ s. out_of_bounds at ≡ non_existence s) }
{
    let text = format!(in alloc; "Index out of bounds: {}.", at)?;
    Name::of(alloc, &text)
}

fn out_of_bounds(alloc: Global, at: i64) -> Fault
    ensures { Tells result (out_of_bounds at) }
{
    match bounds_text(alloc, at) {
        Ok(text) => Fault::NonExistence(text),
        Err(_) => Fault::Memory,
    }
}

// The place that a number stands for, where -1 stands just below the end.
fn counted(end: usize, at: i64) -> Option<usize>
    requires { end < 2 ^ 63 }
    ensures { result ≡ counted end at }
{
    if 0 <= at {
        return Some(at as usize);
    }
    let back = (-(at + 1)) as usize;
    if back < end {
        Some(end - (back + 1))
    } else {
        None
    }
}

fn place(alloc: Global, end: usize, places: usize, at: i64) -> Result<usize, Fault>
    requires { end < 2 ^ 63 }
    ensures value { Gives (λ p. p) result (place end places at) }
    ensures within { IfOk result (λ p. p < places) }
{
    match counted(end, at) {
        Some(place) if place < places => Ok(place),
        _ => Err(out_of_bounds(alloc, at)),
    }
}

fn item_place(alloc: Global, list: &Items, at: i64) -> Result<usize, Fault>
    ensures value { Gives (λ p. p) result (item_place list.now at) }
    ensures small { IfOk result (λ p. p < 2 ^ 63) }
{
    let size = list.as_slice().len();
    place(alloc, size, size, at)
}

fn gap_place(alloc: Global, list: &Items, at: i64) -> Result<usize, Fault>
    ensures { Gives (λ p. p) result (gap_place list.now at) }
{
    let size = list.as_slice().len();
    place(alloc, size + 1, size + 1, at)
}

fn boundary(alloc: Global, list: &Items, at: i64) -> Result<usize, Fault>
    ensures { Gives (λ p. p) result (boundary list.now at) }
{
    let size = list.as_slice().len();
    place(alloc, size, size + 1, at)
}

fn appended(list: &Items, item: &Datum) -> Result<Items, Memory>
    ensures { IfOk result (λ r. r ≡ list.now ++ plain item.now ∷ []) }
{
    let mut longer = list.copy()?;
    add(&mut longer, item)?;
    Ok(longer)
}

fn put_between(alloc: Global, list: &Items, at: i64, others: &Items) -> Result<Items, Fault>
    ensures { Gives (λ r. r) result (put_between list.now at others.now) }
{
    let place = gap_place(alloc, list, at)?;
    Ok(exchanged(alloc, list, place, place, others)?)
}

fn prepended(alloc: Global, list: &Items, item: &Datum) -> Result<Items, Memory>
    ensures { IfOk result (λ r. r ≡ plain item.now ∷ list.now) }
{
    let others = only(alloc, item)?;
    exchanged(alloc, list, 0, 0, &others)
}

fn inserted(alloc: Global, list: &Items, at: i64, item: &Datum) -> Result<Items, Fault>
    ensures { Gives (λ r. r) result (put_between list.now at (plain item.now ∷ [])) }
{
    let others = only(alloc, item)?;
    put_between(alloc, list, at, &others)
}

fn without_one(alloc: Global, list: &Items, at: i64) -> Result<Items, Fault>
    ensures { Gives (λ r. r) result (delete_one list.now at) }
{
    let place = item_place(alloc, list, at)?;
    Ok(exchanged(alloc, list, place, place + 1, &Items::new(alloc))?)
}

fn without_range(alloc: Global, list: &Items, from: i64, to: i64) -> Result<Items, Fault>
    ensures { Gives (λ r. r) result (delete_range list.now from to) }
{
    let first = boundary(alloc, list, from)?;
    let end = boundary(alloc, list, to)?;
    Ok(exchanged(alloc, list, first, first.max(end), &Items::new(alloc))?)
}

fn deleted(alloc: Global, list: &Items, at: i64, to: &Datum) -> Result<Items, Fault>
    ensures { Gives (λ r. r) result (delete list.now at (plain to.now)) }
{
    match to {
        Datum::Null => without_one(alloc, list, at),
        _ => {
            let end = as_number(alloc, to)?;
            without_range(alloc, list, at, end.get())
        }
    }
}

fn changed(alloc: Global, list: &Items, at: i64, item: &Datum) -> Result<Items, Fault>
    ensures { Gives (λ r. r) result (change list.now at (plain item.now)) }
{
    let place = item_place(alloc, list, at)?;
    let others = only(alloc, item)?;
    Ok(exchanged(alloc, list, place, place + 1, &others)?)
}

fn spliced(alloc: Global, list: &Items, at: i64, others: &Datum) -> Result<Items, Fault>
    ensures { Gives (λ r. r) result (splice list.now at (plain others.now)) }
{
    let others = as_items(alloc, others)?;
    put_between(alloc, list, at, others)
}

/// The edited list, with one document more, less or changed, or with the documents of an array put
/// in. A place below 0 counts from the end; one outside the list is a fault. DELETE_AT goes up to
/// the place that the document says, or takes one where it is null.
pub fn edit(alloc: Global, op: Edit, list: &Items, at: i64, item: &Datum) -> Result<Items, Fault>
    ensures { Gives (λ r. r) result (edit op list.now at (plain item.now)) }
{
    match op {
        Edit::Append => Ok(appended(list, item)?),
        Edit::Prepend => Ok(prepended(alloc, list, item)?),
        Edit::InsertAt => inserted(alloc, list, at, item),
        Edit::DeleteAt => deleted(alloc, list, at, item),
        Edit::ChangeAt => changed(alloc, list, at, item),
        Edit::SpliceAt => spliced(alloc, list, at, item),
    }
}
