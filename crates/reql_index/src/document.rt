// The entries of a document in an index.
ghost use Rattle.std.specs.Prelude.{◌≡◌, [], ◌∷◌, ◌++◌, Bool, true, IfOk};
ghost use Rattle.std.specs.List.{filter};
ghost use Rattle.reql_datum.specs.Answer.{Answer};
ghost use Rattle.reql_datum.specs.Keys.{is_key};
ghost use Rattle.reql_datum.specs.Outcome.{Gives, Fails};
ghost use Rattle.reql_datum.specs.Plain.{Plain};
ghost use Rattle.reql_datum.specs.View.{plain};
ghost use Rattle.reql_rules.specs.Sorting.{distinct as distinct_of};
ghost use Rattle.reql_term.specs.Views.{index_of};
ghost use Rattle.reql_value_spec.specs.Index.{entries as entries_of, entries_of_value, entries_of_answer};

use reql_datum::{Datum, Fault, Items, Memory};
use reql_eval::function_datum;
use reql_operand::{Purse, STAGE};
use reql_seq::distinct;
use reql_term::{IndexDef, TableView};
use std::alloc::Global;
use std::slice;

/// The values at which a document has an entry in an index: what the index's function gives of it,
/// or in a multi index each distinct member of the array that it gives, rising. A value that is no
/// key is left out, and where the function faults there is none. The kind `V` of tables decides
/// nothing: an index's function reads none.
pub fn entries<V: TableView + Drop>(
    alloc: Global,
    def: &IndexDef,
    doc: &Datum,
) -> Result<Items, Memory>
    ensures { IfOk result (λ es. es ≡ entries_of (index_of def.now) (plain doc.now)) }
{
    let purse = Purse::new(STAGE);
    let answer = function_datum::<V>(alloc, def.func.term(), slice::from_ref(doc), &purse);
    of_answer(alloc, def.multi, &answer)
}

fn of_answer(alloc: Global, multi: bool, answer: &Result<Datum, Fault>) -> Result<Items, Memory>
    ensures { (a : Answer Plain) → Gives plain answer.now a
        → IfOk result (λ es. es ≡ entries_of_answer multi a) }
{
    match answer {
        Ok(value) => of_value(alloc, multi, value),
        Err(fault) => of_fault(alloc, fault),
    }
}

// A fault gives none; want of memory is handed on.
fn of_fault(alloc: Global, fault: &Fault) -> Result<Items, Memory>
    ensures { (a : Answer Plain) (multi : Bool) → Fails fault.now a
        → IfOk result (λ es. es ≡ entries_of_answer multi a) }
{
    match fault {
        Fault::Memory => Err(Memory),
        _ => Ok(Items::new(alloc)),
    }
}

fn of_value(alloc: Global, multi: bool, value: &Datum) -> Result<Items, Memory>
    ensures { IfOk result (λ es. es ≡ entries_of_value multi (plain value.now)) }
{
    if multi {
        return of_members(alloc, value);
    }
    if_key(alloc, value)
}

// In a multi index each distinct key of an array.
#[tactic(auto, using(reql_datum::proofs::Back::back))]
fn of_members(alloc: Global, value: &Datum) -> Result<Items, Memory>
    ensures { IfOk result (λ es. es ≡ entries_of_value true (plain value.now)) }
{
    match value {
        Datum::List(items) => {
            let keys = keys_in(alloc, items)?;
            let found = distinct(alloc, &keys)?;
            Ok(found)
        }
        _ => if_key(alloc, value),
    }
}

fn if_key(alloc: Global, value: &Datum) -> Result<Items, Memory>
    ensures { IfOk result (λ es. es ≡ filter is_key (plain value.now ∷ [])) }
{
    let mut keys = Items::new(alloc);
    add_if_key(&mut keys, value)?;
    Ok(keys)
}

fn add_if_key(keys: &mut Items, value: &Datum) -> Result<(), Memory>
    ensures { IfOk result (λ _. keys.new ≡ keys.old ++ filter is_key (plain value.now ∷ [])) }
{
    if !value.is_key() {
        return Ok(());
    }
    keys.push(value.copy()?)?;
    Ok(())
}

#[tactic(auto, using(reql_datum::proofs::Walks::walks))]
fn keys_in(alloc: Global, items: &Items) -> Result<Items, Memory>
    ensures { IfOk result (λ keys. keys ≡ filter is_key items.now) }
{
    let mut keys = Items::new(alloc);
    let mut place = 0;
    while let Some(item) = items.at(place) {
        add_if_key(&mut keys, item)?;
        place += 1;
    }
    Ok(keys)
}
