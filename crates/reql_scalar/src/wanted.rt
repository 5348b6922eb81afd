// A document wanted as one type, with the fault that it is another.
ghost use Rattle.std.specs.Prelude.{◌≡◌, ◌++◌, IfOk};
ghost use Rattle.reql_datum.specs.Outcome.{Gives};
ghost use Rattle.reql_datum.specs.View.{plain};
ghost use Rattle.reql_rules.specs.Faults.{type_text};
ghost use Rattle.reql_rules.specs.Types.{mismatch, as_number, as_text, as_items};
ghost use Rattle.reql_scalar.specs.Told.{Tells};

use reql_datum::{Datum, Fault, Items, Memory, Name, Whole};
use std::alloc::Global;

fn type_text(alloc: Global, want: &str, found: &str) -> Result<Name, Memory>
    ensures { IfOk result (λ s. s ≡ type_text want.now found.now) }
{
    let text = format!(in alloc; "Expected type {} but found {}.", want, found)?;
    Name::of(alloc, &text)
}

fn mismatch(alloc: Global, want: &str, found: &Datum) -> Fault
    ensures { Tells result (mismatch want.now (plain found.now)) }
{
    let Ok(text) = type_text(alloc, want, found.type_name()) else {
        return Fault::Memory;
    };
    match found {
        Datum::Null => Fault::NonExistence(text),
        _ => Fault::QueryLogic(text),
    }
}

/// The number, or the fault that it is none.
pub(crate) fn as_number(alloc: Global, d: &Datum) -> Result<Whole, Fault>
    ensures { Gives (λ n. n) result (as_number (plain d.now)) }
{
    match d {
        Datum::Num(n) => Ok(*n),
        _ => Err(mismatch(alloc, "NUMBER", d)),
    }
}

/// The text, or the fault that it is none.
pub(crate) fn as_text(alloc: Global, d: &Datum) -> Result<&Name, Fault>
    ensures { Gives (λ s. s.now) result (as_text (plain d.now)) }
{
    match d {
        Datum::Text(text) => Ok(text),
        _ => Err(mismatch(alloc, "STRING", d)),
    }
}

/// The items, or the fault that it is no array.
#[tactic(auto, using(reql_datum::proofs::Back::back))]
pub(crate) fn as_items(alloc: Global, d: &Datum) -> Result<&Items, Fault>
    ensures { Gives (λ vs. vs.now) result (as_items (plain d.now)) }
{
    match d {
        Datum::List(items) => Ok(items),
        _ => Err(mismatch(alloc, "ARRAY", d)),
    }
}
