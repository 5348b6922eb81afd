// The texts of faults, and a document wanted as one type.
ghost use Rattle.std.specs.Prelude.{◌≡◌, IfOk};
ghost use Rattle.reql_datum.specs.Answer.{Answer, non_existence, query_logic};
ghost use Rattle.reql_datum.specs.Outcome.{Gives};
ghost use Rattle.reql_datum.specs.View.{plain};
ghost use Rattle.reql_rules.specs.Faults.{type_text, nothing_to_aggregate, number_fault};
ghost use Rattle.reql_rules.specs.Types.{as_items, as_number, truth};
ghost use Rattle.reql_rules.specs.Mapping.{if_any};
ghost use Rattle.reql_rules.specs.Numbers.{exact};
ghost use Rattle.reql_datum.specs.Plain.{Plain};
ghost use Rattle.reql_seq.specs.Seen.{key_seen};

use reql_datum::{Datum, Fault, Items, Memory, Name, NumFault, Whole};
use std::alloc::Global;

/// What is told where there is nothing to make one value of.
pub(crate) fn nothing_text(alloc: Global) -> Result<Name, Memory>
    ensures { IfOk result (λ s. non_existence s ≡ nothing_to_aggregate) }
{
    Name::of(alloc, "Cannot aggregate an empty sequence.")
}

/// What is told where one type is wanted and another is found.
pub(crate) fn type_text(alloc: Global, want: &str, found: &str) -> Result<Name, Memory>
    ensures { IfOk result (λ s. s ≡ type_text want.now found.now) }
{
    match format!(in alloc; "Expected type {} but found {}.", want, found) {
        Ok(text) => Name::of(alloc, text.as_str()),
        Err(_) => Err(Memory),
    }
}

/// The items of a list; what is no list is a fault.
#[tactic(auto, using(reql_rules::proofs::Lists::listed_again))]
pub(crate) fn items_in(alloc: Global, d: &Datum) -> Result<&Items, Fault>
    ensures { Gives (λ items. items.now) result (as_items (plain d.now)) }
{
    match d {
        Datum::List(items) => Ok(items),
        Datum::Null => Err(Fault::NonExistence(type_text(alloc, "ARRAY", "NULL")?)),
        _ => Err(Fault::QueryLogic(type_text(alloc, "ARRAY", d.type_name())?)),
    }
}

/// The number that a document is; what is no number is a fault.
pub(crate) fn number_in(alloc: Global, d: &Datum) -> Result<Whole, Fault>
    ensures { Gives (λ n. n) result (as_number (plain d.now)) }
{
    match d {
        Datum::Num(n) => Ok(*n),
        Datum::Null => Err(Fault::NonExistence(type_text(alloc, "NUMBER", "NULL")?)),
        _ => Err(Fault::QueryLogic(type_text(alloc, "NUMBER", d.type_name())?)),
    }
}

/// The number that arithmetic gave, or its fault.
pub(crate) fn exact(alloc: Global, answer: Result<Whole, NumFault>) -> Result<Whole, Fault>
    ensures { Gives (λ n. n) result (exact answer) }
{
    match answer {
        Ok(n) => Ok(n),
        Err(fault) => Err(Fault::QueryLogic(Name::of(alloc, number_text(fault))?)),
    }
}

fn number_text(fault: NumFault) -> &'static str
    ensures { query_logic result.now ≡ number_fault fault }
{
    match fault {
        NumFault::OverRange => "Number outside the range of whole numbers.",
        NumFault::ZeroDivisor => "Cannot divide by zero.",
        NumFault::NotWhole => "Quotient is not a whole number.",
    }
}

/// None in place of NON_EXISTENCE; other faults stay.
pub(crate) fn if_any(answer: Result<Datum, Fault>) -> Result<Option<Datum>, Fault>
    ensures { (a : Answer Plain) → Gives plain answer a → Gives key_seen result (if_any a) }
{
    match answer {
        Ok(value) => Ok(Some(value)),
        Err(Fault::NonExistence(_)) => Ok(None),
        Err(fault) => Err(fault),
    }
}

/// Whether a document counts as true: false and null don't, all else does.
pub(crate) fn is_true(d: &Datum) -> bool
    ensures { result ≡ truth (plain d.now) }
{
    match d {
        Datum::Bool(b) => *b,
        Datum::Null => false,
        _ => true,
    }
}
