// What a client is told of a fault of reading.
ghost use Rattle.std.specs.Prelude.{◌≡◌, ◌++◌, codes, IfOk, string_bytes};
ghost use Rattle.std.specs.Fmt.{decimal};
ghost use Rattle.reql_read.specs.FaultText.{unknown_text, left_out_text, arity_text, option_text, fault_text, number_text};

use crate::fault::ReadFault;
use reql_datum::{Memory, Name};
use reql_json::JsonFault;
use std::alloc::Global;

fn number_text(fault: JsonFault) -> &'static str
    ensures { result.now ≡ number_text fault }
{
    match fault {
        JsonFault::Fraction => "Number is not whole.",
        JsonFault::OverRange => "Number outside the range of whole numbers.",
        JsonFault::Reserved => "Reserved name `$reql_type$`.",
        JsonFault::Memory => "Out of memory.",
    }
}

fn unknown(alloc: Global, number: u64) -> Result<Name, Memory>
    ensures { IfOk result (λ s. s ≡ unknown_text number) }
{
    let text = format!(in alloc; "Unknown term {}.", number)?;
    Name::of(alloc, text.as_str())
}

fn left_out(alloc: Global, number: u32) -> Result<Name, Memory>
    ensures { IfOk result (λ s. s ≡ left_out_text number) }
{
    let text = format!(in alloc; "Term {} is not supported.", number)?;
    Name::of(alloc, text.as_str())
}

fn arity(alloc: Global, number: u32, count: u32) -> Result<Name, Memory>
    ensures { IfOk result (λ s. s ≡ arity_text number count) }
{
    let text = format!(in alloc; "Term {} does not take {} arguments.", number, count)?;
    Name::of(alloc, text.as_str())
}

fn bad_option(alloc: Global, name: &Name) -> Result<Name, Memory>
    ensures { IfOk result (λ s. s ≡ option_text name.now) }
{
    let text = format!(in alloc; "Unrecognized optional argument `{}`.", name.as_str())?;
    Name::of(alloc, text.as_str())
}

impl ReadFault {
    /// The text that a client is told.
    pub fn text(&self, alloc: Global) -> Result<Name, Memory>
        ensures { IfOk result (λ s. s ≡ fault_text self.now) }
    {
        match self {
            ReadFault::NotJson => Name::of(alloc, "Query is not JSON."),
            ReadFault::BadShape => Name::of(alloc, "Query has a wrong shape."),
            ReadFault::UnknownTerm(number) => unknown(alloc, *number),
            ReadFault::LeftOut(number) => left_out(alloc, *number),
            ReadFault::Arity(number, count) => arity(alloc, *number, *count),
            ReadFault::BadOptarg(name) => bad_option(alloc, name),
            ReadFault::Number(fault) => Name::of(alloc, number_text(*fault)),
            ReadFault::Memory => Name::of(alloc, "Out of memory."),
        }
    }
}
