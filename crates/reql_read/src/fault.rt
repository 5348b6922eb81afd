// Why a body is no query.
ghost use Rattle.std.specs.Prelude.{◌≡◌};

use reql_datum::{Memory, Name, Refused};
use reql_json::JsonFault;
use std::alloc::AllocFailed;

/// Why a body is no query.
#[derive(Drop)]
pub enum ReadFault {
    /// It is no JSON text.
    NotJson,
    /// It has not the shape of a query.
    BadShape,
    /// A term's number is none: it is outside 1 to 255.
    UnknownTerm(u64),
    /// A term's number has no row in the table.
    LeftOut(u32),
    /// A term, by its number, does not take so many arguments.
    Arity(u32, u32),
    /// A term has no such optional argument, or a query no such option or not such a value of it.
    BadOptarg(Name),
    /// A number, or the name `$reql_type$`, that no document has.
    Number(JsonFault),
    Memory,
}

impl From<Memory> for ReadFault {
    ghost use Rattle.reql_read.specs.declared.fault.ReadFault.TheVariants.{Memory};

    ghost from_gives = { λ _ e. e ≡ Memory };

    fn from(_want: Memory) -> ReadFault {
        ReadFault::Memory
    }
}

impl<T: Drop> From<Refused<T>> for ReadFault {
    ghost use Rattle.reql_read.specs.declared.fault.ReadFault.TheVariants.{Memory};

    ghost from_gives = { λ _ e. e ≡ Memory };

    fn from(_want: Refused<T>) -> ReadFault {
        ReadFault::Memory
    }
}

impl<T: Drop> From<AllocFailed<T>> for ReadFault {
    ghost use Rattle.reql_read.specs.declared.fault.ReadFault.TheVariants.{Memory};

    ghost from_gives = { λ _ e. e ≡ Memory };

    fn from(_want: AllocFailed<T>) -> ReadFault {
        ReadFault::Memory
    }
}
