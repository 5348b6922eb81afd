// Why an evaluation gives no document.
ghost use Rattle.std.specs.Prelude.{◌≡◌};

use crate::name::Name;
use reql_memory::{Memory, Refused};
use std::alloc::{AllocError, AllocFailed};

/// Why an evaluation gives no document: the kind of the fault, with the text that a client is told.
///
/// The kinds are those of the ReQL error types. A definition answers one of them as a `Reason`;
/// want of memory is free, so it is no reason.
#[derive(Drop)]
pub enum Fault {
    /// A wrong type, a wrong argument, or a document that can't be used so.
    QueryLogic(Name),
    /// A field, an index place or a row that isn't there, so that a default may take its place.
    NonExistence(Name),
    /// An array or a depth above its limit.
    ResourceLimit(Name),
    /// An operation that couldn't be done at this moment.
    OpFailed(Name),
    /// An error that the query itself raised.
    User(Name),
    /// An error without a text, on its way to the default around it. Only called functions answer it.
    Empty,
    Memory,
}

impl From<Memory> for Fault {
    ghost use Rattle.reql_datum.specs.declared.fault.Fault.TheVariants.{Memory};

    ghost from_gives = { λ _ e. e ≡ Memory };

    fn from(_want: Memory) -> Fault {
        Fault::Memory
    }
}

impl<T: Drop> From<Refused<T>> for Fault {
    ghost use Rattle.reql_datum.specs.declared.fault.Fault.TheVariants.{Memory};

    ghost from_gives = { λ _ e. e ≡ Memory };

    fn from(_want: Refused<T>) -> Fault {
        Fault::Memory
    }
}

impl From<AllocError> for Fault {
    ghost use Rattle.reql_datum.specs.declared.fault.Fault.TheVariants.{Memory};

    ghost from_gives = { λ _ e. e ≡ Memory };

    fn from(_want: AllocError) -> Fault {
        Fault::Memory
    }
}

impl<T: Drop> From<AllocFailed<T>> for Fault {
    ghost use Rattle.reql_datum.specs.declared.fault.Fault.TheVariants.{Memory};

    ghost from_gives = { λ _ e. e ≡ Memory };

    fn from(_want: AllocFailed<T>) -> Fault {
        Fault::Memory
    }
}
