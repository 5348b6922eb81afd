// Why a request has no plan.
ghost use Rattle.std.specs.Prelude.{◌≡◌};

use reql_datum::Memory;
use std::alloc::AllocError;

/// Why a request has no plan.
#[derive(Clone, Copy, Debug, PartialEq, Eq, Drop)]
pub enum CompileFault {
    /// A variable, by its id, stands in no function that has it; 0 for the parameter of the nearest
    /// function of one parameter.
    Unbound(u64),
    /// A write or a command stands inside another term, or FOR_EACH takes no function of one
    /// parameter whose body is a write or an array of writes.
    WriteNested,
    /// The name of a database, a table, a primary key or an index is no literal text.
    TableNotLiteral,
    /// CHANGES stands inside another term, or follows one that no feed can follow.
    FeedShape,
    /// `include_offsets` is true of a feed that isn't of the first ones by an index.
    OffsetsNeedLimit,
    Memory,
}

impl From<Memory> for CompileFault {
    ghost use Rattle.reql_faults.specs.declared.fault.CompileFault.TheVariants.{Memory};

    ghost from_gives = { λ _ e. e ≡ Memory };

    fn from(_want: Memory) -> CompileFault {
        CompileFault::Memory
    }
}

impl From<AllocError> for CompileFault {
    ghost use Rattle.reql_faults.specs.declared.fault.CompileFault.TheVariants.{Memory};

    ghost from_gives = { λ _ e. e ≡ Memory };

    fn from(_want: AllocError) -> CompileFault {
        CompileFault::Memory
    }
}
