ghost use Rattle.std.specs.Prelude.{◌≡◌};

use std::alloc::{AllocError, AllocFailed};

/// Want of memory. It stands for nothing else, and what answers it leaves its objects as they were.
#[derive(Clone, Copy, PartialEq, Eq, Debug)]
pub struct Memory;

/// Want of memory that hands the argument back, with all else unchanged.
#[derive(Debug, Drop)]
pub struct Refused<T> {
    pub back: T,
}

impl From<AllocError> for Memory {
    ghost from_gives = { λ _ e. e ≡ record {} };

    fn from(_want: AllocError) -> Memory {
        Memory
    }
}

impl<T: Drop> From<AllocFailed<T>> for Memory {
    ghost from_gives = { λ _ e. e ≡ record {} };

    fn from(_want: AllocFailed<T>) -> Memory {
        Memory
    }
}

impl<T: Drop> From<Refused<T>> for Memory {
    ghost from_gives = { λ _ e. e ≡ record {} };

    fn from(_want: Refused<T>) -> Memory {
        Memory
    }
}
