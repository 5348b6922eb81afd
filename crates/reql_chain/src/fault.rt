// Why a text is no query.
use std::alloc::{AllocError, AllocFailed};

/// What is wrong with a text.
#[derive(Clone, Copy, Debug, PartialEq, Eq)]
pub enum What {
    /// A character that nothing begins with.
    Character,
    /// Something that looks like a number and is none.
    Number,
    /// A text without an end, or with an escape or a control character that JSON doesn't have.
    Text,
    /// No term begins here.
    Term,
    /// There is no operator of this name.
    Operator,
    /// No function around has a parameter of this name.
    Variable,
    /// A name has to stand here.
    Name,
    /// The word `return` has to stand here, since a function has one expression.
    Return,
    /// This mark has to stand here.
    Mark(char),
    /// A comma or this mark has to stand here.
    CommaOr(char),
    /// The query is whole, and something follows it.
    Rest,
    /// It nests too deep here.
    Depth,
}

/// Why a text is no query.
#[derive(Clone, Copy, Debug, PartialEq, Eq)]
pub enum ChainFault {
    /// This is wrong at this column, counted in characters from 1.
    At { column: usize, what: What },
    /// There was no memory for it.
    Memory,
}

/// The same, while it is read: `at` counts bytes, from 0.
#[derive(Clone, Copy, Debug, PartialEq, Eq)]
pub(crate) enum Fault {
    At { at: usize, what: What },
    Memory,
}

impl From<AllocError> for Fault {
    fn from(_: AllocError) -> Fault {
        Fault::Memory
    }
}

impl<T: Drop> From<AllocFailed<T>> for Fault {
    fn from(_: AllocFailed<T>) -> Fault {
        Fault::Memory
    }
}
