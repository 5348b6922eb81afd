// The pieces of a text.
use crate::fault::{Fault, What};

/// What a piece is.
#[derive(Clone, Copy, Debug, PartialEq, Eq)]
pub(crate) enum Piece {
    Name,
    Number,
    /// A text, with its quotes.
    Text,
    /// `=>`
    Arrow,
    /// A mark of one character, of `()[]{}.,:;`.
    Mark(u8),
    /// Nothing more.
    End,
}

/// A piece of a text, and where it begins, in bytes.
#[derive(Clone, Copy)]
pub(crate) struct Token<'a> {
    pub piece: Piece,
    pub text: &'a [u8],
    pub at: usize,
}

impl<'a> Token<'a> {
    /// Whether it is this mark.
    pub fn is(self, mark: u8) -> bool {
        self.piece == Piece::Mark(mark)
    }

    /// What is wrong with it.
    pub fn wrong(self, what: What) -> Fault {
        Fault::At { at: self.at, what }
    }
}
