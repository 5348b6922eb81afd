// A place among the pieces of a text.
use crate::fault::{Fault, What};
use crate::spelling::put_option_name;
use crate::token::{Piece, Token};
use reql_term::Op;
use std::alloc::Global;

/// A parameter of a function around, by its name, and the number of its variable.
#[derive(Clone, Copy)]
pub(crate) struct Variable<'a> {
    pub name: &'a [u8],
    pub number: u64,
}

/// What is read of a text.
#[derive(Drop)]
pub(crate) struct Parser<'a, 't> {
    pub alloc: Global,
    tokens: &'t [Token<'a>],
    end: Token<'a>,
    place: usize,
    /// The parameters of the functions around, the innermost last.
    pub variables: Vec<Variable<'a>>,
    /// The number of the last variable that was made.
    pub made: u64,
    /// Whether `r.row` came since the innermost function around began.
    pub has_row: bool,
}

impl<'a, 't> Parser<'a, 't> {
    pub fn new(alloc: Global, tokens: &'t [Token<'a>], end: Token<'a>) -> Parser<'a, 't> {
        Parser {
            alloc,
            tokens,
            end,
            place: 0,
            variables: Vec::new(alloc),
            made: 0,
            has_row: false,
        }
    }

    /// How many pieces there are.
    pub fn len(&self) -> usize {
        self.tokens.len()
    }

    /// The piece that comes so many after the next one.
    pub fn ahead(&self, count: usize) -> Token<'a> {
        match self.tokens.get(self.place.saturating_add(count)) {
            Some(token) => *token,
            None => self.end,
        }
    }

    /// The next piece, which is not taken yet.
    pub fn peek(&self) -> Token<'a> {
        self.ahead(0)
    }

    /// Takes the next piece.
    pub fn take(&mut self) -> Token<'a> {
        let token = self.peek();
        self.place = self.place.saturating_add(1);
        token
    }

    /// Takes the next piece where it is this mark, and says whether it was.
    pub fn takes(&mut self, mark: u8) -> bool {
        if !self.peek().is(mark) {
            return false;
        }
        let _token = self.take();
        true
    }

    /// Takes the next piece, which has to be this mark.
    pub fn expect(&mut self, mark: u8) -> Result<(), Fault> {
        let token = self.take();
        if token.is(mark) {
            return Ok(());
        }
        Err(token.wrong(What::Mark(char::from(mark))))
    }

    /// Takes what stands behind a member of a list: a comma, and more may follow, or its end.
    pub fn goes_on(&mut self, end: u8) -> Result<bool, Fault> {
        let token = self.take();
        if token.is(b',') {
            return Ok(!self.takes(end));
        }
        if token.is(end) {
            return Ok(false);
        }
        Err(token.wrong(What::CommaOr(char::from(end))))
    }

    /// Takes a name.
    pub fn name(&mut self) -> Result<Token<'a>, Fault> {
        let token = self.take();
        if token.piece == Piece::Name {
            return Ok(token);
        }
        Err(token.wrong(What::Name))
    }

    /// The number of the variable of a name, where a function around has such a parameter.
    pub fn variable(&self, name: &[u8]) -> Option<u64> {
        let mut found = None;
        for variable in &self.variables {
            if variable.name == name {
                found = Some(variable.number);
            }
        }
        found
    }

    /// The number of a variable of its own.
    pub fn make(&mut self) -> u64 {
        self.made = self.made.saturating_add(1);
        self.made
    }

    /// Lets the last parameters go, down to so many.
    pub fn forget(&mut self, count: usize) {
        self.variables.truncate(count);
    }

    /// Whether a function begins here: the word `function`, or a name or names in parentheses, and an arrow.
    pub fn begins_function(&self) -> bool {
        if self.peek().piece == Piece::Name {
            return self.ahead(1).piece == Piece::Arrow || self.begins_with_word();
        }
        if !self.peek().is(b'(') {
            return false;
        }
        for place in 0..self.tokens.len() {
            let token = self.ahead(place.saturating_add(1));
            if token.is(b')') {
                return self.ahead(place.saturating_add(2)).piece == Piece::Arrow;
            }
            if token.piece != Piece::Name && !token.is(b',') {
                return false;
            }
        }
        false
    }

    /// Whether a function begins here with the word `function`.
    pub fn begins_with_word(&self) -> bool {
        self.peek().text == b"function".as_slice() && self.ahead(1).is(b'(')
    }

    /// Whether an object begins here that has the options of an operator with so many arguments: the last argument, behind as many
    /// as it takes at least, with names, all of its options, or where it takes no further argument.
    pub fn begins_options(&self, op: Op, count: usize) -> Result<bool, Fault> {
        if !self.peek().is(b'{') || count < op.least() as usize {
            return Ok(false);
        }
        let mut depth = 0u64;
        let mut has_options = false;
        let mut has_others = false;
        for place in 0..self.tokens.len() {
            let token = self.ahead(place);
            if token.is(b'{') || token.is(b'(') || token.is(b'[') {
                depth = depth.saturating_add(1);
            } else if token.is(b'}') || token.is(b')') || token.is(b']') {
                depth = depth.saturating_sub(1);
                if depth == 0 {
                    let is_last = self.ahead(place.saturating_add(1)).is(b')');
                    let is_full = !op.fits(count.saturating_add(1));
                    return Ok(is_last && (is_full || has_options && !has_others));
                }
            } else if depth == 1 && self.ahead(place.saturating_add(1)).is(b':') {
                if self.is_option(op, token)? {
                    has_options = true;
                } else {
                    has_others = true;
                }
            }
        }
        Ok(false)
    }

    // Whether a name is that of an option.
    fn is_option(&self, op: Op, token: Token<'a>) -> Result<bool, Fault> {
        if token.piece != Piece::Name {
            return Ok(false);
        }
        let mut name = Vec::new(self.alloc);
        put_option_name(&mut name, token.text)?;
        match str::from_utf8(&name) {
            Ok(name) => Ok(op.takes(name)),
            Err(_) => Ok(false),
        }
    }
}
