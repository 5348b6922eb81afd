// Terms of chained text.
ghost use Rattle.std.specs.Prelude.{◌≡◌, ◌≤◌, ◌++◌, List, ℕ, codes, count_by, length, take, IfErr, IfOk};
ghost use Rattle.reql_chain.specs.Columns.{Points, begins_character, column_of};

use crate::calls::{Call, array_of, copied, function_of, term_of, variable_of};
use crate::fault::{ChainFault, Fault, What};
use crate::functions::takes_functions;
use crate::lexing::tokens_of;
use crate::names::op_named;
use crate::parser::{Parser, Variable};
use crate::spelling::{put_name, put_number, put_option_name, put_text};
use crate::token::{Piece, Token};
use reql_term::Op;
use std::alloc::Global;

// How deep terms nest in a text, in steps of the reader: each array, object, call or pair of parentheses is some three.
const DEEPEST: u32 = 400;

// How names in an object are meant.
#[derive(Clone, Copy, PartialEq, Eq)]
enum Names {
    /// As they stand.
    Fields,
    /// In the words of options.
    Options,
}

// A term, with what is called on it.
#[cycle(chain)]
fn term(parser: &mut Parser<'_, '_>, depth: u32) -> Result<Vec<u8>, Fault> {
    if depth == 0 {
        return Err(parser.peek().wrong(What::Depth));
    }
    if parser.begins_function() {
        return function(parser, depth - 1);
    }
    let mut so_far = first(parser, depth - 1)?;
    for _ in 0..parser.len() {
        let token = parser.peek();
        if token.is(b'(') {
            let _token = parser.take();
            so_far = call(parser, Op::Bracket, Some(so_far), depth - 1)?;
        } else if token.is(b'.') {
            let _token = parser.take();
            let op = operator(parser)?;
            parser.expect(b'(')?;
            so_far = call(parser, op, Some(so_far), depth - 1)?;
        } else {
            break;
        }
    }
    Ok(so_far)
}

fn operator(parser: &mut Parser<'_, '_>) -> Result<Op, Fault> {
    let name = parser.name()?;
    match op_named(name.text) {
        Some(op) => Ok(op),
        None => Err(name.wrong(What::Operator)),
    }
}

// A term without what is called on it.
#[cycle(chain)]
fn first(parser: &mut Parser<'_, '_>, depth: u32) -> Result<Vec<u8>, Fault> {
    if depth == 0 {
        return Err(parser.peek().wrong(What::Depth));
    }
    let token = parser.take();
    match token.piece {
        Piece::Number | Piece::Text => literal(parser.alloc, token),
        Piece::Name if is_root(token) => root(parser, depth - 1),
        Piece::Name => named(parser, token),
        Piece::Mark(b'[') => array(parser, depth - 1),
        Piece::Mark(b'{') => object(parser, Names::Fields, depth - 1),
        Piece::Mark(b'(') => enclosed(parser, depth - 1),
        _ => Err(token.wrong(What::Term)),
    }
}

fn is_root(token: Token<'_>) -> bool {
    token.text == b"r".as_slice()
}

fn literal(alloc: Global, token: Token<'_>) -> Result<Vec<u8>, Fault> {
    let mut out = Vec::new(alloc);
    if token.piece == Piece::Number {
        put_number(&mut out, token)?;
    } else {
        put_text(&mut out, token)?;
    }
    Ok(out)
}

// What a name by itself is: a constant of JSON, or a parameter of a function around.
fn named(parser: &Parser<'_, '_>, token: Token<'_>) -> Result<Vec<u8>, Fault> {
    if let Some(number) = parser.variable(token.text) {
        return variable_of(parser.alloc, number);
    }
    match token.text {
        b"true" | b"false" | b"null" => copied(parser.alloc, token.text),
        _ => Err(token.wrong(What::Variable)),
    }
}

// A term in parentheses, behind the first of them.
#[cycle(chain)]
fn enclosed(parser: &mut Parser<'_, '_>, depth: u32) -> Result<Vec<u8>, Fault> {
    if depth == 0 {
        return Err(parser.peek().wrong(What::Depth));
    }
    let inside = term(parser, depth - 1)?;
    parser.expect(b')')?;
    Ok(inside)
}

// What begins with `r`, behind it.
#[cycle(chain)]
fn root(parser: &mut Parser<'_, '_>, depth: u32) -> Result<Vec<u8>, Fault> {
    if depth == 0 {
        return Err(parser.peek().wrong(What::Depth));
    }
    if parser.takes(b'(') {
        return enclosed(parser, depth - 1);
    }
    parser.expect(b'.')?;
    let name = parser.name()?;
    match name.text {
        b"expr" => {
            parser.expect(b'(')?;
            return enclosed(parser, depth - 1);
        }
        b"row" => {
            parser.has_row = true;
            return copied(parser.alloc, b"[13,[]]");
        }
        b"minval" => return copied(parser.alloc, b"[180,[]]"),
        b"maxval" => return copied(parser.alloc, b"[181,[]]"),
        _ => {}
    }
    let Some(op) = op_named(name.text) else {
        return Err(name.wrong(What::Operator));
    };
    parser.expect(b'(')?;
    call(parser, op, None, depth - 1)
}

// An array, behind its bracket.
#[cycle(chain)]
fn array(parser: &mut Parser<'_, '_>, depth: u32) -> Result<Vec<u8>, Fault> {
    if depth == 0 {
        return Err(parser.peek().wrong(What::Depth));
    }
    let mut items = Vec::new(parser.alloc);
    if !parser.takes(b']') {
        for _ in 0..parser.len() {
            let item = term(parser, depth - 1)?;
            items.push(item)?;
            if !parser.goes_on(b']')? {
                break;
            }
        }
    }
    array_of(parser.alloc, &items)
}

// An object, behind its brace.
#[cycle(chain)]
fn object(parser: &mut Parser<'_, '_>, names: Names, depth: u32) -> Result<Vec<u8>, Fault> {
    if depth == 0 {
        return Err(parser.peek().wrong(What::Depth));
    }
    let mut out = Vec::new(parser.alloc);
    out.push(b'{')?;
    if !parser.takes(b'}') {
        for place in 0..parser.len() {
            if place > 0 {
                out.push(b',')?;
            }
            put_key(&mut out, parser.take(), names)?;
            parser.expect(b':')?;
            let value = term(parser, depth - 1)?;
            out.push(b':')?;
            out.extend_from_slice(&value)?;
            if !parser.goes_on(b'}')? {
                break;
            }
        }
    }
    out.push(b'}')?;
    Ok(out)
}

fn put_key(out: &mut Vec<u8>, token: Token<'_>, names: Names) -> Result<(), Fault> {
    match (token.piece, names) {
        (Piece::Name, Names::Fields) => put_name(out, token.text)?,
        (Piece::Name, Names::Options) => {
            out.push(b'"')?;
            put_option_name(out, token.text)?;
            out.push(b'"')?;
        }
        (Piece::Text, _) => put_text(out, token)?,
        _ => return Err(token.wrong(What::Name)),
    }
    Ok(())
}

// A call of an operator on what stands before the dot, behind its parenthesis.
#[cycle(chain)]
fn call(
    parser: &mut Parser<'_, '_>,
    op: Op,
    before: Option<Vec<u8>>,
    depth: u32,
) -> Result<Vec<u8>, Fault> {
    if depth == 0 {
        return Err(parser.peek().wrong(What::Depth));
    }
    let mut arguments = Vec::new(parser.alloc);
    let mut options = None;
    if let Some(before) = before {
        arguments.push(before)?;
    }
    if !parser.takes(b')') {
        for _ in 0..parser.len() {
            if parser.begins_options(op, arguments.len())? {
                let _brace = parser.take();
                options = Some(object(parser, Names::Options, depth - 1)?);
                parser.expect(b')')?;
                break;
            }
            let argument = argument(parser, op, depth - 1)?;
            arguments.push(argument)?;
            if !parser.goes_on(b')')? {
                break;
            }
        }
    }
    term_of(
        parser.alloc,
        Call {
            op,
            arguments,
            options,
        },
    )
}

// An argument: where it has `r.row` and the operator takes functions, a function of that.
#[cycle(chain)]
fn argument(parser: &mut Parser<'_, '_>, op: Op, depth: u32) -> Result<Vec<u8>, Fault> {
    if depth == 0 {
        return Err(parser.peek().wrong(What::Depth));
    }
    let had_row = parser.has_row;
    parser.has_row = false;
    let argument = term(parser, depth - 1)?;
    let is_function = parser.has_row && takes_functions(op);
    parser.has_row = had_row || parser.has_row && !is_function;
    if !is_function {
        return Ok(argument);
    }
    let number = parser.make();
    function_of(parser.alloc, &[number], &argument)
}

// A function: `(x, y) => TERM`, `x => TERM`, or `function (x, y) { return TERM; }`.
#[cycle(chain)]
fn function(parser: &mut Parser<'_, '_>, depth: u32) -> Result<Vec<u8>, Fault> {
    if depth == 0 {
        return Err(parser.peek().wrong(What::Depth));
    }
    let before = parser.variables.len();
    let has_word = parser.begins_with_word();
    if has_word {
        let _word = parser.take();
    }
    let numbers = parameters(parser)?;
    begin_body(parser, has_word)?;
    let had_row = parser.has_row;
    let body = term(parser, depth - 1)?;
    parser.has_row = had_row;
    end_body(parser, has_word)?;
    parser.forget(before);
    function_of(parser.alloc, &numbers, &body)
}

// What stands between the parameters of a function and its body.
fn begin_body(parser: &mut Parser<'_, '_>, has_word: bool) -> Result<(), Fault> {
    if has_word {
        parser.expect(b'{')?;
        let word = parser.name()?;
        if word.text != b"return".as_slice() {
            return Err(word.wrong(What::Return));
        }
        return Ok(());
    }
    let arrow = parser.take();
    if arrow.piece != Piece::Arrow {
        return Err(arrow.wrong(What::Term));
    }
    Ok(())
}

// What stands behind the body of a function.
fn end_body(parser: &mut Parser<'_, '_>, has_word: bool) -> Result<(), Fault> {
    if !has_word {
        return Ok(());
    }
    let _is_ended = parser.takes(b';');
    parser.expect(b'}')
}

// The parameters of a function: their variables' numbers.
fn parameters(parser: &mut Parser<'_, '_>) -> Result<Vec<u64>, Fault> {
    let mut numbers = Vec::new(parser.alloc);
    if !parser.takes(b'(') {
        let number = parameter(parser)?;
        numbers.push(number)?;
        return Ok(numbers);
    }
    if parser.takes(b')') {
        return Ok(numbers);
    }
    for _ in 0..parser.len() {
        let number = parameter(parser)?;
        numbers.push(number)?;
        if !parser.goes_on(b')')? {
            break;
        }
    }
    Ok(numbers)
}

fn parameter(parser: &mut Parser<'_, '_>) -> Result<u64, Fault> {
    let name = parser.name()?;
    let number = parser.make();
    parser.variables.push(Variable {
        name: name.text,
        number,
    })?;
    Ok(number)
}

// The term of a whole text.
fn whole(alloc: Global, text: &[u8]) -> Result<Vec<u8>, Fault> {
    let tokens = tokens_of(alloc, text)?;
    let end = Token {
        piece: Piece::End,
        text: &text[text.len()..],
        at: text.len(),
    };
    let mut parser = Parser::new(alloc, &tokens, end);
    let term = term(&mut parser, DEEPEST)?;
    let _is_ended = parser.takes(b';');
    let rest = parser.take();
    if rest.piece != Piece::End {
        return Err(rest.wrong(What::Rest));
    }
    Ok(term)
}

fn begins_character(byte: u8) -> bool
    ensures { result ≡ begins_character byte }
{
    byte < 0x80 || byte >= 0xc0
}

// How many characters begin before a byte.
fn characters_before(text: &[u8], at: usize) -> usize
    ensures count { result ≡ count_by begins_character (take at text.now) }
    ensures within { result ≤ length text.now }
{
    text.iter()
        .take(at)
        .filter(|byte| begins_character(**byte))
        .count()
}

// The column of a byte: how many characters begin before it, from 1.
fn column_of(text: &[u8], at: usize) -> usize
    ensures { result ≡ column_of text.now at }
{
    characters_before(text, at) + 1
}

/// The body of the request that evaluates a term of chained text: a START without options.
pub fn body_of(alloc: Global, text: &str) -> Result<Vec<u8>, ChainFault>
    ensures start { IfOk result (λ body. (term : List ℕ) × (body.items ≡ codes "[1," ++ (term ++ codes "]"))) }
    ensures fault { IfErr result (λ fault. Points text.now fault) }
{
    let text = text.as_bytes();
    let term = match whole(alloc, text) {
        Ok(term) => term,
        Err(Fault::Memory) => return Err(ChainFault::Memory),
        Err(Fault::At { at, what }) => {
            let column = column_of(text, at);
            return Err(ChainFault::At { column, what });
        }
    };
    match start_of(alloc, &term) {
        Ok(body) => Ok(body),
        Err(_) => Err(ChainFault::Memory),
    }
}

fn start_of(alloc: Global, term: &[u8]) -> Result<Vec<u8>, Fault>
    ensures { IfOk result (λ body. body.items ≡ codes "[1," ++ (term.now ++ codes "]")) }
{
    let mut body = Vec::new(alloc);
    body.extend_from_slice(b"[1,")?;
    body.extend_from_slice(term)?;
    body.push(b']')?;
    Ok(body)
}
