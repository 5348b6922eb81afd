// A text as pieces.
ghost use Rattle.std.specs.Prelude.{◌≡◌, ◌≤◌, length, IfOk, IfSome};

use crate::fault::{Fault, What};
use crate::token::{Piece, Token};
use std::alloc::Global;

fn is_space(byte: u8) -> bool {
    matches!(byte, b' ' | b'\t' | b'\r' | b'\n')
}

fn begins_name(byte: u8) -> bool {
    byte.is_ascii_alphabetic() || byte == b'_' || byte == b'$'
}

fn is_of_name(byte: u8) -> bool {
    begins_name(byte) || byte.is_ascii_digit()
}

fn is_of_number(byte: u8) -> bool {
    byte.is_ascii_digit() || matches!(byte, b'.' | b'e' | b'E' | b'+' | b'-')
}

fn is_mark(byte: u8) -> bool {
    matches!(
        byte,
        b'(' | b')' | b'[' | b']' | b'{' | b'}' | b'.' | b',' | b':' | b';'
    )
}

// How many bytes a text has that begins with this quote, with both quotes, or none where it has no end.
fn text_len(bytes: &[u8], quote: u8) -> Option<usize>
    ensures { IfSome result (λ n. (1 ≤ n) × (n ≤ length bytes.now)) }
{
    let mut is_escaped = false;
    for (place, byte) in bytes.iter().enumerate() {
        if place > 0 {
            if is_escaped {
                is_escaped = false;
            } else if *byte == b'\\' {
                is_escaped = true;
            } else if *byte == quote {
                return Some(place + 1);
            }
        }
    }
    None
}

// How many bytes at the front pass a test, where the first does.
fn name_len(bytes: &[u8]) -> usize
    ensures { result ≤ length bytes.now }
{
    bytes.iter().take_while(|byte| is_of_name(**byte)).count()
}

fn number_len(bytes: &[u8]) -> usize
    ensures { result ≤ length bytes.now }
{
    bytes.iter().take_while(|byte| is_of_number(**byte)).count()
}

fn space_len(bytes: &[u8]) -> usize
    ensures { result ≤ length bytes.now }
{
    bytes.iter().take_while(|byte| is_space(**byte)).count()
}

// How many bytes the first piece has, and what it is.
fn head_of(bytes: &[u8]) -> Result<(Piece, usize), What>
    ensures { IfOk result (λ r. r.1 ≤ length bytes.now) }
{
    let Some(first) = bytes.first() else {
        return Ok((Piece::End, 0));
    };
    let first = *first;
    if begins_name(first) {
        return Ok((Piece::Name, name_len(bytes)));
    }
    if first.is_ascii_digit() || first == b'-' {
        return Ok((Piece::Number, number_len(bytes)));
    }
    if first == b'"' || first == b'\'' {
        let Some(len) = text_len(bytes, first) else {
            return Err(What::Text);
        };
        return Ok((Piece::Text, len));
    }
    if bytes.starts_with(b"=>") {
        return Ok((Piece::Arrow, 2));
    }
    if is_mark(first) {
        return Ok((Piece::Mark(first), 1));
    }
    Err(What::Character)
}

/// The pieces of a text, and after them its end.
pub(crate) fn tokens_of(alloc: Global, text: &[u8]) -> Result<Vec<Token<'_>>, Fault> {
    let mut tokens = Vec::new(alloc);
    let mut rest = text;
    for _ in 0..text.len() {
        rest = &rest[space_len(rest)..];
        let at = text.len().saturating_sub(rest.len());
        let (piece, len) = match head_of(rest) {
            Ok(head) => head,
            Err(what) => return Err(Fault::At { at, what }),
        };
        if len == 0 {
            break;
        }
        tokens.push(Token {
            piece,
            text: &rest[..len],
            at,
        })?;
        rest = &rest[len..];
    }
    tokens.push(Token {
        piece: Piece::End,
        text: &text[text.len()..],
        at: text.len(),
    })?;
    Ok(tokens)
}
