// The messages of a login.
use crate::texts::{bytes_of, next, told};
use reql_login::{Message, asked, ended, first_text, hello, message_of};
use reql_scram::{Login, LoginFault, Proving, is_client_first};
use rows_reader::word;
use std::alloc::{AllocError, Global};
use std::str;

// So many bytes that aren't zero, so many that are, and so on.
fn runs(alloc: Global, numbers: &str) -> Option<Vec<u8>> {
    let mut bytes = Vec::new(alloc);
    let mut byte = b'a';
    for number in numbers.split(' ') {
        let count: u32 = number.parse().ok()?;
        for _ in 0..count {
            bytes.push(byte).ok()?;
        }
        byte = if byte == 0 { b'a' } else { 0 };
    }
    Some(bytes)
}

fn cut(alloc: Global, numbers: &str) -> Option<String> {
    let bytes = runs(alloc, numbers)?;
    match message_of(bytes.as_slice()) {
        Message::More => word(alloc, "more"),
        Message::Whole { message, used } => {
            let len = message.len();
            format!(in alloc; "{len} of {used}").ok()
        }
        Message::Oversize => word(alloc, "too long"),
    }
}

// A message of the server without its zero byte.
fn sent(message: &[u8]) -> Option<&str> {
    str::from_utf8(message.strip_suffix(b"\0".as_slice())?).ok()
}

fn fault_of(name: &str) -> Option<LoginFault> {
    match name {
        "Oversize" => Some(LoginFault::Oversize),
        "BadMessage" => Some(LoginFault::BadMessage),
        "BadProtocolVersion" => Some(LoginFault::BadProtocolVersion),
        "BadMethod" => Some(LoginFault::BadMethod),
        "WrongProof" => Some(LoginFault::WrongProof),
        "DiceFailed" => Some(LoginFault::DiceFailed),
        _ => None,
    }
}

fn refused(alloc: Global, fault: LoginFault) -> Option<String> {
    word(alloc, sent(fault.answer())?)
}

// What is asked of a client that sent this client-first text.
fn asked_by(
    alloc: Global,
    password: &str,
    salt: &str,
    roll: &str,
    text: &[u8],
) -> Option<(Proving, Vec<u8>)> {
    if !is_client_first(text) {
        return None;
    }
    let salt = bytes_of(alloc, salt)?;
    let roll = bytes_of(alloc, roll)?;
    let login = Login::new(alloc, b"admin", password.as_bytes()).ok()?;
    asked(alloc, login, text, salt.as_slice(), roll.as_slice()).ok()
}

// What is sent at the end of a login.
fn answer(alloc: Global, ended: Result<Vec<u8>, LoginFault>) -> Option<String> {
    match ended {
        Ok(message) => word(alloc, sent(message.as_slice())?),
        Err(fault) => refused(alloc, fault),
    }
}

fn login(alloc: Global, arguments: &str) -> Option<String> {
    let (password, rest) = next(arguments)?;
    let (salt, rest) = next(rest)?;
    let (roll, rest) = next(rest)?;
    let (first, last) = next(rest)?;
    let text = match first_text(alloc, first.as_bytes()) {
        Ok(text) => text,
        Err(fault) => return refused(alloc, fault),
    };
    let (proving, message) = asked_by(alloc, password, salt, roll, text.as_slice())?;
    let last = answer(alloc, ended(alloc, proving, last.as_bytes()))?;
    let first = sent(message.as_slice())?;
    format!(in alloc; "{first} | {last}").ok()
}

/// `cut`, `read`, `hello`, `refused` and `login`.
pub(crate) fn message_call(alloc: Global, call: &str, arguments: &str) -> Option<String> {
    match call {
        "cut" => cut(alloc, arguments),
        "read" => told(alloc, first_text(alloc, arguments.as_bytes())),
        "hello" => word(alloc, sent(hello())?),
        "refused" => refused(alloc, fault_of(arguments)?),
        "login" => login(alloc, arguments),
        _ => None,
    }
}
