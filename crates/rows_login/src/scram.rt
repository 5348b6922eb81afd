// Logins by SCRAM.
use crate::texts::{bytes_of, digits, next, told};
use reql_scram::{Login, LoginFault, Proving, hmac, salted};
use std::alloc::Global;

fn hashed(alloc: Global, arguments: &str) -> Option<String> {
    let (key, message) = next(arguments)?;
    let key = hex::decode(alloc, key).ok()?;
    let message = hex::decode(alloc, message).ok()?;
    digits(alloc, &hmac(key.as_slice(), message.as_slice()))
}

fn salted_by(alloc: Global, arguments: &str) -> Option<String> {
    let (password, rest) = next(arguments)?;
    let (salt, rounds) = next(rest)?;
    let salt = bytes_of(alloc, salt)?;
    let rounds: u32 = rounds.parse().ok()?;
    if rounds == 0 {
        return None;
    }
    digits(alloc, &salted(password.as_bytes(), salt.as_slice(), rounds))
}

// The login of a user by a password, and the arguments behind them.
fn login(alloc: Global, arguments: &str) -> Option<(Login, &str)> {
    let (user, rest) = next(arguments)?;
    let (password, rest) = next(rest)?;
    let login = Login::new(alloc, user.as_bytes(), password.as_bytes()).ok()?;
    Some((login, rest))
}

// What is asked of a client that sent a client-first text.
fn first(
    alloc: Global,
    login: Login,
    salt: &str,
    nonce: &str,
    message: &str,
) -> Option<Result<(Proving, Vec<u8>), LoginFault>> {
    let salt = bytes_of(alloc, salt)?;
    Some(login.first(alloc, message.as_bytes(), salt.as_slice(), nonce.as_bytes()))
}

fn asked(alloc: Global, arguments: &str) -> Option<String> {
    let (login, rest) = login(alloc, arguments)?;
    let (salt, rest) = next(rest)?;
    let (nonce, message) = next(rest)?;
    match first(alloc, login, salt, nonce, message)? {
        Ok((_, text)) => told(alloc, Ok(text)),
        Err(fault) => told(alloc, Err(fault)),
    }
}

fn proved(alloc: Global, arguments: &str) -> Option<String> {
    let (login, rest) = login(alloc, arguments)?;
    let (salt, rest) = next(rest)?;
    let (nonce, rest) = next(rest)?;
    let (message, last) = next(rest)?;
    match first(alloc, login, salt, nonce, message)? {
        Ok((proving, _)) => told(alloc, proving.last(alloc, last.as_bytes())),
        Err(fault) => told(alloc, Err(fault)),
    }
}

/// `hmac`, `salted`, `asked` and `proved`.
pub(crate) fn scram_call(alloc: Global, call: &str, arguments: &str) -> Option<String> {
    match call {
        "hmac" => hashed(alloc, arguments),
        "salted" => salted_by(alloc, arguments),
        "asked" => asked(alloc, arguments),
        "proved" => proved(alloc, arguments),
        _ => None,
    }
}
