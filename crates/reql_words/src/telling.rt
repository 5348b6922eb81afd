// Words that name the file of a password, with the password said in its place.
ghost use Rattle.std.specs.Prelude.{◌≡◌, ◌∷◌, [], ◌++◌, codes, map, string_bytes, IfOk};
ghost use Rattle.reql_words.specs.Words.{told, told_options, told_pair, told_word};

use crate::options::{is_whole, value_in};
use std::alloc::{AllocError, Global};

/// The words with this password said in place of the file that it stands in, as `--password` says it.
pub fn with_password(
    alloc: Global,
    words: &[String],
    password: &str,
) -> Result<Vec<String>, AllocError>
    ensures { IfOk result (λ all. map string_bytes all.items ≡ told password.now (map string_bytes words.now)) }
{
    let mut all = Vec::new(alloc);
    let Some((first, rest)) = words.split_first() else {
        return Ok(all);
    };
    put(alloc, first.as_str(), &mut all)?;
    tell_options(alloc, rest, password, &mut all)?;
    Ok(all)
}

fn tell_options(
    alloc: Global,
    words: &[String],
    password: &str,
    all: &mut Vec<String>,
) -> Result<(), AllocError>
    ensures { IfOk result (λ _. map string_bytes all.new.items ≡ map string_bytes all.old.items ++ told_options password.now (map string_bytes words.now)) }
{
    let Some((word, rest)) = words.split_first() else {
        return Ok(());
    };
    let word = word.as_str();
    if is_whole(word) {
        tell_word(alloc, word, password, all)?;
        return tell_options(alloc, rest, password, all);
    }
    let Some((value, rest)) = rest.split_first() else {
        return tell_word(alloc, word, password, all);
    };
    tell_pair(alloc, word, value.as_str(), password, all)?;
    tell_options(alloc, rest, password, all)
}

// A word that says an option whole, or the last one.
fn tell_word(
    alloc: Global,
    word: &str,
    password: &str,
    all: &mut Vec<String>,
) -> Result<(), AllocError>
    ensures { IfOk result (λ _. map string_bytes all.new.items ≡ map string_bytes all.old.items ++ told_word password.now word.now ∷ []) }
{
    match value_in(word) {
        Some((option, _)) if option == "--password-file" => put_password(alloc, password, all),
        _ => put(alloc, word, all),
    }
}

// The password, as one word says it.
fn put_password(alloc: Global, password: &str, all: &mut Vec<String>) -> Result<(), AllocError>
    ensures { IfOk result (λ _. map string_bytes all.new.items ≡ map string_bytes all.old.items ++ (codes "--password=" ++ password.now) ∷ []) }
{
    let mut told = String::from_str(alloc, "--password=")?;
    told.push_str(password)?;
    put(alloc, told.as_str(), all)
}

// An option and its value.
fn tell_pair(
    alloc: Global,
    word: &str,
    value: &str,
    password: &str,
    all: &mut Vec<String>,
) -> Result<(), AllocError>
    ensures { IfOk result (λ _. map string_bytes all.new.items ≡ map string_bytes all.old.items ++ told_pair password.now word.now value.now) }
{
    if word == "--password-file" {
        put(alloc, "--password", all)?;
        return put(alloc, password, all);
    }
    put(alloc, word, all)?;
    put(alloc, value, all)
}

fn put(alloc: Global, word: &str, all: &mut Vec<String>) -> Result<(), AllocError>
    ensures { IfOk result (λ _. map string_bytes all.new.items ≡ map string_bytes all.old.items ++ word.now ∷ []) }
{
    let word = String::from_str(alloc, word)?;
    match all.push(word) {
        Ok(()) => Ok(()),
        Err(_) => Err(AllocError),
    }
}
