// The words after `load`.
ghost use Rattle.std.specs.Prelude.{map, string_bytes};
ghost use Rattle.reql_words.specs.Words.{Says, asks_load, asks_size};

use crate::options::{missing, number_or};
use crate::words::{Command, Wanted, ended};

// What the words after `load` ask for.
pub(crate) fn load_of(words: &[String]) -> Command<'_>
    ensures { Says (asks_load (map string_bytes words.now)) result }
{
    let Some((word, rest)) = words.split_first() else {
        return Command::Refused(missing(Wanted::Seed));
    };
    match number_or(word.as_str(), 0, 1_000_000) {
        Ok(seed) => size_of(seed as u32, rest),
        Err(refusal) => Command::Refused(refusal),
    }
}

// What the words after a load's seed ask for.
fn size_of(seed: u32, words: &[String]) -> Command<'_>
    ensures { Says (asks_size seed (map string_bytes words.now)) result }
{
    let Some((word, rest)) = words.split_first() else {
        return Command::Refused(missing(Wanted::Size));
    };
    match number_or(word.as_str(), 1, 20_000) {
        Ok(size) => ended(
            Command::Load {
                seed,
                size: size as u32,
            },
            rest,
        ),
        Err(refusal) => Command::Refused(refusal),
    }
}
