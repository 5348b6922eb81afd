// Numbers as words write them.
ghost use Rattle.std.specs.Prelude.{◌≡◌, ◌≤◌, IfSome, length};
ghost use Rattle.std.specs.Char.{is_ascii_digit};
ghost use Rattle.std.specs.List.{list_all};
ghost use Rattle.reql_words.specs.Words.{is_numeral, number_within};

// The number in a word, where it is written as numbers are, and is from the least to the most.
pub(crate) fn number_within(word: &str, least: u64, most: u64) -> Option<u64>
    ensures told { result ≡ number_within least most word.now }
    ensures within { IfSome result (λ n. n ≤ most) }
{
    if !is_numeral(word.as_bytes()) {
        return None;
    }
    match word.parse::<u64>() {
        Ok(number) if least <= number && number <= most => Some(number),
        _ => None,
    }
}

// Whether these are decimal digits, with no needless zero before them.
fn is_numeral(bytes: &[u8]) -> bool
    ensures { result ≡ is_numeral bytes.now }
{
    match bytes.split_first() {
        Some((first, rest)) => (*first != b'0' || rest.is_empty()) && are_digits(bytes),
        None => false,
    }
}

fn are_digits(bytes: &[u8]) -> bool
    ensures { result ≡ list_all is_ascii_digit bytes.now }
{
    bytes.iter().all(|byte| byte.is_ascii_digit())
}
