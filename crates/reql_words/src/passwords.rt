// Passwords.
ghost use Rattle.std.specs.Prelude.{◌≡◌};
ghost use Rattle.std.specs.List.{list_all};
ghost use Rattle.reql_words.specs.Words.{is_password, is_printable};

// Whether this may be a password: at most 256 characters, each a printable one of ASCII.
pub(crate) fn is_password(text: &str) -> bool
    ensures { result ≡ is_password text.now }
{
    text.len() <= 256 && are_printable(text.as_bytes())
}

fn are_printable(bytes: &[u8]) -> bool
    ensures { result ≡ list_all is_printable bytes.now }
{
    bytes.iter().all(|byte| is_printable(*byte))
}

fn is_printable(byte: u8) -> bool
    ensures { result ≡ is_printable byte }
{
    32 <= byte && byte <= 126
}
