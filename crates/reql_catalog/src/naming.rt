// The rule of names.
ghost use Rattle.std.specs.Prelude.{◌≡◌};
ghost use Rattle.std.specs.List.{list_all};
ghost use Rattle.reql_catalog.specs.Catalog.{is_name, is_name_byte, is_key_field};

use reql_datum::Name;

fn is_name_byte(b: u8) -> bool
    ensures { result ≡ is_name_byte b }
{
    b.is_ascii_uppercase() || b.is_ascii_lowercase() || b.is_ascii_digit() || b == b'_' || b == b'-'
}

/// Whether a text may name a database or a table: 1 to 127 characters of A-Z, a-z, 0-9, `_` and `-`.
pub fn is_name(text: &str) -> bool
    ensures { result ≡ is_name text.now }
{
    if text.is_empty() || text.len() > 127 {
        return false;
    }
    are_name_bytes(text.as_bytes())
}

fn are_name_bytes(bytes: &[u8]) -> bool
    ensures { result ≡ list_all is_name_byte bytes.now }
{
    bytes.iter().all(|b| is_name_byte(*b))
}

/// Whether a field may be a table's primary key: any but `$reql_type$`, which no document has.
pub(crate) fn is_key_field(key: &Name) -> bool
    ensures { result ≡ is_key_field key.now }
{
    !key.order("$reql_type$").is_eq()
}
