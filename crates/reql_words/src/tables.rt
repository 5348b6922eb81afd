// Tables as words name them.
ghost use Rattle.std.specs.Prelude.{◌≡◌, option_map};
ghost use Rattle.std.specs.List.{list_any};
ghost use Rattle.reql_words.specs.Words.{is_one_more, is_pair, named, table_in};

use arrayvec::ArrayVec;
use reql_catalog::is_name;

/// Tables as words name them, each by its database and its name: as many as a server has slots for.
pub type Tables<'a> = ArrayVec<(&'a str, &'a str), 256>;

// The database and the table in a word, before and behind its first point.
pub(crate) fn table_in(word: &str) -> Option<(&str, &str)>
    ensures { option_map (λ p. (p.0.now, p.1.now)) result ≡ table_in word.now }
{
    match word.split_once('.') {
        Some((db, table)) if is_name(db) && is_name(table) => Some((db, table)),
        _ => None,
    }
}

// Whether a table may be named beside these: there are fewer than may be, and it is none of them.
pub(crate) fn is_one_more(tables: &[(&str, &str)], db: &str, table: &str) -> bool
    ensures { result ≡ is_one_more (db.now, table.now) tables.now }
{
    tables.len() < 256 && !has_table(tables, db, table)
}

// Whether a table is among these.
fn has_table(tables: &[(&str, &str)], db: &str, table: &str) -> bool
    ensures { result ≡ list_any (λ t. is_pair (db.now, table.now) (named t)) tables.now }
{
    tables.iter().any(|pair| is_pair(*pair, db, table))
}

fn is_pair(pair: (&str, &str), db: &str, table: &str) -> bool
    ensures { result ≡ is_pair (db.now, table.now) (named pair.entry) }
{
    pair.0 == db && pair.1 == table
}
