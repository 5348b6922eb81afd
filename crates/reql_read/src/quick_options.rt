// The options of a query, read from their tokens.
ghost use Rattle.std.specs.Prelude.{◌≡◌, ◌≤◌, ◌<◌, ◌∷◌, ℕ, List, Ok, length, option_map, IfSome, OnSome};
ghost use Rattle.json.specs.Token as token;
ghost use Rattle.serde_json.specs.Data.{Members, boolean, no_members};
ghost use Rattle.reql_read.specs.Globals.{settings_of};
ghost use Rattle.reql_read.specs.Quick.{ReadsData, ReadsMembers, ReadsSettings, database, two_options};

use crate::globals::{Settings, usual};
use crate::quick_numbers::number;
use crate::quick_tokens::{close_array, open_array, open_object, text};
use json::{Reader, Token};
use reql_datum::Name;
use reql_term::Op;
use std::alloc::Global;

// The options that a query may have here.
#[derive(Clone, Copy)]
struct Chosen<'a> {
    db: Option<&'a str>,
    noreply: Option<bool>,
}

fn db<'a>(reader: &mut Reader<'a>) -> Option<&'a str>
    ensures { IfSome result (λ name. (depth : ℕ) → 2 ≤ depth
        → ReadsData depth reader.old (database name.now) reader.new) }
{
    open_array(reader)?;
    let number = number(reader)?;
    if number != u64::from(Op::Db.number()) {
        return None;
    }
    open_array(reader)?;
    let name = text(reader)?;
    close_array(reader)?;
    close_array(reader)?;
    Some(name)
}

fn boolean(reader: &mut Reader<'_>) -> Option<bool>
    ensures { IfSome result (λ b. (depth : ℕ) → ReadsData depth reader.old (boolean b) reader.new) }
{
    match reader.next() {
        Some(Token::Bool(b)) => Some(b),
        _ => None,
    }
}

fn with_option<'a>(reader: &mut Reader<'a>, chosen: Chosen<'a>, key: &str) -> Option<Chosen<'a>>
    ensures shorter { OnSome result (length reader.new < length reader.old) }
    ensures read { IfSome result (λ next. (depth : ℕ) (all : Members) (r : List token.Token) → 2 ≤ depth
        → ReadsMembers depth reader.new
        (two_options (option_map (λ s. s.now) next.db) next.noreply) all r
        → ReadsMembers depth (token.key key.now ∷ reader.old)
        (two_options (option_map (λ s. s.now) chosen.entry.db) chosen.entry.noreply) all r) }
{
    if key == "db" {
        let db = db(reader)?;
        return Some(Chosen {
            db: Some(db),
            noreply: chosen.noreply,
        });
    }
    if key == "noreply" {
        let noreply = boolean(reader)?;
        return Some(Chosen {
            db: chosen.db,
            noreply: Some(noreply),
        });
    }
    None
}

fn read_chosen<'a>(reader: &mut Reader<'a>) -> Option<Chosen<'a>>
    ensures { IfSome result (λ chosen. (depth : ℕ) → 2 ≤ depth
        → ReadsMembers depth reader.old no_members
        (two_options (option_map (λ s. s.now) chosen.db) chosen.noreply) reader.new) }
{
    let mut chosen = Chosen {
        db: None,
        noreply: None,
    };
    'options: while let Some(key) = reader.next_key().ok()? {
        chosen = with_option(reader, chosen, key)?;
    }
    Some(chosen)
}

fn settings_of(alloc: Global, chosen: Chosen<'_>) -> Option<Settings>
    ensures { IfSome result (λ s. settings_of
        (two_options (option_map (λ s. s.now) chosen.entry.db) chosen.entry.noreply) ≡ Ok s) }
{
    let Settings {
        db,
        array_limit,
        batch,
        noreply,
    } = usual(alloc).ok()?;
    let noreply = chosen.noreply.unwrap_or(noreply);
    match chosen.db {
        None => Some(Settings {
            db,
            array_limit,
            batch,
            noreply,
        }),
        Some(name) => {
            let db = Name::of(alloc, name).ok()?;
            Some(Settings {
                db,
                array_limit,
                batch,
                noreply,
            })
        }
    }
}

/// The options of a query, which may be left out, and its end.
pub(crate) fn read_settings(alloc: Global, reader: &mut Reader<'_>) -> Option<Settings>
    ensures { IfSome result (λ s. (depth : ℕ) → 3 ≤ depth
        → ReadsSettings depth reader.old s reader.new) }
{
    if reader.take_end_array() {
        let usual = usual(alloc).ok()?;
        return Some(usual);
    }
    open_object(reader)?;
    let chosen = read_chosen(reader)?;
    close_array(reader)?;
    settings_of(alloc, chosen)
}
