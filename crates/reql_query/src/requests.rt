// The requests of `dump` and `restore`.
ghost use Rattle.std.specs.Prelude.{◌≡◌, ◌<◌, ◌^◌, ◌++◌, length, false, map, string_bytes, IfOk, OnOk};
ghost use Rattle.serde_json.specs.Written.{comma_if};
ghost use Rattle.reql_query.specs.Requests.{database_term, dump_body, insert_back, insert_front, inside_next, listed, name_and_end, next, outside_piece, piece, table_term, termed};
ghost use Rattle.reql_query.specs.Words.{FitsTable};
ghost use Rattle.reql_query.specs.declared.requests.Place.TheVariants.{Outside};

use crate::words::Table;
use std::alloc::{AllocError, Global};

/// Where a byte of JSON stands.
#[derive(Clone, Copy, Debug, PartialEq, Eq)]
pub(crate) enum Place {
    /// Outside of strings.
    Outside,
    /// In a string.
    Inside,
    /// In a string, behind a backslash.
    Escaped,
}

#[tactic(auto, unfolding(crate::specs::Requests::database_term))]
fn put_database(out: &mut Vec<u8>, database: &str) -> Result<(), AllocError>
    ensures { OnOk result (out.new.items ≡ out.old.items ++ database_term database.now) }
{
    out.extend_from_slice(b"[14,[\"")?;
    out.extend_from_slice(database.as_bytes())?;
    out.extend_from_slice(b"\"]]")?;
    Ok(())
}

#[tactic(auto, unfolding(crate::specs::Requests::name_and_end))]
fn put_name_and_end(out: &mut Vec<u8>, name: &str) -> Result<(), AllocError>
    ensures { OnOk result (out.new.items ≡ out.old.items ++ name_and_end name.now) }
{
    out.extend_from_slice(b",\"")?;
    out.extend_from_slice(name.as_bytes())?;
    out.extend_from_slice(b"\"]]")?;
    Ok(())
}

#[tactic(auto, unfolding(crate::specs::Requests::table_term))]
fn put_table(out: &mut Vec<u8>, table: Table<'_>) -> Result<(), AllocError>
    ensures { OnOk result (out.new.items ≡ out.old.items ++ table_term table.entry.database.now table.entry.name.now) }
{
    out.extend_from_slice(b"[15,[")?;
    put_database(out, table.database)?;
    put_name_and_end(out, table.name)?;
    Ok(())
}

/// The request for all documents of a table.
#[tactic(auto, unfolding(crate::specs::Requests::dump_body))]
pub fn dump_body(alloc: Global, table: Table<'_>) -> Result<Vec<u8>, AllocError>
    requires { FitsTable table }
    ensures told { IfOk result (λ body. body.items ≡ dump_body table.entry.database.now table.entry.name.now) }
    ensures few { IfOk result (λ body. length body.items < 2 ^ 32) }
{
    let mut body = Vec::new(alloc);
    body.extend_from_slice(b"[1,")?;
    put_table(&mut body, table)?;
    body.extend_from_slice(b"]")?;
    Ok(body)
}

#[tactic(auto, unfolding(crate::specs::Requests::next))]
fn next(place: Place, byte: u8) -> Place
    ensures { result ≡ next place byte }
{
    match place {
        Place::Outside => if byte == b'"' {
            Place::Inside
        } else {
            Place::Outside
        },
        Place::Inside => inside_next(byte),
        Place::Escaped => Place::Inside,
    }
}

fn inside_next(byte: u8) -> Place
    ensures { result ≡ inside_next byte }
{
    if byte == b'\\' {
        return Place::Escaped;
    }
    if byte == b'"' {
        return Place::Outside;
    }
    Place::Inside
}

fn put_outside(out: &mut Vec<u8>, byte: u8) -> Result<(), AllocError>
    ensures { OnOk result (out.new.items ≡ out.old.items ++ outside_piece byte) }
{
    match byte {
        b'[' => out.extend_from_slice(b"[2,["),
        b']' => out.extend_from_slice(b"]]"),
        _ => out.extend_from_slice(&[byte]),
    }
}

#[tactic(auto, unfolding(crate::specs::Requests::piece))]
fn put_piece(out: &mut Vec<u8>, place: Place, byte: u8) -> Result<(), AllocError>
    ensures { OnOk result (out.new.items ≡ out.old.items ++ piece place byte) }
{
    match place {
        Place::Outside => put_outside(out, byte),
        Place::Inside | Place::Escaped => out.extend_from_slice(&[byte]),
    }
}

// Puts the text of a JSON value as that of its term.
fn put_termed(out: &mut Vec<u8>, text: &[u8]) -> Result<(), AllocError>
    ensures { OnOk result (out.new.items ≡ out.old.items ++ termed Outside text.now) }
{
    let mut place = Place::Outside;
    for byte in text {
        put_piece(out, place, *byte)?;
        place = next(place, *byte);
    }
    Ok(())
}

fn put_comma(out: &mut Vec<u8>, later: bool) -> Result<(), AllocError>
    ensures { OnOk result (out.new.items ≡ out.old.items ++ comma_if later) }
{
    if later {
        return out.extend_from_slice(b",");
    }
    Ok(())
}

fn put_document(out: &mut Vec<u8>, text: &[u8], later: bool) -> Result<(), AllocError>
    ensures { OnOk result (out.new.items ≡ out.old.items ++ (comma_if later ++ termed Outside text.now)) }
{
    put_comma(out, later)?;
    put_termed(out, text)
}

// Puts documents, with a comma between two.
fn put_documents(out: &mut Vec<u8>, documents: &[String]) -> Result<(), AllocError>
    ensures { OnOk result (out.new.items ≡ out.old.items ++ listed false (map string_bytes documents.now)) }
{
    let mut later = false;
    for document in documents {
        put_document(out, document.as_bytes(), later)?;
        later = true;
    }
    Ok(())
}

#[tactic(auto, unfolding(crate::specs::Requests::insert_front))]
fn put_front(out: &mut Vec<u8>, table: Table<'_>) -> Result<(), AllocError>
    ensures { OnOk result (out.new.items ≡ out.old.items ++ insert_front table.entry.database.now table.entry.name.now) }
{
    out.extend_from_slice(b"[1,[56,[")?;
    put_table(out, table)?;
    out.extend_from_slice(b",[2,[")
}

/// The request to insert documents, of which these are the texts, into a table.
pub fn insert_body(
    alloc: Global,
    table: Table<'_>,
    documents: &[String],
) -> Result<Vec<u8>, AllocError>
    ensures { IfOk result (λ body. body.items ≡ insert_front table.entry.database.now table.entry.name.now
        ++ (listed false (map string_bytes documents.now) ++ insert_back)) }
{
    let mut body = Vec::new(alloc);
    put_front(&mut body, table)?;
    put_documents(&mut body, documents)?;
    body.extend_from_slice(b"]]],{\"conflict\":\"error\"}]]")?;
    Ok(body)
}
