// Answers with results.
ghost use Rattle.std.specs.Prelude.{◌≡◌, [], ◌++◌, None, option_map, IfOk, OnOk, map};
ghost use Rattle.serde_json.specs.Written.{compact_text};
ghost use Rattle.reql_datum.specs.View.{plain};
ghost use Rattle.reql_json.specs.Showing.{shown};
ghost use Rattle.reql_answer.specs.Body.{array_of, results, stamped_by};
ghost use Rattle.reql_answer.specs.Body as answers;
ghost use Rattle.reql_session_spec.specs.Requests.{Atom, Last, Part};
ghost use Rattle.reql_session_spec.specs.Bodies.{body};
ghost use Rattle.reql_bodies.specs.Parts.{start_text};

use reql_answer::{Stamp, write_end};
use reql_datum::{Datum, Memory};
use reql_spell::{write_comma, write_document};
use std::alloc::{AllocError, Global};
use std::slice;

// The bytes that are taken for an answer at first.
const FIRST_BYTES: usize = 256;

// What stands before the results of an answer with no notes.
fn begun(alloc: Global) -> Result<Vec<u8>, AllocError>
    ensures { IfOk result (λ b. b.items ≡ start_text) }
{
    let mut bytes = Vec::with_capacity(alloc, FIRST_BYTES)?;
    bytes.extend_from_slice(b"{\"n\":[],\"r\":")?;
    Ok(bytes)
}

// Documents as a list.
fn write_list(out: &mut Vec<u8>, documents: &[Datum]) -> Result<(), AllocError>
    ensures { OnOk result (out.new.items ≡ out.old.items
        ++ compact_text (array_of (map shown (map plain documents.now)))) }
{
    out.push(b'[')?;
    let mut place = 0;
    while let Some(document) = documents.get(place) {
        write_comma(out, place > 0)?;
        write_document(out, document)?;
        place += 1;
    }
    Ok(out.push(b']')?)
}

fn stream(
    alloc: Global,
    kind: u8,
    documents: &[Datum],
    stamp: Option<Stamp<'_>>,
) -> Result<Vec<u8>, Memory>
    ensures { IfOk result (λ b. b.items ≡ answers.body (results kind [] None
        (map shown (map plain documents.now)) (option_map stamped_by stamp.entry))) }
{
    let mut out = begun(alloc)?;
    write_list(&mut out, documents)?;
    write_end(&mut out, kind, stamp)?;
    Ok(out)
}

/// The answer of one document.
#[tactic(auto, unfolding(reql_session_spec::specs::Bodies::body))]
pub fn atom(alloc: Global, document: &Datum, stamp: Stamp<'_>) -> Result<Vec<u8>, Memory>
    ensures { IfOk result (λ b. b.items ≡ body (Atom (plain document.now) (stamped_by stamp.entry))) }
{
    stream(alloc, 1, slice::from_ref(document), Some(stamp))
}

/// The answer with the last documents of a stream.
#[tactic(auto, unfolding(reql_session_spec::specs::Bodies::body))]
pub fn last(alloc: Global, documents: &[Datum], stamp: Option<Stamp<'_>>) -> Result<Vec<u8>, Memory>
    ensures { IfOk result (λ b. b.items ≡ body (Last (map plain documents.now)
        (option_map stamped_by stamp.entry))) }
{
    stream(alloc, 2, documents, stamp)
}

/// The answer with some documents of a stream that has more.
#[tactic(auto, unfolding(reql_session_spec::specs::Bodies::body))]
pub fn part(alloc: Global, documents: &[Datum], stamp: Option<Stamp<'_>>) -> Result<Vec<u8>, Memory>
    ensures { IfOk result (λ b. b.items ≡ body (Part (map plain documents.now)
        (option_map stamped_by stamp.entry))) }
{
    stream(alloc, 3, documents, stamp)
}
