// A term as the text of a body.
ghost use Rattle.std.specs.Prelude.{◌≡◌, Ok, option_map, IfOk, IfSome};
ghost use Rattle.reql_term.specs.View.{form_of};
ghost use Rattle.reql_read.specs.Globals.{usual};
ghost use Rattle.reql_read.specs.Query.{start, query_text};
ghost use Rattle.reql_read.specs.Spelling.{spelled, HasText};
ghost use Rattle.reql_print.specs.Printed.{body_of, is_printable as is_printable_of, printed};
ghost use Rattle.serde_json.specs.Written.{compact_text};

use crate::held::is_held;
use crate::levels::fits;
use crate::texts::has_text;
use crate::write::write_term;
use reql_datum::Memory;
use reql_term::Term;
use std::alloc::{AllocError, Global};

// Arrays and objects nest so deep in a body that is read, and one level less in its term.
const TERM_LEVELS: u32 = 126;

// The bytes that are taken for a body at first.
const FIRST_BYTES: usize = 128;

#[tactic(auto, using(crate::proofs::Bounds::printables))]
fn is_printable(term: &Term) -> bool
    ensures { result ≡ is_printable_of (form_of term.now) }
{
    if !is_held(term) {
        return false;
    }
    fits(term, TERM_LEVELS)
}

#[tactic(auto, using(crate::proofs::Appended::body_done))]
fn body_text(alloc: Global, term: &Term) -> Result<Vec<u8>, AllocError>
    ensures { IfOk result (λ b. b.items ≡ compact_text (body_of (form_of term.now))) }
{
    let mut out = Vec::with_capacity(alloc, FIRST_BYTES)?;
    out.extend_from_slice(b"[1,")?;
    write_term(&mut out, term)?;
    out.push(b']')?;
    Ok(out)
}

/// The text of the query `[1,term]`, which reads back to the very term.
///
/// None exactly where no body reads to the term: where it holds a slot, a document that is an array,
/// an object, MINVAL or MAXVAL, an operation whose operator has a form of its own or takes other
/// arguments, or an object with the name `$reql_type$`; or where its text nests deeper than the 127
/// levels of arrays and objects that are read.
#[tactic(auto, using(crate::proofs::Bounds::bodies))]
pub fn print(alloc: Global, term: &Term) -> Result<Option<Vec<u8>>, Memory>
    ensures text { IfOk result
        (λ text. option_map (λ b. b.items) text ≡ printed (form_of term.now)) }
    ensures reads_back { IfOk result (λ text. IfSome text
        (λ b. query_text b.items ≡ Ok (start (form_of term.now) usual))) }
    ensures has_text { IfOk result (λ text. IfSome text
        (λ _. HasText (spelled (form_of term.now)))) }
{
    if !is_printable(term) {
        return Ok(None);
    }
    has_text(term);
    Ok(Some(body_text(alloc, term)?))
}
