// The answer with a batch of a feed.
ghost use Rattle.std.specs.Prelude.{◌≡◌, List, ◌++◌, option_map, IfOk, OnOk, map, false};
ghost use Rattle.serde_json.specs.Written.{compact_text};
ghost use Rattle.reql_answer.specs.Body.{array_of, stamped_by};
ghost use Rattle.reql_session_spec.specs.Requests.{Arm, Batch};
ghost use Rattle.reql_session_spec.specs.Bodies.{body};
ghost use Rattle.reql_session_spec.specs.Bodies as texts;
ghost use Rattle.reql_session_api.specs.Meant.{shown_of};
ghost use Rattle.reql_bodies.specs.Parts.{numbers_text, places_of, stamps_of, items_shown, arms_text, front_text};

use reql_answer::{Stamp, write_end};
use reql_datum::Memory;
use reql_session_api::Shown;
use reql_spell::{write_comma, write_document, write_number};
use std::alloc::{AllocError, Global};

// The bytes that are taken for a batch at first.
const FIRST_BYTES: usize = 256;

// Whether the notes say that answers tell the arm of each item.
fn is_united(notes: &[u8]) -> bool
    ensures { result ≡ texts.is_united notes.now }
{
    let mut place = 0;
    while let Some(note) = notes.get(place) {
        if *note == 4 {
            return true;
        }
        place += 1;
    }
    false
}

fn write_notes(out: &mut Vec<u8>, notes: &[u8]) -> Result<(), AllocError>
    ensures { OnOk result (out.new.items ≡ out.old.items ++ numbers_text false notes.now) }
{
    let mut place = 0;
    while let Some(note) = notes.get(place) {
        write_number(out, place > 0, u64::from(*note))?;
        place += 1;
    }
    Ok(())
}

// The places of the items' arms.
fn write_places(out: &mut Vec<u8>, items: &[Shown]) -> Result<(), AllocError>
    ensures { OnOk result (out.new.items ≡ out.old.items
        ++ numbers_text false (places_of items.now)) }
{
    let mut place = 0;
    while let Some(item) = items.get(place) {
        write_number(out, place > 0, u64::from(item.at))?;
        place += 1;
    }
    Ok(())
}

fn write_stamps(out: &mut Vec<u8>, items: &[Shown]) -> Result<(), AllocError>
    ensures { OnOk result (out.new.items ≡ out.old.items
        ++ numbers_text false (stamps_of items.now)) }
{
    let mut place = 0;
    while let Some(item) = items.get(place) {
        write_number(out, place > 0, item.stamp)?;
        place += 1;
    }
    Ok(())
}

// The arm of each item, where the notes say so.
fn write_arms(out: &mut Vec<u8>, notes: &[u8], items: &[Shown]) -> Result<(), AllocError>
    ensures { OnOk result (out.new.items ≡ out.old.items
        ++ arms_text notes.now (places_of items.now)) }
{
    if !is_united(notes) {
        return Ok(());
    }
    out.extend_from_slice(b"\"a\":[")?;
    write_places(out, items)?;
    Ok(out.extend_from_slice(b"],")?)
}

// What stands before the items.
fn begun(alloc: Global, notes: &[u8], items: &[Shown]) -> Result<Vec<u8>, AllocError>
    ensures { IfOk result (λ b. b.items ≡ front_text notes.now items.now) }
{
    let mut out = Vec::with_capacity(alloc, FIRST_BYTES)?;
    out.extend_from_slice(b"{")?;
    write_arms(&mut out, notes, items)?;
    out.extend_from_slice(b"\"f\":[")?;
    write_stamps(&mut out, items)?;
    out.extend_from_slice(b"],\"n\":[")?;
    write_notes(&mut out, notes)?;
    out.extend_from_slice(b"],\"r\":")?;
    Ok(out)
}

// Items as a list.
fn write_list(out: &mut Vec<u8>, items: &[Shown]) -> Result<(), AllocError>
    ensures { OnOk result (out.new.items ≡ out.old.items
        ++ compact_text (array_of (items_shown items.now))) }
{
    out.push(b'[')?;
    let mut place = 0;
    while let Some(item) = items.get(place) {
        write_comma(out, place > 0)?;
        write_document(out, &item.item)?;
        place += 1;
    }
    Ok(out.push(b']')?)
}

/// The answer with items of a feed that has these notes, whatever its arms are: opening and state items, skip items and
/// changes.
pub fn batch(
    alloc: Global,
    notes: &[u8],
    items: &[Shown],
    stamp: Option<Stamp<'_>>,
) -> Result<Vec<u8>, Memory>
    ensures { (arms : List Arm) → IfOk result (λ b. b.items ≡ body (Batch notes.now
        (map (shown_of arms) items.now) (option_map stamped_by stamp.entry))) }
{
    let mut out = begun(alloc, notes, items)?;
    write_list(&mut out, items)?;
    write_end(&mut out, 3, stamp)?;
    Ok(out)
}
