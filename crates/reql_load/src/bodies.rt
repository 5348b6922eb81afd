// The bodies of the load's requests (ql2.proto).
ghost use Rattle.std.specs.Prelude.{◌≡◌, ◌++◌, ◌≤◌, ◌*◌, ◌+◌, codes, IfOk, OnOk, length, string_bytes, flat_map};
ghost use Rattle.std.specs.List.{join_by};
ghost use Rattle.reql_load.specs.Script.{after_another, document, insert_body, update_body, delete_body};

use reql_memory::Memory;
use std::alloc::Global;

/// Makes the index `n`.
pub(crate) const INDEX: &[u8] = b"[1,[75,[[15,[\"load\"]],\"n\"]]]";

/// Follows the documents whose `n` is 0 to 24.
pub(crate) const RANGE: &[u8] =
    b"[1,[152,[[182,[[15,[\"load\"]],0,25],{\"index\":\"n\"}]],{\"include_initial\":true}]]";

/// Follows the first 10 documents by `n`, with their places.
pub(crate) const LIMIT: &[u8] =
    b"[1,[152,[[71,[[41,[[15,[\"load\"]]],{\"index\":\"n\"}],10]]],{\"include_initial\":true,\"include_offsets\":true}]]";

pub(crate) const CONTINUE: &[u8] = b"[2]";

pub(crate) const STOP: &[u8] = b"[3]";

#[tactic(auto, unfolding(crate::specs::Script::document))]
fn document(alloc: Global, seed: u32, i: u32) -> Result<String, Memory>
    ensures { IfOk result (λ text. string_bytes text ≡ document seed i) }
{
    let n = (u64::from(i) + u64::from(seed)) % 1009;
    let text = format!(in alloc; "{{\"id\":{i},\"n\":{n}}}")?;
    Ok(text)
}

// Appends a document.
#[tactic(auto, using(crate::proofs::Short::short_document))]
fn put_document(alloc: Global, text: &mut String, seed: u32, i: u32) -> Result<(), Memory>
    ensures text { OnOk result (string_bytes text.new ≡ string_bytes text.old ++ document seed i) }
    ensures short { OnOk result (length (string_bytes text.new)
        ≤ length (string_bytes text.old) + 40) }
{
    let document = document(alloc, seed, i)?;
    text.push_str(&document)?;
    Ok(())
}

// Appends a document behind another.
fn put_other(alloc: Global, text: &mut String, seed: u32, i: u32) -> Result<(), Memory>
    ensures text { OnOk result (string_bytes text.new
        ≡ string_bytes text.old ++ after_another seed i) }
    ensures short { OnOk result (length (string_bytes text.new)
        ≤ length (string_bytes text.old) + 41) }
{
    text.push_str(",")?;
    put_document(alloc, text, seed, i)
}

// Appends documents behind others.
#[tactic(auto, using(crate::proofs::Writing::texts_on))]
fn put_others(alloc: Global, text: &mut String, seed: u32, docs: &[u32]) -> Result<(), Memory>
    ensures text { OnOk result (string_bytes text.new
        ≡ string_bytes text.old ++ flat_map (after_another seed) docs.now) }
    ensures short { OnOk result (length (string_bytes text.new)
        ≤ length (string_bytes text.old) + 41 * length docs.now) }
{
    for i in docs {
        put_other(alloc, text, seed, *i)?;
    }
    Ok(())
}

// Appends documents, with commas between them.
fn put_documents(alloc: Global, text: &mut String, seed: u32, docs: &[u32]) -> Result<(), Memory>
    ensures text { OnOk result (string_bytes text.new
        ≡ string_bytes text.old ++ join_by (document seed) (codes ",") docs.now) }
    ensures short { OnOk result (length (string_bytes text.new)
        ≤ length (string_bytes text.old) + 41 * length docs.now) }
{
    let Some((first, rest)) = docs.split_first() else {
        return Ok(());
    };
    put_document(alloc, text, seed, *first)?;
    put_others(alloc, text, seed, rest)
}

/// Inserts the documents.
#[tactic(auto, unfolding(crate::specs::Script::insert_body))]
pub(crate) fn insert(alloc: Global, seed: u32, docs: &[u32]) -> Result<String, Memory>
    ensures text { IfOk result (λ text. string_bytes text ≡ insert_body seed docs.now) }
    ensures short { IfOk result (λ text. length (string_bytes text) ≤ 40 + 41 * length docs.now) }
{
    let mut text = String::from_str(alloc, "[1,[56,[[15,[\"load\"]],[2,[")?;
    put_documents(alloc, &mut text, seed, docs)?;
    text.push_str("]]]]]")?;
    Ok(text)
}

/// Adds 1 to the document's `n`.
#[tactic(auto, unfolding(crate::specs::Script::update_body))]
pub(crate) fn update(alloc: Global, i: u32) -> Result<String, Memory>
    ensures { IfOk result (λ text. string_bytes text ≡ update_body i) }
{
    let text = format!(in alloc;
        "[1,[53,[[16,[[15,[\"load\"]],{i}]],[69,[[2,[1]],{{\"n\":[24,[[170,[[10,[1]],\"n\"]],1]]}}]]]]]"
    )?;
    Ok(text)
}

/// Deletes the document.
#[tactic(auto, unfolding(crate::specs::Script::delete_body))]
pub(crate) fn delete(alloc: Global, i: u32) -> Result<String, Memory>
    ensures { IfOk result (λ text. string_bytes text ≡ delete_body i) }
{
    let text = format!(in alloc; "[1,[54,[[16,[[15,[\"load\"]],{i}]]]]]")?;
    Ok(text)
}
