// The requests of each session, in their order.
ghost use Rattle.std.specs.Prelude.{◌≡◌, ◌<◌, ◌≤◌, length, take, drop, flat_map, IfOk, OnOk};
ghost use Rattle.reql_load.specs.Script.{edits, ending, owned, per_round, requests, round, rounds, script_of};
ghost use Rattle.reql_load.specs.Writing.{with_all};

use crate::bodies::{CONTINUE, INDEX, LIMIT, RANGE, STOP, delete, insert, update};
use crate::writer::Writer;
use reql_memory::Memory;
use std::alloc::Global;

/// The tokens of a round's two feeds.
const RANGE_TOKEN: u64 = 1;

const LIMIT_TOKEN: u64 = 2;

/// The token of the one request of the session that makes the index.
const INDEX_TOKEN: u64 = 1;

// The most documents of a round.
#[tactic(auto, unfolding(crate::specs::Script::per_round))]
fn per_round() -> usize
    ensures value { result ≡ per_round }
    ensures few { result ≤ 100 }
    ensures some { 0 < result }
{
    100
}

/// What a session of the load sends: all its bytes, from the greeting on. Sessions 0 to 3 write, each
/// its own fourth of the documents below `size`; session 4 makes their index. Any other session has
/// no document, and sends the greeting alone. The documents differ by the seed. It sends about 60 bytes
/// a document of its own.
#[tactic(auto, using(crate::proofs::Writing::script_written))]
pub fn script(alloc: Global, seed: u32, size: u32, session: u32) -> Result<Vec<u8>, Memory>
    ensures { IfOk result (λ bytes. bytes.items ≡ script_of seed size session) }
{
    let mut writer = Writer::new(alloc)?;
    put_requests(alloc, &mut writer, seed, size, session)?;
    Ok(writer.into_bytes())
}

#[tactic(auto, unfolding(crate::specs::Script::index_body))]
fn put_requests(
    alloc: Global,
    writer: &mut Writer,
    seed: u32,
    size: u32,
    session: u32,
) -> Result<(), Memory>
    ensures { OnOk result (writer.new ≡ with_all writer.old (requests seed size session)) }
{
    if session == 4 {
        return writer.put(INDEX_TOKEN, INDEX);
    }
    let docs = owned(alloc, size, session)?;
    put_rounds(alloc, writer, seed, &docs)
}

// The documents of a session, rising.
fn owned(alloc: Global, size: u32, session: u32) -> Result<Vec<u32>, Memory>
    ensures { IfOk result (λ docs. docs.items ≡ owned size session) }
{
    let docs: Vec<u32> = (0..size).filter(|i| *i % 4 == session).collect(alloc)?;
    Ok(docs)
}

// The first of the documents, up to so many, and those after them.
fn split(docs: &[u32], most: usize) -> (&[u32], &[u32])
    ensures front { result.0.now ≡ take most docs.now }
    ensures back { result.1.now ≡ drop most docs.now }
    ensures few { length result.0.now ≤ most }
{
    if docs.len() <= most {
        return (docs, &[]);
    }
    docs.split_at(most)
}

fn put_rounds(alloc: Global, writer: &mut Writer, seed: u32, docs: &[u32]) -> Result<(), Memory>
    ensures { OnOk result (writer.new ≡ with_all writer.old (rounds seed docs.now)) }
{
    let mut rest = docs;
    while !rest.is_empty() {
        let (first, after) = split(rest, per_round());
        put_round(alloc, writer, seed, first)?;
        rest = after;
    }
    Ok(())
}

#[tactic(auto, unfolding(crate::specs::Script::range_body, crate::specs::Script::limit_body))]
fn put_round(alloc: Global, writer: &mut Writer, seed: u32, docs: &[u32]) -> Result<(), Memory>
    requires { length docs.now ≤ 100 }
    ensures { OnOk result (writer.new ≡ with_all writer.old (round seed docs.now)) }
{
    writer.put(RANGE_TOKEN, RANGE)?;
    writer.put(LIMIT_TOKEN, LIMIT)?;
    let body = insert(alloc, seed, docs)?;
    writer.put_next(body.as_bytes())?;
    put_all_edits(alloc, writer, docs)?;
    end_round(writer)?;
    Ok(())
}

#[tactic(auto, unfolding(crate::specs::Script::continue_body, crate::specs::Script::stop_body))]
fn end_round(writer: &mut Writer) -> Result<(), Memory>
    ensures { OnOk result (writer.new ≡ with_all writer.old ending) }
{
    writer.put(RANGE_TOKEN, CONTINUE)?;
    writer.put(LIMIT_TOKEN, CONTINUE)?;
    writer.put(RANGE_TOKEN, STOP)?;
    writer.put(LIMIT_TOKEN, STOP)
}

#[tactic(auto, using(crate::proofs::Writing::edits_on))]
fn put_all_edits(alloc: Global, writer: &mut Writer, docs: &[u32]) -> Result<(), Memory>
    ensures { OnOk result (writer.new ≡ with_all writer.old (flat_map edits docs.now)) }
{
    for i in docs {
        put_edits(alloc, writer, *i)?;
    }
    Ok(())
}

// Of every four documents of a session one is updated, the next deleted, and two are left.
#[tactic(auto, using(crate::proofs::Short::short_update, crate::proofs::Short::short_delete))]
fn put_edits(alloc: Global, writer: &mut Writer, i: u32) -> Result<(), Memory>
    ensures { OnOk result (writer.new ≡ with_all writer.old (edits i)) }
{
    match i / 4 % 4 {
        0 => writer.put_next(update(alloc, i)?.as_bytes()),
        1 => writer.put_next(delete(alloc, i)?.as_bytes()),
        _ => Ok(()),
    }
}
