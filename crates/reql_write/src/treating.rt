// Documents treated one after another, each on what those before it made of the table.
ghost use Rattle.std.specs.Prelude.{◌≡◌, ◌≤◌, [], ◌∷◌, None, IfOk, IfSome, length, map, option_map};
ghost use Rattle.reql_memory.specs.Sorted.{find_by, put_by, without_by};
ghost use Rattle.reql_datum.specs.Order.{order};
ghost use Rattle.reql_datum.specs.View.{plain};
ghost use Rattle.reql_rules.specs.Lists.{joined};
ghost use Rattle.reql_write_spec.specs.Treated.{changes_of, changed_by};
ghost use Rattle.reql_write_spec.specs.Treating.{treat_all as treat_all_of};
ghost use Rattle.reql_write.specs.Acting.{treating};
ghost use Rattle.reql_write.specs.Seen.{seen};

use crate::changing::{delete, replace, update};
use crate::inserting::insert;
use crate::treated::Treated;
use reql_datum::{Datum, Items, Memory, Name};
use reql_operand::Purse;
use reql_ptree::{Steps, Tree};
use reql_write_spec::Act;
use std::alloc::Global;

// What is at a key.
fn at<'a>(documents: &'a Tree, key: &Datum) -> Option<&'a Datum>
    ensures { option_map (λ d. plain d.now) result ≡ find_by order (plain key.now) documents.now }
{
    let mut steps = Steps::start();
    documents.get(key, &mut steps)
}

// What becomes of one: of a document that is inserted, or of that at a key.
fn treat(
    alloc: Global,
    field: &Name,
    act: &Act,
    item: &Datum,
    documents: &Tree,
    purse: &Purse,
) -> Result<Treated, Memory>
    ensures { IfOk result (λ t. seen t ≡ treating field.now act.now documents.now
        (plain item.now)) }
{
    match act {
        Act::Insert {
            docs: _,
            conflict,
            made: _,
        } => insert(alloc, field, *conflict, item, documents, purse),
        Act::Update { rows: _, change } => {
            update(alloc, field, change, item, at(documents, item), purse)
        }
        Act::Replace { rows: _, change } => {
            replace(alloc, field, change, item, at(documents, item), purse)
        }
        Act::Delete { rows: _ } => delete(item, at(documents, item)),
    }
}

fn put(documents: &mut Tree, key: &Datum, document: &Datum) -> Result<(), Memory>
    ensures { IfOk result (λ _. documents.new
        ≡ put_by order (plain key.now) (plain document.now) documents.old) }
{
    let mut steps = Steps::start();
    match documents.put_own(key.copy()?, document.copy()?, &mut steps) {
        Ok(()) => Ok(()),
        Err(_) => Err(Memory),
    }
}

fn remove(documents: &mut Tree, key: &Datum) -> Result<(), Memory>
    ensures { IfOk result (λ _. documents.new
        ≡ without_by order (plain key.now) documents.old) }
{
    let mut steps = Steps::start();
    documents.remove_own(key, &mut steps)
}

// The documents after it.
fn turn(documents: &mut Tree, treated: &Treated) -> Result<(), Memory>
    ensures { IfOk result (λ _. documents.new
        ≡ changed_by documents.old (changes_of (seen treated.now))) }
{
    match treated {
        Treated::Inserted { key, new } => put(documents, key, new),
        Treated::Replaced { key, old: _, new } => put(documents, key, new),
        Treated::Deleted { key, old: _ } => remove(documents, key),
        Treated::Unchanged(_) => Ok(()),
        Treated::Skipped => Ok(()),
        Treated::Failed { why: _, old: _ } => Ok(()),
    }
}

// What becomes of one alone.
fn treat_one(
    alloc: Global,
    field: &Name,
    act: &Act,
    item: &Datum,
    documents: &Tree,
    purse: &Purse,
) -> Result<Vec<Treated>, Memory>
    ensures { IfOk result (λ all. map seen all.items ≡ treating field.now act.now documents.now
        (plain item.now) ∷ []) }
{
    let treated = treat(alloc, field, act, item, documents, purse)?;
    let mut all = Vec::with_capacity(alloc, 1)?;
    all.push(treated)?;
    Ok(all)
}

/// What becomes of each in order, from the documents that were there at the start, and the documents
/// after all; where there is one item, nothing has to be treated on those, and they aren't made.
pub(crate) fn treat_all(
    alloc: Global,
    field: &Name,
    act: &Act,
    items: &Items,
    start: &Tree,
    purse: &Purse,
) -> Result<(Vec<Treated>, Option<Tree>), Memory>
    ensures treated { IfOk result (λ r. map seen r.0.items
        ≡ treat_all_of (treating field.now act.now) start.now items.now) }
    ensures documents { IfOk result (λ r. IfSome r.1 (λ after. after
        ≡ changed_by start.now (joined (map changes_of (map seen r.0.items))))) }
    ensures alone { IfOk result (λ r. r.1 ≡ None
        → length (joined (map changes_of (map seen r.0.items))) ≤ 1) }
{
    if let (Some(item), None) = (items.at(0), items.at(1)) {
        return Ok((treat_one(alloc, field, act, item, start, purse)?, None));
    }
    let (all, documents) = treat_more(alloc, field, act, items, start, purse)?;
    Ok((all, Some(documents)))
}

// The same of as many as there are.
#[tactic(auto, using(reql_datum::proofs::Walks::walks))]
fn treat_more(
    alloc: Global,
    field: &Name,
    act: &Act,
    items: &Items,
    start: &Tree,
    purse: &Purse,
) -> Result<(Vec<Treated>, Tree), Memory>
    ensures treated { IfOk result (λ r. map seen r.0.items
        ≡ treat_all_of (treating field.now act.now) start.now items.now) }
    ensures documents { IfOk result (λ r. r.1
        ≡ changed_by start.now (joined (map changes_of (map seen r.0.items)))) }
{
    let mut documents = start.share()?;
    let mut all = Vec::new(alloc);
    let mut place = 0;
    while let Some(item) = items.at(place) {
        let treated = treat(alloc, field, act, item, &documents, purse)?;
        turn(&mut documents, &treated)?;
        all.push(treated)?;
        place += 1;
    }
    Ok((all, documents))
}
