// The trees of indexes after the document at a key became another.
ghost use Rattle.std.specs.Prelude.{◌≡◌, ◌⊎◌, List, map, true, IfOk};
ghost use Rattle.std.specs.List.{AllByRecursion};
ghost use Rattle.reql_ptree.specs.Pairs.{AreRising, find};
ghost use Rattle.reql_term.specs.Views.{Document, index_of};
ghost use Rattle.reql_value_spec.specs.Index.{index_list};
ghost use Rattle.reql_table.specs.Edits.{entries_if as entries_if_of, seen_if, key_at, turned};
ghost use Rattle.reql_table.specs.Keys.{pairs_of};
ghost use Rattle.reql_table.specs.Seen.{numbered, IsFiled};

use crate::filed::FiledIndex;
use crate::indexing::{put_in, take_out};
use crate::table::Table;
use reql_datum::{Datum, Items, Memory, compare};
use reql_index::entries;
use reql_ptree::Tree;
use reql_term::IndexDef;
use std::alloc::Global;

/// What the document at a key was, and what it becomes: none where it comes, or goes.
#[derive(Drop)]
pub(crate) struct Turn<'a> {
    pub(crate) key: &'a Datum,
    pub(crate) old: Option<&'a Datum>,
    pub(crate) new: Option<&'a Datum>,
}

// The values at which a document that may be there has entries.
fn entries_if(alloc: Global, def: &IndexDef, document: Option<&Datum>) -> Result<Items, Memory>
    ensures { IfOk result (λ vs. vs
        ≡ entries_if_of (index_of def.now) (seen_if document.entry)) }
{
    match document {
        Some(document) => entries::<Table>(alloc, def, document),
        None => Ok(Items::new(alloc)),
    }
}

#[tactic(auto, using(crate::proofs::Filing::same_lists))]
fn are_same(us: &Items, vs: &Items) -> Result<bool, Memory>
    ensures { IfOk result (λ same. same ≡ true → us.now ≡ vs.now) }
{
    let us = Datum::List(us.copy()?);
    let vs = Datum::List(vs.copy()?);
    Ok(compare(&us, &vs).is_eq())
}

// The values whose entries go: all of the old document, none where the new one has the same.
fn going(alloc: Global, old: Items, new: &Items) -> Result<Items, Memory>
    ensures { IfOk result (λ us. (old ≡ us) ⊎ (old ≡ new.now)) }
{
    if are_same(&old, new)? {
        return Ok(Items::new(alloc));
    }
    Ok(old)
}

// The tree of an index after it.
fn tree_after(alloc: Global, def: &IndexDef, tree: Tree, turn: &Turn<'_>) -> Result<Tree, Memory>
    ensures { (docs : List Document) → AreRising docs
        → find (key_at turn.now) docs ≡ seen_if turn.now.old
        → tree ≡ pairs_of (index_list docs (index_of def.now))
        → IfOk result (λ after. after
        ≡ pairs_of (index_list (turned turn.now docs) (index_of def.now))) }
{
    let old = entries_if(alloc, def, turn.old)?;
    let mut tree = tree;
    match turn.new {
        None => {
            take_out(alloc, &mut tree, turn.key, &old)?;
            Ok(tree)
        }
        Some(document) => {
            let new = entries::<Table>(alloc, def, document)?;
            let gone = going(alloc, old, &new)?;
            take_out(alloc, &mut tree, turn.key, &gone)?;
            put_in(alloc, &mut tree, turn.key, document, &new)?;
            Ok(tree)
        }
    }
}

fn refiled(alloc: Global, index: FiledIndex, turn: &Turn<'_>) -> Result<FiledIndex, Memory>
    ensures numbered { IfOk result (λ i. numbered i ≡ numbered index) }
    ensures filed { (docs : List Document) → AreRising docs
        → find (key_at turn.now) docs ≡ seen_if turn.now.old → IsFiled docs index
        → IfOk result (IsFiled (turned turn.now docs)) }
{
    let FiledIndex {
        def,
        number,
        entries,
    } = index;
    let entries = tree_after(alloc, &def, entries, turn)?;
    Ok(FiledIndex {
        def,
        number,
        entries,
    })
}

/// The indexes after it. What nobody shares of their trees is changed in place.
pub(crate) fn all_refiled(
    alloc: Global,
    indexes: Vec<FiledIndex>,
    turn: &Turn<'_>,
) -> Result<Vec<FiledIndex>, Memory>
    ensures numbered { IfOk result (λ is. map numbered is.items ≡ map numbered indexes.items) }
    ensures filed { (docs : List Document) → AreRising docs
        → find (key_at turn.now) docs ≡ seen_if turn.now.old
        → AllByRecursion (IsFiled docs) indexes.items
        → IfOk result (λ is. AllByRecursion (IsFiled (turned turn.now docs)) is.items) }
{
    let mut all = Vec::with_capacity(alloc, indexes.len())?;
    for index in indexes {
        all.push(refiled(alloc, index, turn)?)?;
    }
    Ok(all)
}
