// Entries of documents put into the tree of an index, and taken out of it.
ghost use Rattle.std.specs.Prelude.{◌≡◌, [], map, IfOk};
ghost use Rattle.reql_datum.specs.View.{plain};
ghost use Rattle.reql_ptree.specs.Pairs.{AreRising, put};
ghost use Rattle.reql_term.specs.Views.{index_of};
ghost use Rattle.reql_value_spec.specs.Index.{index_list};
ghost use Rattle.reql_table.specs.Edits.{entry_key as entry_key_of, taken, filed, all_filed};
ghost use Rattle.reql_table.specs.Inside.{pair};
ghost use Rattle.reql_table.specs.Keys.{pairs_of};

use crate::slice::Slice;
use crate::table::Table;
use crate::walk::{Pair, pairs};
use reql_datum::{Datum, Items, Memory};
use reql_index::entries;
use reql_ptree::{Steps, Tree};
use reql_term::IndexDef;
use std::alloc::Global;

// The key of the entry that the document at a key has at a value.
fn entry_key(alloc: Global, key: &Datum, value: &Datum) -> Result<Datum, Memory>
    ensures { IfOk result (λ d. plain d ≡ entry_key_of (plain key.now) (plain value.now)) }
{
    let mut parts = Items::with_room(alloc, 2)?;
    parts.push(value.copy()?)?;
    parts.push(key.copy()?)?;
    Ok(Datum::List(parts))
}

fn put_entry(tree: &mut Tree, key: Datum, document: Datum) -> Result<(), Memory>
    ensures { IfOk result (λ _. tree.new ≡ put (plain key) (plain document) tree.old) }
{
    let mut steps = Steps::start();
    match tree.put_own(key, document, &mut steps) {
        Ok(()) => Ok(()),
        Err(_) => Err(Memory),
    }
}

/// Takes out the entries that the document at a key has at some values.
#[tactic(auto, using(reql_datum::proofs::Walks::walks))]
pub(crate) fn take_out(
    alloc: Global,
    tree: &mut Tree,
    key: &Datum,
    values: &Items,
) -> Result<(), Memory>
    ensures { IfOk result (λ _. tree.new ≡ taken (plain key.now) values.now tree.old) }
{
    let mut steps = Steps::start();
    let mut place = 0;
    while let Some(value) = values.at(place) {
        let entry = entry_key(alloc, key, value)?;
        tree.remove_own(&entry, &mut steps)?;
        place += 1;
    }
    Ok(())
}

/// Puts in an entry of a document at each of some values.
#[tactic(auto, using(reql_datum::proofs::Walks::walks))]
pub(crate) fn put_in(
    alloc: Global,
    tree: &mut Tree,
    key: &Datum,
    document: &Datum,
    values: &Items,
) -> Result<(), Memory>
    ensures { IfOk result (λ _. tree.new
        ≡ filed (plain key.now, plain document.now) values.now tree.old) }
{
    let mut place = 0;
    while let Some(value) = values.at(place) {
        let entry = entry_key(alloc, key, value)?;
        put_entry(tree, entry, document.copy()?)?;
        place += 1;
    }
    Ok(())
}

// The tree of the entries of documents.
fn tree_of(alloc: Global, def: &IndexDef, documents: &[Pair]) -> Result<Tree, Memory>
    ensures { IfOk result (λ tree. tree
        ≡ all_filed (index_of def.now) (map pair documents.now) []) }
{
    let mut tree = Tree::new(alloc);
    for pair in documents {
        let values = entries::<Table>(alloc, def, &pair.document)?;
        put_in(alloc, &mut tree, &pair.key, &pair.document, &values)?;
    }
    Ok(tree)
}

// All pairs of a tree.
#[tactic(auto, using(crate::proofs::Turned::all_inside))]
fn all_pairs(alloc: Global, tree: &Tree) -> Result<Vec<Pair>, Memory>
    requires rising { AreRising tree.now }
    ensures { IfOk result (λ ps. map pair ps.items ≡ tree.now) }
{
    let slice = Slice {
        tree,
        filed: false,
        low: Datum::Low,
        low_open: false,
        high: Datum::High,
        high_open: false,
    };
    let found = pairs(alloc, &slice)?;
    Ok(found)
}

/// The tree of an index over documents.
#[tactic(auto, using(crate::proofs::Filing::built_filed))]
pub(crate) fn built(alloc: Global, def: &IndexDef, documents: &Tree) -> Result<Tree, Memory>
    requires rising { AreRising documents.now }
    ensures { IfOk result (λ tree. tree
        ≡ pairs_of (index_list documents.now (index_of def.now))) }
{
    let all = all_pairs(alloc, documents)?;
    let tree = tree_of(alloc, def, &all)?;
    Ok(tree)
}
