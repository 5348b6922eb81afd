// The list of a table's indexes, with one put in or taken out.
ghost use Rattle.std.specs.Prelude.{◌≡◌, List, length, map, IfOk, IfErr};
ghost use Rattle.std.specs.List.{AllByRecursion};
ghost use Rattle.std.specs.List.Sorted.{IsSearchInRange};
ghost use Rattle.std.specs.Map.{keys_of};
ghost use Rattle.reql_memory.specs.CopyOnWrite.{held_items};
ghost use Rattle.reql_memory.specs.Sorted.{IsHitBy, IsGapBy};
ghost use Rattle.reql_datum.specs.Members.{AreRising, put, without, text_order};
ghost use Rattle.reql_term.specs.Views.{Document};
ghost use Rattle.reql_table.specs.Seen.{numbered, IsFiled};

use crate::filed::FiledIndex;
use reql_datum::Memory;
use std::alloc::Global;
use std::sync::Arc;

/// Indexes as a table holds them.
pub(crate) fn held(
    alloc: Global,
    indexes: Vec<FiledIndex>,
) -> Result<Option<Arc<Vec<FiledIndex>>>, Memory>
    ensures { IfOk result (λ held. held_items held ≡ indexes.items) }
{
    if indexes.is_empty() {
        return Ok(None);
    }
    Ok(Some(Arc::new(alloc, indexes)?))
}

/// Equal indexes that share their trees.
pub(crate) fn copies_of(alloc: Global, indexes: &[FiledIndex]) -> Result<Vec<FiledIndex>, Memory>
    ensures { IfOk result (λ copies. copies.items ≡ indexes.now) }
{
    let mut copies = Vec::with_capacity(alloc, indexes.len().saturating_add(1))?;
    for index in indexes {
        copies.push(index.share()?)?;
    }
    Ok(copies)
}

// Where the index of a name is, or where it would stand.
fn place_of(indexes: &[FiledIndex], name: &str) -> Result<usize, usize>
    requires rising { AreRising (map numbered indexes.now) }
    ensures found { IfOk result (IsHitBy text_order (keys_of (map numbered indexes.now)) name.now) }
    ensures absent { IfErr result
        (IsGapBy text_order (keys_of (map numbered indexes.now)) name.now) }
    ensures in_range { IsSearchInRange result (length indexes.now) }
{
    indexes.binary_search_by(|index| index.def.name.order(name))
}

/// With an index, in the place of the one of its name if there is one.
pub(crate) fn put_index(
    indexes: Vec<FiledIndex>,
    index: FiledIndex,
) -> Result<Vec<FiledIndex>, Memory>
    requires rising { AreRising (map numbered indexes.items) }
    ensures numbered { IfOk result (λ is. map numbered is.items
        ≡ put index.def.name (numbered index).1 (map numbered indexes.items)) }
    ensures filed { (docs : List Document) → AllByRecursion (IsFiled docs) indexes.items
        → IsFiled docs index → IfOk result (λ is. AllByRecursion (IsFiled docs) is.items) }
{
    let mut all = indexes;
    match place_of(&all, index.def.name.as_str()) {
        Ok(place) => {
            all[place] = index;
            Ok(all)
        }
        Err(place) => {
            if let Err(_) = all.insert(place, index) {
                return Err(Memory);
            }
            Ok(all)
        }
    }
}

/// Without the index of a name.
pub(crate) fn without_index(indexes: Vec<FiledIndex>, name: &str) -> Vec<FiledIndex>
    requires rising { AreRising (map numbered indexes.items) }
    ensures numbered { map numbered result.items ≡ without name.now (map numbered indexes.items) }
    ensures filed { (docs : List Document) → AllByRecursion (IsFiled docs) indexes.items
        → AllByRecursion (IsFiled docs) result.items }
{
    let mut all = indexes;
    if let Ok(place) = place_of(&all, name) {
        drop(all.remove(place));
        return all;
    }
    all
}
