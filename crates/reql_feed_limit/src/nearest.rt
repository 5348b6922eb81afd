// The next element of an index after a pair, in the direction of a feed.
ghost use Rattle.std.specs.Prelude.{◌≡◌, ◌+◌, ◌≤◌, true, length, IfOk, option_map};
ghost use Rattle.reql_datum.specs.View.{plain};
ghost use Rattle.reql_feed_limit.specs.Boundary.{neighbour, is_nearer, nearer};
ghost use Rattle.reql_feed_limit.specs.Edits.{paired};
ghost use Rattle.reql_feed_limit.specs.Selection.{facing, turned, index_list};
ghost use Rattle.reql_feed_limit.specs.Opening.{begin_in};
ghost use Rattle.reql_feed_limit.specs.Bounded.{bounds_of};
ghost use Rattle.reql_feed_limit.specs.Order.{spot_of};
ghost use Rattle.reql_feed_limit.specs.Tree.{next_in, prev_in};
ghost use Rattle.reql_ptree.specs.Seen.{pair_seen};
ghost use Rattle.reql_table.specs.Seen.{documents_of};
ghost use Rattle.reql_table.specs.Trees.{has_tree, tree_pairs};
ghost use Rattle.reql_term.specs.Views.{index_of};
ghost use Rattle.reql_feed_limit.specs.Seen.{seen};
ghost use Rattle.reql_ptree.specs.Tall.{tall};

use crate::bounds::Bounds;
use crate::element::Element;
use crate::pairs::pair_of;
use crate::search::facing as facing_of;
use reql_datum::{Datum, Memory};
use reql_ptree::Steps;
use reql_table::{IndexDef, Table};
use std::alloc::Global;

// The pair itself or the next one of a tree, with `past` the next one, and its document.
#[tactic(auto, using(crate::proofs::Looks::next_is))]
fn next_pair<'a, L>(
    table: &'a Table,
    tree: u128,
    pair: &Datum,
    past: bool,
    steps: &mut Steps<L>,
) -> Option<(&'a Datum, &'a Datum)>
    requires there { has_tree table.now tree ≡ true }
    ensures found { option_map pair_seen result
        ≡ next_in past (plain pair.now) (tree_pairs table.now tree) }
    ensures counted { steps.new ≤ steps.old + tall (length (tree_pairs table.now tree)) }
{
    table.next_pair(tree, pair, past, steps)
}

// The same in the reverse.
#[tactic(auto, using(crate::proofs::Looks::prev_is))]
fn prev_pair<'a, L>(
    table: &'a Table,
    tree: u128,
    pair: &Datum,
    past: bool,
    steps: &mut Steps<L>,
) -> Option<(&'a Datum, &'a Datum)>
    requires there { has_tree table.now tree ≡ true }
    ensures found { option_map pair_seen result
        ≡ prev_in past (plain pair.now) (tree_pairs table.now tree) }
    ensures counted { steps.new ≤ steps.old + tall (length (tree_pairs table.now tree)) }
{
    table.prev_pair(tree, pair, past, steps)
}

/// The first element of an index at a feed's bounds, in the feed's direction, by one look.
pub(crate) fn begin_in_tree<L>(
    after: &Table,
    tree: u128,
    descending: bool,
    bounds: &Bounds,
    steps: &mut Steps<L>,
) -> Result<Option<Element>, Memory>
    requires there { has_tree after.now tree ≡ true }
    ensures found { IfOk result (λ o. option_map seen o ≡ begin_in descending (bounds_of bounds.now) (turned descending (tree_pairs after.now tree))) }
    ensures counted { steps.new ≤ steps.old + tall (length (tree_pairs after.now tree)) }
{
    let found = if descending {
        prev_pair(after, tree, &bounds.top, bounds.top_open, steps)
    } else {
        next_pair(after, tree, &bounds.bottom, bounds.bottom_open, steps)
    };
    match found {
        None => Ok(None),
        Some((pair, doc)) => Ok(Some(Element {
            pair: pair.copy()?,
            doc: doc.copy()?,
        })),
    }
}

// Found in the index's tree, by one look.
pub(crate) fn found_in_tree<L>(
    after: &Table,
    tree: u128,
    descending: bool,
    pair: &Datum,
    steps: &mut Steps<L>,
) -> Result<Option<Element>, Memory>
    requires there { has_tree after.now tree ≡ true }
    ensures found { IfOk result (λ o. option_map seen o ≡ neighbour (facing descending) (plain pair.now) (turned descending (tree_pairs after.now tree))) }
    ensures counted { steps.new ≤ steps.old + tall (length (tree_pairs after.now tree)) }
{
    let found = if descending {
        prev_pair(after, tree, pair, true, steps)
    } else {
        next_pair(after, tree, pair, true, steps)
    };
    match found {
        None => Ok(None),
        Some((pair, doc)) => Ok(Some(Element {
            pair: pair.copy()?,
            doc: doc.copy()?,
        })),
    }
}

// Found by a walk over the documents, last first.
fn found_by_walk<L>(
    alloc: Global,
    index: &Option<IndexDef>,
    after: &Table,
    descending: bool,
    pair: &Datum,
    steps: &mut Steps<L>,
) -> Result<Option<Element>, Memory>
    ensures { IfOk result (λ o. option_map seen o ≡ neighbour (facing descending) (plain pair.now) (turned descending (index_list (spot_of (option_map index_of index.now)) (documents_of after.now)))) }
{
    let _there = after.has_tree(0);
    let mut best: Option<Element> = None;
    let mut found = prev_pair(after, 0, &Datum::High, false, steps);
    while let Some((key, doc)) = found {
        best = nearer(alloc, index, descending, pair, key, doc, best)?;
        found = prev_pair(after, 0, key, true, steps);
    }
    Ok(best)
}

/// The next element after a pair in an index: by its tree where that is there, else by a walk.
pub(crate) fn nearest<L>(
    alloc: Global,
    index: &Option<IndexDef>,
    after: &Table,
    tree: u128,
    descending: bool,
    pair: &Datum,
    steps: &mut Steps<L>,
) -> Result<Option<Element>, Memory>
    requires indexed { has_tree after.now tree ≡ true → tree_pairs after.now tree ≡ index_list (spot_of (option_map index_of index.now)) (documents_of after.now) }
    ensures found { IfOk result (λ o. option_map seen o ≡ neighbour (facing descending) (plain pair.now) (turned descending (index_list (spot_of (option_map index_of index.now)) (documents_of after.now)))) }
    ensures counted { has_tree after.now tree ≡ true → steps.new ≤ steps.old + tall (length (tree_pairs after.now tree)) }
{
    if after.has_tree(tree) {
        found_in_tree(after, tree, descending, pair, steps)
    } else {
        found_by_walk(alloc, index, after, descending, pair, steps)
    }
}

// Of the best element so far and a document, the one whose pair is first after the pair.
fn nearer(
    alloc: Global,
    index: &Option<IndexDef>,
    descending: bool,
    pair: &Datum,
    key: &Datum,
    doc: &Datum,
    best: Option<Element>,
) -> Result<Option<Element>, Memory>
    ensures { IfOk result (λ o. option_map seen o ≡ nearer (facing descending) (plain pair.now) (paired (spot_of (option_map index_of index.now) (plain key.now) (plain doc.now)) (plain doc.now)) (option_map seen best)) }
{
    let Some(own) = pair_of(alloc, index, key, doc)? else {
        return Ok(best);
    };
    if is_nearer(descending, pair, &own, &best) {
        let doc = doc.copy()?;
        Ok(Some(Element { pair: own, doc }))
    } else {
        Ok(best)
    }
}

// Whether a pair comes after another, and before the best element so far.
fn is_nearer(descending: bool, pair: &Datum, own: &Datum, best: &Option<Element>) -> bool
    ensures { result ≡ is_nearer (facing descending) (plain pair.now) (plain own.now) (option_map seen best.now) }
{
    match best {
        None => facing_of(descending, pair, own).is_lt(),
        Some(best) => {
            facing_of(descending, pair, own).is_lt()
                && !facing_of(descending, &best.pair, own).is_lt()
        }
    }
}
