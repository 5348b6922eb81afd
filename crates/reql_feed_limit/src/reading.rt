// The first elements of an order, read from its tree.
ghost use Rattle.std.specs.Prelude.{◌≡◌, ◌≤◌, true, map, vec_capacity, IfOk, option_map};
ghost use Rattle.reql_datum.specs.View.{plain};
ghost use Rattle.reql_feed_limit.specs.Boundary as law;
ghost use Rattle.reql_feed_limit.specs.Bounded.{bounds_of};
ghost use Rattle.reql_feed_limit.specs.Bounds.{in_bounds};
ghost use Rattle.reql_feed_limit.specs.Feed.{limit_at};
ghost use Rattle.reql_feed_limit.specs.Order.{spot_of};
ghost use Rattle.reql_feed_limit.specs.Seen.{order_of, seen};
ghost use Rattle.reql_feed_limit.specs.Selection as sel;
ghost use Rattle.reql_table.specs.Seen.{documents_of};
ghost use Rattle.reql_table.specs.Trees.{has_tree, tree_pairs};

use crate::bounds::Bounds;
use crate::element::Element;
use crate::held::{add, copies};
use crate::nearest::{begin_in_tree, found_in_tree};
use reql_datum::Memory;
use reql_feed_read::Order;
use reql_ptree::Steps;
use reql_table::Table;
use std::alloc::Global;

/// The first so many elements between the bounds. It looks at the tree once for each element, and
/// once more where there are fewer.
pub(crate) fn first_elements<L>(
    alloc: Global,
    order: &Order,
    bounds: &Bounds,
    table: &Table,
    tree: u128,
    steps: &mut Steps<L>,
) -> Result<Vec<Element>, Memory>
    requires there { has_tree table.now tree ≡ true }
    requires indexed { tree_pairs table.now tree
        ≡ sel.index_list (spot_of (order_of order.now).index) (documents_of table.now) }
    ensures items { IfOk result (λ v. map seen v.items
        ≡ sel.value (limit_at (order_of order.now) (bounds_of bounds.now)) (documents_of table.now)) }
    ensures room { IfOk result (λ v. order.now.most ≤ vec_capacity v) }
{
    let size = order.most as usize;
    let descending = order.down;
    let mut held = copies(alloc, &[], size)?;
    let mut next = within(
        bounds,
        begin_in_tree(table, tree, descending, bounds, steps)?,
    );
    while held.len() < size {
        match next {
            None => return Ok(held),
            Some(element) => {
                next = following(table, tree, descending, bounds, &element, steps)?;
                add(&mut held, element)?;
            }
        }
    }
    Ok(held)
}

// The next element of an index after another, if it lies between the bounds.
fn following<L>(
    table: &Table,
    tree: u128,
    descending: bool,
    bounds: &Bounds,
    element: &Element,
    steps: &mut Steps<L>,
) -> Result<Option<Element>, Memory>
    requires there { has_tree table.now tree ≡ true }
    ensures { IfOk result (λ o. option_map seen o ≡ law.kept_element (in_bounds (bounds_of bounds.now)) (law.neighbour (sel.facing descending) (plain element.now.pair) (sel.turned descending (tree_pairs table.now tree)))) }
{
    let found = found_in_tree(table, tree, descending, &element.pair, steps)?;
    Ok(within(bounds, found))
}

/// What was found, if its pair lies between the bounds.
pub(crate) fn within(bounds: &Bounds, found: Option<Element>) -> Option<Element>
    ensures { option_map seen result ≡ law.kept_element (in_bounds (bounds_of bounds.now)) (option_map seen found) }
{
    match found {
        None => None,
        Some(element) => {
            if bounds.holds(&element.pair) {
                Some(element)
            } else {
                None
            }
        }
    }
}
