// The items between two places of a list.
ghost use Rattle.std.specs.Prelude.{◌≡◌, ◌≤◌, length, map, IfOk};
ghost use Rattle.reql_datum.specs.View.{plain};
ghost use Rattle.reql_rules.specs.Places.{cut};

use crate::copies::items_of;
use reql_datum::{Items, Memory};
use std::alloc::Global;

/// The items from one place up to another, that one left out.
pub fn cut(alloc: Global, list: &Items, from: usize, to: usize) -> Result<Items, Memory>
    requires in_order { from ≤ to }
    requires in_list { to ≤ length list.now }
    ensures { IfOk result (λ items. items ≡ cut list.now from to) }
{
    items_of(alloc, &list.as_slice()[from..to])
}
