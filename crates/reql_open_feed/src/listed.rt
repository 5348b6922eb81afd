// Items as a list that is handed on.
ghost use Rattle.std.specs.Prelude.{◌≡◌, map, IfOk};
ghost use Rattle.reql_datum.specs.View.{plain};

use reql_datum::{Datum, Items};
use reql_memory::{Memory, Seq};
use std::alloc::Global;

/// Items as a list, which shares them.
#[tactic(auto, using(reql_datum::proofs::Walks::walks))]
pub(crate) fn listed(alloc: Global, items: &Items) -> Result<Seq<Datum>, Memory>
    ensures { IfOk result (λ s. map plain s ≡ items.now) }
{
    let mut list = Seq::new(alloc);
    let mut place = 0;
    while let Some(item) = items.at(place) {
        list.push(item.copy()?)?;
        place += 1;
    }
    Ok(list)
}
