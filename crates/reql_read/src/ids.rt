// The ids of parameters.
ghost use Rattle.std.specs.Prelude.{◌≡◌, ◌++◌, []};
ghost use Rattle.serde_json.specs.View.{items_view};
ghost use Rattle.reql_read.specs.Apart.{ids_among};
ghost use Rattle.reql_read.specs.Outcome.{Understands};

use crate::fault::ReadFault;
use crate::shape::number_in;
use reql_term::Params;
use serde_json::Value;
use std::alloc::Global;
use std::collections::BTreeSet;

/// The ids that are written, no two alike.
pub(crate) fn ids_among(alloc: Global, items: &[Value]) -> Result<Params, ReadFault>
    ensures { Understands (λ ids. ids) result (ids_among [] (items_view items.now)) }
{
    let mut seen = BTreeSet::new(alloc);
    let mut ids = Params::with_room(alloc, items.len())?;
    for item in items {
        let id = number_in(item)?;
        if !seen.insert(id)? {
            return Err(ReadFault::BadShape);
        }
        ids.push(id)?;
    }
    Ok(ids)
}
