// Patterns brought into one form: an object whose values are objects of that form, or true.
ghost use Rattle.std.specs.Prelude.{◌≡◌, IfOk};
ghost use Rattle.reql_datum.specs.Members.{AreRising};
ghost use Rattle.reql_datum.specs.View.{plain};
ghost use Rattle.reql_rules.specs.Lists.{object_of};
ghost use Rattle.reql_path.specs.Named.{StandsFor, AllStandFor};
ghost use Rattle.reql_path.specs.Normal.{Compiles};

use crate::gathering::{Wanted, gathered};
use reql_datum::{Datum, Fields, Items, Memory, Name};
use std::alloc::Global;
use std::collections::BTreeMap;

/// What patterns name, as one object in which each name stands once.
#[cycle(compile)]
pub(crate) fn compiled(alloc: Global, patterns: &Items) -> Result<Fields, Memory>
    ensures { IfOk result (λ r. Compiles patterns.now (object_of r)) }
{
    let named = gathered(alloc, patterns)?;
    built(alloc, named)
}

#[cycle(compile)]
fn built(alloc: Global, named: BTreeMap<Name, Wanted>) -> Result<Fields, Memory>
    requires { AreRising named.entries }
    ensures { IfOk result (λ r. AllStandFor named.entries r) }
{
    let mut named = named;
    let mut fields = Fields::with_room(alloc, named.len())?;
    while let Some((name, wanted)) = named.pop_first() {
        let value = standing(alloc, wanted)?;
        drop(fields.put(name, value)?);
    }
    Ok(fields)
}

#[cycle(compile)]
fn standing(alloc: Global, wanted: Wanted) -> Result<Datum, Memory>
    ensures { IfOk result (λ d. StandsFor wanted (plain d)) }
{
    match wanted {
        Wanted::Whole => Ok(Datum::Bool(true)),
        Wanted::Inside(patterns) => {
            let fields = compiled(alloc, &patterns)?;
            Ok(Datum::Obj(fields))
        }
    }
}
