// The keys between which the entries of a range of values lie.
ghost use Rattle.std.specs.Prelude.{◌≡◌, IfOk};
ghost use Rattle.reql_datum.specs.View.{plain};
ghost use Rattle.reql_table.specs.Keys.{before as before_of, after as after_of, low_end as low_end_of, high_end as high_end_of};

use reql_datum::{Datum, Items, Memory};
use reql_term::Bound;
use std::alloc::Global;

/// The key before the entries of a value.
pub(crate) fn before(alloc: Global, value: &Datum) -> Result<Datum, Memory>
    ensures { IfOk result (λ d. plain d ≡ before_of (plain value.now)) }
{
    let mut key = Items::with_room(alloc, 1)?;
    key.push(value.copy()?)?;
    Ok(Datum::List(key))
}

/// The key after the entries of a value.
pub(crate) fn after(alloc: Global, value: &Datum) -> Result<Datum, Memory>
    ensures { IfOk result (λ d. plain d ≡ after_of (plain value.now)) }
{
    let mut key = Items::with_room(alloc, 3)?;
    key.push(value.copy()?)?;
    key.push(Datum::High)?;
    key.push(Datum::Null)?;
    Ok(Datum::List(key))
}

/// The key at which the entries of a range begin.
pub(crate) fn low_end(alloc: Global, bound: &Bound) -> Result<Datum, Memory>
    ensures { IfOk result (λ d. plain d ≡ low_end_of bound.now.is_open (plain bound.now.value)) }
{
    if bound.is_open {
        return after(alloc, &bound.value);
    }
    before(alloc, &bound.value)
}

/// The key at which they end.
pub(crate) fn high_end(alloc: Global, bound: &Bound) -> Result<Datum, Memory>
    ensures { IfOk result (λ d. plain d ≡ high_end_of bound.now.is_open (plain bound.now.value)) }
{
    if bound.is_open {
        return before(alloc, &bound.value);
    }
    after(alloc, &bound.value)
}
