// Members gathered in no order by a map, and the object of them.
ghost use Rattle.std.specs.Prelude.{◌≡◌, IfOk, is_some};
ghost use Rattle.reql_datum.specs.Members.{find, put};
ghost use Rattle.reql_datum.specs.Outcome.{Gives};
ghost use Rattle.reql_datum.specs.View.{plain};
ghost use Rattle.reql_rules.specs.Objects.{is_bad_name, put_new};
ghost use Rattle.reql_scalar.specs.Two.{gathered};

use crate::coercing::{bad_name, is_same, put};
use reql_datum::{Datum, Fault, Fields, Memory, Name};
use std::alloc::Global;
use std::collections::BTreeMap;

fn is_there(named: &BTreeMap<Name, Datum>, name: &Name) -> bool
    ensures { result ≡ is_some (find name.now (gathered named.now.entries)) }
{
    named.contains_key(name)
}

fn is_bad_name(named: &BTreeMap<Name, Datum>, name: &Name) -> bool
    ensures { result ≡ is_bad_name name.now (gathered named.now.entries) }
{
    is_same(name.as_str(), "$reql_type$") || is_there(named, name)
}

/// Puts a value at a name.
pub(crate) fn insert(
    named: &mut BTreeMap<Name, Datum>,
    name: Name,
    value: Datum,
) -> Result<(), Memory>
    ensures { IfOk result (λ _. gathered named.new.entries
        ≡ put name (plain value) (gathered named.old.entries)) }
{
    drop(named.insert(name, value)?);
    Ok(())
}

/// Adds a name that is not among those gathered yet. One that is, or the reserved one, is a fault.
pub(crate) fn gather(
    alloc: Global,
    named: &mut BTreeMap<Name, Datum>,
    name: &Name,
    value: &Datum,
) -> Result<(), Fault>
    ensures { Gives (λ _. gathered named.new.entries) result
        (put_new name.now (plain value.now) (gathered named.old.entries)) }
{
    if is_bad_name(named, name) {
        return Err(bad_name(alloc));
    }
    let key = name.copy()?;
    let copied = value.copy()?;
    insert(named, key, copied)?;
    Ok(())
}

/// The object of what was gathered, by rising names, so that each is put behind the last.
pub(crate) fn built(alloc: Global, named: BTreeMap<Name, Datum>) -> Result<Fields, Memory>
    ensures { IfOk result (λ fields. fields ≡ gathered named.entries) }
{
    let mut named = named;
    let mut fields = Fields::with_room(alloc, named.len())?;
    while let Some((name, value)) = named.pop_first() {
        put(&mut fields, name, value)?;
    }
    Ok(fields)
}
