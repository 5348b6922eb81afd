// Objects that are built member by member.
ghost use Rattle.std.specs.Prelude.{◌≡◌, OnOk};
ghost use Rattle.reql_datum.specs.Members.{put};
ghost use Rattle.reql_datum.specs.Plain.{text};
ghost use Rattle.reql_datum.specs.View.{plain};
ghost use Rattle.reql_rules.specs.Places.{counted_as};
ghost use Rattle.reql_plan_spec.specs.Summed.{some_list, some_text, if_any};
ghost use Rattle.reql_plan_results.specs.Members.{put_all};

use reql_datum::{Datum, Fields, Items, Memory, Name, Whole};
use std::alloc::Global;

/// A count as a document.
pub(crate) fn count_shown(count: u64) -> Datum
    ensures { plain result ≡ counted_as count }
{
    match Whole::new(count.min(9_007_199_254_740_992) as i64) {
        Some(number) => Datum::Num(number),
        None => unreachable!(),
    }
}

/// Puts a value at a name.
pub(crate) fn set(
    alloc: Global,
    fields: &mut Fields,
    name: &str,
    value: Datum,
) -> Result<(), Memory>
    ensures { OnOk result (fields.new ≡ put name.now (plain value) fields.old) }
{
    fields.set(Name::of(alloc, name)?, value)
}

/// Puts a count at a name.
pub(crate) fn set_count(
    alloc: Global,
    fields: &mut Fields,
    name: &str,
    count: u64,
) -> Result<(), Memory>
    ensures { OnOk result (fields.new ≡ put name.now (counted_as count) fields.old) }
{
    set(alloc, fields, name, count_shown(count))
}

/// Puts a text at a name.
pub(crate) fn set_text(
    alloc: Global,
    fields: &mut Fields,
    name: &str,
    value: &str,
) -> Result<(), Memory>
    ensures { OnOk result (fields.new ≡ put name.now (text value.now) fields.old) }
{
    set(alloc, fields, name, Datum::Text(Name::of(alloc, value)?))
}

/// Puts a text at a name, where there is one.
pub(crate) fn set_some_text(
    alloc: Global,
    fields: &mut Fields,
    name: &str,
    value: &Option<Name>,
) -> Result<(), Memory>
    ensures { OnOk result (fields.new ≡ put_all (some_text name.now value.now) fields.old) }
{
    match value {
        Some(text) => set(alloc, fields, name, Datum::Text(text.copy()?)),
        None => Ok(()),
    }
}

/// Puts a list at a name, where there is one.
pub(crate) fn set_some_list(
    alloc: Global,
    fields: &mut Fields,
    name: &str,
    list: &Option<Items>,
) -> Result<(), Memory>
    ensures { OnOk result (fields.new ≡ put_all (some_list name.now list.now) fields.old) }
{
    match list {
        Some(items) => set(alloc, fields, name, Datum::List(items.copy()?)),
        None => Ok(()),
    }
}

/// Puts a list at a name, where it holds any.
pub(crate) fn set_if_any(
    alloc: Global,
    fields: &mut Fields,
    name: &str,
    list: &Items,
) -> Result<(), Memory>
    ensures { OnOk result (fields.new ≡ put_all (if_any name.now list.now) fields.old) }
{
    if list.len() == 0 {
        return Ok(());
    }
    set(alloc, fields, name, Datum::List(list.copy()?))
}
