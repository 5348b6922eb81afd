// Putting members into an object that is built.
ghost use Rattle.std.specs.Prelude.{◌≡◌, IfOk, option_map};
ghost use Rattle.reql_datum.specs.Members.{put};
ghost use Rattle.reql_datum.specs.View.{plain};
ghost use Rattle.reql_path.specs.Building.{put_also, push_also};

use reql_datum::{Datum, Fields, Items, Memory, Name};

/// Puts a shared value at a name.
pub(crate) fn put_copy(fields: &mut Fields, name: &Name, value: &Datum) -> Result<(), Memory>
    ensures { IfOk result (λ _. fields.new ≡ put name.now (plain value.now) fields.old) }
{
    let key = name.copy()?;
    let copied = value.copy()?;
    fields.set(key, copied)?;
    Ok(())
}

/// Puts a value at a name, where there is one.
pub(crate) fn put_also(fields: &mut Fields, name: &Name, value: Option<Datum>) -> Result<(), Memory>
    ensures { IfOk result (λ _. fields.new ≡ put_also name.now (option_map plain value)
        fields.old) }
{
    let Some(value) = value else {
        return Ok(());
    };
    let key = name.copy()?;
    fields.set(key, value)?;
    Ok(())
}

/// Adds an item at the end, where there is one.
pub(crate) fn push_also(items: &mut Items, item: Option<Datum>) -> Result<(), Memory>
    ensures { IfOk result (λ _. items.new ≡ push_also (option_map plain item) items.old) }
{
    let Some(item) = item else {
        return Ok(());
    };
    items.push(item)?;
    Ok(())
}
