// What a client is told of a command that isn't given.
ghost use Rattle.std.specs.Prelude.{◌≡◌, IfOk};
ghost use Rattle.reql_datum.specs.Answer.{query_logic};
ghost use Rattle.reql_naming.specs.Texts.{bad_name as bad_name_of};
ghost use Rattle.reql_plan_spec.specs.Texts.{key_name as key_name_of, no_selection as no_selection_of};

use reql_datum::{Memory, Name};
use std::alloc::Global;

/// That a name breaks the rule of names.
pub(crate) fn bad_name(alloc: Global) -> Result<Name, Memory>
    ensures { IfOk result (λ text. query_logic text ≡ bad_name_of) }
{
    Name::of(alloc, "Bad name.")
}

/// That an index has the name of the primary key.
pub(crate) fn key_name(alloc: Global, name: &str) -> Result<Name, Memory>
    ensures { IfOk result (λ text. query_logic text ≡ key_name_of name.now) }
{
    let text = format!(in alloc; "Index name `{}` is the primary key.", name)?;
    Name::of(alloc, text.as_str())
}

/// That the rows of a write are no selection.
pub(crate) fn no_selection(alloc: Global) -> Result<Name, Memory>
    ensures { IfOk result (λ text. query_logic text ≡ no_selection_of) }
{
    Name::of(alloc, "Expected a selection.")
}
