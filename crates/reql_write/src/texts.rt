// The texts of errors that count in a write.
ghost use Rattle.std.specs.Prelude.{◌≡◌, IfOk};
ghost use Rattle.reql_datum.specs.Answer.{query_logic};
ghost use Rattle.reql_rules.specs.Faults.{type_text as type_text_of, unshowable as unshowable_of};
ghost use Rattle.reql_write_spec.specs.Treating.{duplicate as duplicate_of, key_changed as key_changed_of};

use reql_datum::{Memory, Name};
use std::alloc::Global;

/// That a document with the same primary key is there.
pub(crate) fn duplicate(alloc: Global, field: &str) -> Result<Name, Memory>
    ensures { IfOk result (λ text. query_logic text ≡ duplicate_of field.now) }
{
    match format!(in alloc; "Duplicate primary key `{}`.", field) {
        Ok(text) => Name::of(alloc, text.as_str()),
        Err(_) => Err(Memory),
    }
}

/// That a document would get another primary key.
pub(crate) fn key_changed(alloc: Global, field: &str) -> Result<Name, Memory>
    ensures { IfOk result (λ text. query_logic text ≡ key_changed_of field.now) }
{
    match format!(in alloc; "Primary key `{}` cannot be changed.", field) {
        Ok(text) => Name::of(alloc, text.as_str()),
        Err(_) => Err(Memory),
    }
}

/// That what stands in a document can't be stored.
pub(crate) fn unshowable(alloc: Global) -> Result<Name, Memory>
    ensures { IfOk result (λ text. query_logic text ≡ unshowable_of) }
{
    Name::of(alloc, "Value cannot be shown or stored.")
}

/// That another type was wanted.
pub(crate) fn type_text(alloc: Global, want: &str, found: &str) -> Result<Name, Memory>
    ensures { IfOk result (λ text. text ≡ type_text_of want.now found.now) }
{
    match format!(in alloc; "Expected type {} but found {}.", want, found) {
        Ok(text) => Name::of(alloc, text.as_str()),
        Err(_) => Err(Memory),
    }
}
