// The texts of faults.
ghost use Rattle.std.specs.Prelude.{◌≡◌, IfOk};
ghost use Rattle.reql_datum.specs.Answer.{query_logic, non_existence, resource_limit, op_failed};
ghost use Rattle.reql_rules.specs.Faults.{type_text as type_text_of, misplaced as misplaced_of, misplaced_order as misplaced_order_of, bad_option as bad_option_of, over_array as over_array_of, over_depth as over_depth_of, over_range as over_range_of, no_index as no_index_of, not_a_key as not_a_key_of, field_of_null as field_of_null_of, negative_count as negative_count_of, wrong_count as wrong_count_of};

use reql_datum::{Memory, Name};
use std::alloc::Global;

/// That another type was wanted.
pub fn type_text(alloc: Global, want: &str, found: &str) -> Result<Name, Memory>
    ensures { IfOk result (λ text. text ≡ type_text_of want.now found.now) }
{
    match format!(in alloc; "Expected type {} but found {}.", want, found) {
        Ok(text) => Name::of(alloc, text.as_str()),
        Err(_) => Err(Memory),
    }
}

/// That a function has another count of parameters.
pub fn wrong_count(alloc: Global, takes: usize, given: usize) -> Result<Name, Memory>
    ensures { IfOk result (λ text. query_logic text ≡ wrong_count_of takes given) }
{
    match format!(in alloc; "Expected {} arguments but found {}.", takes, given) {
        Ok(text) => Name::of(alloc, text.as_str()),
        Err(_) => Err(Memory),
    }
}

/// That a term stands where it has no meaning.
pub fn misplaced(alloc: Global) -> Result<Name, Memory>
    ensures { IfOk result (λ text. query_logic text ≡ misplaced_of) }
{
    Name::of(alloc, "Misplaced term.")
}

/// That an ordering or an index is asked for where there is none.
pub fn misplaced_order(alloc: Global) -> Result<Name, Memory>
    ensures { IfOk result (λ text. query_logic text ≡ misplaced_order_of) }
{
    Name::of(alloc, "Misplaced ordering or index.")
}

/// That a field of null is asked for.
pub fn field_of_null(alloc: Global) -> Result<Name, Memory>
    ensures { IfOk result (λ text. non_existence text ≡ field_of_null_of) }
{
    Name::of(alloc, "Cannot take a field of null.")
}

/// That a count is below 0.
pub fn negative_count(alloc: Global) -> Result<Name, Memory>
    ensures { IfOk result (λ text. query_logic text ≡ negative_count_of) }
{
    Name::of(alloc, "Count is negative.")
}

/// That a value nests too deep.
pub fn over_depth(alloc: Global) -> Result<Name, Memory>
    ensures { IfOk result (λ text. resource_limit text ≡ over_depth_of) }
{
    Name::of(alloc, "Nesting over limit `100`.")
}

/// That RANGE would give too many numbers.
pub fn over_range(alloc: Global) -> Result<Name, Memory>
    ensures { IfOk result (λ text. resource_limit text ≡ over_range_of) }
{
    Name::of(alloc, "Range over size limit `1000000`.")
}

/// That an optional argument has another value than those it may have.
pub fn bad_option(alloc: Global, name: &str) -> Result<Name, Memory>
    ensures { IfOk result (λ text. query_logic text ≡ bad_option_of name.now) }
{
    match format!(in alloc; "Bad value for optional argument `{}`.", name) {
        Ok(text) => Name::of(alloc, text.as_str()),
        Err(_) => Err(Memory),
    }
}

/// That no index has the name.
pub fn no_index(alloc: Global, name: &str) -> Result<Name, Memory>
    ensures { IfOk result (λ text. op_failed text ≡ no_index_of name.now) }
{
    match format!(in alloc; "Index `{}` does not exist.", name) {
        Ok(text) => Name::of(alloc, text.as_str()),
        Err(_) => Err(Memory),
    }
}

/// That a value of this kind can be no key.
pub fn not_a_key(alloc: Global, kind: &str) -> Result<Name, Memory>
    ensures { IfOk result (λ text. query_logic text ≡ not_a_key_of kind.now) }
{
    match format!(in alloc; "Value of type {} cannot be a key.", kind) {
        Ok(text) => Name::of(alloc, text.as_str()),
        Err(_) => Err(Memory),
    }
}

/// That an array is longer than the limit.
pub fn over_array(alloc: Global, limit: u64) -> Result<Name, Memory>
    ensures { IfOk result (λ text. resource_limit text ≡ over_array_of limit) }
{
    match format!(in alloc; "Array over size limit `{}`.", limit) {
        Ok(text) => Name::of(alloc, text.as_str()),
        Err(_) => Err(Memory),
    }
}
