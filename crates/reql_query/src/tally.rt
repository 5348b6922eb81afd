// What an insertion's answer tells.
ghost use Rattle.std.specs.Prelude.{◌≡◌, option_map, string_bytes, Some, IfOk};
ghost use Rattle.serde_json.specs.Find.{get_item};
ghost use Rattle.serde_json.specs.View.{view, items_view};
ghost use Rattle.reql_query.specs.Tallies.{Tells, error_in};

use crate::answer::number_in;
use serde_json::Value;
use std::alloc::{AllocError, Global};

/// How many documents an insertion inserted, and the first error of the others, where there is one.
#[derive(Drop)]
pub struct Tally {
    pub inserted: u64,
    pub first_error: Option<String>,
}

fn error_in(summary: &Value) -> Option<&str>
    ensures { option_map (λ s. s.now) result ≡ error_in (view summary.now) }
{
    summary.get("first_error").and_then(Value::as_str)
}

// The first error of a summary, for itself.
fn own_error(alloc: Global, summary: &Value) -> Result<Option<String>, AllocError>
    ensures { IfOk result (λ error. option_map string_bytes error ≡ error_in (view summary.now)) }
{
    match error_in(summary) {
        Some(error) => {
            let error = String::from_str(alloc, error)?;
            Ok(Some(error))
        }
        None => Ok(None),
    }
}

/// What the results of an insertion's answer tell, or none where they are those of no insertion.
pub fn tally_of(alloc: Global, results: &[Value]) -> Result<Option<Tally>, AllocError>
    ensures { IfOk result (Tells (get_item 0 (items_view results.now))) }
{
    let Some(summary) = results.first() else {
        return Ok(None);
    };
    summary_tally(alloc, summary)
}

fn summary_tally(alloc: Global, summary: &Value) -> Result<Option<Tally>, AllocError>
    ensures { IfOk result (Tells (Some (view summary.now))) }
{
    let Some(inserted) = number_in(summary, "inserted") else {
        return Ok(None);
    };
    let first_error = own_error(alloc, summary)?;
    Ok(Some(Tally {
        inserted,
        first_error,
    }))
}
