// A summary of a write, as the object that a client is answered.
ghost use Rattle.std.specs.Prelude.{◌≡◌, IfOk};
ghost use Rattle.reql_datum.specs.View.{plain};
ghost use Rattle.reql_plan_spec.specs.Summed.{summary_shown as summary_shown_of};

use crate::members::{set_count, set_if_any, set_some_list, set_some_text};
use reql_datum::{Datum, Fields, Memory};
use reql_write_spec::Summary;
use std::alloc::Global;

/// A summary as the object that a client is answered.
pub fn summary_shown(alloc: Global, summary: &Summary) -> Result<Datum, Memory>
    ensures { IfOk result (λ d. plain d ≡ summary_shown_of summary.now) }
{
    let mut fields = Fields::with_room(alloc, 9)?;
    set_some_list(alloc, &mut fields, "changes", &summary.changes)?;
    set_count(alloc, &mut fields, "deleted", summary.deleted)?;
    set_count(alloc, &mut fields, "errors", summary.errors)?;
    set_some_text(alloc, &mut fields, "first_error", &summary.first_error)?;
    set_if_any(alloc, &mut fields, "generated_keys", &summary.generated)?;
    set_count(alloc, &mut fields, "inserted", summary.inserted)?;
    set_count(alloc, &mut fields, "replaced", summary.replaced)?;
    set_count(alloc, &mut fields, "skipped", summary.skipped)?;
    set_count(alloc, &mut fields, "unchanged", summary.unchanged)?;
    Ok(Datum::Obj(fields))
}
