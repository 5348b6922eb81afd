// The items of a batch that a table gave.
ghost use Rattle.std.specs.Prelude.{◌≡◌, ◌++◌, IfOk, OnOk, map, get_or, string_bytes, List};
ghost use Rattle.std.specs.Fmt.{decimal};
ghost use Rattle.std.specs.Prelude.{codes};
ghost use Rattle.reql_datum.specs.View.{plain};
ghost use Rattle.reql_feed_spec.specs.Shown.{skip_item};
ghost use Rattle.reql_session_spec.specs.Requests.{Arm};
ghost use Rattle.reql_session_spec.specs.Tasks.{change_items, skipped_item};
ghost use Rattle.reql_session_api.specs.Meant.{no_arm, shown_of};
ghost use Rattle.reql_session.specs.Batches.{items_of};

use reql_datum::{Datum, Fields, Name, Seq};
use reql_memory::Memory;
use reql_session_api::{Shown, Sort};
use std::alloc::{AllocError, Global};

fn skip_text(alloc: Global, count: u64) -> Result<String, AllocError>
    ensures { IfOk result (λ s. string_bytes s ≡ codes "Changefeed cache over array size limit, skipped "
        ++ (decimal count ++ codes " elements.")) }
{
    format!(in alloc;
        "Changefeed cache over array size limit, skipped {} elements.",
        count
    )
}

// The item that tells how many were left out.
fn skip_of(alloc: Global, count: u64) -> Result<Datum, Memory>
    ensures { IfOk result (λ d. plain d ≡ skip_item count) }
{
    let text = skip_text(alloc, count)?;
    let why = Name::of(alloc, text.as_str())?;
    let name = Name::of(alloc, "error")?;
    let mut fields = Fields::new(alloc);
    match fields.put(name, Datum::Text(why)) {
        Ok(_) => Ok(Datum::Obj(fields)),
        Err(_) => Err(Memory),
    }
}

// The item that tells how many were left out, where some were.
fn put_skip(
    alloc: Global,
    shown: &mut Vec<Shown>,
    at: u32,
    skipped: u64,
    last: u64,
) -> Result<(), Memory>
    ensures { (arms : List Arm) → OnOk result (map (shown_of arms) shown.new.items
        ≡ map (shown_of arms) shown.old.items ++ skipped_item at (get_or arms at no_arm) skipped last) }
{
    if skipped == 0 {
        return Ok(());
    }
    let item = skip_of(alloc, skipped)?;
    let told = Shown {
        at,
        sort: Sort::Skip,
        stamp: last,
        item,
    };
    match shown.push(told) {
        Ok(()) => Ok(()),
        Err(_) => Err(Memory),
    }
}

// The changes, each with its stamp.
fn put_changes(shown: &mut Vec<Shown>, at: u32, items: Vec<(u64, Datum)>) -> Result<(), Memory>
    ensures { (arms : List Arm) → OnOk result (map (shown_of arms) shown.new.items
        ≡ map (shown_of arms) shown.old.items
        ++ change_items at (get_or arms at no_arm) (map (λ i. (i.0, plain i.1)) items.items)) }
{
    for (stamp, item) in items {
        let change = Shown {
            at,
            sort: Sort::Change,
            stamp,
            item,
        };
        match shown.push(change) {
            Ok(()) => {}
            Err(_) => return Err(Memory),
        }
    }
    Ok(())
}

/// The items of a batch that the arm at a place gave: first how many were left out, where some were.
pub(crate) fn shown_items(
    alloc: Global,
    at: u32,
    skipped: u64,
    last: u64,
    items: Seq<(u64, Datum)>,
) -> Result<Vec<Shown>, Memory>
    ensures { (arms : List Arm) → IfOk result (λ shown. map (shown_of arms) shown.items
        ≡ items_of at (get_or arms at no_arm) skipped last (map (λ i. (i.0, plain i.1)) items)) }
{
    let mut shown = Vec::new(alloc);
    put_skip(alloc, &mut shown, at, skipped, last)?;
    put_changes(&mut shown, at, items.into_vec())?;
    Ok(shown)
}
