// Telling all feeds of one change: all is prepared, then all is put into effect.
ghost use Rattle.std.specs.Prelude.{◌≡◌, ◌<◌, ◌++◌, ◌^◌, List, map, length, suc, IfOk, OnOk, OnErr, Some};
ghost use Rattle.std.specs.List.{All, AllZip};
ghost use Rattle.reql_datum.specs.View.{plain};
ghost use Rattle.reql_queue.specs.Queued.{IsRoomFor, with_room};
ghost use Rattle.reql_queue.specs.Record.{all_pushed};
ghost use Rattle.reql_table_machine_spec.specs.Feeds.{push_all};
ghost use Rattle.reql_term.specs.Views.{Document};
ghost use Rattle.reql_feeds.specs.Keeps.{IsSized, feeds_of};
ghost use Rattle.reql_feeds.specs.Planning.{plan_of, IsNoted};
ghost use Rattle.reql_feeds.specs.Record.{record_of, kept_in, AllFit};
ghost use Rattle.reql_feeds.specs.Seen.{seen, sized, all_sized};
ghost use Rattle.reql_feeds.specs.Told.{stamped, noticed, IsAnswered, Planned, Turns};
ghost use Rattle.reql_feeds.specs.Turn.{told, undone, Leads};

use crate::entry::Entry;
use crate::following::Following;
use crate::keyed::passes_over;
use crate::prepared::{Plan, Prepared};
use reql_datum::Datum;
use reql_memory::Memory;
use reql_queue::Queue;
use reql_write_spec::Change;
use std::alloc::Global;

// What a change is to one feed, with room for what is queued.
fn prepare_one<F: Following>(
    alloc: Global,
    entry: &mut Entry<F>,
    change: &Change,
    after: &F::After,
) -> Result<Option<Prepared<F::Step>>, Memory>
    requires leads { Leads (told change.now) (F.documents after.now) }
    requires fits { F.fits entry.old.kept (undone (told change.now) (F.documents after.now)) }
    requires reads { F.reads entry.old.kept after.now }
    ensures same { sized entry.new ≡ sized entry.old }
    ensures answered { IfOk result (λ r. IsAnswered F.held F.fits F.installs F.brings
        (told change.now) (F.documents after.now) entry.new r) }
{
    let prepared = entry.kept.prepare(alloc, change, after)?;
    reserve(alloc, &mut entry.queue, &prepared)?;
    Ok(prepared)
}

// Makes room for what was prepared.
fn reserve<S>(
    alloc: Global,
    queue: &mut Queue<Datum>,
    prepared: &Option<Prepared<S>>,
) -> Result<(), Memory>
    ensures same { queue.new ≡ with_room queue.new.room queue.old }
    ensures room { IfOk result (λ _. (p : _) → prepared.now ≡ Some p
        → IsRoomFor (length p.items) queue.new) }
{
    if let Some(found) = prepared {
        queue.reserve(alloc, found.items.len())?;
    }
    Ok(())
}

fn note<S: Drop>(
    plans: &mut Vec<Plan<S>>,
    place: usize,
    prepared: Option<Prepared<S>>,
) -> Result<(), Memory>
    ensures { IfOk result (λ _. plans.new.items ≡ plans.old.items ++ plan_of place prepared) }
{
    match prepared {
        None => Ok(()),
        Some(prepared) => {
            plans.push(Plan { place, prepared })?;
            Ok(())
        }
    }
}

// Notes what a change is to the feed at a place. That of another document than the only one that the
// feed looks at is nothing.
fn plan_one<F: Following>(
    alloc: Global,
    plans: &mut Vec<Plan<F::Step>>,
    place: usize,
    entry: &mut Entry<F>,
    change: &Change,
    after: &F::After,
) -> Result<(), Memory>
    requires leads { Leads (told change.now) (F.documents after.now) }
    requires fits { F.fits entry.old.kept (undone (told change.now) (F.documents after.now)) }
    requires reads { F.reads entry.old.kept after.now }
    ensures same { sized entry.new ≡ sized entry.old }
    ensures noted { IfOk result (λ _. IsNoted F.held F.fits F.installs F.brings (told change.now)
        (F.documents after.now) place entry.new plans.old.items plans.new.items) }
{
    if passes_over(&entry.kept, change) {
        return Ok(());
    }
    let prepared = prepare_one(alloc, entry, change, after)?;
    note(plans, place, prepared)?;
    Ok(())
}

// What a change is to each feed to which it is something.
fn prepare_all<F: Following>(
    alloc: Global,
    entries: &mut [Entry<F>],
    change: &Change,
    after: &F::After,
) -> Result<Vec<Plan<F::Step>>, Memory>
    requires leads { Leads (told change.now) (F.documents after.now) }
    requires fits { AllFit F.fits (undone (told change.now) (F.documents after.now))
        (kept_in (feeds_of (all_sized entries.old))) }
    requires reads { AllFit F.reads after.now (kept_in (feeds_of (all_sized entries.old))) }
    ensures same { all_sized entries.new ≡ all_sized entries.old }
    ensures planned { IfOk result (λ plans. Planned F.held F.fits F.installs F.brings
        (told change.now) (F.documents after.now) 0 entries.new plans.items) }
{
    let mut plans = Vec::new(alloc);
    for place in 0..entries.len() {
        let entry = &mut entries[place];
        plan_one(alloc, &mut plans, place, entry, change, after)?;
    }
    Ok(plans)
}

/// Queues items with one stamp, for which there is room.
pub(crate) fn queue_items(queue: &mut Queue<Datum>, items: Vec<Datum>, stamp: u64)
    requires { IsRoomFor (length items.items) queue.old }
    ensures { queue.new ≡ all_pushed (stamped stamp items.items) queue.old }
{
    for item in items {
        queue.push(stamp, item);
    }
}

// Puts into effect what was prepared of a feed.
fn install_one<F: Following>(entry: &mut Entry<F>, prepared: Prepared<F::Step>, stamp: u64)
    requires size { IsSized F.held (sized entry.old) }
    requires step { F.installs entry.old.kept prepared.step }
    requires room { IsRoomFor (length prepared.items) entry.old.queue }
    ensures queued { record_of F.held (seen entry.new)
        ≡ push_all (F.held entry.old.kept).spec.size (record_of F.held (seen entry.old))
        (stamped stamp (map plain prepared.items)) }
    ensures brought { (docs : List Document) → F.brings entry.old.kept prepared.step docs
        → F.fits entry.new.kept docs }
    ensures reads { (table : F.After) → F.reads entry.old.kept table
        → F.reads entry.new.kept table }
    ensures held { F.held entry.new.kept ≡ F.held entry.old.kept }
    ensures number { entry.new.number ≡ entry.old.number }
    ensures size { entry.new.queue.size ≡ entry.old.queue.size }
{
    let Prepared { items, step } = prepared;
    entry.kept.install(step);
    queue_items(&mut entry.queue, items.into_vec(), stamp);
}

/// Tells each feed of a change that led to these documents. `stamp` is the one before the change.
/// Memory leaves all feeds as they were.
pub(crate) fn tell_entries<F: Following>(
    alloc: Global,
    entries: &mut [Entry<F>],
    change: &Change,
    after: &F::After,
    stamp: u64,
) -> Result<(), Memory>
    requires leads { Leads (told change.now) (F.documents after.now) }
    requires fits { AllFit F.fits (undone (told change.now) (F.documents after.now))
        (kept_in (feeds_of (all_sized entries.old))) }
    requires reads { AllFit F.reads after.now (kept_in (feeds_of (all_sized entries.old))) }
    requires sizes { All (IsSized F.held) (all_sized entries.old) }
    requires stamp { suc stamp < 2 ^ 64 }
    ensures turned { OnOk result (AllZip (Turns F.held F.fits F.reads
        (noticed stamp (told change.now) (F.documents after.now)) (F.documents after.now))
        (all_sized entries.old) (all_sized entries.new)) }
    ensures same { OnErr result (all_sized entries.new ≡ all_sized entries.old) }
{
    let mut plans = prepare_all(alloc, entries, change, after)?;
    while let Some(plan) = plans.pop() {
        let Plan { place, prepared } = plan;
        install_one(&mut entries[place], prepared, stamp + 1);
    }
    Ok(())
}
