// Changes of which the feeds are told beside themselves, before all of them take effect at once.
ghost use Rattle.std.specs.Prelude.{◌≡◌, ◌<◌, ◌^◌, [], ◌∷◌, List, length, suc, map, is_ok, IfOk, OnOk, OnErr};
ghost use Rattle.std.specs.List.{All};
ghost use Rattle.std.specs.Option.{unwrap_or};
ghost use Rattle.reql_queue.specs.Queued.{IsRoomFor};
ghost use Rattle.reql_queue.specs.Record.{all_pushed};
ghost use Rattle.reql_datum.specs.View.{plain};
ghost use Rattle.reql_feeds.specs.Ahead.{next_kept, ahead, all_ahead, IsDraft};
ghost use Rattle.reql_feeds.specs.Committing.{HaveRoom, Forecasts};
ghost use Rattle.reql_feeds.specs.Keeps.{IsSized, feeds_of};
ghost use Rattle.reql_feeds.specs.Record.{kept_in, AllFit};
ghost use Rattle.reql_feeds.specs.Seen.{seen, sized, all_sized};
ghost use Rattle.reql_feeds.specs.Shadows.{pending, all_pending};
ghost use Rattle.reql_feeds.specs.Told.{noticed};
ghost use Rattle.reql_feeds.specs.Turn.{told, undone, Leads};

use crate::entry::Entry;
use crate::following::Following;
use crate::shadow::{Shadow, blank, hear};
use reql_datum::Datum;
use reql_memory::Memory;
use reql_queue::Queue;
use reql_write_spec::Change;
use std::alloc::Global;

/// A shadow for each feed.
pub(crate) fn blanks<F: Following>(
    alloc: Global,
    entries: &[Entry<F>],
) -> Result<Vec<Shadow<F>>, Memory>
    ensures draft { IfOk result (λ v. IsDraft F.held (feeds_of (all_sized entries.now)) (all_pending v.items)) }
    ensures same { IfOk result (λ v. all_ahead F.held (feeds_of (all_sized entries.now)) (all_pending v.items) ≡ feeds_of (all_sized entries.now)) }
{
    let mut shadows = Vec::with_capacity(alloc, entries.len())?;
    for _entry in entries {
        shadows.push(blank(alloc))?;
    }
    Ok(shadows)
}

/// Tells each shadow of a change.
pub(crate) fn hear_all<F: Following>(
    alloc: Global,
    entries: &[Entry<F>],
    shadows: &mut [Shadow<F>],
    change: &Change,
    after: &F::After,
    stamp: u64,
) -> Result<(), Memory>
    requires draft { IsDraft F.held (feeds_of (all_sized entries.now)) (all_pending shadows.old) }
    requires leads { Leads (told change.now) (F.documents after.now) }
    requires fits { AllFit F.fits (undone (told change.now) (F.documents after.now)) (kept_in (all_ahead F.held (feeds_of (all_sized entries.now)) (all_pending shadows.old))) }
    requires reads { AllFit F.reads after.now (kept_in (all_ahead F.held (feeds_of (all_sized entries.now)) (all_pending shadows.old))) }
    requires stamp { suc stamp < 2 ^ 64 }
    ensures { IfOk result (λ _. Forecasts F.held F.fits F.reads
        (noticed stamp (told change.now) (F.documents after.now)) (F.documents after.now)
        entries.now shadows.old shadows.new) }
{
    for place in 0..entries.len() {
        let entry = &entries[place];
        let shadow = &mut shadows[place];
        hear(alloc, entry, shadow, change, after, stamp)?;
    }
    Ok(())
}

// Makes room for what is to be queued for a feed.
fn reserve_one<F>(alloc: Global, entry: &mut Entry<F>, shadow: &Shadow<F>) -> Result<(), Memory>
    ensures same { sized entry.new ≡ sized entry.old }
    ensures room { IfOk result (λ _. IsRoomFor (length shadow.now.items.items) entry.new.queue) }
{
    entry.queue.reserve(alloc, shadow.items.len())?;
    Ok(())
}

// Makes room for what is to be queued.
fn reserve_all<F>(
    alloc: Global,
    entries: &mut [Entry<F>],
    shadows: &[Shadow<F>],
) -> Result<(), Memory>
    requires { length shadows.now ≡ length entries.old }
    ensures same { all_sized entries.new ≡ all_sized entries.old }
    ensures room { IfOk result (λ _. HaveRoom entries.new shadows.now) }
{
    for place in 0..entries.len() {
        let shadow = &shadows[place];
        let entry = &mut entries[place];
        reserve_one(alloc, entry, shadow)?;
    }
    Ok(())
}

fn queue_all(queue: &mut Queue<Datum>, items: Vec<(u64, Datum)>)
    requires { IsRoomFor (length items.items) queue.old }
    ensures { queue.new ≡ all_pushed items.items queue.old }
{
    for item in items {
        let (stamp, document) = item;
        queue.push(stamp, document);
    }
}

fn replace_by<F: Drop>(kept: &mut F, next: Option<F>)
    ensures { kept.new ≡ unwrap_or next kept.old }
{
    if let Some(next) = next {
        *kept = next;
    }
}

// Lets a feed be what it has become.
fn commit_one<F: Following>(entry: &mut Entry<F>, shadow: Shadow<F>)
    requires size { IsSized F.held (sized entry.old) }
    requires asked { F.held (next_kept (seen entry.old) (pending shadow)) ≡ F.held entry.old.kept }
    requires room { IsRoomFor (length shadow.items.items) entry.old.queue }
    ensures feed { seen entry.new ≡ ahead F.held (seen entry.old) (pending shadow) }
    ensures size { entry.new.queue.size ≡ entry.old.queue.size }
{
    let Shadow { kept, items } = shadow;
    replace_by(&mut entry.kept, kept);
    queue_all(&mut entry.queue, items);
}

/// Lets each feed be what it has become. Memory leaves all as it was.
pub(crate) fn commit_all<F: Following>(
    alloc: Global,
    entries: &mut [Entry<F>],
    shadows: Vec<Shadow<F>>,
) -> Result<(), Memory>
    requires draft { IsDraft F.held (feeds_of (all_sized entries.old)) (all_pending shadows.items) }
    requires sizes { All (IsSized F.held) (all_sized entries.old) }
    ensures feeds { OnOk result (feeds_of (all_sized entries.new) ≡ all_ahead F.held (feeds_of (all_sized entries.old)) (all_pending shadows.items)) }
    ensures sizes { OnOk result (All (IsSized F.held) (all_sized entries.new)) }
    ensures same { OnErr result (all_sized entries.new ≡ all_sized entries.old) }
{
    let mut shadows = shadows;
    reserve_all(alloc, entries, &shadows)?;
    while let Some(shadow) = shadows.pop() {
        let place = shadows.len();
        commit_one(&mut entries[place], shadow);
    }
    Ok(())
}
