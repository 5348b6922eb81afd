// What a feed has become beside itself.
ghost use Rattle.std.specs.Prelude.{◌≡◌, ◌+◌, ◌<◌, ◌++◌, ◌^◌, [], List, suc, is_ok, IfOk, None, Option, Some};
ghost use Rattle.std.specs.Option.{unwrap_or};
ghost use Rattle.reql_term.specs.Views.{Document};
ghost use Rattle.reql_datum.specs.View.{plain};
ghost use Rattle.reql_feeds.specs.Ahead.{next_kept, forecast};
ghost use Rattle.reql_feeds.specs.Hearing.{Hears};
ghost use Rattle.reql_feeds.specs.Seen.{seen};
ghost use Rattle.reql_feeds.specs.Shadows.{pending};
ghost use Rattle.reql_feeds.specs.Told.{noticed, stamped, Turns};
ghost use Rattle.reql_feeds.specs.Turn.{told, undone, Leads};

use crate::entry::Entry;
use crate::following::Following;
use crate::keyed::passes_over;
use crate::prepared::Prepared;
use reql_datum::Datum;
use reql_memory::Memory;
use reql_write_spec::Change;
use std::alloc::Global;

/// What a feed has become, if it has, and what is to be queued for it.
#[derive(Drop)]
pub(crate) struct Shadow<F> {
    pub(crate) kept: Option<F>,
    pub(crate) items: Vec<(u64, Datum)>,
}

/// The shadow of a feed that was told of nothing.
pub(crate) fn blank<F>(alloc: Global) -> Shadow<F>
    ensures { pending result ≡ record { kept = None; items = [] } }
{
    Shadow {
        kept: None,
        items: Vec::new(alloc),
    }
}

// The feed as it has become.
fn current<'a, F>(entry: &'a Entry<F>, shadow: &'a Shadow<F>) -> &'a F
    ensures { result.now ≡ next_kept (seen entry.now) (pending shadow.now) }
{
    match &shadow.kept {
        Some(kept) => kept,
        None => &entry.kept,
    }
}

// The feed as it has become, taken out of its shadow, or a share of it.
fn own<F: Following>(alloc: Global, entry: &Entry<F>, shadow: &mut Shadow<F>) -> Result<F, Memory>
    ensures kept { IfOk result (λ f. f ≡ next_kept (seen entry.now) (pending shadow.old)) }
    ensures items { shadow.new.items ≡ shadow.old.items }
{
    match shadow.kept.take() {
        Some(kept) => Ok(kept),
        None => {
            let kept = entry.kept.share(alloc)?;
            Ok(kept)
        }
    }
}

fn add_items(items: &mut Vec<(u64, Datum)>, more: Vec<Datum>, stamp: u64) -> Result<(), Memory>
    ensures { IfOk result (λ _. items.new.items ≡ items.old.items ++ stamped stamp more.items) }
{
    for item in more {
        items.push((stamp, item))?;
    }
    Ok(())
}

// Puts into effect what was prepared of the feed as it has become.
fn follow<F: Following>(
    alloc: Global,
    entry: &Entry<F>,
    shadow: &mut Shadow<F>,
    prepared: Prepared<F::Step>,
    stamp: u64,
) -> Result<(), Memory>
    requires { F.installs (next_kept (seen entry.now) (pending shadow.old)) prepared.step }
    ensures { IfOk result (λ _. Hears F.held F.fits F.brings F.reads (seen entry.now) (pending shadow.old) prepared stamp (pending shadow.new)) }
{
    let mut kept = own(alloc, entry, shadow)?;
    let Prepared { items, step } = prepared;
    kept.install(step);
    shadow.kept = Some(kept);
    add_items(&mut shadow.items, items.into_vec(), stamp)?;
    Ok(())
}

/// Tells the shadow of a feed of a change that led to these documents. `stamp` is the one before it.
pub(crate) fn hear<F: Following>(
    alloc: Global,
    entry: &Entry<F>,
    shadow: &mut Shadow<F>,
    change: &Change,
    after: &F::After,
    stamp: u64,
) -> Result<(), Memory>
    requires leads { Leads (told change.now) (F.documents after.now) }
    requires fits { F.fits (next_kept (seen entry.now) (pending shadow.old))
        (undone (told change.now) (F.documents after.now)) }
    requires reads { F.reads (next_kept (seen entry.now) (pending shadow.old)) after.now }
    requires stamp { suc stamp < 2 ^ 64 }
    ensures { IfOk result (λ _. Turns F.held F.fits F.reads
        (noticed stamp (told change.now) (F.documents after.now)) (F.documents after.now)
        (forecast F.held (seen entry.now) (pending shadow.old))
        (forecast F.held (seen entry.now) (pending shadow.new))) }
{
    let kept = current(entry, shadow);
    if passes_over(kept, change) {
        return Ok(());
    }
    match kept.prepare(alloc, change, after)? {
        None => Ok(()),
        Some(prepared) => {
            follow(alloc, entry, shadow, prepared, stamp + 1)?;
            Ok(())
        }
    }
}
