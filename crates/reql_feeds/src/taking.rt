// A Take of a feed: what waits, the oldest first, or all of it joined.
ghost use Rattle.std.specs.Prelude.{◌≡◌, ◌&&◌, not, is_ok, IfOk, OnOk, OnErr, if◌then◌else◌, option_map};
ghost use Rattle.reql_feed_spec.specs.Feeds.{net};
ghost use Rattle.reql_queue.specs.Queued.{emptied};
ghost use Rattle.reql_table_machine_spec.specs.Feeds.{find_feed, has_something};
ghost use Rattle.reql_feeds.specs.Keeps.{Keeps, feeds_of};
ghost use Rattle.reql_feeds.specs.Record.{record_of, records, batch, given};
ghost use Rattle.reql_feeds.specs.Seen.{seen, sized, all_sized};
ghost use Rattle.reql_feeds.specs.Rest.{rest_of, all_rest};
ghost use Rattle.reql_squash.specs.Told.{items_seen};

use crate::entry::Entry;
use crate::finding::place_of;
use crate::following::Following;
use reql_datum::Datum;
use reql_feed_spec::FeedKind;
use reql_memory::Memory;
use reql_queue::{Queue, Taken};
use reql_squash::squash;
use reql_table_spec::FeedSpec;
use std::alloc::Global;

// Whether what waits is joined when it is taken.
fn is_joined(spec: &FeedSpec) -> bool
    ensures { result ≡ (spec.now.squash && not spec.now.offsets) }
{
    spec.squash && !spec.offsets
}

// All that waits, joined. What was taken is given back where memory is wanted.
fn take_joined(
    alloc: Global,
    queue: &mut Queue<Datum>,
    kind: FeedKind,
    types: bool,
) -> Result<Taken<Datum>, Memory>
    ensures skipped { IfOk result (λ t. t.skipped ≡ queue.old.skipped) }
    ensures last { IfOk result (λ t. t.last ≡ queue.old.last) }
    ensures items { IfOk result (λ t. items_seen t.items
        ≡ net kind types (items_seen queue.old.items)) }
    ensures left { queue.new ≡ (if is_ok result then emptied queue.old else queue.old) }
{
    let _room = queue.len();
    let taken = queue.take_all(alloc)?;
    match squash(alloc, kind, &taken.items, types) {
        Ok(items) => Ok(Taken {
            skipped: taken.skipped,
            last: taken.last,
            items,
        }),
        Err(Memory) => {
            queue.give_back(taken);
            Err(Memory)
        }
    }
}

// What a Take of an entry gives, without giving memory back.
fn take_kind<F: Following>(
    alloc: Global,
    entry: &mut Entry<F>,
    max: u32,
) -> Result<Taken<Datum>, Memory>
    ensures batch { IfOk result (λ t. batch t ≡ given max (record_of F.held (seen entry.old))) }
    ensures left { sized entry.new ≡ (if is_ok result then rest_of F.held max (sized entry.old)
        else sized entry.old) }
{
    if is_joined(entry.kept.spec()) {
        let types = entry.kept.spec().types;
        let taken = take_joined(alloc, &mut entry.queue, entry.kept.kind(), types)?;
        return Ok(taken);
    }
    let taken = entry.queue.take(alloc, max)?;
    Ok(taken)
}

// Takes what waits of a feed, `max` items at most; of a feed that squashes all, joined. The memory of
// what was taken is given back. Memory leaves all as it was.
fn take_entry<F: Following>(
    alloc: Global,
    entry: &mut Entry<F>,
    max: u32,
) -> Result<Taken<Datum>, Memory>
    ensures batch { IfOk result (λ t. batch t ≡ given max (record_of F.held (seen entry.old))) }
    ensures left { sized entry.new ≡ (if is_ok result then rest_of F.held max (sized entry.old)
        else sized entry.old) }
{
    let taken = take_kind(alloc, entry, max)?;
    entry.queue.release();
    Ok(taken)
}

/// Takes what waits of the feed of an owner and number. None where there is no such feed. Memory
/// leaves all as it was.
pub(crate) fn take_of<F: Following>(
    alloc: Global,
    entries: &mut [Entry<F>],
    owner: u64,
    number: u64,
    max: u32,
) -> Result<Option<Taken<Datum>>, Memory>
    requires { Keeps F.held (all_sized entries.old) }
    ensures given { IfOk result (λ r. option_map batch r ≡ option_map (given max)
        (find_feed owner number (records F.held (feeds_of (all_sized entries.old))))) }
    ensures left { OnOk result (feeds_of (all_sized entries.new)
        ≡ all_rest F.held owner number max (feeds_of (all_sized entries.old))) }
    ensures same { OnErr result (all_sized entries.new ≡ all_sized entries.old) }
    ensures keeps { Keeps F.held (all_sized entries.new) }
{
    let Some(place) = place_of(entries, owner, number) else {
        return Ok(None);
    };
    let taken = take_entry(alloc, &mut entries[place], max)?;
    Ok(Some(taken))
}

/// Whether a Take of the feed of an owner and number finds something; none where there is no such feed.
pub(crate) fn finds_something<F: Following>(
    entries: &[Entry<F>],
    owner: u64,
    number: u64,
) -> Option<bool>
    requires { Keeps F.held (all_sized entries.now) }
    ensures { result ≡ option_map has_something
        (find_feed owner number (records F.held (feeds_of (all_sized entries.now)))) }
{
    match place_of(entries, owner, number) {
        None => None,
        Some(place) => {
            let found = entries[place].queue.has_something();
            Some(found)
        }
    }
}
