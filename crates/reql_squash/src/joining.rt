// The net of what is queued.
ghost use Rattle.std.specs.Prelude.{◌≡◌, [], ◌++◌, map, Some, slice_get, IfOk, MatchOption, option_map};
ghost use Rattle.reql_datum.specs.View.{plain};
ghost use Rattle.reql_rules.specs.Types.{same};
ghost use Rattle.reql_feed_spec.specs.Feeds.{bare, last_stamp, net, net_differences};
ghost use Rattle.reql_feed_spec.specs.Items.{paired, point_items};
ghost use Rattle.reql_feed_spec.specs.Net.{keyed, point_net, range_net};
ghost use Rattle.reql_feed_spec.specs.Shown.{or_null, read};
ghost use Rattle.reql_squash.specs.Told.{items_seen, told, members_net, group_net, groups_net};

use crate::heard::{inner_of, key_of, side, sides};
use crate::printed::Printer;
use reql_bag::{Parted, difference, in_order};
use reql_datum::{Datum, Items, Memory, Seq, compare};
use reql_feed_spec::FeedKind;
use reql_group::{Groups, group_beside};
use std::alloc::Global;

/// The net of items that are queued for a squashing feed of a kind, each with the stamp of the last:
/// of a point feed the one change from the first old document to the last new one; of a limit feed
/// what came more often than it left, in order beside what left more often; of a range feed, whose
/// items stand behind the keys of their documents, the same for each key by itself, by rising keys.
/// It takes the steps of a sort, and copies no document but by a count. The items are lent, so that
/// their queue has them still where memory is wanted.
pub fn squash(
    alloc: Global,
    kind: FeedKind,
    items: &Seq<(u64, Datum)>,
    types: bool,
) -> Result<Seq<(u64, Datum)>, Memory>
    ensures { IfOk result (λ r. items_seen r ≡ net kind types (items_seen items.now)) }
{
    let Some(last) = last_of(items) else {
        return Ok(Seq::new(alloc));
    };
    let printer = Printer::new(alloc, last.0, types)?;
    let members = members_of(alloc, items)?;
    let mut told = Vec::new(alloc);
    tell(alloc, &printer, kind, &members, &mut told)?;
    Ok(Seq::from_vec(told))
}

fn last_of(items: &Seq<(u64, Datum)>) -> Option<&(u64, Datum)>
    ensures { MatchOption result (items.now ≡ [])
        (λ last. last_stamp (items_seen items.now) ≡ last.now.0) }
{
    let last = items.len().saturating_sub(1);
    items.at(last)
}

// The items without their stamps.
fn members_of(alloc: Global, items: &Seq<(u64, Datum)>) -> Result<Items, Memory>
    ensures { IfOk result (λ r. r ≡ bare (items_seen items.now)) }
{
    let members = documents_of(alloc, items)?;
    Ok(members)
}

#[tactic(auto, using(reql_datum::proofs::Walks::walks))]
fn documents_of(alloc: Global, items: &Seq<(u64, Datum)>) -> Result<Items, Memory>
    ensures { IfOk result (λ r. r ≡ map (λ p. plain p.1) items.now) }
{
    let mut members = Items::with_room(alloc, items.len())?;
    let mut place = 0;
    while let Some(item) = items.at(place) {
        members.push(item.1.copy()?)?;
        place += 1;
    }
    Ok(members)
}

// The net, told.
fn tell(
    alloc: Global,
    printer: &Printer,
    kind: FeedKind,
    items: &Items,
    out: &mut Vec<(u64, Datum)>,
) -> Result<(), Memory>
    ensures { IfOk result (λ _. items_seen out.new.items ≡ items_seen out.old.items
        ++ told printer.now.stamp printer.now.types (net_differences kind items.now)) }
{
    match kind {
        FeedKind::Point => tell_point(printer, items, out),
        FeedKind::Range => tell_range(alloc, printer, items, out),
        FeedKind::Limit(_) => tell_members(alloc, printer, items, out),
    }
}

// A point feed's: from what the first item left to what the last one brought.
fn tell_point(printer: &Printer, items: &Items, out: &mut Vec<(u64, Datum)>) -> Result<(), Memory>
    ensures { IfOk result (λ _. items_seen out.new.items ≡ items_seen out.old.items
        ++ told printer.now.stamp printer.now.types (point_net (map read items.now))) }
{
    let Some(first) = items.at(0) else {
        return Ok(());
    };
    let last = last_in(items, first);
    tell_change(printer, first, last, out)?;
    Ok(())
}

// The last of items, of which this is the first.
fn last_in<'a>(items: &'a Items, first: &'a Datum) -> &'a Datum
    requires { slice_get items.now 0 ≡ Some (plain first.now) }
    ensures { point_net (map read items.now)
        ≡ point_items (or_null (read (plain first.now)).old)
        (or_null (read (plain result.now)).new) }
{
    let last = items.len().saturating_sub(1);
    match items.at(last) {
        Some(found) => found,
        None => first,
    }
}

#[tactic(auto, using(crate::proofs::Walks::point_of))]
fn tell_change(
    printer: &Printer,
    first: &Datum,
    last: &Datum,
    out: &mut Vec<(u64, Datum)>,
) -> Result<(), Memory>
    ensures { IfOk result (λ _. items_seen out.new.items ≡ items_seen out.old.items
        ++ told printer.now.stamp printer.now.types
        (point_items (or_null (read (plain first.now)).old)
        (or_null (read (plain last.now)).new))) }
{
    let old = side(first, "old_val");
    let new = side(last, "new_val");
    if are_same(old, new) {
        return Ok(());
    }
    printer.tell(out, old, new)?;
    Ok(())
}

// Whether two documents are equal, where null stands for none.
fn are_same(old: Option<&Datum>, new: Option<&Datum>) -> bool
    ensures { result ≡ same (or_null (option_map (λ d. plain d.now) old.entry))
        (or_null (option_map (λ d. plain d.now) new.entry)) }
{
    let null = Datum::Null;
    compare(old.unwrap_or(&null), new.unwrap_or(&null)).is_eq()
}

// The net of items that are counted together.
fn tell_members(
    alloc: Global,
    printer: &Printer,
    members: &Items,
    out: &mut Vec<(u64, Datum)>,
) -> Result<(), Memory>
    ensures { IfOk result (λ _. items_seen out.new.items ≡ items_seen out.old.items
        ++ told printer.now.stamp printer.now.types (members_net members.now)) }
{
    let parted = parted_of(alloc, members)?;
    printer.tell_pairs(out, &parted.left, &parted.came)
}

// What left and what came.
fn parted_of(alloc: Global, members: &Items) -> Result<Parted, Memory>
    ensures { IfOk result (λ r. paired r.left r.came ≡ members_net members.now) }
{
    let left = sides(alloc, members, "old_val")?;
    let came = sides(alloc, members, "new_val")?;
    let olds = in_order(alloc, left)?;
    let news = in_order(alloc, came)?;
    let parted = difference(alloc, &olds, &news)?;
    Ok(parted)
}

// A range feed's: the net of the items behind each key, by rising keys.
fn tell_range(
    alloc: Global,
    printer: &Printer,
    items: &Items,
    out: &mut Vec<(u64, Datum)>,
) -> Result<(), Memory>
    ensures { IfOk result (λ _. items_seen out.new.items ≡ items_seen out.old.items
        ++ told printer.now.stamp printer.now.types (range_net (map keyed items.now))) }
{
    let groups = groups_of(alloc, items)?;
    tell_groups(alloc, printer, &groups, out)
}

// The items by the keys that they stand behind.
fn groups_of(alloc: Global, items: &Items) -> Result<Groups, Memory>
    ensures { IfOk result (λ r. groups_net r ≡ range_net (map keyed items.now)) }
{
    let keys = keys_of(alloc, items)?;
    let inners = inners_of(alloc, items)?;
    let groups = group_beside(alloc, &keys, &inners)?;
    Ok(groups)
}

fn keys_of(alloc: Global, items: &Items) -> Result<Items, Memory>
    ensures { IfOk result (λ r. r ≡ map (λ i. (keyed i).0) items.now) }
{
    let mut keys = Items::with_room(alloc, items.len())?;
    let mut place = 0;
    while let Some(item) = items.at(place) {
        keys.push(key_of(item).copy()?)?;
        place += 1;
    }
    Ok(keys)
}

fn inners_of(alloc: Global, items: &Items) -> Result<Items, Memory>
    ensures { IfOk result (λ r. map read r ≡ map (λ i. (keyed i).1) items.now) }
{
    let mut inners = Items::with_room(alloc, items.len())?;
    let mut place = 0;
    while let Some(item) = items.at(place) {
        inners.push(inner_of(item).copy()?)?;
        place += 1;
    }
    Ok(inners)
}

fn tell_groups(
    alloc: Global,
    printer: &Printer,
    groups: &Groups,
    out: &mut Vec<(u64, Datum)>,
) -> Result<(), Memory>
    ensures { IfOk result (λ _. items_seen out.new.items ≡ items_seen out.old.items
        ++ told printer.now.stamp printer.now.types (groups_net groups.now)) }
{
    let mut place = 0;
    while let Some((_, members)) = groups.at(place) {
        tell_group(alloc, printer, members, out)?;
        place += 1;
    }
    Ok(())
}

fn tell_group(
    alloc: Global,
    printer: &Printer,
    members: &Datum,
    out: &mut Vec<(u64, Datum)>,
) -> Result<(), Memory>
    ensures { IfOk result (λ _. items_seen out.new.items ≡ items_seen out.old.items
        ++ told printer.now.stamp printer.now.types (group_net (plain members.now))) }
{
    match members {
        Datum::List(items) => tell_members(alloc, printer, items, out),
        _ => Ok(()),
    }
}
