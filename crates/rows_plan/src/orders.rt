// Orders to tables as rows write them.
use crate::terms::put_term;
use crate::words::{put, put_if, put_items, put_name, put_number};
use reql_datum::{Items, Name, Point};
use reql_table_spec::{Act, Cmd, Conflict, FeedKind, FeedSpec, Order, Returns, WriteCmd};
use reql_term::{Body, IndexDef};
use std::alloc::Global;

/// Adds an order and the slot that it goes to.
pub(crate) fn put_order(alloc: Global, out: &mut String, slot: u32, order: &Order) -> Option<()> {
    put_number(alloc, out, "run ", u64::from(slot))?;
    put_command(alloc, out, &order.cmd)?;
    put_points(alloc, out, order.points.as_slice())
}

fn put_points(alloc: Global, out: &mut String, points: &[Point]) -> Option<()> {
    put_if(out, !points.is_empty(), " seen")?;
    for point in points {
        put_number(alloc, out, " ", u64::from(point.slot))?;
        put_number(alloc, out, "@", point.place)?;
        put_number(alloc, out, "/", point.stamp)?;
    }
    Some(())
}

fn put_command(alloc: Global, out: &mut String, command: &Cmd) -> Option<()> {
    match command {
        Cmd::Write(write) => put_write(alloc, out, write),
        Cmd::IndexCreate(index) => put_index(alloc, out, index),
        Cmd::IndexDrop(name) => put_name(out, " index_drop ", name),
        Cmd::IndexRename {
            old,
            new,
            overwrite,
        } => put_rename(out, old, new, *overwrite),
        Cmd::Subscribe(feed) => put_feed(alloc, out, feed),
        Cmd::Take { feed, max: _ } => put_number(alloc, out, " take ", *feed),
        Cmd::Unsubscribe { feed } => put_number(alloc, out, " unsubscribe ", *feed),
        Cmd::Shut => put(out, " shut"),
        Cmd::Sync => put(out, " sync"),
    }
}

fn put_index(alloc: Global, out: &mut String, index: &IndexDef) -> Option<()> {
    put_name(out, " index_create ", &index.name)?;
    put(out, " by ")?;
    put_term(alloc, out, index.func.term())?;
    put_if(out, index.multi, " multi")
}

fn put_rename(out: &mut String, old: &Name, new: &Name, overwrite: bool) -> Option<()> {
    put_name(out, " index_rename ", old)?;
    put_name(out, " to ", new)?;
    put_if(out, overwrite, " overwrite")
}

// The name of a key field that isn't the usual one.
fn put_key(out: &mut String, key: &Name) -> Option<()> {
    if key.as_str() == "id" {
        return Some(());
    }
    put_name(out, " key ", key)
}

fn put_write(alloc: Global, out: &mut String, write: &WriteCmd) -> Option<()> {
    put_act(alloc, out, &write.act)?;
    put_key(out, &write.key)?;
    put_returns(out, write.returns)?;
    put_if(out, !write.hard, " soft")
}

fn put_returns(out: &mut String, returns: Returns) -> Option<()> {
    match returns {
        Returns::No => Some(()),
        Returns::Changed => put(out, " returning"),
        Returns::Always => put(out, " returning always"),
    }
}

fn put_act(alloc: Global, out: &mut String, act: &Act) -> Option<()> {
    match act {
        Act::Insert {
            docs,
            conflict,
            made,
        } => put_insert(alloc, out, docs, *conflict, made),
        Act::Update { rows, change } => put_change(alloc, out, " update ", rows, change),
        Act::Replace { rows, change } => put_change(alloc, out, " replace ", rows, change),
        Act::Delete { rows } => {
            put(out, " delete ")?;
            put_term(alloc, out, rows.term())
        }
    }
}

fn put_change(
    alloc: Global,
    out: &mut String,
    word: &str,
    rows: &Body,
    change: &Body,
) -> Option<()> {
    put(out, word)?;
    put_term(alloc, out, rows.term())?;
    put(out, " by ")?;
    put_term(alloc, out, change.term())
}

fn put_insert(
    alloc: Global,
    out: &mut String,
    docs: &Items,
    conflict: Conflict,
    made: &Items,
) -> Option<()> {
    put_items(alloc, out, " insert ", docs)?;
    put_made(alloc, out, made)?;
    match conflict {
        Conflict::Error => Some(()),
        Conflict::Replace => put(out, " or replace"),
        Conflict::Update => put(out, " or update"),
    }
}

// The keys that were made, if any.
fn put_made(alloc: Global, out: &mut String, made: &Items) -> Option<()> {
    if made.is_empty() {
        return Some(());
    }
    put_items(alloc, out, " made ", made)
}

fn put_feed(alloc: Global, out: &mut String, feed: &FeedSpec) -> Option<()> {
    put_kind(alloc, out, feed.kind)?;
    put_term(alloc, out, feed.shape.term())?;
    put_named(out, &feed.index)?;
    put_key(out, &feed.key)?;
    put_size(alloc, out, feed.size)?;
    put_if(out, feed.offsets, " offsets")?;
    put_if(out, feed.types, " types")?;
    put_if(out, feed.squash, " squash")
}

fn put_kind(alloc: Global, out: &mut String, kind: FeedKind) -> Option<()> {
    match kind {
        FeedKind::Point => put(out, " subscribe point "),
        FeedKind::Range => put(out, " subscribe range "),
        FeedKind::Limit(count) => {
            put_number(alloc, out, " subscribe limit ", u64::from(count))?;
            put(out, " ")
        }
    }
}

fn put_named(out: &mut String, index: &Option<Name>) -> Option<()> {
    match index {
        None => Some(()),
        Some(name) => put_name(out, " index ", name),
    }
}

fn put_size(alloc: Global, out: &mut String, size: u32) -> Option<()> {
    if size == 100000 {
        return Some(());
    }
    put_number(alloc, out, " size ", u64::from(size))
}
