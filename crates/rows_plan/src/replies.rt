// What a table says to an order.
use crate::tables::count_in;
use reql_datum::{Datum, Fields, Items, Name};
use reql_table_spec::{Reply, Said, Saved, Summary};
use rows_reader::{list, object, text};
use std::alloc::Global;

/// A reply, by its kind.
pub(crate) fn reply_of(alloc: Global, kind: &str, described: &Datum) -> Option<Reply> {
    match kind {
        "done" => done(alloc, object(described)?),
        "opened" => opened(alloc, object(described)?),
        "said" => Some(reply(0, said_of(text(described)?)?, Saved::Yes)),
        "saved" => Some(reply(0, Said::Changed, saved_of(text(described)?)?)),
        _ => None,
    }
}

fn reply(stamp: u64, said: Said, saved: Saved) -> Reply {
    Reply {
        place: 1,
        stamp,
        said,
        saved,
    }
}

fn saved_of(word: &str) -> Option<Saved> {
    match word {
        "failed" => Some(Saved::Failed),
        "memory" => Some(Saved::Memory),
        _ => None,
    }
}

fn said_of(word: &str) -> Option<Said> {
    match word {
        "changed" => Some(Said::Changed),
        "exists" => Some(Said::IndexExists),
        "missing" => Some(Said::IndexMissing),
        "crowded" => Some(Said::FeedsFull { count: 1024 }),
        "full" => Some(Said::HistoryFull { count: u64::MAX }),
        "nothing" => Some(Said::Nothing),
        "closed" => Some(Said::Closed),
        "gone" => Some(Said::Gone),
        _ => None,
    }
}

// Documents at a name; none where it is left out.
fn items_in(alloc: Global, fields: &Fields, name: &str) -> Option<Items> {
    match fields.get(name) {
        None => Some(Items::new(alloc)),
        Some(items) => list(items)?.copy().ok(),
    }
}

fn opened(alloc: Global, fields: &Fields) -> Option<Reply> {
    let feed = count_in(fields, "feed")?;
    let stamp = count_in(fields, "stamp")?;
    let opening = items_in(alloc, fields, "items")?;
    Some(reply(stamp, Said::Opened { feed, opening }, Saved::Yes))
}

fn done(alloc: Global, fields: &Fields) -> Option<Reply> {
    let summary = summary_of(alloc, fields)?;
    Some(reply(0, Said::Done(summary), Saved::Yes))
}

fn summary_of(alloc: Global, fields: &Fields) -> Option<Summary> {
    let mut summary = counts_of(alloc, fields)?;
    summary.generated = items_in(alloc, fields, "generated_keys")?;
    if let Some(first) = fields.get("first_error") {
        summary.first_error = Some(Name::of(alloc, text(first)?).ok()?);
    }
    if let Some(changes) = fields.get("changes") {
        summary.changes = Some(list(changes)?.copy().ok()?);
    }
    Some(summary)
}

fn counts_of(alloc: Global, fields: &Fields) -> Option<Summary> {
    Some(Summary {
        deleted: count_in(fields, "deleted")?,
        errors: count_in(fields, "errors")?,
        inserted: count_in(fields, "inserted")?,
        replaced: count_in(fields, "replaced")?,
        skipped: count_in(fields, "skipped")?,
        unchanged: count_in(fields, "unchanged")?,
        first_error: None,
        generated: Items::new(alloc),
        changes: None,
    })
}
