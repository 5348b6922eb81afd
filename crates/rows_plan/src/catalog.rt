// The names that rows describe, and what the catalogue says of a command.
use reql_catalog::{CatCmd, CatReply, CatSaid, Catalogue, Names};
use reql_datum::{Datum, Items, Name, Seq};
use reql_shared::{Engine, Snap};
use rows_reader::{list, number, text};
use std::alloc::Global;

/// The names of `test`, and of databases and tables, each a list of its names.
pub(crate) fn names_of(alloc: Global, described: &Items) -> Option<Names> {
    let mut catalogue = Catalogue::new(alloc, &[], 256).ok()?;
    for names in described.as_slice() {
        enter(alloc, &mut catalogue, list(names)?)?;
    }
    catalogue.ask(&Snap).ok()
}

// A database and maybe a table in it, with its key field. A database that is there stays.
fn enter(alloc: Global, catalogue: &mut Catalogue, names: &Items) -> Option<()> {
    let db = Name::of(alloc, text(names.at(0)?)?).ok()?;
    run(catalogue, CatCmd::DbCreate(db))?;
    match names.at(1) {
        None => Some(()),
        Some(table) => run(catalogue, table_made(alloc, names, text(table)?)?),
    }
}

fn table_made(alloc: Global, names: &Items, table: &str) -> Option<CatCmd> {
    let db = Name::of(alloc, text(names.at(0)?)?).ok()?;
    let table = Name::of(alloc, table).ok()?;
    let key = match names.at(2) {
        None => Name::of(alloc, "id").ok()?,
        Some(key) => Name::of(alloc, text(key)?).ok()?,
    };
    Some(CatCmd::TableCreate { db, table, key })
}

fn run(catalogue: &mut Catalogue, command: CatCmd) -> Option<()> {
    drop(catalogue.apply(0, command).ok()?);
    Some(())
}

/// What the catalogue says: a word, or the slots of the tables that went.
pub(crate) fn change_of(alloc: Global, described: &Datum) -> Option<CatReply> {
    let said = match list(described) {
        Some(slots) => CatSaid::Dropped {
            slots: slots_of(alloc, slots)?,
        },
        None => said_of(text(described)?)?,
    };
    Some(CatReply { place: 1, said })
}

fn slots_of(alloc: Global, described: &Items) -> Option<Seq<u32>> {
    let mut slots = Seq::new(alloc);
    for slot in described.as_slice() {
        slots.push(u32::try_from(number(slot)?).ok()?).ok()?;
    }
    Some(slots)
}

fn said_of(word: &str) -> Option<CatSaid> {
    match word {
        "made" => Some(CatSaid::Made),
        "db exists" => Some(CatSaid::DbExists),
        "db missing" => Some(CatSaid::DbMissing),
        "table exists" => Some(CatSaid::TableExists),
        "table missing" => Some(CatSaid::TableMissing),
        "no slot" => Some(CatSaid::SlotsFull { count: 256 }),
        "bad name" => Some(CatSaid::BadName),
        "full" => Some(CatSaid::HistoryFull { count: u64::MAX }),
        _ => None,
    }
}
