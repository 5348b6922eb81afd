// Moves of requests as rows write them.
use crate::answers::put_answer;
use crate::orders::put_order;
use crate::words::{put, put_name, put_number};
use reql_catalog::CatCmd;
use reql_datum::Name;
use reql_plan::{Ask, Move};
use std::alloc::Global;

/// Adds a move.
pub(crate) fn put_move(alloc: Global, out: &mut String, next: &Move) -> Option<()> {
    match next {
        Move::Ask(question) => put_ask(alloc, out, question),
        Move::Answer(answered) => put_answer(alloc, out, answered),
    }
}

fn put_ask(alloc: Global, out: &mut String, question: &Ask) -> Option<()> {
    match question {
        Ask::LookNames => put(out, "names"),
        Ask::Tell => put(out, "clock"),
        Ask::Look(slot) => put_number(alloc, out, "look ", u64::from(*slot)),
        Ask::Run(slot, order) => put_order(alloc, out, *slot, order),
        Ask::ChangeNames(command) => put_names(out, command),
        Ask::Roll => put(out, "dice"),
    }
}

fn put_names(out: &mut String, command: &CatCmd) -> Option<()> {
    match command {
        CatCmd::DbCreate(db) => put_name(out, "db_create ", db),
        CatCmd::DbDrop(db) => put_name(out, "db_drop ", db),
        CatCmd::TableCreate { db, table, key } => {
            put_table(out, "table_create ", db, table)?;
            put_name(out, " key ", key)
        }
        CatCmd::TableDrop { db, table } => put_table(out, "table_drop ", db, table),
    }
}

fn put_table(out: &mut String, word: &str, db: &Name, table: &Name) -> Option<()> {
    put_name(out, word, db)?;
    put_name(out, ".", table)
}
