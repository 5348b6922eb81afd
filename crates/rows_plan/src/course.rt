// A request from its body to its answer.
use crate::found::found_of;
use crate::moves::put_move;
use crate::words::put;
use reql_admin::server_info;
use reql_json::{from_value, text};
use reql_plan::{Course, Found, Move, Plan, Setting, plan};
use reql_read::{Globals, Query, read_query};
use reql_table::Table;
use reql_table_spec::Limits;
use reql_term::Term;
use rows_reader::{Answers, Row, shown};
use serde_json::Value;
use std::alloc::Global;

/// Requests.
pub(crate) struct Calls;

impl Answers for Calls {
    fn answer(&self, alloc: Global, row: &Row<'_>) -> Option<String> {
        let opened = match row.call {
            "plan" => 0,
            "crowded" => Limits::usual().cursors,
            _ => return None,
        };
        let parts = Value::from_str(alloc, row.arguments).ok()?;
        let [body, answers @ ..] = parts.as_array()?.as_slice() else {
            return None;
        };
        asked(alloc, body, opened, answers)
    }
}

// The request of a body.
fn asked(alloc: Global, body: &Value, opened: u32, answers: &[Value]) -> Option<String> {
    let bytes = text(alloc, body).ok()?;
    match read_query(alloc, bytes.as_slice()) {
        Ok(query) => begun(alloc, query, opened, answers),
        Err(unread) => {
            let why = unread.fault.text(alloc);
            drop(unread);
            format!(in alloc; "refused {}", why.ok()?.as_str()).ok()
        }
    }
}

fn begun(alloc: Global, query: Query, opened: u32, answers: &[Value]) -> Option<String> {
    match query {
        Query::Start {
            term,
            globals,
            noreply,
        } => planned(alloc, term, globals, setting(noreply, opened), answers),
        Query::ServerInfo => shown(alloc, &server_info(alloc).ok()?),
        Query::Continue | Query::Stop | Query::NoreplyWait => None,
    }
}

fn setting(noreply: bool, opened: u32) -> Setting {
    let limits = Limits::usual();
    Setting {
        noreply,
        batch: limits.batch,
        cursors: limits.cursors,
        opened,
    }
}

fn planned(
    alloc: Global,
    term: Term,
    globals: Globals,
    setting: Setting,
    answers: &[Value],
) -> Option<String> {
    let Globals {
        db,
        array_limit,
        batch,
    } = globals;
    match plan(alloc, term, db, array_limit, batch) {
        Ok(plan) => followed(alloc, plan, setting, answers),
        Err(why) => format!(in alloc; "compile {}", why.text(alloc).ok()?.as_str()).ok(),
    }
}

// The moves of a plan, one after another.
fn followed(alloc: Global, plan: Plan, setting: Setting, answers: &[Value]) -> Option<String> {
    let mut told = String::new(alloc);
    let mut course = Course::new(plan, setting);
    let mut is_over = step(alloc, &mut course, &mut told, None)?;
    for answer in answers {
        is_over = further(alloc, &mut course, &mut told, is_over, answer)?;
    }
    drop(course);
    if !is_over {
        put(&mut told, "; waits")?;
    }
    Some(told)
}

fn further(
    alloc: Global,
    course: &mut Course<Table>,
    told: &mut String,
    is_over: bool,
    answer: &Value,
) -> Option<bool> {
    if is_over {
        put(told, "; surplus")?;
        return Some(true);
    }
    put(told, "; ")?;
    let described = from_value(alloc, answer).ok()?;
    let found = found_of(alloc, &described);
    drop(described);
    step(alloc, course, told, Some(found?))
}

// Makes the next move. Whether it is the last.
fn step(
    alloc: Global,
    course: &mut Course<Table>,
    told: &mut String,
    found: Option<Found<Table>>,
) -> Option<bool> {
    let next = course.next(alloc, found).ok()?;
    let is_put = put_move(alloc, told, &next);
    let is_over = matches!(&next, Move::Answer(_));
    drop(next);
    is_put?;
    Some(is_over)
}
