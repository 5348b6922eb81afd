// A request up to its snapshots.
ghost use Rattle.std.specs.Prelude.{◌≡◌};
ghost use Rattle.reql_term.specs.View.{form_of};
ghost use Rattle.reql_naming.specs.Named.{resolved};
ghost use Rattle.reql_plan_spec.specs.Course.{names_heard, resolving, determined, at_moment, read, moment_heard, moment_by, moment_in_range};
ghost use Rattle.reql_plan_spec.specs.Request.{ends};
ghost use Rattle.reql_datum.specs.Outcome.{Gives};
ghost use Rattle.reql_plan_steps.specs.Heard.{heard};
ghost use Rattle.reql_plan_state.specs.Rest.{moment_rest};
ghost use Rattle.reql_plan_state.specs.Turn.{Turns, lost_request};

use crate::looking::reading;
use reql_catalog::Names;
use reql_datum::{Fault, Memory, Name, Whole};
use reql_naming::resolved;
use reql_plan_context::nothing_read;
use reql_plan_spec::{Plan, Setting};
use reql_plan_state::{Asked, Stage, Turn, asks, lost, refused};
use reql_plan_steps::{Answered, Ask, Found};
use reql_reads::{has_now, leaks, read_slots, with_now};
use reql_term::{TableView, Term};
use std::alloc::Global;

pub(crate) fn named<V: TableView + Drop>(
    alloc: Global,
    plan: Plan,
    setting: Setting,
    found: Found<V>,
) -> Result<Turn<V>, Memory>
    ensures { Turns V.documents V.indexes V.entries result
        (names_heard (heard V.documents V.indexes found) (λ ns. resolving plan setting ns ends)) }
{
    match found {
        Found::Names(names) => resolving(alloc, plan, setting, names),
        Found::Told(_) => lost(alloc),
        Found::Look(other) => {
            drop(other);
            lost(alloc)
        }
        Found::Ran(other) => {
            drop(other);
            lost(alloc)
        }
        Found::Changed(other) => {
            drop(other);
            lost(alloc)
        }
        Found::Rolled(_) => lost(alloc),
    }
}

#[tactic(auto, using(reql_plan_state::proofs::Turns::turns))]
fn resolving<V: TableView + Drop>(
    alloc: Global,
    plan: Plan,
    setting: Setting,
    names: Names,
) -> Result<Turn<V>, Memory>
    ensures { Turns V.documents V.indexes V.entries result (resolving plan setting names ends) }
{
    match resolve(alloc, &names, &plan) {
        Ok(term) => determined(
            alloc,
            Asked {
                plan,
                setting,
                names,
                term,
            },
        ),
        Err(why) => refused(why),
    }
}

fn resolve(alloc: Global, names: &Names, plan: &Plan) -> Result<Term, Fault>
    ensures { Gives form_of result (resolved names.now plan.now.db plan.now.term) }
{
    resolved(alloc, names, plan.db.as_str(), plan.term.term())
}

// A function inside a write, an index or a feed may name no table.
fn determined<V: TableView + Drop>(alloc: Global, asked: Asked) -> Result<Turn<V>, Memory>
    ensures { Turns V.documents V.indexes V.entries result
        (determined (form_of asked.term)
        (λ f. at_moment asked.plan asked.setting asked.names f ends)) }
{
    if leaks(&asked.term) {
        drop(asked);
        let text = Name::of(alloc, "Could not prove argument deterministic.")?;
        return Ok(Turn::Done(Answered::Fault(Fault::QueryLogic(text))));
    }
    timed(alloc, asked)
}

// NOW asks the clock.
fn timed<V: TableView + Drop>(alloc: Global, asked: Asked) -> Result<Turn<V>, Memory>
    ensures { Turns V.documents V.indexes V.entries result
        (at_moment asked.plan asked.setting asked.names (form_of asked.term) ends) }
{
    if has_now(&asked.term) {
        return asks(alloc, Ask::Tell, Stage::Clock(asked));
    }
    begin_reading(alloc, asked)
}

pub(crate) fn told<V: TableView + Drop>(
    alloc: Global,
    asked: Asked,
    found: Found<V>,
) -> Result<Turn<V>, Memory>
    ensures { Turns V.documents V.indexes V.entries result
        (moment_heard (heard V.documents V.indexes found)
        (moment_rest asked.plan asked.setting asked.names (form_of asked.term))) }
{
    match found {
        Found::Told(moment) => told_at(alloc, asked, moment),
        Found::Names(other) => {
            drop(other);
            lost_asked(alloc, asked)
        }
        Found::Look(other) => {
            drop(other);
            lost_asked(alloc, asked)
        }
        Found::Ran(other) => {
            drop(other);
            lost_asked(alloc, asked)
        }
        Found::Changed(other) => {
            drop(other);
            lost_asked(alloc, asked)
        }
        Found::Rolled(_) => lost_asked(alloc, asked),
    }
}

fn told_at<V: TableView + Drop>(
    alloc: Global,
    asked: Asked,
    moment: Option<i64>,
) -> Result<Turn<V>, Memory>
    ensures { Turns V.documents V.indexes V.entries result
        (moment_by moment (moment_rest asked.plan asked.setting asked.names (form_of asked.term))) }
{
    match moment {
        Some(moment) => in_range(alloc, asked, moment),
        None => {
            drop(asked);
            let text = Name::of(alloc, "Clock failed.")?;
            Ok(Turn::Done(Answered::Fault(Fault::OpFailed(text))))
        }
    }
}

#[tactic(auto, using(crate::proofs::Moments::over_range))]
fn in_range<V: TableView + Drop>(
    alloc: Global,
    asked: Asked,
    moment: i64,
) -> Result<Turn<V>, Memory>
    ensures { Turns V.documents V.indexes V.entries result
        (moment_in_range moment
        (moment_rest asked.plan asked.setting asked.names (form_of asked.term))) }
{
    match Whole::new(moment) {
        Some(whole) => placed(alloc, asked, whole),
        None => {
            drop(asked);
            let text = Name::of(alloc, "Number outside the range of whole numbers.")?;
            Ok(Turn::Done(Answered::Fault(Fault::QueryLogic(text))))
        }
    }
}

// The moment in the place of each NOW.
#[tactic(auto, using(reql_plan_state::proofs::Turns::turns))]
fn placed<V: TableView + Drop>(
    alloc: Global,
    asked: Asked,
    moment: Whole,
) -> Result<Turn<V>, Memory>
    ensures { Turns V.documents V.indexes V.entries result
        (moment_rest asked.plan asked.setting asked.names (form_of asked.term) moment) }
{
    match with_now(alloc, &moment, &asked.term) {
        Ok(term) => begin_reading(alloc, with_term(asked, term)),
        Err(why) => {
            drop(asked);
            refused(why)
        }
    }
}

fn with_term(asked: Asked, term: Term) -> Asked
    ensures plan { result.plan ≡ asked.plan }
    ensures setting { result.setting ≡ asked.setting }
    ensures names { result.names ≡ asked.names }
    ensures term { result.term ≡ term }
{
    let Asked {
        plan,
        setting,
        names,
        term: old,
    } = asked;
    drop(old);
    Asked {
        plan,
        setting,
        names,
        term,
    }
}

fn begin_reading<V: TableView + Drop>(alloc: Global, asked: Asked) -> Result<Turn<V>, Memory>
    ensures { Turns V.documents V.indexes V.entries result
        (read asked.plan asked.setting asked.names (form_of asked.term) ends) }
{
    match read_slots(alloc, &asked.term) {
        Ok(slots) => reading(alloc, asked, nothing_read(alloc), slots, 0),
        Err(why) => {
            drop(asked);
            Err(why)
        }
    }
}

/// What no answer to a move calls for, with the request that is let go.
pub(crate) fn lost_asked<V: TableView + Drop>(
    alloc: Global,
    asked: Asked,
) -> Result<Turn<V>, Memory>
    ensures { Turns V.documents V.indexes V.entries result lost_request }
{
    drop(asked);
    lost(alloc)
}
