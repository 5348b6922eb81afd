// The snapshots of a request, by rising slot.
ghost use Rattle.std.specs.Prelude.{◌≡◌, drop};
ghost use Rattle.reql_term.specs.View.{form_of};
ghost use Rattle.reql_table_spec.specs.Engines.{HoldsEntries, seen_in};
ghost use Rattle.reql_plan_context.specs.Seen.{read as seen};
ghost use Rattle.reql_plan_spec.specs.Course.{carried, reading, seen_heard, held};
ghost use Rattle.reql_plan_spec.specs.Move.{looked};
ghost use Rattle.reql_plan_spec.specs.Request.{ends};
ghost use Rattle.reql_plan_steps.specs.Heard.{heard};
ghost use Rattle.reql_plan_state.specs.Turn.{Turns};

use crate::carrying::carried;
use crate::opening::lost_asked;
use reql_datum::{Memory, Seq};
use reql_plan_context::{Read, hold, with_view};
use reql_plan_state::{Asked, Stage, Turn, asks, dropped};
use reql_plan_steps::{Ask, Found};
use reql_table_spec::Look;
use reql_term::TableView;
use std::alloc::Global;

// The next slot that is looked at; after them all the request is carried out.
pub(crate) fn reading<V: TableView + Drop>(
    alloc: Global,
    asked: Asked,
    read: Read<V>,
    slots: Seq<u32>,
    place: usize,
) -> Result<Turn<V>, Memory>
    ensures { Turns V.documents V.indexes V.entries result
        (reading asked.plan asked.setting asked.names (form_of asked.term)
        (seen V.documents V.indexes V.entries read) (drop place slots) ends) }
{
    match slots.at(place) {
        Some(slot) => {
            let slot = *slot;
            asks(
                alloc,
                Ask::Look(slot),
                Stage::Looks {
                    asked,
                    read,
                    slot,
                    slots,
                    place: place + 1,
                },
            )
        }
        None => opened(alloc, asked, read),
    }
}

#[tactic(auto, using(crate::proofs::Held::carried_as))]
fn opened<V: TableView + Drop>(
    alloc: Global,
    asked: Asked,
    read: Read<V>,
) -> Result<Turn<V>, Memory>
    ensures { Turns V.documents V.indexes V.entries result
        (carried (held asked.plan asked.setting asked.names
        (seen V.documents V.indexes V.entries read)) (form_of asked.term) ends) }
{
    let Asked {
        plan,
        setting,
        names,
        term,
    } = asked;
    match hold(alloc, &plan, setting, names, read) {
        Ok(e) => {
            let turn = carried(alloc, e, &term);
            drop(term);
            turn
        }
        Err(why) => {
            drop(term);
            Err(why)
        }
    }
}

// What a look found.
pub(crate) fn looked<V: TableView + Drop>(
    alloc: Global,
    asked: Asked,
    read: Read<V>,
    slot: u32,
    slots: Seq<u32>,
    place: usize,
    found: Found<V>,
) -> Result<Turn<V>, Memory>
    requires holds { HoldsEntries V.documents V.indexes V.entries }
    ensures { Turns V.documents V.indexes V.entries result
        (seen_heard asked.names (seen V.documents V.indexes V.entries read) slot
        (heard V.documents V.indexes found)
        (λ t. reading asked.plan asked.setting asked.names (form_of asked.term) t
        (drop place slots) ends)) }
{
    match found {
        Found::Look(look) => sighted(alloc, asked, read, slot, slots, place, look),
        Found::Names(other) => {
            drop(other);
            lost_asked(alloc, asked)
        }
        Found::Told(_) => lost_asked(alloc, asked),
        Found::Ran(other) => {
            drop(other);
            lost_asked(alloc, asked)
        }
        Found::Changed(other) => {
            drop(other);
            lost_asked(alloc, asked)
        }
        Found::Rolled(_) => lost_asked(alloc, asked),
    }
}

#[tactic(auto, using(crate::proofs::Held::reading_as))]
fn sighted<V: TableView + Drop>(
    alloc: Global,
    asked: Asked,
    read: Read<V>,
    slot: u32,
    slots: Seq<u32>,
    place: usize,
    look: Look<V>,
) -> Result<Turn<V>, Memory>
    requires holds { HoldsEntries V.documents V.indexes V.entries }
    ensures { Turns V.documents V.indexes V.entries result
        (seen_heard asked.names (seen V.documents V.indexes V.entries read) slot
        (looked (seen_in V.documents V.indexes look))
        (λ t. reading asked.plan asked.setting asked.names (form_of asked.term) t
        (drop place slots) ends)) }
{
    let Look {
        place: at,
        stamp,
        view,
    } = look;
    match view {
        Some(view) => match with_view(alloc, &asked.names, read, slot, at, stamp, view) {
            Ok(read) => reading(alloc, asked, read, slots, place),
            Err(why) => {
                drop(asked);
                Err(why)
            }
        },
        None => {
            let turn = dropped(alloc, &asked.names, slot);
            drop(asked);
            turn
        }
    }
}
