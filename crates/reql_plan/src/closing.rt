// The feeds that were opened are closed in order, and then the refusal is the answer.
ghost use Rattle.std.specs.Prelude.{◌≡◌, map, drop};
ghost use Rattle.reql_plan_results.specs.Seen.{opened as seen};
ghost use Rattle.reql_plan_context.specs.Seen.{held};
ghost use Rattle.reql_plan_spec.specs.Request.{ends, refuse};
ghost use Rattle.reql_plan_spec.specs.Move.{Outcome};
ghost use Rattle.reql_plan_state.specs.Rest.{closing_rest, reason_of};
ghost use Rattle.reql_plan_state.specs.Turn.{Turns};

use reql_catalog::Names;
use reql_datum::{Fault, Memory, Name, Seq};
use reql_operand::no_index;
use reql_plan_context::Held;
use reql_plan_results::Open;
use reql_plan_state::{Refusal, Stage, Turn, asks, dropped, points_of};
use reql_plan_steps::{Answered, Ask};
use reql_table_spec::{Cmd, Order};
use reql_term::TableView;
use std::alloc::Global;

pub(crate) fn closing<V: TableView + Drop>(
    alloc: Global,
    e: Held<V>,
    why: Refusal,
    before: Seq<Open>,
    place: usize,
) -> Result<Turn<V>, Memory>
    ensures { let k = held V.documents V.indexes V.entries e in
        Turns V.documents V.indexes V.entries result
        (closing_rest k (reason_of e.names why) (map seen (drop place before))) }
{
    match before.at(place) {
        Some(known) => {
            let slot = known.slot;
            let feed = known.feed;
            let points = points_of(alloc, &e.points)?;
            let order = Order {
                points,
                cmd: Cmd::Unsubscribe { feed },
            };
            asks(
                alloc,
                Ask::Run(slot, order),
                Stage::Closing {
                    held: e,
                    why,
                    before,
                    place: place + 1,
                },
            )
        }
        None => told(alloc, &e.names, why),
    }
}

fn told<V: TableView + Drop>(alloc: Global, names: &Names, why: Refusal) -> Result<Turn<V>, Memory>
    ensures { Turns V.documents V.indexes V.entries result
        (refuse {A = Outcome} (reason_of names.now why) ends) }
{
    match why {
        Refusal::NoIndex(name) => {
            let text = no_index(alloc, name.as_str())?;
            Ok(Turn::Done(Answered::Fault(Fault::OpFailed(text))))
        }
        Refusal::FeedsFull => {
            let text = Name::of(alloc, "Too many feeds.")?;
            Ok(Turn::Done(Answered::Fault(Fault::ResourceLimit(text))))
        }
        Refusal::HistoryFull => {
            let text = Name::of(alloc, "History is full.")?;
            Ok(Turn::Done(Answered::Fault(Fault::ResourceLimit(text))))
        }
        Refusal::Dropped(slot) => dropped(alloc, names, slot),
    }
}
