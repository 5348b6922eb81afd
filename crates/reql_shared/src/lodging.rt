// The engine in the table's slot, which the seat that has the lock holds.
ghost use Rattle.std.specs.Prelude.{◌≡◌, [], ◌∷◌, length, Some};
ghost use Rattle.reql_shared.specs.Machine.{replay};
ghost use Rattle.reql_shared.specs.Rule.{Lodges, IsIn, HasSlot};

use crate::engine::Engine;
use crate::rule::{OneHistory, Origin};
use crate::view::{Lodged, View};
use atomic_table::{Seat, Shared as Board};
use std::snapshot::Snapshot;

// Takes the engine out of the slot.
pub fn take_engine<E: Engine>(
    board: &Board<Lodged<E, E::Cmd>, View<E::Cmd, E::State>, Origin<E>, OneHistory<E>>,
    seat: &mut Seat<Lodged<E, E::Cmd>, View<E::Cmd, E::State>>,
) -> E
    requires table { seat.old.table_id ≡ board.now.table_id }
    requires held { IsIn (Lodges E.state E.machine) seat.old.me }
    ensures table { seat.new.table_id ≡ seat.old.table_id }
    ensures view { seat.new.me.0 ≡ seat.old.me.0 }
    ensures slot { HasSlot seat.new.me }
    ensures state { E.state result ≡ replay E.machine seat.old.me.0.start seat.old.me.0.seen }
    ensures place { E.machine.place (E.state result) ≡ length seat.old.me.0.seen }
{
    let none = Lodged {
        engine: None,
        asked: None,
    };
    let Lodged { engine, asked: _ } = board.exchange(seat, 0, none);
    let Some(engine) = engine else { unreachable!() };
    engine
}

// Puts the engine back, with the command that it answered.
pub fn put_engine<E: Engine + Drop>(
    board: &Board<Lodged<E, E::Cmd>, View<E::Cmd, E::State>, Origin<E>, OneHistory<E>>,
    seat: &mut Seat<Lodged<E, E::Cmd>, View<E::Cmd, E::State>>,
    engine: E,
    asked: Option<Snapshot<E::Cmd>>,
)
    requires table { seat.old.table_id ≡ board.now.table_id }
    requires slot { HasSlot seat.old.me }
    ensures table { seat.new.table_id ≡ seat.old.table_id }
    ensures view { seat.new.me.0 ≡ seat.old.me.0 }
    ensures slot { seat.new.me.1 ≡ (0, record { engine = Some engine; asked = asked }) ∷ [] }
{
    let engine = Some(engine);
    board.exchange(seat, 0, Lodged { engine, asked });
}
