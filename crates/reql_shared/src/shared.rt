ghost use Rattle.std.specs.Prelude.{All, ◌≡◌, [], IfOk};
ghost use Rattle.reql_shared.specs.History.{longer, AllBelow};
ghost use Rattle.reql_shared.specs.Machine.{replay};
ghost use Rattle.reql_shared.specs.Sight.{object_of, unused_passes, Learns};
ghost use Rattle.reql_shared.specs.Rule.{maker, Merges};

use crate::engine::Engine;
use crate::last::Final;
use crate::lock::take_lock;
use crate::lodging::take_engine;
use crate::pass::Pass;
use crate::rule::{Arrive, Hear, Learn, Note, Number, OneHistory, Origin};
use crate::view::{Lodged, View};
use atomic_table::{Seat, Shared as Board, Table};
use reql_memory::Memory;
use std::alloc::Global;
use std::marker::Model;
use std::snapshot::Snapshot;
use std::sync::Wait;

/// An engine that threads share.
///
/// It lies in a slot of a table, whose words are the number of entries of its history and the lock.
#[derive(Drop)]
pub struct Shared<E: Engine> {
    pub(crate) table: Table<
        Lodged<E, E::Cmd>,
        View<E::Cmd, E::State>,
        Origin<E>,
        OneHistory<E>,
        Global,
    >,
}

impl<E: Engine> Model for Shared<E> {
    ghost use Rattle.std.specs.Prelude.{◌≡◌};
    ghost use Rattle.reql_shared.specs.Sight.{Object};

    ghost Value = { Object E.State };

    ghost view = { λ s. record { id = s.table.shared.table_id; start = E.state s.table.shared.key.engine.value; passes = s.table.shared.key.passes } };

    ghost invariant = { λ s. (s.table.shared.table_id.words ≡ 2) × (s.table.shared.table_id.slots ≡ 1) };
}

impl<E: Engine + Drop> Shared<E> {
    /// Shares an engine that has recorded nothing yet. The passes are numbered from 0.
    pub fn new(alloc: Global, engine: E, passes: u32) -> Result<(Shared<E>, Vec<Pass<E>>), Memory>
        requires unused { E.machine.place (E.state engine) ≡ 0 }
        ensures start { IfOk result (λ made. made.0.start ≡ E.state engine) }
        ensures count { IfOk result (λ made. made.0.passes ≡ passes) }
        ensures passes { IfOk result (λ made. made.1.items ≡ unused_passes made.0) }
        ensures of_this_engine { IfOk result (λ made. All (λ pass. pass.object ≡ made.0)
            made.1.items) }
    {
        let (table, mut first) = open(alloc, engine, passes)?;
        let made = make_passes(alloc, &table.shared, &mut first, passes)?;
        Ok((Shared { table }, made))
    }

    /// Shows each of two passes what the other has seen.
    pub fn meet(&self, a: &mut Pass<E>, b: &mut Pass<E>)
        requires a_of_this_engine { a.old.object ≡ self.now }
        requires b_of_this_engine { b.old.object ≡ self.now }
        ensures a { Learns a.old a.new (longer a.old.seen b.old.seen) }
        ensures b { Learns b.old b.new (longer a.old.seen b.old.seen) }
    {
        self.hear(a, b);
        self.hear(b, a);
    }

    // Shows the first pass what the second has seen.
    fn hear(&self, a: &mut Pass<E>, b: &mut Pass<E>)
        requires a_of_this_engine { a.old.object ≡ self.now }
        requires b_of_this_engine { b.old.object ≡ self.now }
        ensures a { Merges a.old b.old a.new }
        ensures b { b.new ≡ b.old }
    {
        let board = &self.table.shared;
        let note = board.split_seat::<Note>(&mut b.seat);
        board.join_seat::<Hear<E>>(&mut a.seat, note);
        board.load::<Learn>(&mut a.seat, 0);
        if a.place < b.place {
            a.place = b.place;
        }
    }

    /// Ends the sharing. It takes the lock once more, so it may wait.
    pub fn close<R: Wait>(self, rt: &R) -> Final<E>
        ensures object { result.object ≡ self }
        ensures state { E.state result.engine ≡ replay E.machine self.start result.history }
        ensures numbers { AllBelow self.passes result.history }
    {
        let Shared { table } = self;
        let (_, mut seat) = table.shared.load_new_seat::<Arrive>(0);
        take_lock(rt, &table.shared, &mut seat);
        let engine = take_engine(&table.shared, &mut seat);
        Final {
            table,
            seat,
            engine,
        }
    }
}

// The table with the engine in its slot, and the seat that makes the passes.
fn open<E: Engine + Drop>(
    alloc: Global,
    engine: E,
    passes: u32,
) -> Result<
    (
        Table<Lodged<E, E::Cmd>, View<E::Cmd, E::State>, Origin<E>, OneHistory<E>, Global>,
        Seat<Lodged<E, E::Cmd>, View<E::Cmd, E::State>>,
    ),
    Memory,
>
    requires unused { E.machine.place (E.state engine) ≡ 0 }
    ensures sized { IfOk result (λ r. (r.0.shared.table_id.words ≡ 2)
        × (r.0.shared.table_id.slots ≡ 1)) }
    ensures key { IfOk result (λ r. (r.0.shared.key.passes ≡ passes)
        × (E.state r.0.shared.key.engine.value ≡ E.state engine)) }
    ensures seat { IfOk result (λ r. (r.1.table_id ≡ r.0.shared.table_id)
        × (r.1.me ≡ (maker (E.state engine) passes 0, []))) }
{
    let origin = Origin {
        engine: Snapshot::of(&engine),
        passes: u64::from(passes),
    };
    let mut slots = Vec::with_capacity(alloc, 1).map_err(|_| Memory)?;
    slots.push_reserved(Lodged {
        engine: Some(engine),
        asked: None,
    });
    match Table::new(alloc, &[0, 0], slots, &origin) {
        Ok(made) => Ok(made),
        Err(_) => Err(Memory),
    }
}

// The passes, numbered from 0.
fn make_passes<E: Engine>(
    alloc: Global,
    board: &Board<Lodged<E, E::Cmd>, View<E::Cmd, E::State>, Origin<E>, OneHistory<E>>,
    first: &mut Seat<Lodged<E, E::Cmd>, View<E::Cmd, E::State>>,
    passes: u32,
) -> Result<Vec<Pass<E>>, Memory>
    requires sized { (board.now.table_id.words ≡ 2) × (board.now.table_id.slots ≡ 1) }
    requires count { board.now.key.passes ≡ passes }
    requires table { first.old.table_id ≡ board.now.table_id }
    requires maker { first.old.me ≡ (maker (E.state board.now.key.engine.value) passes 0, []) }
    ensures { IfOk result (λ made. made.items
        ≡ unused_passes (object_of board.now.table_id (E.state board.now.key.engine.value) passes)) }
{
    let mut made = Vec::with_capacity(alloc, passes as usize).map_err(|_| Memory)?;
    for number in 0..passes {
        let seat = board.split_seat::<Number>(first);
        made.push_reserved(Pass {
            seat,
            number: u64::from(number),
            place: 0,
            visits: 0,
        });
    }
    Ok(made)
}
