ghost use Rattle.std.specs.Prelude.{◌≡◌};
ghost use Rattle.reql_shared.specs.Sight.{Learns};

use crate::engine::Engine;
use crate::pass::Pass;
use crate::rule::{Count, Learn, Note, OneHistory, Origin, PartFrom, TakeIn};
use crate::view::{Lodged, View};
use atomic_table::{Seat, Table};
use std::alloc::Global;
use std::marker::Model;
use std::mem;

/// An engine that is shared no more, with its whole history.
#[derive(Drop)]
pub struct Final<E: Engine> {
    pub(crate) table: Table<
        Lodged<E, E::Cmd>,
        View<E::Cmd, E::State>,
        Origin<E>,
        OneHistory<E>,
        Global,
    >,
    pub(crate) seat: Seat<Lodged<E, E::Cmd>, View<E::Cmd, E::State>>,
    pub(crate) engine: E,
}

impl<E: Engine> Model for Final<E> {
    ghost use Rattle.std.specs.Prelude.{◌≡◌};
    ghost use Rattle.reql_shared.specs.Sight.{Closing};

    ghost Value = { Closing E E.Cmd E.State };

    ghost use Rattle.reql_shared.specs.Rule.{closing, Ends};

    ghost view = { λ f. closing f.seat.table_id f.seat.me.0 f.engine };

    ghost invariant = { λ f. Ends f.seat.me × (f.table.shared.table_id.words ≡ 2) × (f.table.shared.table_id.slots ≡ 1) × (f.seat.table_id ≡ f.table.shared.table_id) };
}

impl<E: Engine + Drop> Final<E> {
    /// Shows a pass the whole history.
    pub fn check(&mut self, pass: &mut Pass<E>)
        requires of_this_engine { pass.old.object ≡ self.old.object }
        ensures same { self.new ≡ self.old }
        ensures pass { Learns pass.old pass.new self.old.history }
    {
        let table = &self.table;
        let board = &table.shared;
        let blank = board.split_seat::<Note>(&mut pass.seat);
        let theirs = mem::replace(&mut pass.seat, blank);
        board.join_seat::<TakeIn<E>>(&mut self.seat, theirs);
        board.load::<Learn>(&mut self.seat, 0);
        pass.seat = board.split_seat::<PartFrom>(&mut self.seat);
        pass.place = board.load::<Count>(&mut self.seat, 0);
    }

    /// The engine, in the state to which the history leads.
    pub fn engine(&self) -> &E
        ensures { result.now ≡ self.now.engine }
    {
        &self.engine
    }
}
