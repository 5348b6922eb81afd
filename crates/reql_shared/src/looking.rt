ghost use Rattle.std.specs.Prelude.{◌≡◌, ℕ, IfOk, IfErr};
ghost use Rattle.reql_shared.specs.Machine.{replay};
ghost use Rattle.reql_shared.specs.Acts.{Looked, Denied, Acts};
ghost use Rattle.reql_shared.specs.Rule.{Lodges, IsIn};

use crate::engine::Engine;
use crate::lock::{give_lock, take_lock};
use crate::lodging::{put_engine, take_engine};
use crate::pass::Pass;
use crate::rule::{Count, OneHistory, Origin};
use crate::shared::Shared;
use crate::view::{Lodged, View};
use atomic_table::{Seat, Shared as Board};
use reql_memory::Memory;
use std::sync::Wait;

impl<E: Engine + Drop> Shared<E> {
    /// Asks a question about the history so far, which the pass has then seen. It may wait for other threads.
    pub fn look<R: Wait>(
        &self,
        rt: &R,
        pass: &mut Pass<E>,
        question: &E::Question,
    ) -> Result<E::Answer, Memory>
        requires of_this_engine { pass.old.object ≡ self.now }
        ensures object { pass.new.object ≡ pass.old.object }
        ensures number { pass.new.number ≡ pass.old.number }
        ensures looked { IfOk result (λ answer. (place : ℕ)
            × Acts E.machine pass.old pass.new (Looked place question.now (E.heard answer))) }
        ensures denied { IfErr result (λ memory. (place : ℕ)
            × Acts E.machine pass.old pass.new (Denied place)) }
    {
        let board = &self.table.shared;
        take_lock(rt, board, &mut pass.seat);
        let answer = ask(board, &mut pass.seat, question);
        pass.place = board.load::<Count>(&mut pass.seat, 0);
        pass.visits = pass.visits.saturating_add(1);
        give_lock(board, &mut pass.seat);
        answer
    }
}

// Asks a question under the lock.
fn ask<E: Engine + Drop>(
    board: &Board<Lodged<E, E::Cmd>, View<E::Cmd, E::State>, Origin<E>, OneHistory<E>>,
    seat: &mut Seat<Lodged<E, E::Cmd>, View<E::Cmd, E::State>>,
    question: &E::Question,
) -> Result<E::Answer, Memory>
    requires table { seat.old.table_id ≡ board.now.table_id }
    requires held { IsIn (Lodges E.state E.machine) seat.old.me }
    ensures table { seat.new.table_id ≡ seat.old.table_id }
    ensures held { IsIn (Lodges E.state E.machine) seat.new.me }
    ensures view { seat.new.me.0 ≡ seat.old.me.0 }
    ensures answer { IfOk result (λ a. E.heard a ≡ E.machine.answer
        (replay E.machine seat.old.me.0.start seat.old.me.0.seen) question.now) }
{
    let engine = take_engine(board, seat);
    let answer = engine.ask(question);
    put_engine(board, seat, engine, None);
    answer
}
