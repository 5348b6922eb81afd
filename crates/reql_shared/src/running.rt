ghost use Rattle.std.specs.Prelude.{◌≡◌, ℕ, List, Some, true, IfOk, IfErr};
ghost use Rattle.reql_shared.specs.declared.recorded.Recorded.{Recorded};
ghost use Rattle.reql_shared.specs.History.{noted};
ghost use Rattle.reql_shared.specs.Machine.{replay};
ghost use Rattle.reql_shared.specs.Acts.{Ran, Denied, Acts};
ghost use Rattle.reql_shared.specs.Rule.{Lodges, IsIn, grown};

use crate::engine::Engine;
use crate::lock::{give_lock, take_lock};
use crate::lodging::{put_engine, take_engine};
use crate::pass::Pass;
use crate::rule::{Append, Count, OneHistory, Origin};
use crate::shared::Shared;
use crate::view::{Lodged, View};
use atomic_table::{Seat, Shared as Board};
use reql_memory::Refused;
use std::snapshot::Snapshot;
use std::sync::Wait;

impl<E: Engine + Drop> Shared<E> {
    /// Runs a command. It may wait for other threads.
    pub fn run<R: Wait>(
        &self,
        rt: &R,
        pass: &mut Pass<E>,
        cmd: E::Cmd,
    ) -> Result<E::Reply, Refused<E::Cmd>>
        requires of_this_engine { pass.old.object ≡ self.now }
        ensures object { pass.new.object ≡ pass.old.object }
        ensures number { pass.new.number ≡ pass.old.number }
        ensures ran { IfOk result (λ reply. (place : ℕ)
            × Acts E.machine pass.old pass.new (Ran place cmd (E.told reply))) }
        ensures tells { IfOk result (λ reply. (before : List (Recorded E.Cmd)) × (old new : E)
            × (E.state old ≡ replay E.machine pass.old.object.start before)
            × E.tells old new pass.old.number cmd (Some reply)) }
        ensures refused { IfErr result (λ refused. (place : ℕ)
            × Acts E.machine pass.old pass.new (Denied place)) }
        ensures back { IfErr result (λ refused. refused.back ≡ cmd) }
    {
        let board = &self.table.shared;
        take_lock(rt, board, &mut pass.seat);
        let answer = apply(board, &mut pass.seat, pass.number, cmd);
        pass.place = board.load::<Count>(&mut pass.seat, 0);
        pass.visits = pass.visits.saturating_add(1);
        give_lock(board, &mut pass.seat);
        answer
    }
}

// Applies a command under the lock, and appends it where it is recorded.
fn apply<E: Engine + Drop>(
    board: &Board<Lodged<E, E::Cmd>, View<E::Cmd, E::State>, Origin<E>, OneHistory<E>>,
    seat: &mut Seat<Lodged<E, E::Cmd>, View<E::Cmd, E::State>>,
    number: u64,
    cmd: E::Cmd,
) -> Result<E::Reply, Refused<E::Cmd>>
    requires sized { (board.now.table_id.words ≡ 2) × (board.now.table_id.slots ≡ 1) }
    requires table { seat.old.table_id ≡ board.now.table_id }
    requires held { IsIn (Lodges E.state E.machine) seat.old.me }
    requires numbered { (seat.old.me.0.own ≡ true) × (seat.old.me.0.number ≡ number) }
    ensures table { seat.new.table_id ≡ seat.old.table_id }
    ensures held { IsIn (Lodges E.state E.machine) seat.new.me }
    ensures reply { IfOk result (λ r. E.told r ≡ E.machine.reply
        (replay E.machine seat.old.me.0.start seat.old.me.0.seen) number cmd) }
    ensures tells { IfOk result (λ r. (old new : E) × (E.state old
        ≡ replay E.machine seat.old.me.0.start seat.old.me.0.seen)
        × E.tells old new number cmd (Some r)) }
    ensures grown { IfOk result (λ r. seat.new.me.0 ≡ grown (E.machine.recorded (E.told r)) seat.old.me.0
        (noted number cmd)) }
    ensures refused { IfErr result (λ r. (r.back ≡ cmd) × (seat.new.me.0 ≡ seat.old.me.0)) }
{
    let mut engine = take_engine(board, seat);
    let asked = Snapshot::of(&cmd);
    match engine.apply(number, cmd) {
        Ok(reply) => {
            put_engine(board, seat, engine, Some(asked));
            if E::records(&reply) {
                board.fetch_add::<Append>(seat, 0, 1);
            }
            Ok(reply)
        }
        Err(refused) => {
            put_engine(board, seat, engine, None);
            Err(refused)
        }
    }
}
