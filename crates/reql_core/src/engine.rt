// The table machine.
ghost use Rattle.std.specs.Prelude.{◌≡◌, refl};
ghost use Rattle.reql_table.specs.Seen.{documents_of, indexes_of};
ghost use Rattle.reql_table_spec.specs.Engines.{seen_in};
ghost use Rattle.reql_table_spec.specs.Machine.{machine, unused};
ghost use Rattle.reql_table_spec.specs.Replies.{told_of};
ghost use Rattle.reql_table_spec.specs.declared.reply.Saved.TheVariants.{Yes};
ghost use Rattle.reql_core.specs.Core.{Tells, state_of};
ghost use Rattle.reql_core.specs.Saved.{never_falls, not_failed};

use crate::table_core::{TableCore, adds_entry};
use reql_memory::{Memory, Refused};
use reql_opening::Opening;
use reql_shared::{Engine, Snap};
use reql_table::Table;
use reql_table_spec::{
    Heard, Keeping, Kept, Look, MachineState, Order, Reply, Said, Saved, TableEngine, Told,
};
use std::mem;

impl<F: Opening> Engine for TableCore<F> {
    type Cmd = Order;

    type Reply = Reply;

    type Question = Snap;

    type Answer = Look<Table>;

    type State = MachineState;

    type Told = Told;

    type Heard = Heard;

    ghost machine = { machine };

    ghost state = { state_of F.held };

    ghost told = { told_of };

    ghost heard = { seen_in documents_of indexes_of };

    ghost tells = { Tells F.held };

    ghost some_state = { unused 0 0 };

    #[tactic(auto, using(crate::proofs::Answering::replies, crate::proofs::Answering::state_after, crate::proofs::Answering::counted_one, crate::proofs::Answering::state_same, crate::proofs::Answering::state_left, crate::proofs::Answering::none_added, crate::proofs::Tails::goes_nowhere))]
    fn apply(&mut self, by: u64, order: Order) -> Result<Reply, Refused<Order>> {
        if self.is_full() {
            let said = self.run_full(by, &order);
            return Ok(self.reply(said));
        }
        match self.run(by, order) {
            Ok(said) => Ok(self.reply(said)),
            Err(order) => Err(Refused { back: order }),
        }
    }

    fn ask(&self, _question: &Snap) -> Result<Look<Table>, Memory> {
        let look = self.live.look()?;
        Ok(look)
    }

    fn records(answered: &Reply) -> bool {
        adds_entry(&answered.said)
    }
}

impl<F: Opening> TableCore<F> {
    // A reply at the point where the table stands. It has no disk that could fail.
    fn reply(&self, said: Said) -> Reply
        ensures place { result.place ≡ self.now.live.moment.place }
        ensures stamp { result.stamp ≡ self.now.live.moment.stamp }
        ensures said { result.said ≡ said }
        ensures saved { result.saved ≡ Yes }
    {
        Reply {
            place: self.live.moment.place,
            stamp: self.live.moment.stamp,
            said,
            saved: Saved::Yes,
        }
    }
}

impl<F: Opening> TableEngine for TableCore<F> {
    type View = Table;

    ghost faults = { λ c. 0 };

    ghost is_machine = { refl };

    ghost tells_all = { λ r. refl };

    ghost shows = { λ l. refl };

    ghost holds = { λ v name. refl };

    ghost faults_stay = { λ old new by o r tells. never_falls };

    ghost fails = { λ old new by o r tells failed. absurd (not_failed tells.0 failed) };
}

impl<F: Opening> Keeping for TableCore<F> {
    ghost kept = { λ c. c.kept };

    fn take_kept(&mut self) -> Vec<Kept> {
        let none = Vec::new(self.live.alloc);
        mem::replace(&mut self.kept, none)
    }

    ghost keeps = { λ old new by o r tells. tells.1 };

    ghost keeps_refused = { λ old new by o tells. tells.0 };
}
