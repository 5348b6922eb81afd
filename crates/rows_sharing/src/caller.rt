ghost use Rattle.std.specs.Prelude.{◌≡◌, ℕ, ◌+◌, ◌<◌, ◌^◌, true, false, IfOk, IfErr, List, [], length};
ghost use Rattle.rows_sharing.specs.Calling.{calling};

use reql_memory::{Memory, Refused, Seq};
use reql_shared::Engine;
use std::collections::LinkedList;

/// The numbers of those who called it, in order.
#[derive(Drop)]
pub struct Callers {
    pub calls: Vec<u64>,
}

impl Engine for Callers {
    type Cmd = ();

    type Reply = u64;

    type Question = ();

    type Answer = Seq<u64>;

    type State = LinkedList<u64>;

    type Told = u64;

    type Heard = LinkedList<u64>;

    ghost machine = { calling };

    ghost state = { λ s. s.calls.items };

    ghost told = { λ r. r };

    ghost heard = { λ a. a };

    ghost tells = { λ old new by cmd reply. Unit {0} };

    ghost some_state = { [] };

    fn apply(&mut self, by: u64, cmd: ()) -> Result<u64, Refused<()>> {
        let place = self.calls.len() as u64;
        match self.calls.push(by) {
            Ok(()) => Ok(place),
            Err(_) => Err(Refused { back: cmd }),
        }
    }

    fn ask(&self, _question: &()) -> Result<Seq<u64>, Memory> {
        Ok(Seq::from_vec(self.calls.clone()?))
    }

    fn records(_answered: &u64) -> bool {
        true
    }
}
