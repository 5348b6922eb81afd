ghost use Rattle.std.specs.Prelude.{◌≡◌, ℕ, ◌+◌, ◌<◌, ◌^◌, true, false, IfOk, IfErr, List, [], length};
ghost use Rattle.rows_sharing.specs.Logging.{logging};

use reql_memory::{Memory, Refused};
use reql_shared::Engine;
use std::collections::LinkedList;

/// The numbers that it was given, each after who gave it, in order.
#[derive(Drop)]
pub struct Log {
    pub entries: Vec<(u64, u64)>,
}

impl Engine for Log {
    type Cmd = u64;

    type Reply = u64;

    type Question = ();

    type Answer = u64;

    type State = LinkedList<(u64, u64)>;

    type Told = u64;

    type Heard = u64;

    ghost machine = { logging };

    ghost state = { λ s. s.entries.items };

    ghost told = { λ r. r };

    ghost heard = { λ a. a };

    ghost tells = { λ old new by cmd reply. Unit {0} };

    ghost some_state = { [] };

    fn apply(&mut self, by: u64, cmd: u64) -> Result<u64, Refused<u64>> {
        let place = self.entries.len() as u64;
        match self.entries.push((by, cmd)) {
            Ok(()) => Ok(place),
            Err(_) => Err(Refused { back: cmd }),
        }
    }

    fn ask(&self, _question: &()) -> Result<u64, Memory> {
        Ok(self.entries.len() as u64)
    }

    fn records(_answered: &u64) -> bool {
        true
    }
}
