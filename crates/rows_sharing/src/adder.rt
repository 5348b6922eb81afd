ghost use Rattle.std.specs.Prelude.{◌≡◌, ℕ, ◌+◌, ◌<◌, ◌^◌, true, false, IfOk, IfErr};
ghost use Rattle.rows_sharing.specs.Adding.{adding};

use reql_memory::{Memory, Refused};
use reql_shared::Engine;

/// A sum, which wraps, and how many numbers were added.
#[derive(Drop)]
pub struct Adder {
    pub sum: u64,
    pub count: u64,
}

impl Engine for Adder {
    type Cmd = u64;

    type Reply = Option<u64>;

    type Question = ();

    type Answer = u64;

    type State = (u64, u64);

    type Told = Option<u64>;

    type Heard = u64;

    ghost machine = { adding };

    ghost state = { λ s. (s.sum, s.count) };

    ghost told = { λ r. r };

    ghost heard = { λ a. a };

    ghost tells = { λ old new by cmd reply. Unit {0} };

    ghost some_state = { (0, 0) };

    fn apply(&mut self, _by: u64, cmd: u64) -> Result<Option<u64>, Refused<u64>> {
        if self.count == u64::MAX {
            return Ok(None);
        }
        self.count += 1;
        self.sum = self.sum.wrapping_add(cmd);
        Ok(Some(self.sum))
    }

    fn ask(&self, _question: &()) -> Result<u64, Memory> {
        Ok(self.sum)
    }

    fn records(answered: &Option<u64>) -> bool {
        answered.is_some()
    }
}
