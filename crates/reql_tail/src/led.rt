// What entries lead on.
ghost use Rattle.std.specs.Prelude.{◌≡◌, ℕ, IfOk};
ghost use Rattle.reql_tail.specs.Led.{CountsOne};

use reql_memory::Memory;

/// A value from which a history's entries go on, and that can be shared.
pub trait Led: Drop {
    type Entry: Drop;

    /// What contracts see of where a value stands. No value of it is made.
    type State;

    ghost state: { Self → Self.State };

    ghost after: { Self.State → Self.Entry → Self.State };

    // How many entries led to it.
    ghost place: { Self.State → ℕ };

    /// An equal value that what becomes of this one doesn't change. Memory where it can't be shared.
    fn share(&self) -> Result<Self, Memory>
        ensures { IfOk result (λ b. b ≡ self.now) };

    // An entry is one more.
    ghost counts: { CountsOne after place };
}
