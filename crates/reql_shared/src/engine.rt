ghost use Rattle.std.specs.Prelude.{◌≡◌, ℕ, ◌+◌, ◌^◌, ◌<◌, true, false, Option, Some, None, IfOk, IfErr};
ghost use Rattle.reql_shared.specs.Machine.{Machine};

use reql_memory::{Memory, Refused};

/// A machine whose commands may add an entry to a history.
///
/// Its meaning is `machine`, functions of a state, and `state`, which says what state an engine is in. A command that
/// is not recorded leaves the state as it was.
pub trait Engine {
    type Cmd;

    type Reply;

    type Question;

    type Answer;

    /// What contracts see of an engine. No value of it is made.
    type State;

    /// What the machine says of a reply: all of it, or less where an engine tells more than its
    /// machine knows. No value of it is made.
    type Told;

    /// What the machine says of an answer to a question. No value of it is made.
    type Heard;

    ghost machine: { Machine Self.State Self.Cmd Self.Told Self.Question Self.Heard };

    ghost state: { Self → Self.State };

    ghost told: { Self.Reply → Self.Told };

    ghost heard: { Self.Answer → Self.Heard };

    // What an engine tells of a command beside what its machine says: of the engine before it and
    // after it, of who gave which command, and of the reply, or none where memory was wanted.
    ghost tells: { Self → Self → ℕ → Self.Cmd → Option Self.Reply → Type 0 };

    // Some state or other, which stands where no state is meant.
    ghost some_state: { Self.State };

    /// Answers a command of the pass of number `by`. With want of memory nothing has changed.
    /// It records no command where the history has 2^64 - 1 entries.
    fn apply(&mut self, by: u64, cmd: Self::Cmd) -> Result<Self::Reply, Refused<Self::Cmd>>
        ensures reply { IfOk result (λ r. told r ≡ machine.reply (state self.old) by cmd) }
        ensures recorded { IfOk result (λ r. machine.recorded (told r) ≡ true
            → state self.new ≡ machine.after (state self.old) by cmd) }
        ensures counted { IfOk result (λ r. machine.recorded (told r) ≡ true
            → machine.place (state self.new) ≡ machine.place (state self.old) + 1) }
        ensures room { IfOk result (λ r. machine.recorded (told r) ≡ true
            → machine.place (state self.old) + 1 < 2 ^ 64) }
        ensures same { IfOk result (λ r. machine.recorded (told r) ≡ false
            → state self.new ≡ state self.old) }
        ensures tells { IfOk result (λ r. tells self.old self.new by cmd (Some r)) }
        ensures quiet { IfErr result (λ refused. tells self.old self.new by cmd None) }
        ensures back { IfErr result (λ refused. refused.back ≡ cmd) }
        ensures refused { IfErr result (λ refused. state self.new ≡ state self.old) };

    /// Answers a question.
    fn ask(&self, question: &Self::Question) -> Result<Self::Answer, Memory>
        ensures answer { IfOk result (λ a. heard a ≡ machine.answer (state self.now) question.now) };

    /// Whether the command that was answered so was recorded.
    fn records(answered: &Self::Reply) -> bool
        ensures recorded { result ≡ machine.recorded (told answered.now) };
}
/// The question that asks an engine for a look at all that it holds now.
#[derive(Clone, Copy, Debug, PartialEq, Eq)]
pub struct Snap;
