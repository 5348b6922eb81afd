// What a term does with its first argument.
ghost use Rattle.std.specs.Prelude.{◌≡◌, ℕ, List};
ghost use Rattle.reql_term.specs.Form.{Form};
ghost use Rattle.reql_plan_spec.specs.Reads.{first_reads};
ghost use Rattle.reql_reads.specs.First.{reads_by};

use reql_term::Op;

/// What a term does with its first argument.
#[derive(Clone, Copy, Drop)]
pub(crate) enum First {
    /// It writes the rows that are selected of a table.
    Rows,
    /// It is a command on a table.
    Target,
    /// It follows it as a feed.
    Followed,
    /// It evaluates it.
    Whole,
}

#[tactic(auto, unfolding(crate::specs::First::reads_by))]
pub(crate) fn first_of(op: Op) -> First
    ensures { (f : Form) (ns : List ℕ) → reads_by result f ns ≡ first_reads op f ns }
{
    match op {
        Op::Update | Op::Replace | Op::Delete => First::Rows,
        Op::Insert | Op::IndexCreate | Op::IndexDrop | Op::IndexRename | Op::Sync => First::Target,
        Op::Changes => First::Followed,
        _ => First::Whole,
    }
}
