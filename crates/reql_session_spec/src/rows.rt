// Worked rows, computed on the definitions.
ghost use Rattle.reql_session_spec.specs.Worked.{Opening, Lost, Waiting, Visited, United, Dropped, Streamed, Spoken};

/// Worked rows of the session machine: a feed that is opened, waits and is visited, a STOP, a drop, want of memory, a
/// united feed, a cursor, and the bodies of answers.
#[tactic(auto, using(crate::proofs::Worked::opening, crate::proofs::Worked::lost, crate::proofs::Worked::waiting, crate::proofs::Worked::visited, crate::proofs::Worked::united, crate::proofs::Worked::dropped, crate::proofs::Worked::streamed, crate::proofs::Worked::spoken))]
pub fn worked_rows()
    ensures opening { Opening }
    ensures lost { Lost }
    ensures waiting { Waiting }
    ensures visited { Visited }
    ensures united { United }
    ensures dropped { Dropped }
    ensures streamed { Streamed }
    ensures spoken { Spoken }
{}
