// Worked rows, computed on the definitions.
ghost use Rattle.reql_faults.specs.Worked.{Variables, Writes, Names, Feeds, Followed};

/// Worked rows of the first fault of a term, and of what a feed may follow.
#[tactic(auto, using(crate::proofs::Worked::variables, crate::proofs::Worked::writes, crate::proofs::Worked::names, crate::proofs::Worked::feeds, crate::proofs::Worked::followed))]
pub fn worked_rows()
    ensures variables { Variables }
    ensures writes { Writes }
    ensures names { Names }
    ensures feeds { Feeds }
    ensures followed { Followed }
{}
