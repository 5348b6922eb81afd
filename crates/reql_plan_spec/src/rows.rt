// Worked rows, computed on the definitions.
ghost use Rattle.reql_plan_spec.specs.Worked.{Reads, Writes, Commands, Feeds, Planned, Carried};

/// Worked rows of plans.
#[tactic(auto, using(crate::proofs::Worked::reads, crate::proofs::Worked::writes, crate::proofs::Worked::commands, crate::proofs::Worked::feeds, crate::proofs::Worked::planned, crate::proofs::Worked::carried))]
pub fn worked_rows()
    ensures reads { Reads }
    ensures writes { Writes }
    ensures commands { Commands }
    ensures feeds { Feeds }
    ensures planned { Planned }
    ensures carried { Carried }
{}
