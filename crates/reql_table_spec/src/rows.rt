// Worked rows, computed on the definitions.
ghost use Rattle.reql_table_spec.specs.Worked.{Inserted, Written, Indexed, Ordered, Followed, Queued, Pointed, Spelled, Squashed, Ended};

/// Worked rows of the table machine: writes, indexes, and feeds of each kind, in several spellings,
/// with what they are answered along small histories.
#[tactic(auto, using(crate::proofs::Worked::inserted, crate::proofs::Worked::written, crate::proofs::Worked::indexed, crate::proofs::Worked::ordered, crate::proofs::Worked::followed, crate::proofs::Worked::queued, crate::proofs::Worked::pointed, crate::proofs::Worked::spelled, crate::proofs::Worked::squashed, crate::proofs::Worked::ended))]
pub fn worked_rows()
    ensures inserted { Inserted }
    ensures written { Written }
    ensures indexed { Indexed }
    ensures ordered { Ordered }
    ensures followed { Followed }
    ensures queued { Queued }
    ensures pointed { Pointed }
    ensures spelled { Spelled }
    ensures squashed { Squashed }
    ensures ended { Ended }
{}
