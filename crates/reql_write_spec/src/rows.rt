// Worked rows, computed on the definitions.
ghost use Rattle.reql_write_spec.specs.Worked.{Inserts, Updates, Replaces, Deletes, Lists};

/// Worked rows of writes.
#[tactic(auto, using(crate::proofs::Worked::inserts, crate::proofs::Worked::updates, crate::proofs::Worked::replaces, crate::proofs::Worked::deletes, crate::proofs::Worked::lists))]
pub fn worked_rows()
    ensures inserts { Inserts }
    ensures updates { Updates }
    ensures replaces { Replaces }
    ensures deletes { Deletes }
    ensures lists { Lists }
{}
