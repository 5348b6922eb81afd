// A worked row of the bound on steps.
ghost use Rattle.std.specs.Prelude.{◌≡◌, ◌≤◌, ◌+◌, ◌*◌, ℕ};
ghost use Rattle.reql_ptree.specs.Tall.{tall};

/// A worked row of the bound on steps: where an order has a thousand pairs, a change adds 60 at
/// most.
#[tactic(auto, using(crate::proofs::Worked::thousand, crate::proofs::Worked::added))]
pub fn worked_rows()
    ensures thousand { tall 1000 ≡ 20 }
    ensures added { (before after : ℕ) → after ≤ before + 3 * tall 1000 → after ≤ before + 60 }
{}
